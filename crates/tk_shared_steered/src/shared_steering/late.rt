//! Lets seconds of REALTIME begin late, each command at its own reading.
ghost use Rattle.std.specs.Prelude.{◌≡◌, ◌<◌, ◌≤◌, false, length, MatchOption, MatchResult, IfOk, IsTrue};
ghost use Rattle.tk_clock.specs.Command.{is_resume};
ghost use Rattle.tk_clock.specs.Limits.{clock_end};
ghost use Rattle.tk_ntp.specs.Advance.{seconds_left};
ghost use Rattle.tk_ntp.specs.Followed.{seconds_left_after};
ghost use Rattle.tk_shared.specs.Callers.{IsKnownBy};
ghost use Rattle.tk_shared_steered.specs.Late.{HasAdvancedLate, HasBegunLate, HasStopped, HasStoppedLate, IsLeapMadeIf, IsSet, IsSteered, IsUpdated, Stays, StaysAfterTick, StaysAt, StaysAtLeap};
ghost use Rattle.tk_shared_steered.specs.Owner.{IsFollowing};
ghost use Rattle.tk_shared_steered.specs.Readings.{AreAtReadings};

use super::SharedSteering;
use crate::fault::SteeringFault;
use crate::giving::give;
use std::sync::Wait;
use tk_clock::Command;
use tk_ntp::Leap;
use tk_shared::{Counter, Named, SharedKeeper};

impl<L: Named> SharedSteering<L> {
    /// Lets each second of REALTIME begin late that has begun by the reading of an update that this
    /// call gives last: it calls `begin_late` until it returns false.
    ///
    /// # Errors
    ///
    /// Returns the errors of `begin_late`. The seconds before the fault have begun.
    pub fn advance_late<C: Counter, R: Wait>(
        &mut self,
        rt: &R,
        keeper: &SharedKeeper<L, C>,
    ) -> Result<(), SteeringFault>
        ensures answer { MatchResult result
            (λ _. HasAdvancedLate self.old self.new)
            (λ fault. HasStoppedLate fault self.old self.new) }
        // the caller knows all that it knew
        ensures known { IsKnownBy self.old.caller self.new.caller }
        // each command that the discipline has followed since was given at a reading of the counter
        ensures readings { AreAtReadings C.answers_after self.new.caller self.old.count
            self.new.count }
    {
        'seconds: while self.begin_late(rt, keeper)? {}
        Ok(())
    }

    /// Lets just the next second of REALTIME begin late, if it has begun by the reading of an
    /// update that this call gives first, and returns whether it did. Then it gives the leap's
    /// command, if one is due, and those of the tick and the frequency, if the second needs another
    /// rate. Each command has its own reading, so readers never see MONOTONIC go back.
    ///
    /// The discipline's second begins at its own reading, and the lag counts the cycles up to each
    /// command, so later seconds make up for them. While the call returns true, further seconds may
    /// be due (`advance_late`). Their phases are lost, as in the kernel.
    ///
    /// # Errors
    ///
    /// - `Foreign`: another caller's command was accepted. The discipline stays as it was before
    ///   its last command, and every later call returns `Foreign`.
    /// - `Refused`: the keeper refused a command. The commands before it were given, and a later
    ///   call goes on after them. A leap that was refused isn't made.
    pub fn begin_late<C: Counter, R: Wait>(
        &mut self,
        rt: &R,
        keeper: &SharedKeeper<L, C>,
    ) -> Result<bool, SteeringFault>
        ensures answer { MatchResult result
            (λ begun. HasBegunLate begun self.old self.new)
            (λ fault. HasStopped fault self.old self.new) }
        // the caller knows all that it knew
        ensures known { IsKnownBy self.old.caller self.new.caller }
        // each command that the discipline has followed since was given at a reading of the counter
        ensures readings { AreAtReadings C.answers_after self.new.caller self.old.count
            self.new.count }
        ensures fewer { IfOk result (λ begun. IsTrue begun →
            seconds_left self.new.clock < seconds_left self.old.clock) }
    {
        if self.is_lost() {
            return Err(SteeringFault::Foreign);
        }
        let leap = self.update(rt, keeper)?;
        self.make_leap(rt, keeper, leap)?;
        self.steer(rt, keeper)?;
        Ok(leap.is_some())
    }

    /// Gives an update, up to which the next second begins in the discipline, if it is due. Returns
    /// the leap that is due with this second.
    fn update<C: Counter, R: Wait>(
        &mut self,
        rt: &R,
        keeper: &SharedKeeper<L, C>,
    ) -> Result<Option<Leap>, SteeringFault>
        requires known { IsFollowing self.old }
        ensures answer { MatchResult result
            (λ leap. IsUpdated leap self.old self.new)
            (λ fault. Stays Command.Update fault self.old self.new) }
        ensures readings { AreAtReadings C.answers_after self.new.caller self.old.count
            self.new.count }
        ensures known { IfOk result (λ _. IsFollowing self.new) }
        ensures next { IfOk result (λ leap. MatchOption leap (Unit {0})
            (λ _. (0 < self.new.clock.next) × (self.new.clock.next ≤ clock_end))) }
        ensures fewer { IfOk result (λ leap. MatchOption leap (Unit {0})
            (λ leap. seconds_left_after leap self.new.clock < seconds_left self.old.clock)) }
    {
        let reading = give(rt, keeper, &mut self.caller, Command::Update)?;
        let leap = self.course.begin_alone(&self.clock, reading);
        let _accepted = self
            .course
            .follow_command(&mut self.clock, reading, Command::Update);
        self.count = self.caller.front();
        Ok(leap)
    }

    /// Gives the command of a leap, if there is one.
    fn make_leap<C: Counter, R: Wait>(
        &mut self,
        rt: &R,
        keeper: &SharedKeeper<L, C>,
        leap: Option<Leap>,
    ) -> Result<(), SteeringFault>
        requires known { IsFollowing self.old }
        requires next { MatchOption leap (Unit {0})
            (λ _. (0 < self.old.clock.next) × (self.old.clock.next ≤ clock_end)) }
        ensures answer { MatchResult result
            (λ _. IsLeapMadeIf leap self.old self.new)
            (λ fault. StaysAtLeap leap fault self.old self.new) }
        ensures readings { AreAtReadings C.answers_after self.new.caller self.old.count
            self.new.count }
        ensures known { IfOk result (λ _. IsFollowing self.new) }
    {
        let Some(leap) = leap else {
            return Ok(());
        };
        if leap == Leap::None {
            return Ok(());
        }
        let cmd = leap.command(self.clock.snapshot(0).tai());
        let reading = give(rt, keeper, &mut self.caller, cmd)?;
        let _accepted = self.course.follow_leap(&mut self.clock, reading, leap);
        self.count = self.caller.front();
        Ok(())
    }

    /// Gives the clocks the rate that the present second needs, by at most two commands.
    fn steer<C: Counter, R: Wait>(
        &mut self,
        rt: &R,
        keeper: &SharedKeeper<L, C>,
    ) -> Result<(), SteeringFault>
        requires known { IsFollowing self.old }
        ensures answer { MatchResult result
            (λ _. IsSteered self.old self.new)
            (λ fault. StaysAfterTick fault self.old self.new) }
        ensures readings { AreAtReadings C.answers_after self.new.caller self.old.count
            self.new.count }
    {
        let change = self.course.needed_change(&self.clock);
        self.set(rt, keeper, change.tick_command())?;
        self.set(rt, keeper, change.frequency_command())
    }

    /// Gives a command that may be missing, and that wakes no clocks.
    fn set<C: Counter, R: Wait>(
        &mut self,
        rt: &R,
        keeper: &SharedKeeper<L, C>,
        cmd: Option<Command>,
    ) -> Result<(), SteeringFault>
        requires known { IsFollowing self.old }
        requires plain { MatchOption cmd (Unit {0}) (λ cmd. is_resume cmd ≡ false) }
        ensures answer { MatchResult result
            (λ _. IsSet cmd self.old self.new)
            (λ fault. StaysAt cmd fault self.old self.new) }
        ensures readings { AreAtReadings C.answers_after self.new.caller self.old.count
            self.new.count }
        ensures known { IfOk result (λ _. IsFollowing self.new) }
    {
        let Some(cmd) = cmd else {
            return Ok(());
        };
        let reading = give(rt, keeper, &mut self.caller, cmd)?;
        let _accepted = self.course.follow_command(&mut self.clock, reading, cmd);
        self.count = self.caller.front();
        Ok(())
    }
}
