//! Follows clocks that are given commands one by one, each at its own reading, as those of a shared
//! keeper are.
ghost use Rattle.std.specs.Prelude.{◌≡◌, ◌<◌, ◌≤◌, false, MatchOption, IfOk};
ghost use Rattle.tk_clock.specs.Command.{is_resume};
ghost use Rattle.tk_clock.specs.Limits.{clock_end};
ghost use Rattle.tk_clock.specs.Refusal.{state_refusal};
ghost use Rattle.tk_ntp.specs.Account.{IsConsistent};
ghost use Rattle.tk_ntp.specs.Advance.{leap_of_clock, seconds_left};
ghost use Rattle.tk_ntp.specs.Course.{seen};
ghost use Rattle.tk_ntp.specs.Fault.{is_faulty};
ghost use Rattle.tk_ntp.specs.Followed.{followed, leap_followed, HasFollowed, IsAskedAlone, IsNoEarlier, IsOneBegunAlone, IsOwedAt, seconds_left_after};

use super::{Course, real, tai_of};
use crate::leap::Leap;
use crate::reply::Reply;
use crate::timex::Timex;
use tk_clock::{Clock, Command, Refusal};

impl Course {
    /// Lets just the next second of REALTIME begin in the discipline, if it begins at `reading` or
    /// before it, and returns the leap that is due then. The clocks get no command.
    ///
    /// The lag is accounted for up to the second's own reading. Next, give the clocks the leap's
    /// command and the commands of `needed_change`, and call `follow_leap` and `follow_command`
    /// with their readings. `None` means that no second begins up to `reading`, and then nothing
    /// changes.
    pub fn begin_alone(&mut self, clock: &Clock, reading: u64) -> Option<Leap>
        ensures begun { IsOneBegunAlone reading (seen clock.now self.old) result
            (seen clock.now self.new) }
        // the account adds up to what the clocks were asked for
        ensures sum { let before = seen clock.now self.old in
            IsConsistent before → MatchOption result (Unit {0})
            (λ _. IsOwedAt self.new.last_account before (seen clock.now self.new)) }
        // the second can be the one of a leap
        ensures next { MatchOption result (Unit {0})
            (λ _. (0 < self.new.next) × (self.new.next ≤ clock_end)) }
        ensures fewer { MatchOption result (Unit {0})
            (λ leap. seconds_left_after leap (seen clock.now self.new)
            < seconds_left (seen clock.now self.old)) }
    {
        let Some(at) = self.due(clock, reading) else {
            return None;
        };
        Some(self.begin_next(clock, at))
    }

    /// Follows a command that the clocks were given at a reading: accounts for the cycles up to it,
    /// and applies the command to `clock`. No second begins, and the discipline stays.
    ///
    /// It is for `Update`, `Tai`, and the commands of `needed_change`. After a command that sets or
    /// wakes the clocks, the next second that begins would be a wrong one.
    ///
    /// # Errors
    ///
    /// The errors of `Clock::apply`. Nothing changes then.
    pub fn follow_command(
        &mut self,
        clock: &mut Clock,
        reading: u64,
        cmd: Command,
    ) -> Result<(), Refusal>
        ensures answer { let before = seen clock.old self.old in
            HasFollowed (state_refusal clock.old reading cmd) (followed reading cmd before) before
            result (seen clock.new self.new) }
        // the account adds up to what the clocks were asked for
        ensures sum { let before = seen clock.old self.old in
            is_resume cmd ≡ false → IsNoEarlier reading before →
            IfOk result (λ _. IsOwedAt reading before (seen clock.new self.new)) }
    {
        let mut course = *self;
        course.account(clock, reading);
        clock.apply(reading, cmd)?;
        *self = course;
        Ok(())
    }

    /// Follows the command of a leap that the clocks were given at a reading, as `follow_command`
    /// does. `begin_alone` returned the leap.
    ///
    /// # Errors
    ///
    /// The errors of `Clock::apply`. Nothing changes then.
    pub fn follow_leap(
        &mut self,
        clock: &mut Clock,
        reading: u64,
        leap: Leap,
    ) -> Result<(), Refusal>
        requires some { 0 < self.old.next }
        requires early { self.old.next ≤ clock_end }
        ensures answer { let before = seen clock.old self.old in
            HasFollowed (state_refusal clock.old reading (leap_of_clock leap clock.old))
            (leap_followed reading leap before) before result (seen clock.new self.new) }
        // the account adds up to what the clocks were asked for
        ensures sum { let before = seen clock.old self.old in
            IsNoEarlier reading before →
            IfOk result (λ _. IsOwedAt reading before (seen clock.new self.new)) }
    {
        let next = leap.next_second(self.next);
        let tai = tai_of(clock);
        self.follow_command(clock, reading, leap.command(tai))?;
        self.next = next;
        Ok(())
    }

    /// Does what a request without a fault asks the discipline for, at the reading of the last
    /// account, and returns the reply. The clocks get no command: REALTIME isn't stepped, the TAI
    /// offset stays, and another rate is a later `needed_change`.
    ///
    /// Call it after the seconds up to the present have begun, and a command at the present was
    /// followed.
    ///
    /// # Errors
    ///
    /// - `Invalid`: the reading of the last account is above the mask. Nothing changes.
    /// - `Range`: REALTIME would be at its limit there. Nothing changes.
    pub fn ask_alone(&mut self, clock: &Clock, request: &Timex) -> Result<Reply, Refusal>
        requires sound { is_faulty request.now ≡ false }
        ensures { IsAskedAlone request.now (seen clock.now self.old) result
            (seen clock.now self.new) }
    {
        let real = real(clock, self.last_account())?;
        let tai = tai_of(clock);
        Ok(self.ask_discipline(request, real, tai))
    }
}
