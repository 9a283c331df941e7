//! Answers requests, and applies commands.
ghost use Rattle.std.specs.Prelude.{◌≡◌, ◌⊎◌, IfOk, Ok, false, true};
ghost use Rattle.tk_clock.specs.declared.command.Command.TheVariants.{Update};
ghost use Rattle.tk_clock.specs.Command.{is_resume};
ghost use Rattle.tk_clock.specs.Journal.{accepted_count};
ghost use Rattle.tk_clock.specs.Reach.{distance};
ghost use Rattle.tk_keeper.specs.Room.{keeper_state};
ghost use Rattle.tk_ntp.specs.Account.{owed, sets_by, sets_by_step, IsBalanced, IsConsistent};
ghost use Rattle.tk_ntp.specs.Applied.{IsApplied};
ghost use Rattle.tk_ntp.specs.Asked.{IsAnswered};
ghost use Rattle.tk_ntp.specs.Request.{step_of};
ghost use Rattle.tk_ntp.specs.Steady.{is_kept_by, keeps_rate, IsSmallOrSame};
ghost use Rattle.tk_steered.specs.Kept.{IsAnsweredBy, IsAppliedBy, IsObeyed, numbered, steered_of};
ghost use Rattle.tk_steered.specs.Stopped.{HasStopped};

use super::Steered;
use std::alloc::Allocator;
use tk_clock::{Clocks, Command, Refusal};
use tk_ntp::{Reply, SECOND_ENTRIES_LIMIT, Timex};

impl<A: Allocator + Copy> Steered<A> {
    /// Does what a request asks for at a reading, and returns the reply (adjtimex(2)), as
    /// `SteeredClock::adjtimex` does, and enters the commands that it gives as those of the caller
    /// `who`: first those of the seconds up to the reading, then the step that the request asks
    /// for, the TAI offset, the tick and the frequency.
    ///
    /// # Errors
    ///
    /// - The errors of `SteeredClock::adjtimex`.
    /// - `Full`, `Memory`: the entries of a second or of the request can't be made. The seconds
    ///   before have begun.
    pub fn adjtimex(&mut self, who: u32, reading: u64, request: &Timex) -> Result<Reply, Refusal>
        ensures answer { IsAnsweredBy who reading request.now self.old result self.new }
        // the accounts add up to what the clocks were asked for
        ensures sum { let before = steered_of self.old in let after = steered_of self.new in
            IsConsistent before →
            IsBalanced (sets_by_step reading (step_of request.now)) reading before after
            ⊎ HasStopped reading before result after }
        // the lag stays small, if it was when the clocks got their rate
        ensures small { let before = steered_of self.old in let after = steered_of self.new in
            IsSmallOrSame (keeps_rate request.now) reading before after
            ⊎ HasStopped reading before result after }
        // the last account stays after the last command, and before the next second
        ensures consistent { IsConsistent (steered_of self.old) → IsConsistent (steered_of self.new) }
        // the clocks are those that `SteeredClock::adjtimex` leaves
        ensures clocks { IfOk result (λ reply. IsAnswered reading request.now
            (steered_of self.old) (Ok reply) (steered_of self.new)) }
    {
        self.early = 0;
        self.course
            .adjtimex(&mut self.keeper, who, reading, request)
    }

    /// Applies a command at a reading, as `SteeredClock::apply` does, enters it and the commands that
    /// the discipline gives as those of the caller `who`, and returns the number of the commands
    /// accepted so far.
    ///
    /// # Errors
    ///
    /// - The errors of `SteeredClock::apply`.
    /// - `Full`, `Memory`: the entries of a second or of the command can't be made. The seconds
    ///   before have begun.
    #[inline(always)]
    pub fn apply(&mut self, who: u32, reading: u64, cmd: Command) -> Result<u64, Refusal>
        ensures answer { IsAppliedBy who reading cmd self.old result self.new }
        // the clocks are those that `SteeredClock::apply` leaves
        ensures clocks { IfOk result (λ _. IsApplied reading cmd
            (steered_of self.old) (Ok tt) (steered_of self.new)) }
        // the accounts add up to what the clocks were asked for: to nothing at a resume
        ensures sum { let before = steered_of self.old in let after = steered_of self.new in
            IsConsistent before → is_resume cmd ≡ false →
            IsBalanced (sets_by reading cmd) reading before after
            ⊎ HasStopped reading before result after }
        ensures small { let before = steered_of self.old in let after = steered_of self.new in
            is_resume cmd ≡ false →
            IsSmallOrSame (is_kept_by cmd) reading before after
            ⊎ HasStopped reading before result after }
        ensures woken { IsConsistent (steered_of self.old) → is_resume cmd ≡ true →
            owed (steered_of self.new) ≡ owed (steered_of self.old) }
        ensures consistent { IsConsistent (steered_of self.old) → IsConsistent (steered_of self.new) }
    {
        if let Command::Update = cmd {
            let done = self.apply_update(who, reading);
            return self.numbered(done);
        }
        let done = self.apply_any(who, reading, cmd);
        self.numbered(done)
    }

    /// Returns the result of a call, with the number of the commands accepted so far.
    #[inline(always)]
    fn numbered(&self, done: Result<(), Refusal>) -> Result<u64, Refusal>
        ensures { result ≡ numbered done (accepted_count self.now.keeper.journal) }
    {
        match done {
            Ok(()) => Ok(self.keeper.len() as u64),
            Err(refusal) => Err(refusal),
        }
    }

    /// Applies an update. In the present second it takes no search for the next one.
    #[inline(always)]
    fn apply_update(&mut self, who: u32, reading: u64) -> Result<(), Refusal>
        ensures { IsObeyed who reading Update self.old result self.new }
    {
        let cycles = self.cycles_to(reading);
        if cycles >= self.early || !self.keeper.is_ready(SECOND_ENTRIES_LIMIT) {
            return self.apply_first(who, reading);
        }
        match self.course.apply_settled(&mut self.keeper, who, reading) {
            Ok(()) => {
                self.early -= cycles;
                Ok(())
            }
            Err(refusal) => Err(refusal),
        }
    }

    /// Returns the cycles from the last reading to another one.
    #[inline(always)]
    fn cycles_to(&self, reading: u64) -> u64
        ensures { result ≡ distance (keeper_state self.now.keeper).base reading }
    {
        let now = self.keeper.clock().snapshot(0);
        now.desc().gap(now.last(), reading)
    }

    /// Applies an update, as `apply_update` does, if it isn't known that the next second begins
    /// later, and searches for the next second, so that later updates needn't. It is out of line, so
    /// that most updates don't reserve its stack.
    #[inline(never)]
    fn apply_first(&mut self, who: u32, reading: u64) -> Result<(), Refusal>
        ensures { IsObeyed who reading Update self.old result self.new }
    {
        let keeper = &self.keeper;
        if !self.course.is_settled(keeper.clock(), reading)
            || !keeper.is_ready(SECOND_ENTRIES_LIMIT)
        {
            return self.apply_any(who, reading, Command::Update);
        }
        match self.course.apply_settled(&mut self.keeper, who, reading) {
            Ok(()) => {
                self.early = self.course.cycles_to_second(self.keeper.clock());
                Ok(())
            }
            Err(refusal) => Err(refusal),
        }
    }

    /// Applies any command, as `apply` does.
    #[inline(never)]
    fn apply_any(&mut self, who: u32, reading: u64, cmd: Command) -> Result<(), Refusal>
        ensures { IsObeyed who reading cmd self.old result self.new }
    {
        self.early = 0;
        self.course.apply(&mut self.keeper, who, reading, cmd)
    }
}
