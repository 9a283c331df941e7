//! Answers requests, and applies commands.
ghost use Rattle.std.specs.Prelude.{◌≡◌, false, true};
ghost use Rattle.tk_clock.specs.Command.{is_resume};
ghost use Rattle.tk_ntp.specs.Applied.{IsApplied};
ghost use Rattle.tk_ntp.specs.Account.{owed, sets_by, sets_by_step, IsBalanced, IsConsistent};
ghost use Rattle.tk_ntp.specs.Asked.{IsAnswered};
ghost use Rattle.tk_ntp.specs.Request.{step_of};
ghost use Rattle.tk_ntp.specs.Steady.{is_kept_by, keeps_rate, IsSmallOrSame};

use super::SteeredClock;
use crate::reply::Reply;
use crate::timex::Timex;
use tk_clock::{Command, Refusal};

impl SteeredClock {
    /// Does what a request asks for at a reading, and returns the reply (adjtimex(2)). The seconds
    /// of REALTIME up to the reading begin first, as by `advance`.
    ///
    /// `ADJ_SETOFFSET` steps REALTIME, which clears the discipline. Then the modes act as in
    /// `Discipline::adjtimex`. After `ADJ_OFFSET`, `ADJ_FREQUENCY` or `ADJ_TICK` the clocks get
    /// another rate at once. The reply's time is REALTIME at the reading.
    ///
    /// # Errors
    ///
    /// Returns the first of these that applies:
    ///
    /// - `Invalid`: the request has a fault (`Timex::is_faulty`). Nothing changes.
    /// - `Asleep`, `Invalid`, `Behind`, `Range`: `advance` refuses the reading. Nothing changes.
    /// - `Invalid`, `Range`: the clocks refuse the step. The state is the one that `advance`
    ///   leaves.
    /// - `Range`: REALTIME, or TAI with the given offset, would be at its limit. The state is the
    ///   one that `advance` and the step leave.
    pub fn adjtimex(&mut self, reading: u64, request: &Timex) -> Result<Reply, Refusal>
        ensures answer { IsAnswered reading request.now self.old result self.new }
        // the accounts add up to what the clocks were asked for
        ensures sum { IsConsistent self.old →
            IsBalanced (sets_by_step reading (step_of request.now)) reading self.old self.new }
        // the lag stays small, if it was when the clocks got their rate
        ensures small { IsSmallOrSame (keeps_rate request.now) reading self.old self.new }
        // the last account stays after the last command, and before the next second
        ensures consistent { IsConsistent self.old → IsConsistent self.new }
    {
        self.course.adjtimex(&mut self.clock, 0, reading, request)
    }

    /// Applies a command at a reading. The seconds of REALTIME up to the reading begin first, as by
    /// `advance`, unless the command is `Resume`.
    ///
    /// `Freq` and `Tick` are requests to the discipline, as `ADJ_FREQUENCY` and `ADJ_TICK` are: a
    /// frequency is clamped to 500 ppm. `SetTime`, `Step` and `Leap` clear the discipline and the
    /// lag. Seconds that `SetTime`, `Step`, `Leap` or `Resume` jumps over never begin.
    ///
    /// # Errors
    ///
    /// - `Freq` and `Tick`: the errors of `adjtimex`.
    /// - `Resume`: the errors of `Clock::apply`. Nothing changes.
    /// - All others: the errors of `advance`, and nothing changes; then those of `Clock::apply`,
    ///   and the state is the one that `advance` leaves.
    pub fn apply(&mut self, reading: u64, cmd: Command) -> Result<(), Refusal>
        ensures answer { IsApplied reading cmd self.old result self.new }
        // the accounts add up to what the clocks were asked for: to nothing at a resume
        ensures sum { IsConsistent self.old → is_resume cmd ≡ false →
            IsBalanced (sets_by reading cmd) reading self.old self.new }
        ensures small { is_resume cmd ≡ false →
            IsSmallOrSame (is_kept_by cmd) reading self.old self.new }
        ensures woken { IsConsistent self.old → is_resume cmd ≡ true →
            owed self.new ≡ owed self.old }
        ensures consistent { IsConsistent self.old → IsConsistent self.new }
    {
        self.course.apply(&mut self.clock, 0, reading, cmd)
    }
}
