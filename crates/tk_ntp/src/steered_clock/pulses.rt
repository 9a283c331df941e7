//! Takes pulses of a signal.
ghost use Rattle.std.specs.Prelude.{◌≡◌, IfOk, false, is_none};
ghost use Rattle.tk_ntp.specs.Account.{IsBalanced, IsConsistent};
ghost use Rattle.tk_ntp.specs.Pulse.{IsPulse};
ghost use Rattle.tk_ntp.specs.Pulsed.{IsKeptAtPulse, IsPulsed, with_lost};
ghost use Rattle.tk_ntp.specs.Steady.{IsSmallOrSame};

use super::SteeredClock;
use crate::pulse::Pulse;
use tk_clock::Refusal;

impl SteeredClock {
    /// Takes a pulse of a signal (`Pps::pulse`) at a reading (`hardpps`). The seconds of REALTIME up
    /// to the reading begin first, as by `advance`. If the pulse has a frequency, the clocks get the
    /// rate that the present second needs at once.
    ///
    /// # Errors
    ///
    /// Returns the errors of `advance`. Nothing changes then.
    pub fn pulse(&mut self, reading: u64, pulse: Pulse) -> Result<(), Refusal>
        requires { IsPulse pulse }
        ensures answer { IsPulsed reading pulse self.old result self.new }
        // no part of the offset is lost, and TAI runs on
        ensures kept { IfOk result (λ _. IsKeptAtPulse reading pulse self.old self.new) }
        // the accounts add up to what the clocks were asked for
        ensures sum { IsConsistent self.old → IsBalanced (λ _. false) reading self.old self.new }
        // the lag stays small, if it was when the clocks got their rate
        ensures small { IsSmallOrSame (is_none pulse.frequency) reading self.old self.new }
        // the last account stays after the last command, and before the next second
        ensures consistent { IsConsistent self.old → IsConsistent self.new }
    {
        self.course.pulse(&mut self.clock, 0, reading, pulse)
    }

    /// Turns the bits of a signal off, after `Pps::second` returned that the signal counts as lost.
    pub fn lose_signal(&mut self)
        ensures { self.new ≡ with_lost self.old }
    {
        self.course.lose_signal();
    }
}
