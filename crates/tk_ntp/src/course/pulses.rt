//! Takes pulses of a signal.
ghost use Rattle.std.specs.Prelude.{◌≡◌};
ghost use Rattle.tk_clock.specs.State.{State};
ghost use Rattle.tk_ntp.specs.Course.{seen};
ghost use Rattle.tk_ntp.specs.Pulse.{IsPulse};
ghost use Rattle.tk_ntp.specs.Pulsed.{IsPulsedTo, after_pulse, pulse_entries, with_lost, with_pulsed};

use super::Course;
use super::advancing::SECOND_ENTRIES_LIMIT;
use crate::pulse::Pulse;
use tk_clock::{Clocks, Refusal};

impl Course {
    /// Takes a pulse of a signal (`Pps::pulse`) at a reading, as `SteeredClock::pulse` does, and gives
    /// its commands as those of the caller `who`.
    ///
    /// # Errors
    ///
    /// - The errors of `SteeredClock::pulse`.
    /// - The errors of `Clocks::ready`, for the entries of a second or of the pulse. The seconds
    ///   before have begun.
    pub fn pulse<C: Clocks>(
        &mut self,
        clocks: &mut C,
        who: u32,
        reading: u64,
        pulse: Pulse,
    ) -> Result<(), Refusal>
        requires { IsPulse pulse }
        ensures { IsPulsedTo C.state C.is_after C.has_room C.is_short who reading pulse
            clocks.old self.old result clocks.new self.new }
    {
        self.advance(clocks, false, who, reading)?;
        clocks.ready(SECOND_ENTRIES_LIMIT)?;
        self.take_pulse(clocks, who, reading, pulse);
        Ok(())
    }

    /// Takes a pulse, after the seconds up to its reading have begun. If it has a frequency, the
    /// present second may get another rate.
    fn take_pulse<C: Clocks>(&mut self, clocks: &mut C, who: u32, reading: u64, pulse: Pulse)
        requires range { IsPulse pulse }
        requires room { C.has_room 3 clocks.old }
        ensures clocks { seen (C.state clocks.new) self.new
            ≡ after_pulse reading pulse (seen (C.state clocks.old) self.old) }
        ensures entries { C.is_after clocks.old
            (pulse_entries who reading pulse (seen (C.state clocks.old) self.old)) clocks.new }
    {
        let has_frequency = pulse.frequency.is_some();
        self.account_if(has_frequency, clocks.clock(), reading);
        self.pulse_discipline(pulse);
        self.steer_if(has_frequency, clocks, who, reading);
    }

    /// Turns the bits of a signal off, as `SteeredClock::lose_signal` does.
    pub fn lose_signal(&mut self)
        ensures { (clock : State) → seen clock self.new ≡ with_lost (seen clock self.old) }
    {
        self.steering.lose_signal();
    }

    /// Lets the discipline take a pulse.
    fn pulse_discipline(&mut self, pulse: Pulse)
        requires { IsPulse pulse }
        ensures { (clock : State) → seen clock self.new ≡ with_pulsed pulse (seen clock self.old) }
    {
        self.steering.pulse(pulse);
    }
}
