//! Takes pulses of a signal.
ghost use Rattle.std.specs.Prelude.{◌≡◌, ◌≤◌, ℕ, unsigned_abs, MatchOption};
ghost use Rattle.tk_ntp.specs.declared.timex.Timex.{Timex};
ghost use Rattle.tk_ntp.specs.Bits.{has, sta_ppssignal};
ghost use Rattle.tk_ntp.specs.Length.{max_frequency};
ghost use Rattle.tk_ntp.specs.Modes.{asked};
ghost use Rattle.tk_ntp.specs.Ntp.{cleared};
ghost use Rattle.tk_ntp.specs.Phase.{part_of, usual_part};
ghost use Rattle.tk_ntp.specs.Pps.{LacksSignal, max_correction, without_signal};
ghost use Rattle.tk_ntp.specs.Pulse.{IsPulse, with_pulse_bits, with_measured, with_pulse_frequency, with_correction, with_pulse_correction, with_pulse};
ghost use Rattle.tk_ntp.specs.Second.{begun};

use super::Discipline;
use crate::bits::*;
use crate::loops::phase_share;
use crate::pulse::Pulse;

/// The bits of a status that the last pulse turned on.
const PULSE_BITS: u32 = STA_PPSJITTER | STA_PPSWANDER | STA_PPSERROR;

/// The bits of a status that are off without a signal.
const SIGNAL_BITS: u32 = PULSE_BITS | STA_PPSSIGNAL;

impl Discipline {
    /// Takes a pulse of a signal (`Pps::pulse`).
    ///
    /// `STA_PPSSIGNAL` is on, and the other bits of the last pulse are those of this one. If
    /// `STA_PPSFREQ` is on, and `STA_FREQHOLD` is off, the pulse's frequency is the discipline's. If
    /// `STA_PPSTIME` is on, its correction is the offset, and `adjtime` has nothing left to give.
    pub fn pulse(&mut self, pulse: Pulse)
        requires { IsPulse pulse }
        ensures { self.new ≡ with_pulse pulse self.old }
    {
        self.take_pulse_bits(pulse.status);
        self.take_pulse_frequency(pulse.frequency);
        self.take_pulse_correction(pulse.correction);
    }

    /// Takes the bits that a pulse turns on.
    fn take_pulse_bits(&mut self, bits: u32)
        ensures { self.new ≡ with_pulse_bits bits self.old }
    {
        self.status = without(self.status, PULSE_BITS) | STA_PPSSIGNAL | bits;
    }

    /// Takes the frequency of a pulse, if it has one.
    fn take_pulse_frequency(&mut self, frequency: Option<i64>)
        requires { MatchOption frequency (Unit {0}) (λ it. unsigned_abs it ≤ max_frequency) }
        ensures { self.new ≡ with_pulse_frequency frequency self.old }
    {
        if let Some(frequency) = frequency {
            self.take_measured(frequency);
        }
    }

    /// Takes the correction of a pulse, if it has one.
    fn take_pulse_correction(&mut self, correction: Option<i64>)
        requires { MatchOption correction (Unit {0}) (λ it. unsigned_abs it ≤ max_correction) }
        ensures { self.new ≡ with_pulse_correction correction self.old }
    {
        if let Some(correction) = correction {
            self.take_correction(correction);
        }
    }

    /// Takes a frequency that a signal showed, in `2^-32` ns.
    fn take_measured(&mut self, frequency: i64)
        requires { unsigned_abs frequency ≤ max_frequency }
        ensures { self.new ≡ with_measured frequency self.old }
    {
        if has(self.status, STA_PPSFREQ) && !has(self.status, STA_FREQHOLD) {
            self.frequency = frequency;
        }
    }

    /// Takes a correction by a signal, in nanoseconds.
    fn take_correction(&mut self, correction: i64)
        requires { unsigned_abs correction ≤ max_correction }
        ensures { self.new ≡ with_correction correction self.old }
    {
        if has(self.status, STA_PPSTIME) {
            self.offset = phase_share(correction, self.hz);
            self.adjust = 0;
        }
    }

    /// Returns whether a signal is present: a pulse has come in the last seconds. Only `pulse` changes
    /// that from false to true, and until then a second gives the usual part of an offset.
    pub fn has_signal(&self) -> bool
        ensures value { result ≡ has self.now.status sta_ppssignal }
        ensures second { LacksSignal self.now → (sec : ℕ) → LacksSignal (begun self.now sec) }
        ensures request { LacksSignal self.now → (request : Timex) → (now : ℕ) →
            LacksSignal (asked request now self.now) }
        ensures clear { LacksSignal self.now → LacksSignal (cleared self.now) }
        ensures usual { LacksSignal self.now →
            part_of self.now.offset self.now.constant self.now.status
            ≡ usual_part self.now.offset self.now.constant }
    {
        has(self.status, STA_PPSSIGNAL)
    }

    /// Turns the bits of a signal off, after `Pps::second` returned that the signal counts as lost.
    pub fn lose_signal(&mut self)
        ensures { self.new ≡ without_signal self.old }
    {
        self.status = without(self.status, SIGNAL_BITS);
    }
}
