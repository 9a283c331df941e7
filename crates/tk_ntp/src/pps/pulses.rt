//! Takes pulses.
ghost use Rattle.std.specs.Prelude.{◌≡◌, ◌-◌, ◌*◌, ◌^◌, ◌<◌, ◌≤◌, true, unsigned_abs};
ghost use Rattle.tk_ntp.specs.Pps.{max_correction};
ghost use Rattle.tk_ntp.specs.Bits.{sta_ppsjitter};
ghost use Rattle.tk_ntp.specs.Pulse.{bit_if, only_bits, change_from, is_spike, corrected, started, with_signal, has_start, is_sound, seconds_of, gained, pulsed, pulse_of, with_corrected, IsPulse};

use super::interval::{bit_if, only_bits};
use super::measuring::{change_from, correction_of, counted_if, is_spike, is_stray, mean_with};
use super::{Pps, VALID_SECONDS};
use crate::bits::STA_PPSJITTER;
use crate::pulse::Pulse;

impl Pps {
    /// Takes a pulse, `nsec` nanoseconds after a second of REALTIME began, below 10^9, when
    /// MONOTONIC_RAW was `raw` nanoseconds, below 2^63. Returns what a discipline takes from it
    /// (`__hardpps`).
    ///
    /// The first pulse begins an interval. So does one that comes at a wrong time: not within 500 ppm
    /// of a second after the interval began. Each other pulse has a correction, unless that is too
    /// far from the one before, and it ends the interval after `2^shift` seconds. An interval gives a
    /// frequency, unless it has become more than twice as long.
    pub fn pulse(&mut self, nsec: u32, raw: u64) -> Pulse
        requires nsec { nsec < 1000000000 }
        requires raw { raw < 2 ^ 63 }
        ensures state { self.new ≡ pulsed nsec raw self.old }
        ensures pulse { result ≡ pulse_of nsec raw self.old }
        ensures range { IsPulse result }
    {
        self.see_signal();
        if !self.is_sound(raw) {
            return self.restart(raw);
        }
        let correction = correction_of(nsec);
        let spike = self.correct(correction);
        with_corrected(spike, correction, self.end_interval(raw))
    }

    /// Says that the signal is present.
    fn see_signal(&mut self)
        ensures { self.new ≡ with_signal self.old }
    {
        self.valid = VALID_SECONDS;
    }

    /// Returns whether an interval has begun.
    fn has_start(&self) -> bool
        ensures { result ≡ has_start self.now }
    {
        1_000_000_000 <= self.start
    }

    /// Returns whether a pulse isn't the first one, and comes at a right time.
    fn is_sound(&self, raw: u64) -> bool
        requires { raw < 2 ^ 63 }
        ensures value { result ≡ is_sound raw self.now }
        ensures some { result ≡ true → 0 < seconds_of (raw - self.now.start) }
        ensures near { result ≡ true → unsigned_abs (gained (raw - self.now.start))
            ≤ 500000 * seconds_of (raw - self.now.start) }
    {
        self.has_start() && !is_stray(raw.saturating_sub(self.start))
    }

    /// Begins an interval with a pulse that has no correction.
    fn restart(&mut self, raw: u64) -> Pulse
        requires { raw < 2 ^ 63 }
        ensures state { self.new ≡ started raw self.old }
        ensures pulse { result ≡ only_bits (bit_if (has_start self.old) sta_ppsjitter) }
        ensures range { IsPulse result }
    {
        let had_start = self.has_start();
        self.start = raw;
        only_bits(bit_if(had_start, STA_PPSJITTER))
    }

    /// Takes a correction, in nanoseconds. Returns whether it is too far from the one before.
    fn correct(&mut self, correction: i64) -> bool
        requires { unsigned_abs correction ≤ max_correction }
        ensures state { self.new ≡ corrected correction self.old }
        ensures spike { result
            ≡ is_spike self.old.jitter (change_from self.old.correction correction) }
    {
        let change = change_from(self.correction, correction);
        let spike = is_spike(self.jitter, change);
        self.correction = correction;
        self.jitter = mean_with(change, self.jitter);
        self.jitcnt = counted_if(spike, self.jitcnt);
        spike
    }
}

/// Returns a pulse with its correction, unless that is a spike.
fn with_corrected(spike: bool, correction: i64, pulse: Pulse) -> Pulse
    requires short { unsigned_abs correction ≤ max_correction }
    requires range { IsPulse pulse }
    ensures value { result ≡ with_corrected spike correction pulse }
    ensures range { IsPulse result }
{
    if spike {
        return Pulse {
            status: pulse.status | STA_PPSJITTER,
            ..pulse
        };
    }
    Pulse {
        correction: Some(correction),
        ..pulse
    }
}
