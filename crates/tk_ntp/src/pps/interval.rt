//! Measures the frequency over an interval of a signal.
ghost use Rattle.std.specs.Prelude.{◌≡◌, ◌-◌, ◌*◌, ◌^◌, ◌<◌, ◌≤◌, unsigned_abs};
ghost use Rattle.tk_ntp.specs.Length.{max_frequency};
ghost use Rattle.tk_ntp.specs.Pulse.{seconds_of, gained, is_over, is_too_long, is_too_much, wander, bit_if, only_bits, after_good, after_bad, too_long, judged, calibrated, with_frequency, with_interval, counted, frequency_pulse, interval_pulse, IsPulse};

use super::measuring::{counted_if, mean_with, measured, one_more, ppm_of, seconds_of, wander};
use super::{GREATEST_SHIFT, LEAST_SHIFT, Pps};
use crate::bits::{STA_PPSERROR, STA_PPSWANDER};
use crate::pulse::Pulse;

/// The greatest change of the frequency after a good interval, in nanoseconds a second
/// (`PPS_MAXWANDER`).
const WANDER_LIMIT: u32 = 100_000;

impl Pps {
    /// Ends the interval at a reading of MONOTONIC_RAW, if it is over, and begins the next one.
    pub(super) fn end_interval(&mut self, raw: u64) -> Pulse
        requires raw { raw < 2 ^ 63 }
        requires some { 0 < seconds_of (raw - self.old.start) }
        requires near { unsigned_abs (gained (raw - self.old.start))
            ≤ 500000 * seconds_of (raw - self.old.start) }
        ensures state { self.new ≡ with_interval raw self.old }
        ensures pulse { result ≡ interval_pulse raw self.old }
        ensures range { IsPulse result }
    {
        let nanos = raw.saturating_sub(self.start);
        if !is_over(self.shift, seconds_of(nanos)) {
            return only_bits(0);
        }
        self.count(raw);
        self.measure(nanos)
    }

    /// Counts an interval that ended, and begins the next one.
    fn count(&mut self, raw: u64)
        requires { raw < 2 ^ 63 }
        ensures { self.new ≡ counted raw self.old }
    {
        self.start = raw;
        self.calcnt = one_more(self.calcnt);
    }

    /// Measures the frequency over an interval of some nanoseconds.
    fn measure(&mut self, nanos: u64) -> Pulse
        requires fits { nanos < 2 ^ 63 }
        requires some { 0 < seconds_of nanos }
        requires near { unsigned_abs (gained nanos) ≤ 500000 * seconds_of nanos }
        ensures state { self.new ≡ with_frequency nanos self.old }
        ensures pulse { result ≡ frequency_pulse nanos self.old }
        ensures range { IsPulse result }
    {
        if is_too_long(self.shift, seconds_of(nanos)) {
            self.drop_interval();
            return only_bits(STA_PPSERROR);
        }
        let frequency = measured(nanos);
        let wanders = self.calibrate(frequency);
        Pulse {
            status: bit_if(wanders, STA_PPSWANDER),
            frequency: Some(frequency),
            correction: None,
        }
    }

    /// Counts an interval that became too long.
    fn drop_interval(&mut self)
        ensures { self.new ≡ too_long self.old }
    {
        self.errcnt = one_more(self.errcnt);
        self.shorten_interval();
    }

    /// Takes a frequency. Returns whether it is too far from the one before.
    fn calibrate(&mut self, frequency: i64) -> bool
        requires { unsigned_abs frequency ≤ max_frequency }
        ensures state { self.new ≡ calibrated frequency self.old }
        ensures wanders { result ≡ is_too_much (wander self.old.frequency frequency) }
    {
        let change = wander(self.frequency, frequency);
        let wanders = WANDER_LIMIT < change;
        self.frequency = frequency;
        self.stabil = mean_with(ppm_of(change), self.stabil);
        self.stbcnt = counted_if(wanders, self.stbcnt);
        self.judge(wanders);
        wanders
    }

    /// Changes the length of the intervals after a good or a bad one.
    fn judge(&mut self, is_bad: bool)
        ensures { self.new ≡ judged is_bad self.old }
    {
        if is_bad {
            self.shorten_interval();
        } else {
            self.lengthen_interval();
        }
    }

    /// Counts a good interval. After four, intervals are twice as long.
    fn lengthen_interval(&mut self)
        ensures { self.new ≡ after_good self.old }
    {
        if self.balance <= 2 {
            self.balance += 1;
        } else if self.shift < GREATEST_SHIFT {
            self.shift += 1;
            self.balance = 0;
        } else {
            self.balance = 4;
        }
    }

    /// Counts a bad interval. After four, intervals are half as long.
    fn shorten_interval(&mut self)
        ensures { self.new ≡ after_bad self.old }
    {
        if -2 <= self.balance {
            self.balance -= 1;
        } else if LEAST_SHIFT < self.shift {
            self.shift -= 1;
            self.balance = 0;
        } else {
            self.balance = -4;
        }
    }
}

/// Returns whether an interval is over after some seconds.
fn is_over(shift: u32, secs: u64) -> bool
    requires { shift ≤ 8 }
    ensures { result ≡ is_over shift secs }
{
    1 << shift <= secs
}

/// Returns whether an interval has become too long after some seconds.
fn is_too_long(shift: u32, secs: u64) -> bool
    requires { shift ≤ 8 }
    ensures { result ≡ is_too_long shift secs }
{
    2 << shift < secs
}

/// Returns a bit, if a test holds.
pub(super) fn bit_if(test: bool, bit: u32) -> u32
    ensures { result ≡ bit_if test bit }
{
    if test { bit } else { 0 }
}

/// Returns bits of a status, without a frequency or a correction.
pub(super) fn only_bits(bits: u32) -> Pulse
    ensures value { result ≡ only_bits bits }
    ensures range { IsPulse result }
{
    Pulse {
        status: bits,
        frequency: None,
        correction: None,
    }
}
