//! Computes a pulse's correction and frequency, and the means.
ghost use Rattle.std.specs.Prelude.{◌≡◌, ℕ, ◌+◌, ◌*◌, ◌^◌, ◌<◌, ◌≤◌, false, pos, neg_ℤ, ◌*ℤ◌, unsigned_abs};
ghost use Rattle.tk_ntp.specs.Length.{one, toward_zero, max_frequency};
ghost use Rattle.tk_ntp.specs.Pps.{max_correction};
ghost use Rattle.tk_ntp.specs.Pulse.{correction_of, change_from, is_spike, one_more, counted_if, mean_with, seconds_of, gained, is_stray, measured, wander, ppm_of};

use crate::length::{ONE, toward_zero};

/// The greatest count (`LONG_MAX`).
const COUNT_LIMIT: u64 = (1 << 63) - 1;

/// What is added to nanoseconds, so that whole seconds are the nearest ones.
const ROUNDING: u64 = 499_999_999;

const SECOND: u64 = 1_000_000_000;

/// Returns what REALTIME misses to the nearest second, in nanoseconds.
pub(super) fn correction_of(nsec: u32) -> i64
    requires { nsec < 1000000000 }
    ensures value { result ≡ correction_of nsec }
    ensures short { unsigned_abs result ≤ max_correction }
{
    if nsec <= 500_000_000 {
        -i64::from(nsec)
    } else {
        1_000_000_000 - i64::from(nsec)
    }
}

/// Returns what a correction differs by from the one before, in nanoseconds.
pub(super) fn change_from(former: i64, correction: i64) -> u32
    requires former { unsigned_abs former ≤ max_correction }
    requires short { unsigned_abs correction ≤ max_correction }
    ensures value { result ≡ change_from former correction }
    ensures most { result ≤ 1000000000 }
{
    (correction - former).unsigned_abs() as u32
}

/// Returns whether a change of the correction is more than 16 times the mean.
pub(super) fn is_spike(jitter: u32, change: u32) -> bool
    ensures { result ≡ is_spike jitter change }
{
    16 * u64::from(jitter) < u64::from(change)
}

/// Returns a count, one more if a test holds.
pub(super) fn counted_if(test: bool, count: u64) -> u64
    ensures value { result ≡ counted_if test count }
    ensures most { count < 2 ^ 63 → result < 2 ^ 63 }
{
    if test { one_more(count) } else { count }
}

/// Returns a count that is one more, or the greatest.
pub(super) fn one_more(count: u64) -> u64
    ensures value { result ≡ one_more count }
    ensures most { result < 2 ^ 63 }
{
    count.saturating_add(1).min(COUNT_LIMIT)
}

/// Returns a mean, a fourth of which comes from the last number.
pub(super) fn mean_with(number: u32, mean: u32) -> u32
    requires number { number ≤ 1000000000 }
    requires mean { mean ≤ 1000000000 }
    ensures value { result ≡ mean_with number mean }
    ensures most { (most : ℕ) → number ≤ most → mean ≤ most → result ≤ most }
{
    (3 * mean + number) / 4
}

/// Returns the nearest number of seconds to some nanoseconds.
pub(super) fn seconds_of(nanos: u64) -> u64
    requires { nanos < 2 ^ 63 }
    ensures value { result ≡ seconds_of nanos }
    ensures most { result < 2 ^ 34 }
{
    (nanos + ROUNDING) / SECOND
}

/// Returns what some nanoseconds are past the nearest number of seconds.
fn gained(nanos: u64) -> i64
    requires { nanos < 2 ^ 63 }
    ensures value { result ≡ gained nanos }
    ensures short { unsigned_abs result ≤ 500000000 }
{
    ((nanos + ROUNDING) % SECOND) as i64 - ROUNDING as i64
}

/// Returns whether a pulse comes at a wrong time, this long after the interval's beginning.
pub(super) fn is_stray(nanos: u64) -> bool
    requires { nanos < 2 ^ 63 }
    ensures value { result ≡ is_stray nanos }
    ensures some { result ≡ false → 0 < seconds_of nanos }
    ensures near { result ≡ false → unsigned_abs (gained nanos) ≤ 500000 * seconds_of nanos }
{
    let secs = seconds_of(nanos);
    secs == 0 || 500_000 * secs < gained(nanos).unsigned_abs()
}

/// Returns the frequency that an interval shows, in `2^-32` ns a second.
pub(super) fn measured(nanos: u64) -> i64
    requires fits { nanos < 2 ^ 63 }
    requires some { 0 < seconds_of nanos }
    requires near { unsigned_abs (gained nanos) ≤ 500000 * seconds_of nanos }
    ensures value { result ≡ measured nanos }
    ensures held { unsigned_abs result ≤ max_frequency }
{
    frequency_of(gained(nanos), seconds_of(nanos))
}

/// Returns the frequency with which a clock that gained some nanoseconds in some seconds is right.
fn frequency_of(gained: i64, secs: u64) -> i64
    requires short { unsigned_abs gained ≤ 500000000 }
    requires some { 0 < secs }
    requires few { secs < 2 ^ 34 }
    requires near { unsigned_abs gained ≤ 500000 * secs }
    ensures value { result ≡ toward_zero (neg_ℤ gained *ℤ pos one) secs }
    ensures held { unsigned_abs result ≤ max_frequency }
{
    toward_zero(turned(gained), secs)
}

/// Returns nanoseconds in `2^-32` ns, with their sign turned.
fn turned(nanos: i64) -> i64
    requires { unsigned_abs nanos ≤ 500000000 }
    ensures value { result ≡ neg_ℤ nanos *ℤ pos one }
    ensures most { unsigned_abs result ≤ unsigned_abs nanos * one }
{
    -nanos * ONE
}

/// Returns what a frequency differs by from the last one, in nanoseconds a second.
pub(super) fn wander(former: i64, frequency: i64) -> u32
    requires former { unsigned_abs former ≤ max_frequency }
    requires held { unsigned_abs frequency ≤ max_frequency }
    ensures value { result ≡ wander former frequency }
    ensures most { result ≤ 1000000 }
{
    toward_zero(frequency - former, 1 << 32).unsigned_abs() as u32
}

/// Returns nanoseconds a second in `2^-16` ppm.
pub(super) fn ppm_of(nanos: u32) -> u32
    requires { nanos ≤ 1000000 }
    ensures value { result ≡ ppm_of nanos }
    ensures most { result ≤ 65536000 }
{
    ((u64::from(nanos) << 16) / 1000) as u32
}
