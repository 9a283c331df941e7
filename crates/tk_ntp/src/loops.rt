//! Computes the frequency that follows from an offset: by the PLL, and after a long time by the FLL
//! too.
ghost use Rattle.std.specs.Prelude.{◌≡◌, ℕ, ◌+◌, ◌-◌, ◌*◌, ◌/◌, ◌^◌, ◌<◌, ◌≤◌, true, pos, ◌+ℤ◌, ◌*ℤ◌, unsigned_abs};
ghost use Rattle.tk_ntp.specs.Length.{max_phase, max_frequency};
ghost use Rattle.tk_ntp.specs.Loops.{clamped_by, offset_of, elapsed, uses_fll, pll_gain, pll_change, fll_change, frequency_after, phase_share};

use crate::length::{MAX_FREQUENCY, ONE, toward_zero};

/// The greatest offset in nanoseconds: half a second (`MAXPHASE`).
const MAX_OFFSET_NS: i64 = 500_000_000;

/// The greatest offset in microseconds before it is converted: a second (`USEC_PER_SEC`).
const MAX_OFFSET_US: i64 = 1_000_000;

/// Returns an offset in nanoseconds, at most half a second in either direction. It is given in
/// nanoseconds, if `nano`, or in microseconds.
pub(crate) fn offset_of(given: i64, nano: bool) -> i64
    ensures value { result ≡ offset_of given nano }
    ensures most { unsigned_abs result ≤ 500000000 }
{
    if nano {
        given.clamp(-MAX_OFFSET_NS, MAX_OFFSET_NS)
    } else {
        (given.clamp(-MAX_OFFSET_US, MAX_OFFSET_US) * 1000).clamp(-MAX_OFFSET_NS, MAX_OFFSET_NS)
    }
}

/// Returns the seconds since the last offset: 0 if it is ahead, or if the frequency is on `hold`.
pub(crate) fn elapsed(reftime: u64, now: u64, hold: bool) -> u64
    ensures value { result ≡ elapsed reftime now hold }
    ensures most { result ≤ now }
{
    if hold { 0 } else { now.saturating_sub(reftime) }
}

/// Returns whether the offset is so late that the FLL acts.
pub(crate) fn uses_fll(secs: u64, fll: bool) -> bool
    ensures { result ≡ uses_fll secs fll }
{
    256 <= secs && (fll || 2048 < secs)
}

/// Returns the change of the frequency by the PLL for each nanosecond of an offset.
fn pll_gain(secs: u64, constant: u32) -> u64
    requires { constant ≤ 10 }
    ensures value { result ≡ pll_gain secs constant }
    ensures most { result ≤ 2 ^ 27 }
{
    secs.min(8 << constant) << (24 - 2 * constant)
}

/// Returns the change of the frequency by the PLL.
fn pll_change(offset: i64, secs: u64, constant: u32) -> i64
    requires constant { constant ≤ 10 }
    requires held { unsigned_abs offset ≤ 500000000 }
    ensures value { result ≡ pll_change offset secs constant }
    ensures most { unsigned_abs result ≤ 67108864000000000 }
{
    offset * pll_gain(secs, constant) as i64
}

/// Returns the change of the frequency by the FLL, if it `acts`.
fn fll_change(offset: i64, secs: u64, acts: bool) -> i64
    requires some { acts ≡ true → 0 < secs }
    requires signed { secs < 2 ^ 63 }
    requires held { unsigned_abs offset ≤ 500000000 }
    ensures value { result ≡ fll_change offset secs acts }
    ensures most { unsigned_abs result ≤ 536870912000000000 }
{
    if acts {
        toward_zero(offset << 30, secs)
    } else {
        0
    }
}

/// Clamps a frequency to 500 ppm in either direction.
fn clamped(frequency: i64) -> i64
    ensures value { result ≡ clamped_by max_frequency frequency }
    ensures held { unsigned_abs result ≤ max_frequency }
{
    frequency.clamp(-MAX_FREQUENCY, MAX_FREQUENCY)
}

/// Returns the frequency that follows from an offset, in nanoseconds.
pub(crate) fn frequency_after(
    frequency: i64,
    offset: i64,
    secs: u64,
    constant: u32,
    fll: bool,
) -> i64
    requires constant { constant ≤ 10 }
    requires signed { secs < 2 ^ 63 }
    requires held { unsigned_abs offset ≤ 500000000 }
    requires frequency { unsigned_abs frequency ≤ max_frequency }
    ensures value { result ≡ frequency_after frequency offset secs constant fll }
    ensures held { unsigned_abs result ≤ max_frequency }
{
    let late = fll_change(offset, secs, uses_fll(secs, fll));
    let usual = pll_change(offset, secs, constant);
    clamped(frequency + (late + usual))
}

/// Returns the phase that an offset in nanoseconds leaves to give, in each of `hz` parts of a
/// second.
pub(crate) fn phase_share(offset: i64, hz: u32) -> i64
    requires some { 0 < hz }
    requires held { unsigned_abs offset ≤ 500000000 }
    ensures value { result ≡ phase_share offset hz }
    ensures most { unsigned_abs result ≤ max_phase / hz }
{
    toward_zero(offset * ONE, u64::from(hz))
}
