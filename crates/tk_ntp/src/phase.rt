//! Divides the phase of an offset among the seconds.
ghost use Rattle.std.specs.Prelude.{◌≡◌, ℕ, ◌+◌, ◌*◌, ◌/◌, ◌^◌, ◌<◌, ◌≤◌, pos, ◌+ℤ◌, ◌-ℤ◌, ◌*ℤ◌, unsigned_abs};
ghost use Rattle.tk_ntp.specs.Length.{one, toward_zero, max_frequency, max_phase};
ghost use Rattle.tk_ntp.specs.Phase.{gives_whole, usual_part, part_of, adjust_part, adjust_rest};

use crate::bits::{STA_PPSSIGNAL, STA_PPSTIME, has};
use crate::length::{MAX_FREQUENCY, ONE, share, toward_zero};

/// The most that `adjtime` gives in a second, in microseconds (`MAX_TICKADJ`).
const ADJUST_STEP: i64 = 500;

/// Returns whether the next second gives a whole offset: the corrections of a signal are taken, and
/// it is present.
fn gives_whole(status: u32) -> bool
    ensures { result ≡ gives_whole status }
{
    has(status, STA_PPSTIME) && has(status, STA_PPSSIGNAL)
}

/// Returns the part of an offset that the next second gives (`ntp_offset_chunk`).
fn part_of(offset: i64, constant: u32, status: u32) -> i64
    requires { constant ≤ 10 }
    ensures value { result ≡ part_of offset constant status }
    ensures parts { unsigned_abs (offset -ℤ result) + unsigned_abs result ≡ unsigned_abs offset }
{
    if gives_whole(status) {
        offset
    } else {
        usual_part(offset, constant)
    }
}

/// Returns the part of an offset that the next second gives, if that isn't the whole one.
fn usual_part(offset: i64, constant: u32) -> i64
    requires { constant ≤ 10 }
    ensures value { result ≡ usual_part offset constant }
    ensures parts { unsigned_abs (offset -ℤ result) + unsigned_abs result ≡ unsigned_abs offset }
{
    toward_zero(offset, 4 << constant)
}

/// Returns what is left of an offset after the next second.
pub(crate) fn rest_of(offset: i64, constant: u32, status: u32) -> i64
    requires { constant ≤ 10 }
    ensures value { result ≡ offset -ℤ part_of offset constant status }
    ensures less { unsigned_abs result ≤ unsigned_abs offset }
{
    offset - part_of(offset, constant, status)
}

/// Returns what the next second gives of `adjust`, in each of its `hz` parts.
pub(crate) fn adjust_part(adjust: i64, hz: u32) -> i64
    requires { 0 < hz }
    ensures value { result ≡ adjust_part adjust hz }
    ensures most { unsigned_abs result ≤ max_frequency / hz }
{
    if adjust > ADJUST_STEP {
        share(MAX_FREQUENCY, hz)
    } else if adjust < -ADJUST_STEP {
        -share(MAX_FREQUENCY, hz)
    } else {
        toward_zero(adjust * 1000, u64::from(hz)) * ONE
    }
}

/// Returns what is left of `adjust` after the next second.
pub(crate) fn adjust_rest(adjust: i64) -> i64
    ensures { result ≡ adjust_rest adjust }
{
    if adjust > ADJUST_STEP {
        adjust - ADJUST_STEP
    } else if adjust < -ADJUST_STEP {
        adjust + ADJUST_STEP
    } else {
        0
    }
}

/// Returns the phase of the next second, in each of its `hz` parts.
pub(crate) fn phase_of(offset: i64, constant: u32, status: u32, adjust: i64, hz: u32) -> i64
    requires some { 0 < hz }
    requires constant { constant ≤ 10 }
    requires held { unsigned_abs offset ≤ max_phase / hz }
    ensures value { result ≡ part_of offset constant status +ℤ adjust_part adjust hz }
    ensures most { unsigned_abs result ≤ max_phase / hz + max_frequency / hz }
    ensures adjust { unsigned_abs (adjust_part adjust hz) ≤ max_frequency / hz }
{
    part_of(offset, constant, status) + adjust_part(adjust, hz)
}

/// Returns a phase of `hz` equal parts in whole nanoseconds, rounded toward zero.
pub(crate) fn phase_nanos(part: i64, hz: u32) -> i64
    requires some { 0 < hz }
    requires held { unsigned_abs part ≤ max_phase / hz }
    ensures { result ≡ toward_zero (part *ℤ pos hz) one }
{
    toward_zero(joined(part, hz), 1 << 32)
}

/// Returns the sum of `hz` equal parts of a phase.
fn joined(part: i64, hz: u32) -> i64
    requires some { 0 < hz }
    requires held { unsigned_abs part ≤ max_phase / hz }
    ensures { result ≡ part *ℤ pos hz }
{
    part * i64::from(hz)
}
