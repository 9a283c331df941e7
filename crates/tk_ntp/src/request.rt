//! Clamps the numbers of a request to their ranges.
ghost use Rattle.std.specs.Prelude.{◌≡◌, ◌≤◌, ◌≤ℤ◌, unsigned_abs};
ghost use Rattle.tk_counter.specs.Counter.{least_tick, greatest_tick};
ghost use Rattle.tk_ntp.specs.Length.{max_frequency};
ghost use Rattle.tk_ntp.specs.Request.{gain_of, clamped_to, error_limit, constant_of, tai_of};

use tk_counter::FREQUENCY_LIMIT;

/// `2^-16` ppm of a second, as a length in `2^-32` ns (`PPM_SCALE`).
pub(crate) const FREQUENCY_UNIT: i64 = 65_536_000;

/// The greatest error that is counted, in microseconds (`NTP_PHASE_LIMIT`).
pub(crate) const ERROR_LIMIT: u32 = 16_000_000;

/// The greatest time constant (`MAXTC`).
pub(crate) const CONSTANT_LIMIT: u32 = 10;

const GREATEST_CONSTANT: i64 = CONSTANT_LIMIT as i64;

/// The greatest TAI offset, in seconds (`MAX_TAI_OFFSET`).
pub(crate) const TAI_OFFSET_LIMIT: u32 = 100_000;

/// Returns what each second gains by a given frequency, in `2^-16` ppm, as a length.
pub(crate) fn gain_of(freq: i64) -> i64
    ensures value { result ≡ gain_of freq }
    ensures held { unsigned_abs result ≤ max_frequency }
{
    freq.clamp(-FREQUENCY_LIMIT, FREQUENCY_LIMIT) * FREQUENCY_UNIT
}

/// Returns a given error in its range, in microseconds.
pub(crate) fn error_of(error: i64) -> u32
    ensures value { result ≡ clamped_to error_limit error }
    ensures most { result ≤ error_limit }
{
    error.clamp(0, i64::from(ERROR_LIMIT)) as u32
}

/// Returns a given time constant in its range. If it isn't given together with nanoseconds, it
/// counts 4 more.
pub(crate) fn constant_of(constant: i64, nano: bool) -> u32
    ensures value { result ≡ constant_of constant nano }
    ensures most { result ≤ 10 }
{
    let clamped = constant.clamp(0, GREATEST_CONSTANT) as u32;
    if nano { clamped } else { (clamped + 4).min(10) }
}

/// Returns a given tick, in microseconds.
pub(crate) fn tick_of(tick: i64) -> u32
    requires slowest { least_tick ≤ℤ tick }
    requires fastest { tick ≤ℤ greatest_tick }
    ensures value { result ≡ unsigned_abs tick }
    ensures slowest { 9000 ≤ result }
    ensures fastest { result ≤ 11000 }
{
    tick as u32
}

/// Returns a given TAI offset, in seconds, or `tai` if it isn't 0 to 100,000.
pub(crate) fn tai_of(constant: i64, tai: u32) -> u32
    ensures { result ≡ tai_of constant tai }
{
    if 0 <= constant && constant <= i64::from(TAI_OFFSET_LIMIT) {
        constant as u32
    } else {
        tai
    }
}
