ghost use Rattle.std.specs.Prelude.{◌≡◌, ℕ, ◌+◌, ◌*◌, ◌/◌, ◌^◌, ◌<◌, ◌≤◌, MatchResult, IfOk, Some, None};
ghost use Rattle.tk_counter.specs.Frequency.{rounded_mult, mult_bits, chosen_shift, hertz, kilohertz, from_frequency, frequency_fault};

use super::{CounterDesc, NANOS_PER_SECOND, fastest};
use crate::desc_error::DescError;

/// The scale of a rate in Hz: its units of time in a second.
const HERTZ: u32 = 1;

/// The scale of a rate in kHz: its units of time in a second.
const KILOHERTZ: u32 = 1_000;

impl CounterDesc {
    /// Makes the description of a counter that runs at `hz` cycles a second, for gaps of up to
    /// `maxsec` seconds.
    ///
    /// The shift is the highest one from 1 to 32 whose mult fits in the bits that the cycles of
    /// `maxsec` seconds leave free in 64 bits (`clocks_calc_mult_shift`,
    /// kernel/time/clocksource.c). A mult is then halved if 11 percent more don't fit in 32 bits
    /// (`__clocksource_update_freq_scale`).
    ///
    /// # Errors
    ///
    /// Returns the first of these that applies:
    ///
    /// - `Bits`: `bits` is below 8 or above 64.
    /// - `Rate`: `hz` is 0, or `maxsec` is below 1 or above 600.
    pub fn from_hz(bits: u32, hz: u32, maxsec: u32) -> Result<CounterDesc, DescError>
        ensures value { MatchResult result
            (λ desc. (from_frequency hertz bits hz maxsec ≡ Some desc)
            × (frequency_fault bits hz maxsec ≡ None))
            (λ fault. frequency_fault bits hz maxsec ≡ Some fault) }
        ensures converts { IfOk result (λ desc. maxsec * hz * desc.mult < 2 ^ 64) }
    {
        from_rate(HERTZ, bits, hz, maxsec)
    }

    /// Makes the description of a counter that runs at `khz` cycles a millisecond, for gaps of up
    /// to `maxsec` seconds. It describes counters above 2^32 - 1 Hz, which `from_hz` can't.
    ///
    /// The mult and the shift are chosen as in `from_hz`, with the cycles of a millisecond in place
    /// of those of a second (`clocksource_register_khz`, include/linux/clocksource.h).
    ///
    /// # Errors
    ///
    /// Returns the first of these that applies:
    ///
    /// - `Bits`: `bits` is below 8 or above 64.
    /// - `Rate`: `khz` is 0, or `maxsec` is below 1 or above 600.
    pub fn from_khz(bits: u32, khz: u32, maxsec: u32) -> Result<CounterDesc, DescError>
        ensures value { MatchResult result
            (λ desc. (from_frequency kilohertz bits khz maxsec ≡ Some desc)
            × (frequency_fault bits khz maxsec ≡ None))
            (λ fault. frequency_fault bits khz maxsec ≡ Some fault) }
        ensures converts { IfOk result (λ desc. maxsec * 1000 * khz * desc.mult < 2 ^ 64) }
    {
        from_rate(KILOHERTZ, bits, khz, maxsec)
    }
}

/// Makes the description of a counter with a rate, for gaps of up to `maxsec` seconds. The rate is
/// the number of cycles in a unit of time, and the scale the number of these units in a second
/// (`__clocksource_register_scale`).
fn from_rate(scale: u32, bits: u32, rate: u32, maxsec: u32) -> Result<CounterDesc, DescError>
    requires least { 1 ≤ scale }
    requires most { scale ≤ 1000 }
    ensures value { MatchResult result
        (λ desc. (from_frequency scale bits rate maxsec ≡ Some desc)
        × (frequency_fault bits rate maxsec ≡ None))
        (λ fault. frequency_fault bits rate maxsec ≡ Some fault) }
    ensures converts { IfOk result (λ desc. maxsec * scale * rate * desc.mult < 2 ^ 64) }
{
    if !(8..=64).contains(&bits) {
        return Err(DescError::Bits);
    }
    if rate == 0 || !(1..=600).contains(&maxsec) {
        return Err(DescError::Rate);
    }
    let unit_ns = NANOS_PER_SECOND / u64::from(scale);
    let shift = chosen_shift(unit_ns, rate, maxsec * scale);
    let mult = rounded_mult(unit_ns, rate, shift) as u32;
    if fastest(mult) > u64::from(u32::MAX) {
        return Ok(CounterDesc {
            bits,
            mult: mult / 2,
            shift: shift - 1,
        });
    }
    Ok(CounterDesc { bits, mult, shift })
}

/// Returns the greatest shift, at most 32, whose mult is below the limit. The mult at 1 always is.
fn chosen_shift(unit_ns: u64, rate: u32, span: u32) -> u32
    requires long_unit { 10 ^ 6 ≤ unit_ns }
    requires short_unit { unit_ns ≤ 10 ^ 9 }
    requires runs { 0 < rate }
    requires lasts { 0 < span }
    requires short { span ≤ 600000 }
    ensures value { chosen_shift unit_ns rate span ≡ Some result }
    ensures least { 1 ≤ result }
    ensures most { result ≤ 32 }
    ensures fits { rounded_mult unit_ns rate result < 2 ^ 32 }
    ensures ample { 512 ≤ rounded_mult unit_ns rate result }
    ensures converts { span * rate * rounded_mult unit_ns rate result < 2 ^ 64 }
{
    let limit = mult_limit(rate, span);
    for shift in (2..33).rev() {
        if rounded_mult(unit_ns, rate, shift) < limit {
            return shift;
        }
    }
    1
}

/// Returns one more than the greatest mult at which the cycles of `span` units of time convert
/// within 64 bits.
fn mult_limit(rate: u32, span: u32) -> u64
    ensures { result ≡ 2 ^ mult_bits rate span }
{
    1 << (u64::from(span) * u64::from(rate)).leading_zeros().min(32)
}

/// Returns the length of a cycle at `rate` cycles in `unit_ns` ns, in units of `2^-shift` ns,
/// rounded to the nearest.
fn rounded_mult(unit_ns: u64, rate: u32, shift: u32) -> u64
    requires unit { unit_ns ≤ 10 ^ 9 }
    requires runs { 0 < rate }
    requires low { shift ≤ 32 }
    ensures { result ≡ rounded_mult unit_ns rate shift }
{
    ((unit_ns << shift) + u64::from(rate / 2)) / u64::from(rate)
}
