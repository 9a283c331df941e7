//! Makes counters with the finest mult for a longest gap.
ghost use Rattle.std.specs.Prelude.{◌≡◌, ℕ, ◌≤◌, ◌<◌, ◌+◌, ◌*◌, ◌/◌, ◌^◌, MatchResult, Some, None, true, false};
ghost use Rattle.tk_counter.specs.Frequency.{rounded_mult};
ghost use Rattle.tk_c.specs.Finest.{counter_at, is_exact, finest_fault, IsFinest, IsFinestDesc, IsMadeFinest};

use crate::counters::write;
use crate::storage::CounterStorage;
use tk_counter::{CounterDesc, DescError, NANOS_PER_SECOND};

/// The highest rate, in Hz.
const HZ_LIMIT: u64 = 1_000_000_000_000;

/// The values of 64 bits.
const WORD: u128 = 1 << 64;

/// Writes the counter that runs at `hz` cycles a second to `out`, with the greatest shift at which
/// gaps of up to `maxsec` seconds convert within 64 bits.
///
/// The mult is that of the shift, rounded to the nearest (`clocks_calc_mult_shift`). The shift is
/// the greatest from 1 to 32 at which the mult plus 11 percent fits in 32 bits, and
/// `10^9 * 2^shift` plus the cycles of `maxsec` seconds times this multiplier is at most 2^64.
///
/// # Errors
///
/// Leaves `out` and returns, in this order:
///
/// - `Code::BadBits` unless `bits` is 8 to 64;
/// - `Code::BadRate` unless `hz` is 1 to 10^12, and `maxsec` 1 to 600.
#[unsafe(no_mangle)]
pub extern "C" fn tkc_counter_finest(
    out: &mut CounterStorage,
    bits: u32,
    hz: u64,
    maxsec: u32,
) -> u32
    ensures { IsMadeFinest bits hz maxsec out.old result out.new }
{
    write(out, finest(bits, hz, maxsec))
}

/// Returns the counter at the greatest shift, or the first fault of its numbers.
fn finest(bits: u32, hz: u64, maxsec: u32) -> Result<CounterDesc, DescError>
    ensures { MatchResult result
        (λ desc. (finest_fault bits hz maxsec ≡ None) × IsFinestDesc bits hz maxsec desc)
        (λ fault. finest_fault bits hz maxsec ≡ Some fault) }
{
    if !(8..=64).contains(&bits) {
        return Err(DescError::Bits);
    }
    if hz == 0 || hz > HZ_LIMIT || !(1..=600).contains(&maxsec) {
        return Err(DescError::Rate);
    }
    let shift = finest_shift(hz, u64::from(maxsec) * hz);
    CounterDesc::new(bits, rounded_mult(hz, shift) as u32, shift)
}

/// Returns the greatest shift from 1 to 32 at which a number of cycles converts exactly. At the
/// shift 1 the cycles of 600 s do.
fn finest_shift(hz: u64, cycles: u64) -> u32
    requires some { 0 < hz }
    requires low { hz ≤ 10 ^ 12 }
    requires short { cycles ≤ 600 * hz }
    ensures least { 1 ≤ result }
    ensures most { result ≤ 32 }
    ensures exact { is_exact (counter_at 64 hz result) cycles ≡ true }
    ensures greatest { (above : ℕ) → result < above → above ≤ 32 →
        is_exact (counter_at 64 hz above) cycles ≡ false }
    ensures short { rounded_mult (10 ^ 9) hz result < 2 ^ 32 }
    ensures ample { 256 ≤ rounded_mult (10 ^ 9) hz result }
{
    for shift in (2..33).rev() {
        if is_exact(hz, shift, cycles) {
            return shift;
        }
    }
    1
}

/// Returns whether a number of cycles converts exactly at a shift.
#[tactic(auto, unfolding(crate::specs::Finest::is_exact))]
fn is_exact(hz: u64, shift: u32, cycles: u64) -> bool
    requires some { 0 < hz }
    requires low { shift ≤ 32 }
    ensures { result ≡ is_exact (counter_at 64 hz shift) cycles }
{
    let mult = rounded_mult(hz, shift);
    if mult > u64::from(u32::MAX) {
        return false;
    }
    let fastest = mult + mult * 11 / 100;
    let units = u128::from(cycles) * u128::from(fastest) + u128::from(NANOS_PER_SECOND << shift);
    fastest <= u64::from(u32::MAX) && units <= WORD
}

/// Returns the length of a cycle at `hz` cycles a second, in units of `2^-shift` ns, rounded to the
/// nearest.
fn rounded_mult(hz: u64, shift: u32) -> u64
    requires some { 0 < hz }
    requires low { shift ≤ 32 }
    ensures { result ≡ rounded_mult (10 ^ 9) hz shift }
{
    ((NANOS_PER_SECOND << shift) + hz / 2) / hz
}
