//! Accounts for few cycles while the lag is far from its greatest, as in almost every account.
ghost use Rattle.std.specs.Prelude.{◌≡◌, ◌*◌, ◌≤◌, ◌<◌, ◌^◌, MatchOption, pos, ◌*ℤ◌, unsigned_abs, true};
ghost use Rattle.tk_ntp.specs.Lag.{greatest_lag, lag_after, short_of};

use super::{BIAS, Lag, NOMINAL, WORD};
use tk_counter::CounterDesc;

/// Bounds the cycles that add less than 2^123 to a lag, at any length and any multiplier.
pub const FEW_CYCLES: u64 = 1 << 27;

/// The upper word of no lag.
const MIDDLE: u64 = 1 << 60;

impl Lag {
    /// Returns the result of an account, if there are fewer than 2^27 cycles and the lag is well
    /// below its greatest after them.
    #[inline(always)]
    pub(super) fn accounted_soon(
        &self,
        desc: CounterDesc,
        length: i64,
        mult: u32,
        cycles: u64,
    ) -> Option<Lag>
        ensures { MatchOption result (Unit {0})
            (λ lag. lag ≡ lag_after desc length mult cycles self.now) }
    {
        if cycles >= FEW_CYCLES {
            return None;
        }
        let lag = self.amount() + few_growth(desc, length, mult, cycles);
        if !is_small(lag, desc) {
            return None;
        }
        Some(Lag::of_amount(lag))
    }
}

/// Returns what few cycles add to the lag: the length that they were asked to have, minus the one
/// that they have.
#[inline(always)]
fn few_growth(desc: CounterDesc, length: i64, mult: u32, cycles: u64) -> i128
    requires { cycles < 2 ^ 27 }
    ensures value { result ≡ pos cycles *ℤ short_of desc length mult }
    ensures most { unsigned_abs result ≤ 2 ^ 123 }
{
    length_of(units_of(cycles, desc.mult()), length) - length_of(units_of(cycles, mult), NOMINAL)
}

/// Returns the units that few cycles add, at `mult` units a cycle.
#[inline(always)]
fn units_of(cycles: u64, mult: u32) -> u64
    requires { cycles < 2 ^ 27 }
    ensures value { result ≡ cycles * mult }
    ensures low { result < 2 ^ 59 }
{
    cycles * u64::from(mult)
}

/// Returns the length of some units, each of which has a length.
#[inline(always)]
fn length_of(units: u64, length: i64) -> i128
    requires { units < 2 ^ 59 }
    ensures value { result ≡ pos units *ℤ length }
    ensures most { unsigned_abs result ≤ 2 ^ 122 }
{
    i128::from(units) * i128::from(length)
}

/// Returns whether a lag is well below the greatest one.
#[inline(always)]
fn is_small(lag: i128, desc: CounterDesc) -> bool
    requires { unsigned_abs lag ≤ 2 ^ 124 }
    ensures small { result ≡ true → unsigned_abs lag ≤ greatest_lag desc }
    ensures most { result ≡ true → unsigned_abs lag ≤ 2 ^ 123 }
{
    let upper = ((lag + BIAS) as u128 / WORD) as u64;
    // the greatest lag is more than this many times 2^64
    let near = desc.second() / 32;
    // a number below `MIDDLE - near` wraps, so one test is enough
    upper.wrapping_sub(MIDDLE - near) < 2 * near
}
