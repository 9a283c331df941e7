//! Keeps what a clock lags behind the lengths of its seconds.
ghost use Rattle.std.specs.Prelude.{◌≡◌, ◌+◌, ◌*◌, ◌/◌, ◌≤◌, ◌<◌, ◌^◌, min, pos, negsuc, neg_ℤ, ◌+ℤ◌, ◌*ℤ◌, ◌≤ℤ◌, unsigned_abs, true};
ghost use Rattle.std.specs.Int.{int_max};
ghost use Rattle.tk_ntp.specs.Loops.{clamped_by};
ghost use Rattle.tk_ntp.specs.Lag.{lag_in, short_of, greatest_lag, lag_after, most_made_up, made_up};
ghost use Rattle.tk_ntp.specs.ChangeCounter.{lag_over, rescaled_lag};
ghost use Rattle.tk_ntp.specs.Numbers.{lag_numbers};
ghost use Rattle.tk_ntp.specs.Rate.{nominal};
ghost use Rattle.tk_ntp.specs.Restored.{is_lag, lag_of};

mod soon;

use crate::length::MAX_FREQUENCY;
use crate::numbers::LagNumbers;
pub(crate) use soon::FEW_CYCLES;
use std::marker::Model;
use tk_counter::{CounterDesc, NANOS_PER_SECOND};

/// Keeps the lag of a clock: what it has not been given yet of the lengths that its seconds were
/// asked to have, in units of `2^-shift` ns times `2^-32` ns.
///
/// A multiplier is a whole number, so a clock never gets exactly what was asked for. The lag makes
/// sure that the difference doesn't add up (the kernel's `ntp_error`). It is kept in two words,
/// plus 2^124, so that a program in C can keep it.
#[repr(C)]
#[derive(Clone, Copy, Debug)]
pub struct Lag {
    high: u64,
    low: u64,
}

impl Model for Lag {
    ghost use Rattle.std.specs.Prelude.{ℤ, ℕ, ◌+◌, ◌*◌, ◌/◌, ◌%◌, ◌^◌, pos, ◌-ℤ◌, unsigned_abs};
    ghost use Rattle.std.proofs.Common.{ap, ◌∙◌};
    ghost use Rattle.std.proofs.lemmas.Nat.{div-mul-add, mod-mul-add};
    ghost use Rattle.tk_ntp.specs.Lag.{least_lag, lag_in, IsLag};
    ghost use Rattle.std.proofs.Math.IntN.{+ℤ-neg_ℤ_cancel};

    ghost Value = { ℤ };

    ghost view = { λ a. lag_in a.high a.low };

    ghost invariant = { λ a. IsLag a.high a.low };

    ghost inverse = { λ z. record {
      high = unsigned_abs (z -ℤ least_lag) / 2 ^ 64;
      low = unsigned_abs (z -ℤ least_lag) % 2 ^ 64;
    } };

    ghost inverse_ok = { λ a h.
        let words : ℕ = a.high * 2 ^ 64 + a.low in
        ap (λ (n : ℕ). record a { high = n / 2 ^ 64; low = n % 2 ^ 64 })
        (ap unsigned_abs (+ℤ-neg_ℤ_cancel (pos words) least_lag))
        ∙ ap (λ (n : ℕ). record a { high = n; low = words % 2 ^ 64 })
        (div-mul-add a.high (2 ^ 64) a.low h.low_fits)
        ∙ ap (λ (n : ℕ). record a { low = n }) (mod-mul-add a.high (2 ^ 64) a.low h.low_fits) };
}

/// The length of a nominal second, in `2^-32` ns.
const NOMINAL: i64 = 1_000_000_000 << 32;

/// What is added to a lag, so that two words contain it.
const BIAS: i128 = 1 << 124;

/// Counts the values of 64 bits.
pub(crate) const WORD: u128 = 1 << 64;

/// Counts the values of 32 bits.
const HALF_WORD: u128 = 1 << 32;

/// More than the seconds that a second ever makes up for, in `2^-32` ns.
const QUOTIENT_LIMIT: u64 = 1 << 60;

/// More than twice the greatest lag.
const PRODUCT_LIMIT: u128 = 1 << 126;

impl Lag {
    /// Returns no lag.
    pub fn none() -> Lag
        ensures { result ≡ pos 0 }
    {
        Lag::of_amount(0)
    }

    /// Returns the lag of an amount.
    fn of_amount(amount: i128) -> Lag
        requires { unsigned_abs amount ≤ 2 ^ 123 }
        ensures { result ≡ amount }
    {
        let words = (amount + BIAS) as u128;
        Lag {
            high: (words / WORD) as u64,
            low: (words % WORD) as u64,
        }
    }

    /// Returns the lag as one number.
    fn amount(&self) -> i128
        ensures value { result ≡ self.now }
        ensures most { unsigned_abs result ≤ 2 ^ 123 }
    {
        (u128::from(self.high) * WORD + u128::from(self.low)) as i128 - BIAS
    }

    /// Returns the numbers that the lag is kept in.
    pub fn numbers(&self) -> LagNumbers
        ensures value { result ≡ lag_numbers self.now }
        ensures range { is_lag (lag_numbers self.now) ≡ true }
        ensures back { lag_of (lag_numbers self.now) ≡ self.now }
    {
        LagNumbers {
            high: self.high,
            low: self.low,
        }
    }

    /// Returns the lag in two words.
    pub(crate) fn of_words(high: u64, low: u64) -> Lag
        requires { is_lag (record { high = high; low = low }) ≡ true }
        ensures value { result ≡ lag_in high low }
        ensures again { lag_numbers result ≡ record { high = high; low = low } }
    {
        Lag { high, low }
    }

    /// Accounts for some cycles of a counter at the multiplier `mult`, while a second was asked to
    /// have a `length`, in `2^-32` ns. The lag stays within half a second.
    #[inline(always)]
    pub fn account(&mut self, desc: CounterDesc, length: i64, mult: u32, cycles: u64)
        ensures { self.new ≡ lag_after desc length mult cycles self.old }
    {
        *self = match self.accounted_soon(desc, length, mult, cycles) {
            Some(lag) => lag,
            None => self.accounted_late(desc, length, mult, cycles),
        };
    }

    /// Returns the result of any account. It is out of line, so that most accounts don't reserve
    /// its stack.
    #[inline(never)]
    fn accounted_late(&self, desc: CounterDesc, length: i64, mult: u32, cycles: u64) -> Lag
        ensures { result ≡ lag_after desc length mult cycles self.now }
    {
        Lag::of_amount(lag_after(
            self.amount(),
            greatest_lag(desc),
            cycles,
            short_of(desc, length, mult),
        ))
    }

    /// Carries the lag over from the counter `from` to the units of the counter `desc`, rounded down
    /// if its shift is smaller.
    pub(crate) fn carry_over(&mut self, from: CounterDesc, desc: CounterDesc)
        ensures { self.new ≡ lag_over from desc self.old }
    {
        let lag = self.within(from);
        *self = Lag::of_amount(rescaled_lag(from.shift(), desc.shift(), lag));
    }

    /// Returns the lag, at most the greatest one of the counter `desc` in either direction.
    fn within(&self, desc: CounterDesc) -> i128
        ensures value { result ≡ clamped_by (greatest_lag desc) self.now }
        ensures most { unsigned_abs result ≤ greatest_lag desc }
        ensures low { unsigned_abs result ≤ 2 ^ 123 }
    {
        let most = greatest_lag(desc);
        self.amount().clamp(-most, most)
    }

    /// Returns what the next second makes up for, in `2^-32` ns: the lag, at most 500 us and two
    /// units of the multiplier for a second in either direction.
    pub fn made_up(&self, desc: CounterDesc) -> i64
        ensures value { result ≡ made_up desc self.now }
        ensures most { unsigned_abs result ≤ most_made_up desc }
        ensures short { unsigned_abs result ≤ 2 ^ 56 }
    {
        let most = most_made_up(desc);
        let amount = self.amount();
        if amount < 0 {
            clamped_below((-1 - amount) as u128, desc.shift(), most)
        } else {
            clamped_above(amount as u128, desc.shift(), most)
        }
    }
}

/// Returns the whole seconds of an amount, or `most` if there are more.
fn clamped_above(amount: u128, shift: u32, most: i64) -> i64
    requires shift { shift ≤ 32 }
    requires since { pos 0 ≤ℤ most }
    requires most { unsigned_abs most ≤ 2 ^ 56 }
    ensures { result ≡ pos (min (amount / (10 ^ 9 * 2 ^ shift)) (unsigned_abs most)) }
{
    (seconds_of(amount, shift) as i64).min(most)
}

/// Returns what is left of -1 after the whole seconds of an amount, or `-most` if that is greater.
fn clamped_below(amount: u128, shift: u32, most: i64) -> i64
    requires shift { shift ≤ 32 }
    requires since { pos 0 ≤ℤ most }
    requires most { unsigned_abs most ≤ 2 ^ 56 }
    ensures { result ≡ int_max (negsuc (amount / (10 ^ 9 * 2 ^ shift))) (neg_ℤ most) }
{
    (-1 - seconds_of(amount, shift) as i64).max(-most)
}

/// Returns the whole seconds of an amount in units of `2^-shift` ns, or 2^60 if there are more.
fn seconds_of(amount: u128, shift: u32) -> u64
    requires { shift ≤ 32 }
    ensures value { result ≡ min (amount / (10 ^ 9 * 2 ^ shift)) (2 ^ 60) }
{
    billions_of(amount >> shift)
}

/// Returns a number divided by 10^9, or 2^60 if that is more.
///
/// It divides in two steps of 32 bits, so that no division is wider than 64 bits.
fn billions_of(nanos: u128) -> u64
    ensures { result ≡ min (nanos / 10 ^ 9) (2 ^ 60) }
{
    if nanos >= 1 << 92 {
        return QUOTIENT_LIMIT;
    }
    let high = (nanos >> 32) as u64;
    let low = (nanos & 0xffff_ffff) as u64;
    let lower = ((high % NANOS_PER_SECOND) << 32) + low;
    (((high / NANOS_PER_SECOND) << 32) + lower / NANOS_PER_SECOND).min(QUOTIENT_LIMIT)
}

/// Returns what a cycle at a multiplier adds to the lag.
fn short_of(desc: CounterDesc, length: i64, mult: u32) -> i128
    ensures value { result ≡ short_of desc length mult }
    ensures most { unsigned_abs result ≤ 2 ^ 96 }
{
    product(desc.mult(), length) - product(mult, NOMINAL)
}

/// Returns a multiplier times a length.
fn product(mult: u32, length: i64) -> i128
    ensures value { result ≡ pos mult *ℤ length }
    ensures most { unsigned_abs result ≤ 2 ^ 95 }
{
    i128::from(mult) * i128::from(length)
}

/// Returns the greatest lag in either direction.
fn greatest_lag(desc: CounterDesc) -> i128
    ensures value { result ≡ pos (greatest_lag desc) }
    ensures most { unsigned_abs result ≤ 2 ^ 123 }
{
    i128::from(desc.second()) * i128::from(NOMINAL / 2)
}

/// Returns the lag after some cycles, each of which adds `short` to it.
#[inline(always)]
fn lag_after(lag: i128, most: i128, cycles: u64, short: i128) -> i128
    requires lag { unsigned_abs lag ≤ 2 ^ 123 }
    requires since { pos 0 ≤ℤ most }
    requires most { unsigned_abs most ≤ 2 ^ 123 }
    requires short { unsigned_abs short ≤ 2 ^ 96 }
    ensures value { result ≡ clamped_by (unsigned_abs most) (lag +ℤ pos cycles *ℤ short) }
    ensures most { unsigned_abs result ≤ 2 ^ 123 }
{
    // a product that reaches its limit is beyond the greatest lag
    (lag + limited_growth(cycles, short)).clamp(-most, most)
}

/// Returns what some cycles add to the lag, at most 2^126 in either direction.
#[inline(always)]
fn limited_growth(cycles: u64, short: i128) -> i128
    requires { unsigned_abs short ≤ 2 ^ 96 }
    ensures value { result ≡ clamped_by (2 ^ 126) (pos cycles *ℤ short) }
    ensures most { unsigned_abs result ≤ 2 ^ 126 }
{
    let growth = limited_product(cycles, short.unsigned_abs()) as i128;
    if short < 0 { -growth } else { growth }
}

/// Returns a product, or 2^126 if it is more. The product of all bits may not fit 128 bits.
fn limited_product(cycles: u64, short: u128) -> u128
    requires { short ≤ 2 ^ 96 }
    ensures { result ≡ min (cycles * short) (2 ^ 126) }
{
    if short < WORD {
        return (u128::from(cycles) * short).min(PRODUCT_LIMIT);
    }
    let upper = u128::from(cycles) * (short / HALF_WORD);
    if upper >= 1 << 94 {
        return PRODUCT_LIMIT;
    }
    let lower = u128::from(cycles) * (short % HALF_WORD);
    (upper * HALF_WORD + lower).min(PRODUCT_LIMIT)
}

/// Returns a lag of units of `2^-from` ns in units of `2^-to` ns, rounded down. It is at most half
/// a second.
fn rescaled_lag(from: u32, to: u32, lag: i128) -> i128
    requires from { from ≤ 32 }
    requires to { to ≤ 32 }
    requires lag { unsigned_abs lag ≤ 10 ^ 9 * 2 ^ from * (nominal / 2) }
    ensures value { result ≡ rescaled_lag from to lag }
    ensures most { unsigned_abs result ≤ 2 ^ 123 }
{
    if from <= to {
        lag * (1 << (to - from))
    } else {
        lag.div_euclid(1 << (from - to))
    }
}

/// Returns the most of the lag that a second makes up for, in `2^-32` ns.
fn most_made_up(desc: CounterDesc) -> i64
    ensures value { result ≡ pos (most_made_up desc) }
    ensures most { unsigned_abs result ≤ 2 ^ 56 }
{
    MAX_FREQUENCY + 2 * NOMINAL / i64::from(desc.mult())
}
