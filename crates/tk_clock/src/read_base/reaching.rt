//! Finds the first reading at which a clock has reached a time.
ghost use Rattle.std.specs.Prelude.{◌≡◌, ℕ, ◌+◌, ◌*◌, ◌^◌, ◌<◌, ◌≤◌, ◌≤ℤ◌, ◌<ℤ◌, ◌/◌, MatchOption, IsTrue, ◌↔◌};

use super::ReadBase;
use crate::clock_id::ClockId;
use crate::timespec::{Timespec, nanos_from_zero};

/// Counts the values of 64 bits.
const WORD: u128 = 1 << 64;

/// Counts the values of 32 bits.
const HALF_WORD: u64 = 1 << 32;

impl ReadBase {
    ghost use Rattle.tk_counter.specs.Counter.{mask, half, gap};
    ghost use Rattle.tk_clock.specs.Time.{nanoseconds};
    ghost use Rattle.tk_clock.specs.Origin.{mult_of, value_after};
    ghost use Rattle.tk_clock.specs.Running.{IsWithin};
    ghost use Rattle.tk_clock.specs.Reach.{IsFirstReached, IsNeverReached, IsReadAt, GivesAgain};
    ghost use Rattle.tk_clock.specs.Further.{IsFurther};

    /// Returns the first reading, up to half the counter's range after the last one, at which a
    /// read of the clock returns `time` or a later time. Returns `None` if there is no such
    /// reading.
    pub fn reading_at(&self, clock: ClockId, time: Timespec) -> Option<u64>
        requires { IsWithin self.now }
        ensures first { let nanos = nanoseconds time in
            MatchOption result
            (IsNeverReached self.now clock nanos)
            (λ reading. IsFirstReached self.now clock nanos reading) }
        ensures again { let nanos = nanoseconds time in
            (reading : ℕ) → IsReadAt self.now clock nanos reading →
            GivesAgain self.now clock nanos reading result }
    {
        let Some(cycles) = self.cycles_until(clock, time) else {
            return None;
        };
        let reading = self.reading_after(cycles);
        match self.get(clock, reading) {
            Ok(_) => Some(reading),
            Err(_) => None,
        }
    }

    /// Returns whether the clock counts, `time` is below its limit, and a read at every reading up
    /// to half the counter's range after the last one returns an earlier time.
    pub fn is_further(&self, clock: ClockId, time: Timespec) -> bool
        requires { IsWithin self.now }
        ensures { IsTrue result ↔ IsFurther self.now clock (nanoseconds time) }
    {
        let origin = self.origin(clock);
        let nanos = nanos_from_zero(time);
        if origin.mult == 0 || nanos >= u128::from(origin.limit) {
            return false;
        }
        match self.nanos(clock, self.reading_after(self.desc.half())) {
            Ok(last) => u128::from(last) < nanos,
            Err(_) => false,
        }
    }

    /// Returns the reading a number of cycles after the last one.
    fn reading_after(&self, cycles: u64) -> u64
        requires { cycles ≤ mask self.now.counter }
        ensures low { result ≤ mask self.now.counter }
        ensures distance { gap self.now.counter self.now.last result ≡ cycles }
    {
        self.last.wrapping_add(cycles) & self.desc.mask()
    }

    /// Returns the fewest cycles, up to half the counter's range, after which the clock's value is
    /// `time` or later. Returns `None` if no number of cycles is enough.
    fn cycles_until(&self, clock: ClockId, time: Timespec) -> Option<u64>
        requires { IsWithin self.now }
        ensures { let nanos = nanoseconds time in
            MatchOption result
            ((cycles : ℕ) → cycles ≤ half self.now.counter →
            value_after self.now clock cycles <ℤ nanos)
            (λ cycles. (cycles ≤ half self.now.counter)
            × (nanos ≤ℤ value_after self.now clock cycles)
            × ((fewer : ℕ) → fewer < cycles → value_after self.now clock fewer <ℤ nanos)) }
    {
        let most = self.desc.half();
        let origin = self.origin(clock);
        let units = self.units_until(clock, time);
        let Some(cycles) = cycles_of(units, origin.mult) else {
            return None;
        };
        if cycles > most {
            return None;
        }
        Some(cycles)
    }

    /// Returns the units that the clock still has to count after the last reading until its value
    /// is `time`: 0 if it is `time` or later there.
    fn units_until(&self, clock: ClockId, time: Timespec) -> u128
        requires { IsWithin self.now }
        ensures enough { (cycles : ℕ) → result ≤ cycles * mult_of self.now clock →
            nanoseconds time ≤ℤ value_after self.now clock cycles }
        ensures needed { (cycles : ℕ) → cycles * mult_of self.now clock < result →
            value_after self.now clock cycles <ℤ nanoseconds time }
    {
        let origin = self.origin(clock);
        let nanos = nanos_from_zero(time).saturating_sub(u128::from(origin.offset));
        (nanos << self.desc.shift()).saturating_sub(origin.amount().units(&self.desc))
    }
}

/// Returns the fewest cycles that add at least a number of units, at `mult` units a cycle. Returns
/// `None` if no 64-bit number of cycles does.
fn cycles_of(units: u128, mult: u32) -> Option<u64>
    ensures { MatchOption result
        ((cycles : ℕ) → cycles < 2 ^ 64 → cycles * mult < units)
        (λ cycles. (units ≤ cycles * mult)
        × ((fewer : ℕ) → fewer < cycles → fewer * mult < units)) }
{
    if units == 0 {
        return Some(0);
    }
    if units / WORD >= u128::from(mult) {
        return None;
    }
    let (cycles, rest) = divided(units, u64::from(mult));
    if rest == 0 {
        return Some(cycles);
    }
    if cycles == u64::MAX {
        return None;
    }
    Some(cycles + 1)
}

/// Divides units by a 32-bit divisor. Returns the quotient, which must fit in 64 bits, and the
/// remainder.
///
/// It divides in two steps of 32 bits, so that no division is wider than 64 bits.
fn divided(units: u128, divisor: u64) -> (u64, u64)
    requires fits { units / 2 ^ 64 < divisor }
    requires narrow { divisor < 2 ^ 32 }
    ensures value { result.0 * divisor + result.1 ≡ units }
    ensures rest { result.1 < divisor }
{
    let high = (units / WORD) as u64;
    let low = (units % WORD) as u64;
    let upper = high * HALF_WORD + low / HALF_WORD;
    let lower = upper % divisor * HALF_WORD + low % HALF_WORD;
    let quotient = upper / divisor * HALF_WORD + lower / divisor;
    (quotient, lower % divisor)
}
