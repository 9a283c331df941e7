ghost use Rattle.std.specs.Prelude.{◌≡◌, ℕ, ◌+◌, ◌*◌, ◌/◌, ◌^◌, ◌<◌, MatchResult, Some, None};

mod advance;
mod frequency;
mod gaps;
mod rates;

use crate::desc_error::DescError;
pub use advance::SECONDS_END;
pub use rates::{FREQUENCY_LIMIT, USUAL_TICK};
use std::marker::Model;

/// Describes a counter: a reading has `bits` bits, and a cycle lasts `mult / 2^shift` nanoseconds.
///
/// It is the kernel's `struct clocksource` without the name and the hooks
/// (include/linux/clocksource.h).
#[repr(C)]
#[derive(Clone, Copy, Debug, PartialEq, Eq)]
pub struct CounterDesc {
    /// The bits of a reading.
    bits: u32,
    /// The length of a cycle, in units of `2^-shift` ns.
    mult: u32,
    /// The right shift that converts an amount to ns.
    shift: u32,
}

impl Model for CounterDesc {
    ghost use Rattle.tk_counter.specs.Counter.{Counter, IsCounter};

    ghost Value = { Counter };

    ghost view = { λ a. record { bits = a.bits; mult = a.mult; shift = a.shift } };

    ghost invariant = { λ a. IsCounter (record { bits = a.bits; mult = a.mult; shift = a.shift }) };

    ghost inverse = { λ c. record { bits = c.bits; mult = c.mult; shift = c.shift } };
}

/// The nanoseconds of a second.
pub const NANOS_PER_SECOND: u64 = 1_000_000_000;

impl CounterDesc {
    ghost use Rattle.tk_counter.specs.Counter.{Counter, IsCounter, mask, half, max_adjustment, max_cycles, fast_span, second};
    ghost use Rattle.tk_counter.specs.Description.{first_fault};

    /// Makes the description of a counter from its numbers.
    ///
    /// # Errors
    ///
    /// Returns the first of these that applies:
    ///
    /// - `Bits`: `bits` is below 8 or above 64.
    /// - `Shift`: `shift` is above 32.
    /// - `Mult`: `mult` is below 256.
    /// - `Adjust`: `mult` and 11 percent of it don't fit 32 bits.
    pub fn new(bits: u32, mult: u32, shift: u32) -> Result<CounterDesc, DescError>
        ensures { let counter : Counter = record { bits = bits; mult = mult; shift = shift } in
            MatchResult result
            (λ desc. (desc ≡ counter) × (first_fault counter ≡ None))
            (λ fault. first_fault counter ≡ Some fault) }
    {
        if !(8..=64).contains(&bits) {
            return Err(DescError::Bits);
        }
        if shift > 32 {
            return Err(DescError::Shift);
        }
        if mult < 256 {
            return Err(DescError::Mult);
        }
        if fastest(mult) > u64::from(u32::MAX) {
            return Err(DescError::Adjust);
        }
        Ok(CounterDesc { bits, mult, shift })
    }

    /// Returns the number of bits of a reading, 8 to 64.
    pub fn bits(&self) -> u32
        ensures value { result ≡ self.now.bits }
        ensures counter { IsCounter self.now }
    {
        self.bits
    }

    /// Returns the length of a cycle, in units of `2^-shift` ns.
    pub fn mult(&self) -> u32
        ensures value { result ≡ self.now.mult }
        ensures counter { IsCounter self.now }
    {
        self.mult
    }

    /// Returns the right shift that converts an amount to nanoseconds, 0 to 32.
    pub fn shift(&self) -> u32
        ensures value { result ≡ self.now.shift }
        ensures counter { IsCounter self.now }
    {
        self.shift
    }

    /// Returns the greatest reading, `2^bits - 1`.
    pub fn mask(&self) -> u64
        ensures value { result ≡ mask self.now }
        ensures counter { IsCounter self.now }
    {
        u64::MAX >> (64 - self.bits)
    }

    /// Returns the longest gap that leads forward, in cycles: half the mask, rounded down. A longer
    /// one leads back (`clocksource_delta`).
    pub fn half(&self) -> u64
        ensures { result ≡ half self.now }
    {
        self.mask() >> 1
    }

    /// Returns the greatest amount by which the multiplier may exceed `mult`: 11 percent of it,
    /// rounded down (`clocksource_max_adjustment`).
    pub fn max_adj(&self) -> u32
        ensures { result ≡ max_adjustment self.now }
    {
        adjustment(self.mult) as u32
    }

    /// Returns the most cycles that convert within 64 bits at the fastest multiplier, which is
    /// `mult + max_adj`. It is at most `mask`.
    ///
    /// A program that converts with one product of 64 bits, as the kernel does, must update its
    /// clocks more often than this. No clock here depends on it.
    pub fn max_cycles(&self) -> u64
        ensures { result ≡ max_cycles self.now }
    {
        (u64::MAX / fastest(self.mult)).min(self.mask())
    }

    /// Returns the most cycles that convert within 63 bits at the fastest multiplier, which is
    /// `mult + max_adj`. It is at most `half`.
    ///
    /// A program can use it to choose how often to update. Up to this gap, `advance` needs no long
    /// product. Longer gaps convert as exactly, but more slowly.
    pub fn fast_span(&self) -> u64
        ensures { result ≡ fast_span self.now }
    {
        ((u64::MAX >> 1) / fastest(self.mult)).min(self.half())
    }

    /// Returns one second, in units of `2^-shift` ns.
    pub fn second(&self) -> u64
        ensures value { result ≡ second self.now }
        ensures counter { IsCounter self.now }
    {
        NANOS_PER_SECOND << self.shift
    }
}

/// Returns the greatest amount by which the multiplier may exceed a mult.
fn adjustment(mult: u32) -> u64
    ensures { result ≡ mult * 11 / 100 }
{
    u64::from(mult) * 11 / 100
}

/// Returns the fastest multiplier for a mult.
fn fastest(mult: u32) -> u64
    ensures value { result ≡ mult + mult * 11 / 100 }
    ensures low { result < 2 ^ 33 }
{
    u64::from(mult) + adjustment(mult)
}
