ghost use Rattle.std.specs.Prelude.{◌≡◌, ◌*◌, ◌/◌, ◌^◌, ◌<◌, ◌≤◌, MatchOption, MatchResult, Some, None, pos, ◌≤ℤ◌, ◌*ℤ◌, nat_lt, IsTrue, ◌↔◌};

mod carrying;
mod changes;
mod origins;
mod reaching;
mod testing;

use crate::amount::Amount;
use crate::clock_id::ClockId;
use crate::limits::SHORTEST_TICK;
use crate::refusal::ReadError;
use crate::snapshot::SNAPSHOT_WORDS;
use crate::timespec::{Timespec, timespec_of};
use std::marker::Model;
use tk_counter::{CounterDesc, FREQUENCY_LIMIT, NANOS_PER_SECOND};

/// Contains the part of the state that a read of the clocks needs, as the kernel's `struct
/// tk_read_base`.
#[repr(C)]
#[derive(Clone, Copy, Debug)]
pub(crate) struct ReadBase {
    /// The counter.
    pub desc: CounterDesc,
    /// The amount that a cycle after the last reading adds, in `2^-shift` ns.
    pub mult: u32,
    /// The last reading, in cycles.
    pub last: u64,
    /// REALTIME minus MONOTONIC, in ns.
    pub real_offset: u64,
    /// MONOTONIC at the last reading.
    pub monotonic: Amount,
    /// MONOTONIC_RAW at the last reading.
    pub raw: Amount,
    /// BOOTTIME minus MONOTONIC, in ns.
    pub boot_offset: u64,
    /// TAI minus REALTIME, in seconds.
    pub tai: u32,
    /// Whether the clocks are asleep.
    pub asleep: bool,
}

impl Model for ReadBase {
    ghost use Rattle.std.specs.Prelude.{pos, ◌/◌, ◌%◌, unsigned_abs};
    ghost use Rattle.tk_counter.specs.Counter.{second};
    ghost use Rattle.tk_clock.specs.Amount.{units_of, amount_of, amount_of-units_of};
    ghost use Rattle.tk_clock.specs.State.{ReadBase};
    ghost use Rattle.tk_clock.specs.Running.{IsReadBase};
    ghost use Rattle.std.proofs.Common.{ap, ◌∙◌};
    ghost use Rattle.tk_clock.specs.declared.amount.Amount.{Amount};

    ghost Value = { ReadBase };

    ghost view = { λ a. record {
      counter = a.desc;
      last = a.last;
      mult = a.mult;
      amount = units_of a.desc a.monotonic;
      raw_amount = units_of a.desc a.raw;
      real_offset = pos a.real_offset;
      boot_offset = pos a.boot_offset;
      tai = pos a.tai;
      asleep = a.asleep;
    } };

    ghost invariant = { λ a. IsReadBase a.desc a.last a.mult a.monotonic a.raw a.tai };

    ghost inverse = { λ b. record {
      desc = b.counter;
      last = b.last;
      mult = b.mult;
      monotonic = amount_of b.counter b.amount;
      raw = amount_of b.counter b.raw_amount;
      real_offset = unsigned_abs b.real_offset;
      boot_offset = unsigned_abs b.boot_offset;
      tai = unsigned_abs b.tai;
      asleep = b.asleep;
    } };

    ghost inverse_ok = { λ a h.
        ap
        (λ (m : Amount). record a { monotonic = m; raw = amount_of a.desc (units_of a.desc a.raw) })
        (amount_of-units_of a.desc a.monotonic h.frac_low)
        ∙ ap (λ (r : Amount). record a { raw = r })
        (amount_of-units_of a.desc a.raw h.raw_frac_low) };
}

impl ReadBase {
    ghost use Rattle.tk_counter.specs.Counter.{half, gap};
    ghost use Rattle.tk_clock.specs.Limits.{raw_end, monotonic_end, greatest_tai};
    ghost use Rattle.tk_clock.specs.Refusal.{read_refusal};
    ghost use Rattle.tk_clock.specs.State.{base_cycles, base_monotonic, base_value};
    ghost use Rattle.tk_clock.specs.Time.{nanoseconds};
    ghost use Rattle.tk_clock.specs.Running.{IsInRange, IsRated, IsWithin};
    ghost use Rattle.tk_clock.specs.Amount.{amount_of};
    ghost use Rattle.tk_clock.specs.Words.{words_of, restored};

    /// Returns whether a reading is behind the last one.
    pub fn is_behind(&self, reading: u64) -> bool
        ensures { let counter = self.now.counter in
            result ≡ nat_lt (half counter) (gap counter self.now.last reading) }
    {
        self.desc.is_behind(self.desc.gap(self.last, reading))
    }

    /// Returns the cycles from the last reading to another one, or `None` if the clocks count none
    /// up to it: while they are asleep, and if the other one is behind.
    #[inline(always)]
    fn cycles_ahead(&self, reading: u64) -> Option<u64>
        ensures { MatchOption result
            (base_cycles self.now reading ≡ 0)
            (λ cycles. base_cycles self.now reading ≡ cycles) }
    {
        let gap = self.desc.gap(self.last, reading);
        if self.asleep || self.desc.is_behind(gap) {
            return None;
        }
        Some(gap)
    }

    /// Proves that the base's numbers are in their ranges. It does nothing when it runs: only its
    /// contract is used.
    #[inline(always)]
    pub fn prove_ranges(&self)
        ensures { IsInRange self.now }
    {
        let _ = &self.desc;
    }

    /// Returns MONOTONIC at the last reading.
    pub fn monotonic_amount(&self) -> Amount
        ensures { result ≡ amount_of self.now.counter self.now.amount }
    {
        self.monotonic
    }

    /// Returns MONOTONIC_RAW at the last reading.
    pub fn raw_amount(&self) -> Amount
        ensures value { result ≡ amount_of self.now.counter self.now.raw_amount }
        ensures below { result.sec < raw_end }
    {
        self.raw
    }

    /// Returns whether MONOTONIC_RAW is no further ahead of MONOTONIC than the slowest rate allows.
    pub fn is_rated(&self) -> bool
        ensures { IsTrue result ↔ IsRated self.now }
    {
        let slowest = self.desc.mult_at(-FREQUENCY_LIMIT, SHORTEST_TICK);
        self.raw.units(&self.desc) * u128::from(slowest)
            <= self.monotonic.units(&self.desc) * u128::from(self.desc.mult())
    }

    /// Encodes the base and a front as ten 64-bit words.
    pub fn words(&self, front: u64) -> [u64; SNAPSHOT_WORDS]
        ensures value { result ≡ words_of (record { front = front; base = self.now }) }
        ensures back { IsWithin self.now → restored self.now.counter
            (words_of (record { front = front; base = self.now }))
            ≡ Some (record { front = front; base = self.now }) }
    {
        [
            front,
            self.last,
            u64::from(self.mult),
            self.monotonic.frac,
            self.monotonic.sec,
            self.real_offset,
            self.boot_offset,
            u64::from(self.tai) * 2 + u64::from(self.asleep),
            self.raw.frac,
            self.raw.sec,
        ]
    }

    /// Returns MONOTONIC at the last reading, in ns.
    pub fn monotonic_now(&self) -> u64
        ensures value { result ≡ base_monotonic self.now self.now.last }
        ensures amount { result ≡ self.now.amount / 2 ^ self.now.counter.shift }
        ensures low { result < monotonic_end * 10 ^ 9 }
        ensures tai { self.now.tai ≤ℤ pos greatest_tai }
    {
        self.monotonic.nanos(&self.desc)
    }

    /// Returns TAI minus REALTIME, in ns.
    fn tai_nanos(&self) -> u64
        ensures value { pos result ≡ self.now.tai *ℤ pos (10 ^ 9) }
        ensures low { result ≤ greatest_tai * 10 ^ 9 }
    {
        u64::from(self.tai) * NANOS_PER_SECOND
    }

    /// Returns a clock's time at a reading, or the first test that fails.
    #[inline(always)]
    pub fn get(&self, clock: ClockId, reading: u64) -> Result<Timespec, ReadError>
        requires { IsWithin self.now }
        ensures { MatchResult result
            (λ time. (read_refusal self.now clock reading ≡ None)
            × (nanoseconds time ≡ base_value self.now clock reading) × (time.nsec < 10 ^ 9)
            × (pos 0 ≤ℤ time.sec))
            (λ refusal. read_refusal self.now clock reading ≡ Some refusal) }
    {
        match self.nanos(clock, reading) {
            Ok(nanos) => Ok(timespec_of(nanos)),
            Err(refusal) => Err(refusal),
        }
    }
}
