ghost use Rattle.std.specs.Prelude.{◌≡◌, ℕ, ◌/◌, ◌%◌, ◌^◌, ◌<◌, pos, ◌≤ℤ◌, MatchOption, MatchResult, Some, None, IsTrue, ◌↔◌};

mod known_words;
mod words;

use crate::clock_id::ClockId;
use crate::origin::Origin;
use crate::read_base::ReadBase;
use crate::refusal::ReadError;
use crate::timespec::Timespec;
use std::marker::Model;
use tk_counter::CounterDesc;
pub use words::SNAPSHOT_WORDS;

/// Converts readings to times. It contains the number of accepted commands, and the part of the
/// state after them that a read needs.
///
/// A snapshot may be used until the reading of the next accepted command. With a later reading it
/// may give a greater time than a later snapshot does, as in the kernel.
#[repr(C)]
#[derive(Clone, Copy, Debug)]
pub struct Snapshot {
    /// The number of accepted commands.
    pub(crate) front: u64,
    /// The part of the state after them that a read needs.
    pub(crate) base: ReadBase,
}

impl Model for Snapshot {
    ghost use Rattle.tk_clock.specs.Snapshot.{Snapshot};
    ghost use Rattle.tk_clock.specs.Running.{IsWithin};

    ghost Value = { Snapshot };

    ghost view = { λ a. record { front = a.front; base = a.base } };

    ghost invariant = { λ a. IsWithin a.base };

    ghost inverse = { λ s. record { front = s.front; base = s.base } };
}

impl Snapshot {
    ghost use Rattle.tk_clock.specs.Limits.{raw_end};
    ghost use Rattle.tk_clock.specs.Origin.{IsOrigin};
    ghost use Rattle.tk_clock.specs.Read.{read_of};
    ghost use Rattle.tk_clock.specs.Refusal.{read_refusal};
    ghost use Rattle.tk_clock.specs.State.{base_value};
    ghost use Rattle.tk_clock.specs.Reach.{IsFirstReached, IsNeverReached, IsReadAt, GivesAgain};
    ghost use Rattle.tk_clock.specs.Further.{IsFurther};
    ghost use Rattle.tk_clock.specs.Time.{nanoseconds};
    ghost use Rattle.tk_counter.specs.Counter.{second};

    /// Returns a clock's time at `reading`, in cycles (clock_gettime(2)).
    ///
    /// For a reading behind the last command, it returns the value at that command. While the
    /// clocks are asleep it does so for every reading.
    ///
    /// # Errors
    ///
    /// Returns the first of these that applies:
    ///
    /// - `Invalid`: `reading` is above the mask, for every clock.
    /// - `Range`: the clock is at its limit or beyond it. The limit is 946,080,000 s for MONOTONIC
    ///   and MONOTONIC_COARSE, and 9,223,372,036 s for the others.
    #[inline(always)]
    pub fn get(&self, clock: ClockId, reading: u64) -> Result<Timespec, ReadError>
        ensures { MatchResult result
            (λ time. (read_refusal self.now.base clock reading ≡ None)
            × (nanoseconds time ≡ base_value self.now.base clock reading) × (time.nsec < 10 ^ 9)
            × (pos 0 ≤ℤ time.sec))
            (λ refusal. read_refusal self.now.base clock reading ≡ Some refusal) }
    {
        self.base.get(clock, reading)
    }

    /// Returns a clock's time at `reading`, in ns since 1970 or since opening
    /// (`ktime_get_real_ns`): the time of `get` as one number.
    ///
    /// # Errors
    ///
    /// Returns `Invalid` and `Range` in the same cases as `get`.
    #[inline(always)]
    pub fn nanos(&self, clock: ClockId, reading: u64) -> Result<u64, ReadError>
        ensures { result ≡ read_of self.now.base clock reading }
    {
        self.base.nanos(clock, reading)
    }

    /// Returns a clock's line since the last command: its amount there, the amount that a cycle
    /// adds, its offset and its limit. A program can convert many readings by it.
    #[inline(always)]
    pub fn origin(&self, clock: ClockId) -> Origin
        ensures { IsOrigin self.now.base clock result }
    {
        self.base.origin(clock)
    }

    /// Returns the first reading, in cycles, at which the clock has reached `time`: at this reading
    /// `get` returns `time` or a later time. A program can set a timer to it.
    ///
    /// It searches from the last command's reading to half the counter's range after it. If the
    /// clock has reached `time` at the last command, the result is that command's reading. `time`
    /// may be any number of seconds and nanoseconds.
    ///
    /// Returns `None` if `get` returns no such time in that range: because the clocks are asleep,
    /// the clock is a coarse one, the range is too short, or the clock reaches its limit first.
    pub fn reading_at(&self, clock: ClockId, time: Timespec) -> Option<u64>
        ensures first { let nanos = nanoseconds time in
            MatchOption result
            (IsNeverReached self.now.base clock nanos)
            (λ reading. IsFirstReached self.now.base clock nanos reading) }
        ensures again { let nanos = nanoseconds time in
            (reading : ℕ) → IsReadAt self.now.base clock nanos reading →
            GivesAgain self.now.base clock nanos reading result }
    {
        self.base.reading_at(clock, time)
    }

    /// Returns whether `time` is further away than `reading_at` searches: the clock counts, `time`
    /// is below its limit, and `get` returns an earlier time at every reading up to half the
    /// counter's range after the last command.
    ///
    /// So if `reading_at` returns `None`, this says whether the clock may reach `time` later. If
    /// so, apply a command within that half of the range, and search again in the snapshot after
    /// it. Otherwise the clocks are asleep, the clock is a coarse one, or it reaches its limit
    /// first.
    pub fn is_further(&self, clock: ClockId, time: Timespec) -> bool
        ensures { IsTrue result ↔ IsFurther self.now.base clock (nanoseconds time) }
    {
        self.base.is_further(clock, time)
    }

    /// Returns the description of the counter that the readings come from.
    pub fn desc(&self) -> CounterDesc
        ensures { result ≡ self.now.base.counter }
    {
        self.base.desc
    }

    /// Returns the front: the number of accepted commands.
    pub fn front(&self) -> u64
        ensures { result ≡ self.now.front }
    {
        self.front
    }

    /// Returns the reading of the last accepted command, or of the opening, in cycles.
    pub fn last(&self) -> u64
        ensures { result ≡ self.now.base.last }
    {
        self.base.last
    }

    /// Returns the amount that a cycle after the last reading adds to MONOTONIC, in `2^-shift` ns.
    pub fn mult(&self) -> u32
        ensures { result ≡ self.now.base.mult }
    {
        self.base.mult
    }

    /// Returns the part of MONOTONIC below a second at the last reading, in `2^-shift` ns.
    pub fn frac(&self) -> u64
        ensures { result ≡ self.now.base.amount % second self.now.base.counter }
    {
        self.base.monotonic_amount().frac
    }

    /// Returns the whole seconds of MONOTONIC at the last reading.
    pub fn sec(&self) -> u64
        ensures { result ≡ self.now.base.amount / second self.now.base.counter }
    {
        self.base.monotonic_amount().sec
    }

    /// Returns REALTIME minus MONOTONIC, in ns. It is never negative.
    pub fn real_offset(&self) -> u64
        ensures { pos result ≡ self.now.base.real_offset }
    {
        self.base.real_offset
    }

    /// Returns BOOTTIME minus MONOTONIC, in ns: the sum of all suspensions.
    pub fn boot_offset(&self) -> u64
        ensures { pos result ≡ self.now.base.boot_offset }
    {
        self.base.boot_offset
    }

    /// Returns TAI minus REALTIME, in seconds, 0 to 100,000.
    pub fn tai(&self) -> u32
        ensures { pos result ≡ self.now.base.tai }
    {
        self.base.tai
    }

    /// Returns whether the clocks are asleep. They don't advance until they are resumed.
    pub fn asleep(&self) -> bool
        ensures { result ≡ self.now.base.asleep }
    {
        self.base.asleep
    }

    /// Returns the part of MONOTONIC_RAW below a second at the last reading, in `2^-shift` ns.
    pub fn raw_frac(&self) -> u64
        ensures { result ≡ self.now.base.raw_amount % second self.now.base.counter }
    {
        self.base.raw_amount().frac
    }

    /// Returns the whole seconds of MONOTONIC_RAW at the last reading, below 1,060,000,000.
    pub fn raw_sec(&self) -> u64
        ensures value { result ≡ self.now.base.raw_amount / second self.now.base.counter }
        ensures below { result < raw_end }
    {
        self.base.raw_amount().sec
    }
}
