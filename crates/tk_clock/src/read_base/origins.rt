//! Lists the clocks: each is a line over the cycles since the last command.
ghost use Rattle.std.specs.Prelude.{◌≡◌, ◌*◌, ◌^◌, ◌<◌, pos, MatchResult, Some, None};
ghost use Rattle.tk_clock.specs.Amount.{IsNanos};
ghost use Rattle.tk_clock.specs.Limits.{clock_end};
ghost use Rattle.tk_clock.specs.declared.origin.Origin.{Origin};
ghost use Rattle.tk_clock.specs.Origin.{IsOrigin, awake, line_after};
ghost use Rattle.tk_clock.specs.Refusal.{read_refusal};
ghost use Rattle.tk_clock.specs.Running.{IsWithin};
ghost use Rattle.tk_clock.specs.State.{base_cycles, base_value};

use super::ReadBase;
use crate::clock_id::ClockId;
use crate::limits::{CLOCK_LIMIT, MONOTONIC_LIMIT};
use crate::origin::Origin;
use crate::refusal::ReadError;

impl ReadBase {
    /// Returns a clock's line since the last command.
    pub fn origin(&self, clock: ClockId) -> Origin
        requires { IsWithin self.now }
        ensures { IsOrigin self.now clock result }
    {
        let line = self.awake_origin(clock);
        if self.asleep { line.held() } else { line }
    }

    /// Returns a clock's line since the last command, as it is while the clocks are awake.
    #[inline(always)]
    fn awake_origin(&self, clock: ClockId) -> Origin
        requires { IsWithin self.now }
        ensures { IsOrigin (awake self.now) clock result }
    {
        let monotonic = Origin {
            sec: self.monotonic.sec,
            frac: self.monotonic.frac,
            mult: self.mult,
            offset: 0,
            limit: MONOTONIC_LIMIT,
        };
        let realtime = Origin {
            offset: self.real_offset,
            limit: CLOCK_LIMIT,
            ..monotonic
        };
        match clock {
            ClockId::Monotonic => monotonic,
            ClockId::Realtime => realtime,
            ClockId::Boottime => realtime.with_offset(self.boot_offset),
            ClockId::Tai => realtime.with_offset(self.real_offset + self.tai_nanos()),
            ClockId::RealtimeCoarse => realtime.held(),
            ClockId::MonotonicCoarse => monotonic.held(),
            ClockId::MonotonicRaw => Origin {
                sec: self.raw.sec,
                frac: self.raw.frac,
                mult: self.desc.mult(),
                offset: 0,
                limit: CLOCK_LIMIT,
            },
        }
    }

    /// Returns a clock's time at a reading, in ns, or the first test that fails.
    ///
    /// Every clock has its own copy of the code, so that the clock is tested only once.
    #[inline(always)]
    pub fn nanos(&self, clock: ClockId, reading: u64) -> Result<u64, ReadError>
        requires { IsWithin self.now }
        ensures { MatchResult result
            (λ nanos. (read_refusal self.now clock reading ≡ None)
            × (pos nanos ≡ base_value self.now clock reading) × (nanos < clock_end * 10 ^ 9))
            (λ refusal. read_refusal self.now clock reading ≡ Some refusal) }
    {
        match clock {
            ClockId::Realtime => self.nanos_of(ClockId::Realtime, reading),
            ClockId::Monotonic => self.nanos_of(ClockId::Monotonic, reading),
            ClockId::Boottime => self.nanos_of(ClockId::Boottime, reading),
            ClockId::Tai => self.nanos_of(ClockId::Tai, reading),
            ClockId::RealtimeCoarse => self.nanos_of(ClockId::RealtimeCoarse, reading),
            ClockId::MonotonicCoarse => self.nanos_of(ClockId::MonotonicCoarse, reading),
            ClockId::MonotonicRaw => self.nanos_of(ClockId::MonotonicRaw, reading),
        }
    }

    /// Returns the result of `nanos` for a clock that the compiler knows.
    #[inline(always)]
    fn nanos_of(&self, clock: ClockId, reading: u64) -> Result<u64, ReadError>
        requires { IsWithin self.now }
        ensures { MatchResult result
            (λ nanos. (read_refusal self.now clock reading ≡ None)
            × (pos nanos ≡ base_value self.now clock reading) × (nanos < clock_end * 10 ^ 9))
            (λ refusal. read_refusal self.now clock reading ≡ Some refusal) }
    {
        if reading > self.desc.mask() {
            return Err(ReadError::Invalid);
        }
        let nanos = self.nanos_at(clock, reading);
        if nanos >= self.awake_origin(clock).limit {
            return Err(ReadError::Range);
        }
        Ok(nanos)
    }

    /// Returns a clock's time at a reading, in ns, also at or beyond its limit. If that is 2^63 ns
    /// or more, the result may be a different number of at least 2^63.
    #[inline(always)]
    fn nanos_at(&self, clock: ClockId, reading: u64) -> u64
        requires { IsWithin self.now }
        ensures { (line : Origin) → IsOrigin (awake self.now) clock line →
            IsNanos result (line_after self.now.counter line (base_cycles self.now reading)) }
    {
        match self.cycles_ahead(reading) {
            Some(cycles) => self.awake_origin(clock).nanos_after(&self.desc, cycles),
            None => self.nanos_at_last(clock),
        }
    }

    /// Returns a clock's time at the last reading, in ns. It is out of line, so that a read ahead
    /// of the last reading saves no register for it.
    #[cold]
    #[inline(never)]
    fn nanos_at_last(&self, clock: ClockId) -> u64
        requires { IsWithin self.now }
        ensures { (line : Origin) → IsOrigin (awake self.now) clock line →
            IsNanos result (line_after self.now.counter line 0) }
    {
        self.awake_origin(clock).nanos_after(&self.desc, 0)
    }
}
