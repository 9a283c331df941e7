//! Finds the reading at which the next second of REALTIME begins.
ghost use Rattle.std.specs.Prelude.{◌≡◌, ◌<◌, ◌↔◌, true, IsTrue, MatchResult, MatchOption, Some, None, pos};
ghost use Rattle.tk_clock.specs.declared.clock_id.ClockId.TheVariants.{Realtime};
ghost use Rattle.tk_clock.specs.Further.{IsFurther};
ghost use Rattle.tk_clock.specs.Limits.{clock_end};
ghost use Rattle.tk_clock.specs.Reach.{IsFirstReached, IsNeverReached};
ghost use Rattle.tk_clock.specs.Time.{nanoseconds};
ghost use Rattle.tk_ntp.specs.Advance.{second_time, IsDue, IsNoneDue};
ghost use Rattle.tk_ntp.specs.Course.{seen};
ghost use Rattle.tk_ntp.specs.Early.{IsEarlyFor, IsToSecond};
ghost use Rattle.tk_ntp.specs.Staged.{IsEarly, IsInOrder, IsSettled};
ghost use Rattle.tk_ntp.specs.SteeredClock.{reading_refusal};

use super::Course;
use crate::lag::FEW_CYCLES;
use tk_clock::{Clock, ClockId, Refusal, Timespec};
use tk_counter::NANOS_PER_SECOND;

impl Course {
    /// Tests a reading: returns the errors of `SteeredClock::advance`.
    pub fn test(&self, clock: &Clock, reading: u64) -> Result<(), Refusal>
        ensures { MatchResult result
            (λ _. reading_refusal reading (seen clock.now self.now) ≡ None)
            (λ refusal. reading_refusal reading (seen clock.now self.now) ≡ Some refusal) }
    {
        clock.test_update(reading)?;
        if self.is_behind(clock, reading) {
            return Err(Refusal::Behind);
        }
        Ok(())
    }

    /// Returns whether a reading is of the usual kind: few cycles after the last account, which is
    /// at the last command, and before the next second.
    #[inline(always)]
    pub(super) fn is_soon(&self, clock: &Clock, reading: u64) -> bool
        ensures { result ≡ true → IsSettled (seen clock.now self.now) reading }
    {
        let now = clock.snapshot(0);
        self.last_account == now.last()
            && now.desc().gap(now.last(), reading) < FEW_CYCLES
            && self.is_settled(clock, reading)
    }

    /// Returns whether the clocks are awake, and a read shows that REALTIME is before the next second
    /// at `reading`, which is behind neither the last command nor the last account. No reading is
    /// searched for.
    #[inline(always)]
    pub fn is_settled(&self, clock: &Clock, reading: u64) -> bool
        ensures exact { let steered = seen clock.now self.now in
            IsTrue result ↔ (IsEarly steered reading × IsInOrder steered reading) }
        ensures settled { result ≡ true → IsSettled (seen clock.now self.now) reading }
    {
        self.is_early(clock, reading) && !self.is_behind(clock, reading)
    }

    /// Returns the reading at which the next second of REALTIME begins, if it is not after
    /// `reading`.
    pub(crate) fn due(&self, clock: &Clock, reading: u64) -> Option<u64>
        ensures answer { let steered = seen clock.now self.now in
            MatchOption result
            (IsNoneDue steered reading)
            (λ at. IsDue steered reading at) }
        ensures early { MatchOption result (Unit {0}) (λ _. self.now.next < clock_end) }
    {
        if self.is_early(clock, reading) {
            return None;
        }
        self.search_due(clock, reading)
    }

    /// Returns whether a read shows that REALTIME is before the next second at `reading`, so that
    /// no second is due. A read needs no division.
    #[inline(always)]
    fn is_early(&self, clock: &Clock, reading: u64) -> bool
        ensures exact { IsTrue result ↔ IsEarly (seen clock.now self.now) reading }
        ensures none { result ≡ true → IsNoneDue (seen clock.now self.now) reading }
    {
        let now = clock.snapshot(0);
        if now.asleep() {
            return false;
        }
        if now.desc().is_behind(now.desc().gap(now.last(), reading)) {
            return false;
        }
        match now.nanos(ClockId::Realtime, reading) {
            Ok(nanos) => nanos < self.next * NANOS_PER_SECOND,
            Err(_) => false,
        }
    }

    /// Returns the result of `due`, by the reading of the next second.
    fn search_due(&self, clock: &Clock, reading: u64) -> Option<u64>
        ensures answer { let steered = seen clock.now self.now in
            MatchOption result
            (IsNoneDue steered reading)
            (λ at. IsDue steered reading at) }
        ensures early { MatchOption result (Unit {0}) (λ _. self.now.next < clock_end) }
    {
        let Some(at) = self.next_second(clock) else {
            return None;
        };
        let now = clock.snapshot(0);
        if now.desc().gap(now.last(), reading) < now.desc().gap(now.last(), at) {
            return None;
        }
        Some(at)
    }

    /// Returns the first reading, in cycles, at which the next second of REALTIME has begun
    /// (`SteeredClock::next_second`).
    pub fn next_second(&self, clock: &Clock) -> Option<u64>
        ensures { let nanos = nanoseconds (second_time self.now.next) in
            MatchOption result
            (IsNeverReached clock.now.base Realtime nanos)
            (λ reading. IsFirstReached clock.now.base Realtime nanos reading) }
    {
        clock.reading_at(ClockId::Realtime, self.next_time())
    }

    /// Returns whether the next second of REALTIME is further away than `next_second` searches
    /// (`SteeredClock::is_next_further`).
    pub fn is_next_further(&self, clock: &Clock) -> bool
        ensures { let nanos = nanoseconds (second_time self.now.next) in
            IsTrue result ↔ IsFurther clock.now.base Realtime nanos }
    {
        clock.is_further(ClockId::Realtime, self.next_time())
    }

    /// Returns a number of cycles: no second is due at readings that are fewer cycles after the last
    /// one. They are those to the beginning of the next second, or one more than the longest gap.
    pub fn cycles_to_second(&self, clock: &Clock) -> u64
        ensures exact { IsToSecond result (seen clock.now self.now) }
        ensures early { IsEarlyFor result (seen clock.now self.now) }
    {
        let now = clock.snapshot(0);
        match self.next_second(clock) {
            Some(at) => now.desc().gap(now.last(), at),
            None => now.desc().half() + 1,
        }
    }

    /// Returns the beginning of the second of REALTIME that begins next, as a time.
    fn next_time(&self) -> Timespec
        ensures { result ≡ second_time self.now.next }
    {
        Timespec {
            sec: self.next as i64,
            nsec: 0,
        }
    }
}
