ghost use Rattle.std.specs.Prelude.{◌≡◌, ◌<◌, ◌≤◌, pos, IfOk, MatchResult, MatchOption, Some, None};

mod applying;
mod folding;
mod seconds;

use std::alloc::{Allocator, Global};
use std::marker::Model;
use tk_clock::{Refusal, Timespec};
use tk_counter::CounterDesc;
use tk_keeper::Timekeeper;
use tk_ntp::{Course, SteeredClock};

/// Keeps the clocks of one counter, steered by a discipline, and the journal of all commands that
/// they are given: those of its callers, and those that the discipline gives.
///
/// It has no source of time: the caller passes the counter's reading with each call. It contains no
/// lock.
#[derive(Drop)]
pub struct Steered<A: Allocator = Global> {
    /// Contains the clocks and their journal.
    keeper: Timekeeper<A>,
    /// Contains the course of their discipline.
    course: Course,
    /// Contains a number of cycles. At a reading that is fewer cycles after the last one, the next
    /// second hasn't begun. 0 says nothing.
    early: u64,
}

impl<A: Allocator> Model for Steered<A> {
    ghost use Rattle.tk_keeper.specs.Room.{keeper_state};
    ghost use Rattle.tk_ntp.specs.Course.{seen};
    ghost use Rattle.tk_ntp.specs.Early.{IsEarlyBy};
    ghost use Rattle.tk_steered.specs.Kept.{SteeredKeeper};

    ghost Value = { SteeredKeeper };

    ghost view = { λ a. record { keeper = a.keeper; course = a.course } };

    ghost invariant = { λ a. IsEarlyBy a.early (seen (keeper_state a.keeper) a.course) };
}

impl<A: Allocator + Copy> Steered<A> {
    ghost use Rattle.tk_clock.specs.declared.clock_id.ClockId.TheVariants.{Realtime};
    ghost use Rattle.tk_clock.specs.declared.refusal.Refusal.TheVariants.{Invalid};
    ghost use Rattle.tk_clock.specs.Legal.{IsLegal};
    ghost use Rattle.tk_clock.specs.Limits.{counted_most};
    ghost use Rattle.tk_clock.specs.Reach.{IsFirstReached, IsNeverReached};
    ghost use Rattle.tk_clock.specs.Time.{nanoseconds};
    ghost use Rattle.tk_keeper.specs.Room.{keeper_state};
    ghost use Rattle.tk_ntp.specs.Account.{owed, IsConsistent};
    ghost use Rattle.tk_ntp.specs.Advance.{second_time};
    ghost use Rattle.tk_ntp.specs.SteeredClock.{steered_refusal};
    ghost use Rattle.tk_steered.specs.Kept.{kept_from, kept_opened, steered_of};

    /// Opens the clocks of the counter `desc` at `reading`, in cycles, with an empty journal and a
    /// fresh discipline. They are awake and at their usual rate, MONOTONIC is 0 and REALTIME is
    /// `real`. Later calls allocate from `alloc`.
    ///
    /// `hz` is the number of parts of a second that phases are divided into, as in
    /// `Discipline::new`.
    ///
    /// # Errors
    ///
    /// `Refusal::Invalid`: the errors of `SteeredClock::open`.
    pub fn open(
        alloc: A,
        desc: CounterDesc,
        reading: u64,
        real: Timespec,
        hz: u32,
    ) -> Result<Steered<A>, Refusal>
        ensures answer { MatchResult result
            (λ steered. (steered_refusal desc reading real hz ≡ None)
            × (steered ≡ kept_opened desc reading real hz))
            (λ refusal. steered_refusal desc reading real hz ≡ Some refusal) }
        ensures consistent { IfOk result (λ steered. IsConsistent (steered_of steered)) }
        ensures nothing { IfOk result (λ steered. owed (steered_of steered) ≡ pos 0) }
    {
        let keeper = Timekeeper::open(alloc, desc, reading, real)?;
        let clock = SteeredClock::open(desc, reading, real, hz)?;
        Ok(Steered {
            keeper,
            course: clock.course(),
            early: 0,
        })
    }

    /// Opens a keeper for steered clocks that run already, with an empty journal. `front` is the
    /// number of commands that are counted as accepted before: the next command has the number
    /// `front + 1`. The clocks and their discipline stay as they are. Later calls allocate from
    /// `alloc`.
    ///
    /// The clocks may come from `SteeredClock::from_numbers`, for example, or from
    /// `SteeredClock::open_at`.
    ///
    /// # Errors
    ///
    /// `Refusal::Invalid` if `front` is above `2^63 - 1`.
    pub fn open_from(alloc: A, steered: SteeredClock, front: u64) -> Result<Steered<A>, Refusal>
        ensures answer { MatchResult result
            (λ opened. (front ≤ counted_most) × (opened ≡ kept_from front steered))
            (λ refusal. (counted_most < front) × (refusal ≡ Invalid)) }
        ensures clocks { IfOk result (λ opened. steered_of opened ≡ steered) }
    {
        let keeper = Timekeeper::open_from(alloc, steered.clock(), front)?;
        Ok(Steered {
            keeper,
            course: steered.course(),
            early: 0,
        })
    }

    /// Returns the clocks with their journal: `get`, `snapshot`, `snapshot_at`, `trace`, `entry`
    /// and `len` are its calls.
    pub fn keeper(&self) -> &Timekeeper<A>
        ensures keeper { result.now ≡ self.now.keeper }
        ensures legal { IsLegal self.now.keeper.began self.now.keeper.journal }
    {
        let keeper = &self.keeper;
        // its journal is legal
        let _ = keeper.len();
        keeper
    }

    /// Returns the clocks with their journal, and ends the steering: later commands, if any, are
    /// those of the caller. The rate in force stays.
    pub fn into_keeper(self) -> Timekeeper<A>
        ensures keeper { result ≡ self.keeper }
        ensures legal { IsLegal self.keeper.began self.keeper.journal }
    {
        let keeper = self.keeper;
        // its journal is legal
        let _ = keeper.len();
        keeper
    }

    /// Returns the same clocks with their discipline: `rate`, `numbers` and `is_next_further` are
    /// its calls. A change of the returned copy doesn't change these clocks.
    pub fn clock(&self) -> SteeredClock
        ensures { result ≡ steered_of self.now }
    {
        SteeredClock::with_course(*self.keeper.clock(), self.course)
    }

    /// Returns the first reading, in cycles, at which the next second of REALTIME has begun: the
    /// one to set a timer to (`SteeredClock::next_second`).
    pub fn next_second(&self) -> Option<u64>
        ensures { let base = (keeper_state self.now.keeper).base in
            let nanos = nanoseconds (second_time self.now.course.next) in
            MatchOption result
            (IsNeverReached base Realtime nanos)
            (λ reading. IsFirstReached base Realtime nanos reading) }
    {
        self.course.next_second(self.keeper.clock())
    }
}
