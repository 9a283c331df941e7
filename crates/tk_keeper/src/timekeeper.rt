ghost use Rattle.std.specs.Prelude.{◌≡◌, ◌≤◌};

mod applying;
mod changing;
mod folding;
mod giving;
mod latest;
mod opening;
mod past;
mod replaying;
mod running;
mod tracing;

use crate::ring::Ring;
pub use latest::time_of;
use std::alloc::{Allocator, Global};
use std::marker::Model;
use tk_clock::{Clock, ClockId, Entry, ReadError, Snapshot, Timespec};

/// The most entries that a journal lists.
pub const LISTED_LIMIT: usize = 1_048_576;

/// The most entries that a full journal is folded to by `--keep`: half of those that it lists, so
/// that at least as many commands are accepted before the next fold.
pub const KEEP_LIMIT: u64 = LISTED_LIMIT as u64 / 2;

/// The number of commands from one kept copy of the clocks to the next: one is kept after each
/// entry whose number is a multiple of this.
pub const KEPT_EVERY: usize = 256;

/// Keeps the clocks of one counter, and the journal of all accepted commands (the kernel's
/// `struct timekeeper`).
///
/// Its journal is always legal, and its clocks are always in the state that follows from the
/// journal. It contains no lock: threads that share it must use one. It allocates from the
/// allocator that it was opened with.
#[derive(Drop)]
pub struct Timekeeper<A: Allocator = Global> {
    /// The clocks at the journal's opening.
    start: Clock,
    /// The number of commands accepted before the opening, which were folded.
    folded: u64,
    /// The commands accepted since the opening.
    entries: Ring<Entry, A>,
    /// The clocks after each entry whose number is a multiple of 256. The states at past fronts are
    /// computed from them.
    kept: Ring<Kept, A>,
    /// The clocks after the last accepted command.
    clock: Clock,
    /// The clocks that the keeper was opened for, if they ran already.
    given: Option<GivenClocks>,
}

/// Contains clocks that ran already when a keeper was opened for them.
#[derive(Clone, Copy, Debug)]
pub struct GivenClocks {
    /// The clocks.
    pub clock: Clock,
    /// The number of commands that are counted as accepted before.
    pub front: u64,
}

/// The clocks after an entry whose number is a multiple of `KEPT_EVERY`.
#[derive(Clone, Copy)]
struct Kept {
    clock: Clock,
    /// Whether the entries between the previous kept clocks and this entry are a run: the clocks
    /// after any of them follow from the previous kept clocks and that entry only. The value counts
    /// only if all of these entries are listed.
    after_run: bool,
}

impl<A: Allocator> Model for Timekeeper<A> {
    ghost use Rattle.std.specs.Prelude.{◌+◌, ◌-◌, length};
    ghost use Rattle.tk_clock.specs.Folding.{journal_from};
    ghost use Rattle.tk_keeper.specs.Keeper.{Keeper, IsKept, HasKept, began_with, room_for};

    ghost Value = { Keeper };

    ghost view = { λ a. record {
      journal = journal_from a.folded a.start a.entries.items;
      began = began_with a.given;
      spare = room_for (a.entries.capacity - length a.entries.items)
          (a.kept.capacity - length a.kept.items) (a.folded + length a.entries.items);
    } };

    ghost invariant = { λ a.
        IsKept (began_with a.given) (journal_from a.folded a.start a.entries.items) a.clock
        × HasKept (journal_from a.folded a.start a.entries.items) a.start a.kept.items };
}

impl<A: Allocator> Timekeeper<A> {
    /// Returns the allocator that the keeper was opened with.
    pub fn allocator(&self) -> &A {
        self.entries.allocator()
    }
}

impl<A: Allocator + Copy> Timekeeper<A> {
    ghost use Rattle.tk_clock.specs.Journal.{accepted_count};
    ghost use Rattle.tk_clock.specs.Legal.{IsLegal};
    ghost use Rattle.tk_clock.specs.Limits.{counted_most};
    ghost use Rattle.tk_clock.specs.Snapshot.{snapshot_of};
    ghost use Rattle.tk_clock.specs.State.{state_of};
    ghost use Rattle.tk_keeper.specs.Keeper.{began_with, entry_at, ReadsAs, CountsTrue};
    ghost use Rattle.tk_keeper.specs.Read.{IsRead};

    /// Returns the number of accepted commands, the folded ones included: the current front.
    pub fn len(&self) -> usize
        ensures value { result ≡ accepted_count self.now.journal }
        ensures most { result ≤ counted_most }
        ensures legal { IsLegal self.now.began self.now.journal }
    {
        self.folded as usize + self.entries.len()
    }

    /// Returns the clocks that the keeper was opened for, and the number of commands that were
    /// counted as accepted before. `None` means that `open` opened its clocks.
    pub fn given(&self) -> Option<GivenClocks>
        ensures { began_with result ≡ self.now.began }
    {
        self.given
    }

    /// Returns the entry with this number, counted from 1.
    ///
    /// `None` means that the journal doesn't list it: `number` is 0, above `len()`, or at most
    /// `folded()`.
    pub fn entry(&self, number: u64) -> Option<Entry>
        ensures { result ≡ entry_at self.now.journal number }
    {
        if number <= self.folded {
            return None;
        }
        self.entries.get((number - self.folded - 1) as usize)
    }

    /// Returns the number of further commands that can be accepted without an allocation. It
    /// doesn't take the journal's limits into account: for a full journal it may be above 0.
    pub fn spare(&self) -> usize
        ensures { result ≡ self.now.spare }
    {
        let places = self.entries.spare();
        let kept = self.kept.spare();
        let until_kept = KEPT_EVERY - 1 - self.len() % KEPT_EVERY;
        places.min(kept.saturating_mul(KEPT_EVERY).saturating_add(until_kept))
    }

    /// Returns the running clocks.
    pub fn clock(&self) -> &Clock
        ensures { result.now ≡ state_of self.now.journal }
    {
        &self.clock
    }

    /// Returns the snapshot for readers: it gives every clock the journal's value at every reading.
    /// Use it up to the reading of the next accepted command. At a later reading it may return more
    /// than a later snapshot does.
    pub fn snapshot(&self) -> Snapshot
        ensures value { result ≡ snapshot_of self.now.journal }
        ensures legal { IsLegal self.now.began self.now.journal }
        ensures clocks { ReadsAs self.now.journal result.base }
        ensures honest { CountsTrue self.now.journal }
    {
        self.clock.snapshot(self.len() as u64)
    }

    /// Returns a clock's time at a reading, as the journal defines it (clock_gettime(2)): whole
    /// seconds since 1970 or since opening, and nanoseconds, rounded down.
    ///
    /// For a reading behind the last command's, it returns the value at that command. While the
    /// clocks are asleep it does so for every reading.
    ///
    /// # Errors
    ///
    /// - `ReadError::Invalid` if `reading` is above the mask.
    /// - `ReadError::Range` if the clock is at its limit or beyond it.
    pub fn get(&self, clock: ClockId, reading: u64) -> Result<Timespec, ReadError>
        ensures { IsRead self.now.journal clock reading result }
    {
        self.snapshot().get(clock, reading)
    }
}
