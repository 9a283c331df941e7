//! Makes snapshots of past fronts: from the nearest kept state at or before the front, or from the
//! clocks of an earlier front if they are nearer.
ghost use Rattle.std.specs.Prelude.{◌≡◌, ◌+◌, ◌<◌, ◌≤◌, length, IfOk};
ghost use Rattle.tk_clock.specs.Journal.{prefix};
ghost use Rattle.tk_clock.specs.State.{state_of};
ghost use Rattle.tk_keeper.specs.Keeper.{ReadsAs};
ghost use Rattle.tk_keeper.specs.Past.{IsAt, IsSnapshotAt, at_front};

use super::{KEPT_EVERY, Timekeeper};
use crate::front_error::FrontError;
use std::alloc::Allocator;
use tk_clock::{Clock, Snapshot};

/// The clocks after the first `place` of the listed entries, from which the clocks at later places
/// are computed.
#[derive(Drop)]
pub(super) struct Cursor {
    clock: Clock,
    place: usize,
}

impl<A: Allocator + Copy> Timekeeper<A> {
    /// Returns the snapshot as it was when `front` commands were accepted. Applies at most 255
    /// commands again.
    ///
    /// # Errors
    ///
    /// - `FrontError::Unknown` if `front` is above `len()`.
    /// - `FrontError::Folded` if `front` is below `folded()`.
    pub fn snapshot_at(&self, front: u64) -> Result<Snapshot, FrontError>
        ensures answer { IsSnapshotAt self.now.journal front result }
        ensures clocks { IfOk result
            (λ snapshot. ReadsAs (at_front front self.now.journal) snapshot.base) }
    {
        self.snapshot_by(&mut self.beginning(), front)
    }

    /// Returns the number of folded commands. A front below it has no snapshot.
    pub fn folded(&self) -> u64
        ensures { result ≡ self.now.journal.opening.count }
    {
        self.folded
    }

    /// Returns the snapshot of a front, as `snapshot_at` does, and moves a cursor to the front. If
    /// the front is refused, the cursor doesn't move.
    pub(super) fn snapshot_by(
        &self,
        cursor: &mut Cursor,
        front: u64,
    ) -> Result<Snapshot, FrontError>
        requires cursor { IsAt self.now.journal cursor.old }
        ensures cursor { IsAt self.now.journal cursor.new }
        ensures answer { IsSnapshotAt self.now.journal front result }
        ensures clocks { IfOk result
            (λ snapshot. ReadsAs (at_front front self.now.journal) snapshot.base) }
    {
        if front > self.len() as u64 {
            return Err(FrontError::Unknown);
        }
        if front < self.folded {
            return Err(FrontError::Folded);
        }
        self.move_to(cursor, (front - self.folded) as usize);
        Ok(cursor.clock.snapshot(front))
    }

    /// Returns the clocks after the first `place` of the listed entries.
    pub(super) fn clock_at(&self, place: usize) -> Clock
        requires { place ≤ length self.now.journal.entries }
        ensures { result ≡ state_of (prefix place self.now.journal) }
    {
        let mut cursor = self.beginning();
        self.move_to(&mut cursor, place);
        cursor.clock
    }

    /// Returns a cursor at the opening, before all listed entries.
    pub(super) fn beginning(&self) -> Cursor
        ensures { IsAt self.now.journal result }
    {
        self.nearest(0)
    }

    /// Moves a cursor to a place. Applies at most 255 entries again.
    fn move_to(&self, cursor: &mut Cursor, place: usize)
        requires cursor { IsAt self.now.journal cursor.old }
        requires listed { place ≤ length self.now.journal.entries }
        ensures clock { cursor.new.clock ≡ state_of (prefix place self.now.journal) }
        ensures place { cursor.new.place ≡ place }
    {
        self.approach(cursor, place);
        self.replay(&mut cursor.clock, cursor.place, place);
        cursor.place = place;
    }

    /// Moves a cursor to the nearest kept clocks at or before a place, unless the cursor is already
    /// between these clocks and the place.
    fn approach(&self, cursor: &mut Cursor, place: usize)
        requires cursor { IsAt self.now.journal cursor.old }
        requires listed { place ≤ length self.now.journal.entries }
        ensures cursor { IsAt self.now.journal cursor.new }
        ensures before { cursor.new.place ≤ place }
        ensures near { place < cursor.new.place + 256 }
    {
        if place < cursor.place || cursor.place < self.kept_before(place) {
            *cursor = self.nearest(place);
        }
    }

    /// Returns the place of the last kept state at or before a place, or 0 if there is none.
    fn kept_before(&self, place: usize) -> usize
        requires { place ≤ length self.now.journal.entries }
        ensures { place < result + 256 }
    {
        let folded = self.folded as usize;
        let number = (folded + place) / KEPT_EVERY * KEPT_EVERY;
        number.saturating_sub(folded)
    }

    /// Returns a cursor at the last kept state at or before a place, or at the opening if there is
    /// none.
    fn nearest(&self, place: usize) -> Cursor
        requires { place ≤ length self.now.journal.entries }
        ensures cursor { IsAt self.now.journal result }
        ensures before { result.place ≤ place }
        ensures near { place < result.place + 256 }
    {
        let folded = self.folded as usize;
        let kept = (folded + place) / KEPT_EVERY - folded / KEPT_EVERY;
        if kept == 0 {
            return Cursor {
                clock: self.start,
                place: 0,
            };
        }
        let number = (folded + place) / KEPT_EVERY * KEPT_EVERY;
        Cursor {
            clock: self.kept.row(kept - 1).clock,
            place: number - folded,
        }
    }
}
