//! Converts lists of stamps to clock time, each stamp by the journal as it was at its front.
ghost use Rattle.std.specs.Prelude.{◌≡◌, ℕ, ◌+◌, ◌<◌, ◌≤◌, ◌≤ℤ◌, pos, length, slice_index, vec_len, vec_capacity, Err, IsTrue, MatchResult};
ghost use Rattle.tk_clock.specs.State.{base_value};
ghost use Rattle.tk_clock.specs.declared.clock_id.ClockId.{ClockId};
ghost use Rattle.tk_keeper.specs.Item.{item};
ghost use Rattle.tk_keeper.specs.Past.{IsAt};
ghost use Rattle.tk_keeper.specs.Trace.{AreValues, IsWritten, IsFirstFault, IsConverted, IsFault, IsTraced, IsTracedTo, ConvertsItems};

use super::Timekeeper;
use super::past::Cursor;
use crate::trace_error::TraceError;
use std::alloc::Allocator;
use std::simd::prelude::*;
use tk_clock::{ClockId, Snapshot};
use tk_lanes::lane_batch;

/// The number of items of a new list that are made at a time. The zeros of one part are still in
/// the nearest cache when the values overwrite them.
const PART: usize = 256;

/// The number of fronts that are compared at a time.
const LANES: usize = 8;

impl<A: Allocator + Copy> Timekeeper<A> {
    /// Converts each stamp to a clock's time, in ns since 1970 or since opening, by the journal as
    /// it was at the front with the same index. `fronts` and `stamps` have the same length.
    ///
    /// # Errors
    ///
    /// `TraceError::Memory` if the result can't be allocated. The call reserves the result's
    /// capacity before it examines any item. Otherwise it returns the error of the first item with
    /// a fault, by the first of these tests that fails:
    ///
    /// - `TraceError::Unknown` if its front is above `len()`.
    /// - `TraceError::Folded` if its front is below `folded()`.
    /// - `TraceError::Invalid` if its stamp is above the mask.
    /// - `TraceError::Range` if the clock is at its limit or beyond it.
    pub fn trace(
        &self,
        fronts: &[u64],
        stamps: &[u64],
        clock: ClockId,
    ) -> Result<Vec<u64, A>, TraceError>
        requires { length fronts.now ≡ length stamps.now }
        ensures { MatchResult result
            (λ values. IsConverted self.now.journal clock fronts.now stamps.now values.items)
            (λ error. IsFault self.now.journal clock fronts.now stamps.now error) }
    {
        self.trace_in(*self.entries.allocator(), fronts, stamps, clock)
    }

    /// Converts the stamps as `trace` does, into a list that `alloc` allocates.
    ///
    /// # Errors
    ///
    /// Returns the same errors as `trace`, in the same order.
    pub fn trace_in<B: Allocator>(
        &self,
        alloc: B,
        fronts: &[u64],
        stamps: &[u64],
        clock: ClockId,
    ) -> Result<Vec<u64, B>, TraceError>
        requires { length fronts.now ≡ length stamps.now }
        ensures { MatchResult result
            (λ values. IsConverted self.now.journal clock fronts.now stamps.now values.items)
            (λ error. IsFault self.now.journal clock fronts.now stamps.now error) }
    {
        if stamps.is_empty() {
            return Ok(Vec::new(alloc));
        }
        let Ok(mut values) = Vec::with_capacity(alloc, stamps.len()) else {
            return Err(TraceError::Memory);
        };
        let mut cursor = self.beginning();
        let mut current = (fronts[0], self.item_snapshot(&mut cursor, 0, fronts[0])?);
        let mut first = 0;
        'runs: while first < stamps.len() {
            make_room(&mut values, first, stamps.len());
            self.bring_to(&mut cursor, &mut current, first, fronts[first])?;
            let out = values.as_mut_slice();
            first = self.trace_run(&current.1, clock, fronts, stamps, first, out)?;
        }
        Ok(values)
    }

    /// Converts the stamps as `trace` does, and writes the values to `out`. All three slices have
    /// the same length.
    ///
    /// # Errors
    ///
    /// Returns the error of the first item with a fault, as `trace` does, but never
    /// `TraceError::Memory`. The items before it are written, and the rest of `out` doesn't change.
    pub fn trace_into(
        &self,
        fronts: &[u64],
        stamps: &[u64],
        clock: ClockId,
        out: &mut [u64],
    ) -> Result<(), TraceError>
        requires beside { length fronts.now ≡ length stamps.now }
        requires room { length stamps.now ≡ length out.old }
        ensures { IsTraced self.now.journal clock fronts.now stamps.now out.old out.new result }
    {
        self.trace_from(fronts, stamps, clock, 0, out)
    }

    /// Goes on with `trace_into`: converts the stamps starting at index `first`, as far as `out`
    /// reaches. `out` contains the values of the items before `first` already, at their own places.
    ///
    /// # Errors
    ///
    /// Returns the error of the first item with a fault, as `trace_into` does, with its index in
    /// the whole list. The items before it are written, and the rest of `out` doesn't change.
    pub fn trace_from(
        &self,
        fronts: &[u64],
        stamps: &[u64],
        clock: ClockId,
        first: usize,
        out: &mut [u64],
    ) -> Result<(), TraceError>
        requires beside { length fronts.now ≡ length stamps.now }
        requires inside { length out.old ≤ length stamps.now }
        requires order { first ≤ length out.old }
        requires so_far { AreValues self.now.journal clock fronts.now stamps.now first out.old }
        ensures { IsTracedTo (length out.old) self.now.journal clock fronts.now stamps.now
            out.old out.new result }
    {
        let mut cursor = self.beginning();
        let mut first = first;
        'stretches: while first < out.len() {
            let snapshot = self.item_snapshot(&mut cursor, first, fronts[first])?;
            first = self.trace_run(&snapshot, clock, fronts, stamps, first, out)?;
        }
        Ok(())
    }

    /// Converts the items of one front that begin at `first`, as far as `out` reaches, by the
    /// front's snapshot. Returns the index after the last of them. The items before `first` are
    /// written already.
    fn trace_run(
        &self,
        snapshot: &Snapshot,
        clock: ClockId,
        fronts: &[u64],
        stamps: &[u64],
        first: usize,
        out: &mut [u64],
    ) -> Result<usize, TraceError>
        requires beside { length fronts.now ≡ length stamps.now }
        requires room { first < length out.old }
        requires inside { length out.old ≤ length stamps.now }
        requires so_far { AreValues self.now.journal clock fronts.now stamps.now first out.old }
        requires converts { ConvertsItems self.now.journal (slice_index fronts.now first)
            snapshot.now.base }
        ensures { MatchResult result
            (λ end. (first < end) × (end ≤ length out.old)
            × IsWritten self.now.journal clock fronts.now stamps.now end out.old out.new)
            (λ error. (index : ℕ) × (first ≤ index)
            × IsFirstFault self.now.journal clock fronts.now stamps.now index error
            × IsWritten self.now.journal clock fronts.now stamps.now index out.old out.new) }
    {
        let end = stretch_end(fronts, first, out.len());
        match lane_batch(snapshot, clock, &stamps[first..end], &mut out[first..end]) {
            Ok(()) => Ok(end),
            Err(error) => Err(TraceError::of_batch(first, error)),
        }
    }

    /// Replaces a front and its snapshot by the front of the item at `index` and its snapshot, if
    /// the front differs.
    fn bring_to(
        &self,
        cursor: &mut Cursor,
        current: &mut (u64, Snapshot),
        index: usize,
        front: u64,
    ) -> Result<(), TraceError>
        requires cursor { IsAt self.now.journal cursor.old }
        requires converts { ConvertsItems self.now.journal current.old.0 current.old.1.base }
        ensures cursor { IsAt self.now.journal cursor.new }
        ensures converts { MatchResult result
            (λ _. (current.new.0 ≡ front) × ConvertsItems self.now.journal front current.new.1.base)
            (λ error. (clock : ClockId) (stamp : ℕ) →
            item self.now.journal clock index front stamp ≡ Err error) }
    {
        if current.0 != front {
            *current = (front, self.item_snapshot(cursor, index, front)?);
        }
        Ok(())
    }

    /// Returns the snapshot that converts the items of a front, or the fault of the front.
    fn item_snapshot(
        &self,
        cursor: &mut Cursor,
        index: usize,
        front: u64,
    ) -> Result<Snapshot, TraceError>
        requires cursor { IsAt self.now.journal cursor.old }
        ensures cursor { IsAt self.now.journal cursor.new }
        ensures converts { MatchResult result
            (λ snapshot. ConvertsItems self.now.journal front snapshot.base)
            (λ error. (clock : ClockId) (stamp : ℕ) →
            item self.now.journal clock index front stamp ≡ Err error) }
    {
        match self.snapshot_by(cursor, front) {
            Ok(snapshot) => {
                never_negative(&snapshot);
                Ok(snapshot)
            }
            Err(error) => Err(TraceError::of_front(index, error)),
        }
    }
}

/// Appends zeros for the next part of a list of `all` items, if the list ends at `first`. The
/// capacity for all items is reserved already.
fn make_room<A: Allocator>(values: &mut Vec<u64, A>, first: usize, all: usize)
    requires order { first < all }
    requires made { first ≤ vec_len values.old }
    requires within { vec_len values.old ≤ all }
    requires room { all ≤ vec_capacity values.old }
    ensures further { first < vec_len values.new }
    ensures inside { vec_len values.new ≤ all }
    ensures room { all ≤ vec_capacity values.new }
    ensures same { (k : ℕ) → k < first →
        slice_index values.new.items k ≡ slice_index values.old.items k }
{
    if first < values.len() {
        return;
    }
    values.resize(first + PART.min(all - first), 0).unwrap();
}

/// Returns the end of the run of equal fronts that begins at index `first`, at most `end`.
fn stretch_end(fronts: &[u64], first: usize, end: usize) -> usize
    requires order { first < end }
    requires within { end ≤ length fronts.now }
    ensures further { first < result }
    ensures inside { result ≤ end }
    ensures same { (k : ℕ) → first ≤ k → k < result →
        slice_index fronts.now k ≡ slice_index fronts.now first }
{
    let front = fronts[first];
    let mut next = first + 1;
    'eights: while end - next >= LANES && is_each(fronts, next, front) {
        next += LANES;
    }
    for place in next..end {
        if fronts[place] != front {
            return place;
        }
    }
    end
}

/// Returns whether the eight fronts starting at index `at` all equal `front`.
fn is_each(fronts: &[u64], at: usize, front: u64) -> bool
    requires { at + 8 ≤ length fronts.now }
    ensures { IsTrue result → (k : ℕ) → at ≤ k → k < at + 8 →
        slice_index fronts.now k ≡ front }
{
    let others = u64x8::from_slice(&fronts[at..]).simd_ne(u64x8::splat(front));
    others.to_bitmask() == 0
}

/// Proves that no clock of a snapshot has a negative value, since none of its offsets is negative.
fn never_negative(snapshot: &Snapshot)
    ensures { (clock : ClockId) (reading : ℕ) →
        pos 0 ≤ℤ base_value snapshot.now.base clock reading }
{
    let _ = (
        snapshot.real_offset(),
        snapshot.boot_offset(),
        snapshot.tai(),
    );
}
