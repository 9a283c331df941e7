//! Divides a long list into pieces, which threads convert in place.
//!
//! Then the calling thread checks the pieces in order. If a piece has a fault, the calling thread
//! converts the list again from the beginning of the first such piece to the fault. All indices are
//! places in the whole list, so a fault is returned as the keeper found it. `stages` makes new
//! lists.
ghost use Rattle.std.specs.Prelude.{◌≡◌, ◌+◌, ◌<◌, ◌≤◌, length, MatchResult};
ghost use Rattle.tk_keeper.specs.Trace.{AreValues, IsConverted, IsFault};
ghost use Rattle.tk_pieces.specs.Input.{of_input};
ghost use Rattle.tk_pieces.specs.Pieces.{ArePieces, IsPiece, IsTracedInPieces, IsTracedUpTo};

use crate::cost::piece_size;
use crate::input::Input;
use crate::stages::convert_in_stages;
use rayon::prelude::*;
use std::alloc::Allocator;
use std::marker::Sync;
use std::sync::atomic::{AtomicUsize, Ordering};
use std::thread::Threads;
use tk_clock::ClockId;
use tk_keeper::{Timekeeper, TraceError};

/// The first word of a piece with a fault. No clock reaches this value.
const REFUSED: u64 = u64::MAX;

/// Converts stamps to a clock's time, in ns since 1970 or since opening, by the journal as it was
/// at the front with the same index. `fronts` and `stamps` have the same length.
///
/// The result equals the result of `Timekeeper::trace`, allocated by `alloc`. If several threads
/// are likely to save time, the call uses them, at most two for each processor. They have ended
/// when it returns.
///
/// # Errors
///
/// `TraceError::Memory` if the result can't be allocated. The call reserves the result's capacity
/// before it converts any item; for an empty list it reserves none. Otherwise the error of the
/// first item with a fault in the whole list: `TraceError::Unknown`, `Folded`, `Invalid` or
/// `Range`, tested in this order.
pub fn trace_all<R: Threads + Sync, A: Allocator + Copy + Sync, B: Allocator>(
    alloc: B,
    rt: &R,
    keeper: &Timekeeper<A>,
    fronts: &[u64],
    stamps: &[u64],
    clock: ClockId,
) -> Result<Vec<u64, B>, TraceError>
    requires { length fronts.now ≡ length stamps.now }
    ensures { MatchResult result
        (λ values. IsConverted keeper.now.journal clock fronts.now stamps.now values.items)
        (λ error. IsFault keeper.now.journal clock fronts.now stamps.now error) }
{
    let input = Input {
        keeper,
        fronts,
        stamps,
        clock,
    };
    let Some(size) = piece_size(rt, input) else {
        return keeper.trace_in(alloc, fronts, stamps, clock);
    };
    let Ok(values) = Vec::with_capacity(alloc, stamps.len()) else {
        return Err(TraceError::Memory);
    };
    convert_in_stages(rt, size, input, values)
}

/// Converts stamps as `trace_all` does, and writes the values to `out`. All three slices have the
/// same length.
///
/// # Errors
///
/// Returns the error of the first item with a fault in the whole list: `TraceError::Unknown`,
/// `Folded`, `Invalid` or `Range`, tested in this order. In this case the items before it are
/// written, and the contents of the rest of `out` are unspecified.
pub fn trace_all_into<R: Threads + Sync, A: Allocator + Copy + Sync>(
    rt: &R,
    keeper: &Timekeeper<A>,
    fronts: &[u64],
    stamps: &[u64],
    clock: ClockId,
    out: &mut [u64],
) -> Result<(), TraceError>
    requires beside { length fronts.now ≡ length stamps.now }
    requires room { length stamps.now ≡ length out.old }
    ensures { IsTracedInPieces keeper.now.journal clock fronts.now stamps.now out.new result }
{
    let input = Input {
        keeper,
        fronts,
        stamps,
        clock,
    };
    if let Some(size) = piece_size(rt, input) {
        return trace_in_pieces(rt, size, input, 0, out);
    }
    keeper.trace_into(fronts, stamps, clock, out)
}

/// Converts the stamps starting at index `first`, as far as `out` reaches, in pieces of `size`
/// items, for any number of items. `out` contains the values of the items before `first` already.
pub(crate) fn trace_in_pieces<R: Threads + Sync, A: Allocator + Copy + Sync>(
    rt: &R,
    size: usize,
    input: Input<'_, A>,
    first: usize,
    out: &mut [u64],
) -> Result<(), TraceError>
    requires filled { 0 < size }
    requires inside { length out.old ≤ length input.stamps.now }
    requires order { first ≤ length out.old }
    requires so_far { of_input AreValues input first out.old }
    ensures { of_input (IsTracedUpTo (length out.old)) input.entry out.new result }
{
    let (_, rest) = out.split_at_mut(first);
    convert_pieces(rt, size, input, first, rest);
    let count = out.len();
    let mut at = first;
    'pieces: while at < count {
        if out[at] >= REFUSED {
            let keeper = input.keeper;
            return keeper.trace_from(input.fronts, input.stamps, input.clock, at, out);
        }
        if count - at <= size {
            break;
        }
        at += size;
    }
    Ok(())
}

/// Converts the items starting at index `first` into `out`, all pieces in parallel. After a piece
/// with a fault, it only marks the later ones.
fn convert_pieces<R: Threads + Sync, A: Allocator + Copy + Sync>(
    rt: &R,
    size: usize,
    input: Input<'_, A>,
    first: usize,
    out: &mut [u64],
)
    requires filled { 0 < size }
    requires inside { first + length out.old ≤ length input.stamps.now }
    ensures { of_input (ArePieces size first) input.entry out.new }
{
    let refused = AtomicUsize::new(usize::MAX);
    par_chunks_mut_for_each(
        rt,
        out,
        size,
        |at: usize, piece: &mut [u64]|
            requires { (0 < length piece.old)
                × (first + at + length piece.old ≤ length input.stamps.now) }
            ensures { of_input IsPiece input.entry (first + at) piece.new }
        { convert_piece(input, first, at, &refused, piece) },
    );
}

/// Converts the piece that begins `at` items after index `first`, and marks it if one of its items
/// has a fault. `refused` is the value of `at` of a piece with a fault, if one was found: pieces
/// after it are only marked.
fn convert_piece<A: Allocator + Copy>(
    input: Input<'_, A>,
    first: usize,
    at: usize,
    refused: &AtomicUsize,
    piece: &mut [u64],
)
    requires filled { 0 < length piece.old }
    requires inside { first + at + length piece.old ≤ length input.stamps.now }
    ensures { of_input IsPiece input.entry (first + at) piece.new }
{
    let start = first + at;
    let end = start + piece.len();
    if at <= refused.load(Ordering::SeqCst) {
        let (fronts, stamps) = (&input.fronts[start..end], &input.stamps[start..end]);
        match input.keeper.trace_into(fronts, stamps, input.clock, piece) {
            Ok(()) => return,
            Err(_) => refused.store(at, Ordering::SeqCst),
        }
    }
    piece[0] = REFUSED;
}
