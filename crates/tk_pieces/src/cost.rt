//! Estimates the time of a trace, so that threads are started only if they save time.
//!
//! An item takes little time if its front equals the front of the item before it. Otherwise
//! commands of the journal are applied again: from the front before, or from one of the states that
//! the keeper keeps, one for each `KEPT_EVERY` commands. A sample of the fronts gives their number.
//! The times were measured on the machine that `bench/README.md` describes; no value of a trace
//! depends on them.
ghost use Rattle.std.specs.Prelude.{◌<◌, length, IfSome};

use crate::input::Input;
use rayon::current_num_threads;
use std::alloc::Allocator;
use std::thread::Threads;
use tk_clock::{Command, Entry};
use tk_keeper::KEPT_EVERY;

/// One thread converts lists of fewer items, so their time isn't estimated.
const ESTIMATED: usize = 1_024;

/// The fewest and the most fronts of a sample.
const LOOKS: (usize, usize) = (8, 256);

/// A sample contains one front for this many items.
const SAMPLED: usize = 256;

/// The golden ratio, in units of 2^-64. Its multiples spread evenly, and follow no pattern of the
/// list.
const GOLDEN: u64 = 0x9e37_79b9_7f4a_7c15;

/// The time of an item in ns.
const ITEM_NS: u64 = 2;

/// The additional time of an item whose front differs from the one before, in ns.
const SNAPSHOT_NS: u64 = 32;

/// The time to skip an update, and the time to apply another command, in ns.
const ENTRY_NS: (u64, u64) = (2, 16);

/// The shortest time, in ns, of a list that several threads convert. Starting them takes some
/// hundreds of µs, and more when the processors are busy.
const LONG_NS: u64 = 2_000_000;

/// The time of a piece in ns. Giving a piece to a thread takes a negligible part of it.
const PIECE_NS: u64 = 131_072;

/// The sizes of pieces are multiples of this number of items.
const LANES: usize = 32;

/// Returns the number of items of a piece, if several threads convert a list sooner than one does.
pub(crate) fn piece_size<R: Threads, A: Allocator + Copy>(
    rt: &R,
    input: Input<'_, A>,
) -> Option<usize>
    ensures { IfSome result (λ size. (0 < size) × (0 < length input.entry.stamps.now)) }
{
    let each_ns = estimated_ns(input);
    let count = input.stamps.len();
    let is_long = count >= ESTIMATED && each_ns.saturating_mul(count as u64) >= LONG_NS;
    if !is_long || current_num_threads(rt) <= 1 {
        return None;
    }
    let items = PIECE_NS / each_ns.max(1);
    Some((items as usize / LANES * LANES).max(LANES))
}

/// Estimates the time of an item, in ns.
fn estimated_ns<A: Allocator + Copy>(input: Input<'_, A>) -> u64 {
    let count = input.fronts.len();
    if count < ESTIMATED {
        return ITEM_NS;
    }
    let looks = (count / SAMPLED).clamp(LOOKS.0, LOOKS.1) as u64;
    let mut sum = 0u64;
    for look in 0..looks {
        let place = u128::from(look.wrapping_mul(GOLDEN)).wrapping_mul(count as u128) >> 64;
        sum = sum.saturating_add(change_ns(input, place as usize));
    }
    ITEM_NS.saturating_add(sum / looks.max(1))
}

/// Estimates the additional time of the item at a place, in ns: 0 if its front equals the front of
/// the item before it.
fn change_ns<A: Allocator + Copy>(input: Input<'_, A>, place: usize) -> u64 {
    let fronts = input.fronts;
    match (fronts.get(place.wrapping_sub(1)), fronts.get(place)) {
        (Some(before), Some(front)) if before != front => {
            let entries = entries_between(input, *before, *front);
            SNAPSHOT_NS.saturating_add(entries.saturating_mul(entry_ns(input, *front)))
        }
        _ => 0,
    }
}

/// Returns the number of commands that lead to a front, if the clocks are at the front `before`.
fn entries_between<A: Allocator + Copy>(input: Input<'_, A>, before: u64, front: u64) -> u64 {
    let folded = input.keeper.folded();
    let near = (front % KEPT_EVERY as u64).min(front.saturating_sub(folded));
    if before < front {
        return near.min(front - before);
    }
    near
}

/// Estimates the time of a command before a front, in ns, by the kind of the last one.
fn entry_ns<A: Allocator + Copy>(input: Input<'_, A>, front: u64) -> u64 {
    match input.keeper.entry(front) {
        Some(
            Entry {
                cmd: Command::Update,
                ..
            },
        )
        | None => ENTRY_NS.0,
        Some(_) => ENTRY_NS.1,
    }
}
