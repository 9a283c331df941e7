//! Tests values that were worked out manually, outside the contracts, and compares one call with
//! the other.

mod far;
mod random;
mod refusals;
mod values;

use super::{applies, assert_same, assert_same_at, desc_of, opened_at, time};
use std::alloc::Global;
use std::process::Abort;
use tk_clock::{Clock, ClockId, Snapshot};
use tk_lanes::{BatchError, lane_batch, plain_batch};

/// Returns clocks of a 48-bit counter of one nanosecond a cycle, opened at reading 1000.
fn opened(rt: &impl Abort) -> Clock {
    let desc = desc_of(rt, 48, 16_777_216, 24);
    opened_at(rt, desc, 1_000, time(1_700_000_000, 0))
}

/// Returns a list of `n` sevens. An item that stays 7 was not written.
fn sevens(rt: &impl Abort, alloc: Global, n: usize) -> Vec<u64> {
    Vec::from_elem(alloc, 7, n).expect(rt, "memory")
}

/// Converts stamps one after the other. `out` must have as many items as `stamps`.
fn by_plain(
    rt: &impl Abort,
    snapshot: &Snapshot,
    clock: ClockId,
    stamps: &[u64],
    out: &mut [u64],
) -> Result<(), BatchError> {
    assert!(rt; stamps.len() == out.len());
    plain_batch(snapshot, clock, stamps, out)
}

/// Converts stamps eight at a time. `out` must have as many items as `stamps`.
fn by_lanes(
    rt: &impl Abort,
    snapshot: &Snapshot,
    clock: ClockId,
    stamps: &[u64],
    out: &mut [u64],
) -> Result<(), BatchError> {
    assert!(rt; stamps.len() == out.len());
    lane_batch(snapshot, clock, stamps, out)
}

/// Checks that both calls return this answer and leave these values.
fn converts(
    rt: &impl Abort,
    alloc: Global,
    snapshot: &Snapshot,
    clock: ClockId,
    stamps: &[u64],
    answer: Result<(), BatchError>,
    values: &[u64],
) {
    let mut plain = sevens(rt, alloc, stamps.len());
    let returned = by_plain(rt, snapshot, clock, stamps, plain.as_mut_slice());
    has_converted(rt, clock, (returned, plain.as_slice()), (answer, values));
    let mut lanes = sevens(rt, alloc, stamps.len());
    let returned = by_lanes(rt, snapshot, clock, stamps, lanes.as_mut_slice());
    has_converted(rt, clock, (returned, lanes.as_slice()), (answer, values));
}

/// The answer of a call, and the values that it left.
type Converted<'a> = (Result<(), BatchError>, &'a [u64]);

/// Checks the answer of a call and the values that it left.
fn has_converted(rt: &impl Abort, clock: ClockId, found: Converted<'_>, wanted: Converted<'_>) {
    assert_same_at(rt, &clock, &found.0, &wanted.0);
    assert_same_at(rt, &clock, &found.1, &wanted.1);
}

/// Checks that both calls agree, and returns their answer.
fn agree(
    rt: &impl Abort,
    alloc: Global,
    snapshot: &Snapshot,
    clock: ClockId,
    stamps: &[u64],
) -> Result<(), BatchError> {
    let mut plain = sevens(rt, alloc, stamps.len());
    let answer = by_plain(rt, snapshot, clock, stamps, plain.as_mut_slice());
    let mut lanes = sevens(rt, alloc, stamps.len());
    let returned = by_lanes(rt, snapshot, clock, stamps, lanes.as_mut_slice());
    let (found, wanted) = (lanes.as_slice(), plain.as_slice());
    has_converted(rt, clock, (returned, found), (answer, wanted));
    answer
}
