//! Prepares the shared keepers of the timed work.
use std::alloc::Global;
use std::sync::Wait;
use tk_shared::{Counter, Prepared, prepare};
use tk_test_support::{OPENED_TIME, nanosecond_counter};

/// The number of commands for which a keeper has capacity: those of a full turn.
const ROOM: usize = 300_000;

/// Prepares a keeper with this counter for a number of callers. Returns `None` if a call fails.
pub fn prepared<C: Counter, R: Wait>(
    rt: &R,
    alloc: Global,
    counter: C,
    callers: usize,
) -> Option<Prepared<C>> {
    let desc = nanosecond_counter().ok()?;
    prepare(alloc, rt, desc, OPENED_TIME, counter, callers, ROOM).ok()
}
