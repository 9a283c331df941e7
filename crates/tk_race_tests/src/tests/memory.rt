//! Tests failed allocations in a race: either no actor has begun, or the result is the usual one.

use super::{OPENED_TIME, UPDATE, alike, assert_same, counter, result_of};
use std::process::Abort;
use std::sync::atomic::{AtomicU64, Ordering};
use tk_clock::Refusal;
use tk_race::{Gate, RaceError, RaceReply, RaceReport};

/// Counts the pieces that have begun.
#[derive(Drop)]
struct Begun(AtomicU64);

impl Gate for Begun {
    fn before(&self, _piece: usize) {
        self.0.fetch_add(1, Ordering::SeqCst);
    }

    fn after(&self, _piece: usize) {}
}

/// The first four allocations are for the actors; all others are made by the race. With each of
/// them refused in turn, the race returns the usual result, or `Memory` before any actor has begun,
/// or `Threads`.
#[test]
fn refused_requests_are_returned_before_any_actor_begins(rt: HostRuntime) {
    let Ok(actors) = alike(rt.alloc(), 3, UPDATE, 600) else {
        return;
    };
    let gate = Begun(AtomicU64::new(0));
    let (desc, list) = (counter(&rt), actors.as_slice());
    match result_of(&rt, rt.alloc(), desc, (0, 1), OPENED_TIME, list, &gate) {
        Ok(report) => is_usual(&rt, &report, gate.0.load(Ordering::SeqCst)),
        Err(error) => is_early(&rt, error, gate.0.load(Ordering::SeqCst)),
    }
}

/// Checks the report of a race that met no refusal.
fn is_usual(rt: &impl Abort, report: &RaceReport, begun: u64) {
    assert_same(rt, &(report.keeper.len(), begun), &(1_800, 3));
    let refused = RaceReply::Refused(Refusal::Memory);
    for replies in report.replies.as_slice() {
        assert!(rt; !replies.as_slice().contains(&refused));
    }
}

/// Checks the error of a race that met a refusal, and how many pieces had begun.
fn is_early(rt: &impl Abort, error: RaceError, begun: u64) {
    if error == RaceError::Threads {
        assert!(rt; begun < 3);
    } else {
        assert_same(rt, &(error, begun), &(RaceError::Memory, 0));
    }
}
