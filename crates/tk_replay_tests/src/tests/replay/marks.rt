//! Tests the work between the two calls of a gate.
//!
//! `tools/check_program` runs both tests with `tests/harness/count_between.c` loaded, which counts
//! the requests for memory between the two marks. Without it neither test can fail by its marks.

use super::many::{assert_outcomes, copies, reports_of};
use super::{REPORT, SCRIPT, assert_same, reported};
use std::alloc::Global;
use tk_replay::Gate;

/// Makes one allocation in each call. The library recognizes the call by the request's size.
#[derive(Drop)]
struct Marks {
    alloc: Global,
}

impl Gate for Marks {
    fn before(&self, _piece: usize) {
        let _mark: Result<Vec<u8>, _> = Vec::with_capacity(self.alloc, 77_777);
    }

    fn after(&self, _piece: usize) {
        let _mark: Result<Vec<u8>, _> = Vec::with_capacity(self.alloc, 99_991);
    }
}

/// The test makes the first report itself. The library expects as many requests in each later pair.
#[test]
fn each_report_is_made_between_the_calls_of_its_gate(rt: HostRuntime) {
    let gate = Marks { alloc: rt.alloc() };
    gate.before(0);
    let alone = reported(rt.alloc(), false, SCRIPT);
    gate.after(0);
    let alone = alone.expect(&rt, "a report");
    assert_same(&rt, &alone.as_slice(), &REPORT);
    let scripts = copies(&rt, 8);
    let wanted = reports_of(&rt, scripts.as_slice());
    for workers in [1, 3, 8] {
        assert_outcomes(&rt, scripts.as_slice(), workers, &gate, &wanted);
    }
}

/// With the library loaded this test must fail, because there is no work between its marks.
#[test]
fn a_gate_is_called_without_any_work(rt: HostRuntime) {
    let gate = Marks { alloc: rt.alloc() };
    gate.before(0);
    gate.after(0);
}
