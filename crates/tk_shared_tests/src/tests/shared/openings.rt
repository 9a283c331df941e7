use super::{OPENED_TIME, assert_same, nanosecond_counter, time};
use std::alloc::Global;
use std::process::Abort;
use std::sync::Wait;
use tk_clock::Timespec;
use tk_shared::{Counter, OpenError, OpenFault, Ticker, prepare};

/// Checks the error of `prepare` for `callers` callers and the time `real`, and that the returned
/// counter wasn't read.
fn refuses<R: Wait + Abort>(
    rt: &R,
    alloc: Global,
    callers: usize,
    real: Timespec,
    wanted: OpenError,
) {
    let desc = nanosecond_counter().expect(rt, "a counter");
    match prepare(alloc, rt, desc, real, Ticker::new(7, 1), callers, 0) {
        Ok(_) => panic!(rt; "prepared"),
        Err(OpenFault { error, mut counter }) => {
            assert_same(rt, &(error, counter.read()), &(wanted, 7));
        }
    }
}

#[test]
fn each_fault_hands_the_counter_back_unread(rt: HostRuntime) {
    let alloc = rt.alloc();
    refuses(&rt, alloc, 0, OPENED_TIME, OpenError::Count);
    refuses(&rt, alloc, 65, OPENED_TIME, OpenError::Count);
    refuses(&rt, alloc, 0, time(-1, 0), OpenError::Count);
    refuses(&rt, alloc, 1, time(-1, 0), OpenError::Invalid);
    let late = time(8_277_292_036, 0);
    refuses(&rt, alloc, 64, late, OpenError::Invalid);
}

#[test]
fn as_many_callers_as_64_are_prepared(rt: HostRuntime) {
    for callers in [1, 64] {
        super::ready(&rt, rt.alloc(), Ticker::new(7, 1), callers);
    }
}
