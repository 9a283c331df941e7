//! Tests values that contracts don't fix, and threads.

mod many;
mod words;

use super::assert_same;
use tk_clock::Clock;
use tk_page::{Page, PageError};
use tk_test_support::{OPENED_REAL, OPENED_TIME, nanosecond_counter};

#[test]
fn a_fault_has_a_text(rt: HostRuntime) {
    let text = PageError::Memory.to_string(rt.alloc());
    let text = text.expect(&rt, "memory");
    assert_same(&rt, &text.as_str(), &"no memory for the page");
}

/// Also passes under `rt try --test --fail-alloc N`, for each N.
#[test]
fn a_page_opens_or_returns_memory(rt: HostRuntime) {
    let desc = nanosecond_counter().expect(&rt, "a counter");
    let clock = Clock::open(desc, 0, OPENED_TIME).expect(&rt, "clocks");
    if let Err(fault) = Page::open(rt.alloc(), &rt, clock.snapshot(0)) {
        assert_same(&rt, &fault, &PageError::Memory);
    }
}
