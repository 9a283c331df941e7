use super::{OPENED_WORDS, assert_same, opened, words_and_mark};
use std::alloc::{AllocGlobal, Allocator, Global};
use std::fmt::Display;
use std::process::Abort;
use tk_clock::Clock;
use tk_latch::{Latch, LatchError, Moved, PageFull};
use tk_test_support::Heap;

/// Opens a latch, and returns its error. It states nothing of a latch that opens, to keep the proof
/// of each test short, and so does `opens`.
fn error_of<A: Allocator + Copy>(alloc: A, clock: &Clock, count: usize) -> Option<LatchError> {
    Latch::open(alloc, clock.snapshot(0), count).err()
}

/// Opens a latch, and returns the number of its readers.
fn opens(heap: &Heap<Global>, clock: &Clock, count: usize) -> Result<usize, LatchError> {
    match Latch::open(heap, clock.snapshot(0), count) {
        Ok((_latch, _writer, readers)) => Ok(readers.len()),
        Err(error) => Err(error),
    }
}

/// Checks that a latch opens with this many readers, each of which reads the opening.
fn all_read_the_opening(rt: &impl Abort, alloc: Global, clock: &Clock, count: usize) {
    let opened = Latch::open(alloc, clock.snapshot(0), count);
    let (latch, _writer, readers) = opened.expect(rt, "a latch");
    assert_same(rt, &readers.len(), &count);
    for mut reader in readers {
        let read = words_and_mark(&latch, &mut reader);
        assert_same(rt, &read, &Some((OPENED_WORDS, 0)));
    }
}

#[test]
fn the_opening_is_read_by_each_of_1_to_64_readers(rt: HostRuntime) {
    let clock = opened(&rt);
    for count in [0, 65] {
        let refused = (count, error_of(rt.alloc(), &clock, count));
        assert_same(&rt, &refused, &(count, Some(LatchError::Count)));
    }
    for count in [1, 64] {
        all_read_the_opening(&rt, rt.alloc(), &clock, count);
    }
}

#[test]
fn a_wrong_count_is_returned_before_memory(rt: HostRuntime) {
    let clock = opened(&rt);
    let heap = Heap::new(rt.alloc());
    heap.refuse_all();
    for (count, error) in [
        (0, LatchError::Count),
        (1, LatchError::Memory),
        (64, LatchError::Memory),
        (65, LatchError::Count),
    ] {
        let refused = (count, error_of(&heap, &clock, count));
        assert_same(&rt, &refused, &(count, Some(error)));
    }
}

/// Opens a latch while a request of the heap is refused. Returns whether it opened: then no request
/// was refused.
fn opens_without(rt: &impl Abort, heap: &Heap<Global>, clock: &Clock, request: u64) -> bool {
    heap.refuse(request);
    let answer = opens(heap, clock, 3);
    let granted = heap.grant_all();
    let wanted = if granted {
        Ok(3)
    } else {
        Err(LatchError::Memory)
    };
    assert_same(rt, &(request, answer), &(request, wanted));
    granted
}

#[test]
fn each_request_refused_in_turn_returns_memory(rt: HostRuntime) {
    let clock = opened(&rt);
    let heap = Heap::new(rt.alloc());
    // 0 if each run met a refusal
    let mut granted = 0;
    for request in 1..=100 {
        if opens_without(&rt, &heap, &clock, request) {
            granted = request;
            break;
        }
    }
    assert!(rt; granted > 2);
}

/// Checks the text of an error.
fn says<E: Display>(rt: &(impl Abort + AllocGlobal), error: &E, said: &str) {
    let text = format!(in rt.alloc(); "{error}").expect(rt, "memory");
    assert_same(rt, &text.as_str(), &said);
}

#[test]
fn each_error_says_what_it_is(rt: HostRuntime) {
    says(&rt, &LatchError::Count, "count out of range");
    says(&rt, &LatchError::Memory, "out of memory");
    says(&rt, &PageFull, "page full");
    says(&rt, &Moved { first: 3, last: 10 }, "moved from 3 to 10");
}
