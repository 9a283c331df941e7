//! Tests the allocator that refuses requests, which the tests of memory use.

use super::assert_same;
use std::alloc::Global;
use std::process::Abort;
use tk_test_support::Heap;

/// Makes three requests of the heap, and stops the test unless these are granted.
fn asks_thrice(rt: &impl Abort, heap: &Heap<Global>, wanted: [bool; 3]) {
    let mut granted = [false; 3];
    for is_granted in &mut granted {
        let bytes: Result<Vec<u8, &Heap<Global>>, _> = Vec::with_capacity(heap, 9);
        *is_granted = bytes.is_ok();
    }
    assert_same(rt, &granted, &wanted);
}

#[test]
fn only_the_chosen_requests_are_refused(rt: HostRuntime) {
    let heap = Heap::new(rt.alloc());
    asks_thrice(&rt, &heap, [true; 3]);
    for (request, wanted, is_left) in [
        (1, [false, true, true], false),
        (2, [true, false, true], false),
        (3, [true, true, false], false),
        (4, [true; 3], true),
        (0, [false; 3], true),
        (u64::MAX, [true; 3], false),
    ] {
        heap.refuse(request);
        asks_thrice(&rt, &heap, wanted);
        assert_same(&rt, &heap.grant_all(), &is_left);
        asks_thrice(&rt, &heap, [true; 3]);
    }
    heap.refuse_all();
    asks_thrice(&rt, &heap, [false; 3]);
    assert_same(&rt, &heap.grant_all(), &true);
}
