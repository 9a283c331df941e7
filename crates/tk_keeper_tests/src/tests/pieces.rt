//! Compares long lists, converted in pieces, with the same lists by one thread and with worked
//! values.

mod costly;
mod long;

use self::long::LONG;
use super::{ABOVE, applies, assert_same, numbers, opened, put, repeated, steered};
use std::alloc::{Allocator, Global};
use std::marker::{Send, Sync};
use std::process::Abort;
use std::thread::Threads;
use tk_clock::ClockId;
use tk_keeper::{Timekeeper, TraceError};
use tk_pieces::{trace_all, trace_all_into};
use tk_test_support::{Heap, next_random};

/// The number of items with equal fronts that make 17 pieces. The last piece has one item.
const MANY: usize = 1_048_577;

/// The number of items whose fronts differ from one to the next. Several threads convert them.
const UNEVEN: usize = 262_145;

/// A trace, with the memory for its values.
#[derive(Drop)]
struct Lists {
    fronts: Vec<u64>,
    stamps: Vec<u64>,
    out: Vec<u64>,
}

/// Returns this number of items as of the opening. An item's stamp is its place.
fn counted(rt: &impl Abort, alloc: Global, many: usize) -> Lists {
    Lists {
        fronts: repeated(rt, alloc, 0, many),
        stamps: numbers(rt, alloc, many),
        out: repeated(rt, alloc, 77, many),
    }
}

/// Returns the values of one thread.
fn alone(rt: &impl Abort, keeper: &Timekeeper, lists: &Lists) -> Vec<u64> {
    let (fronts, stamps) = (lists.fronts.as_slice(), lists.stamps.as_slice());
    assert!(rt; fronts.len() == stamps.len());
    keeper
        .trace(fronts, stamps, ClockId::Monotonic)
        .expect(rt, "values")
}

/// Returns the result of `trace_all` with another allocator.
fn asked<A: Allocator + Copy + Send + Sync, B: Allocator>(
    alloc: B,
    rt: &(impl Threads + Sync),
    keeper: &Timekeeper<A>,
    lists: &Lists,
) -> Result<Vec<u64, B>, TraceError> {
    let fronts = lists.fronts.as_slice();
    let stamps = lists.stamps.as_slice();
    if fronts.len() != stamps.len() {
        return Err(TraceError::Range { index: usize::MAX });
    }
    trace_all(alloc, rt, keeper, fronts, stamps, ClockId::Monotonic)
}

/// Returns the result of `trace_all_into` on the memory of the lists.
fn filled(
    rt: &(impl Threads + Sync + Abort),
    keeper: &Timekeeper,
    lists: &mut Lists,
) -> Result<(), TraceError> {
    let fronts = lists.fronts.as_slice();
    let stamps = lists.stamps.as_slice();
    assert!(rt; fronts.len() == stamps.len() && stamps.len() == lists.out.len());
    let out = lists.out.as_mut_slice();
    trace_all_into(rt, keeper, fronts, stamps, ClockId::Monotonic, out)
}

/// Checks that a result of `trace_all` is that of `trace_all_into`, which wrote `out`.
fn agree(
    rt: &impl Abort,
    list: &Result<Vec<u64>, TraceError>,
    done: Result<(), TraceError>,
    out: &[u64],
) {
    match list {
        Ok(values) => {
            let is_same = values.as_slice() == out;
            assert_same(rt, &(done, is_same), &(Ok(()), true));
        }
        Err(error) => assert_same(rt, &done, &Err(*error)),
    }
}

/// Returns the common result of both calls.
fn answered(
    alloc: Global,
    rt: &(impl Threads + Sync + Abort),
    keeper: &Timekeeper,
    lists: &mut Lists,
) -> Result<Vec<u64>, TraceError> {
    let done = filled(rt, keeper, lists);
    let list = asked(alloc, rt, keeper, lists);
    agree(rt, &list, done, lists.out.as_slice());
    list
}

/// Checks that both calls return `many` values, and that one thread gives the same values.
fn agrees_with_one_thread(
    rt: &(impl Threads + Sync + Abort),
    alloc: Global,
    keeper: &Timekeeper,
    lists: &mut Lists,
    many: usize,
) {
    let values = answered(alloc, rt, keeper, lists).expect(rt, "values");
    let alone = alone(rt, keeper, lists);
    assert_same(rt, &values.len(), &many);
    assert_same(rt, &(values.as_slice() == alone.as_slice()), &true);
}

/// A faulty item: its place in the list, its front, its stamp and the fault.
type Faulty = (usize, u64, u64, TraceError);

/// Returns a faulty item at each of four places, which are the last item, one in the middle, the
/// first item of a piece, and the last item of the piece before it.
fn faulty_at(places: [usize; 4]) -> [Faulty; 4] {
    let [last, middle, first, before] = places;
    [
        (last, 0, ABOVE, TraceError::Invalid { index: last }),
        (middle, 3, 0, TraceError::Unknown { index: middle }),
        (first, 0, ABOVE, TraceError::Invalid { index: first }),
        (before, 9, ABOVE, TraceError::Unknown { index: before }),
    ]
}

/// Returns the first items of a list, or all if it is shorter.
fn first(list: &[u64], many: usize) -> &[u64] {
    match list.split_at_checked(many) {
        Some((first, _)) => first,
        None => list,
    }
}

/// Writes faulty items in turn, each before the earlier ones. Checks after each that both calls
/// return its fault, and that the items before it have these values.
fn first_faults(
    rt: &(impl Threads + Sync + Abort),
    alloc: Global,
    keeper: &Timekeeper,
    lists: &mut Lists,
    values: &[u64],
    items: &[Faulty],
) {
    for (place, front, stamp, fault) in items {
        put(lists.fronts.as_mut_slice(), *place, *front);
        put(lists.stamps.as_mut_slice(), *place, *stamp);
        let answer = answered(alloc, rt, keeper, lists);
        assert_same(rt, &answer.err(), &Some(*fault));
        let before = first(lists.out.as_slice(), *place) == first(values, *place);
        assert_same(rt, &(*place, before), &(*place, true));
    }
}

#[test]
fn lists_of_each_length_are_converted(rt: HostRuntime) {
    let alloc = rt.alloc();
    let keeper = steered(&rt, alloc);
    // several threads convert a million items of equal fronts, in pieces of 65,536 items
    for many in [
        0, 1, 1_023, 1_024, 999_999, 1_000_000, 1_000_001, 1_048_575, 1_048_576, MANY,
    ] {
        let mut lists = counted(&rt, alloc, many);
        let values = answered(alloc, &rt, &keeper, &mut lists).expect(&rt, "values");
        let is_same = values.as_slice() == lists.stamps.as_slice();
        assert_same(&rt, &(many, values.len(), is_same), &(many, many, true));
    }
}

#[test]
fn the_first_fault_of_all_pieces_decides(rt: HostRuntime) {
    let alloc = rt.alloc();
    let mut keeper = steered(&rt, alloc);
    let mut lists = counted(&rt, alloc, MANY);
    let values = numbers(&rt, alloc, MANY);
    let items = faulty_at([1_048_576, 1_000_000, 65_536, 65_535]);
    first_faults(&rt, alloc, &keeper, &mut lists, values.as_slice(), &items);
    let items = [
        (9_000, 0, ABOVE, TraceError::Invalid { index: 9_000 }),
        (5_000, 0, ABOVE, TraceError::Invalid { index: 5_000 }),
        (4_999, 3, 0, TraceError::Unknown { index: 4_999 }),
    ];
    first_faults(&rt, alloc, &keeper, &mut lists, values.as_slice(), &items);
    keeper.fold(1);
    let answer = answered(alloc, &rt, &keeper, &mut lists);
    assert_same(&rt, &answer.err(), &Some(TraceError::Folded { index: 0 }));
}

#[test]
fn fronts_up_and_down_are_converted_as_by_one_thread(rt: HostRuntime) {
    let alloc = rt.alloc();
    let keeper = steered(&rt, alloc);
    let mut lists = counted(&rt, alloc, UNEVEN);
    scatter(lists.fronts.as_mut_slice(), lists.stamps.as_mut_slice());
    let values = answered(alloc, &rt, &keeper, &mut lists).expect(&rt, "values");
    assert_same(&rt, &values.last(), &Some(&1_000_499_964));
    for place in 0..UNEVEN {
        let item = (lists.fronts.get(place), lists.stamps.get(place));
        let item = (item.0.copied(), item.1.copied());
        let found = values.get(place).copied();
        assert_same(&rt, &one(&keeper, item), &(Ok(()), found));
    }
}

/// Gives `UNEVEN` items fronts up and down, and stamps of any size.
fn scatter(fronts: &mut [u64], stamps: &mut [u64]) {
    let mut seed: u64 = 88_172_645_463_325_252;
    for place in 0..UNEVEN {
        seed = next_random(seed);
        put(fronts, place, seed % 3);
        put(stamps, place, (seed >> 8) % ABOVE);
    }
    put(fronts, UNEVEN - 1, 2);
    put(stamps, UNEVEN - 1, 1_000_000_001);
}

/// Converts a list of one item.
fn one(
    keeper: &Timekeeper,
    (front, stamp): (Option<u64>, Option<u64>),
) -> (Result<(), TraceError>, Option<u64>) {
    let (front, stamp) = ([front.unwrap_or(0)], [stamp.unwrap_or(0)]);
    let mut value = [0];
    let done = keeper.trace_into(&front, &stamp, ClockId::Monotonic, &mut value);
    (done, Some(value[0]))
}

#[test]
fn room_is_asked_for_first(rt: HostRuntime) {
    let heap = Heap::new(rt.alloc());
    let keeper = steered(&rt, rt.alloc());
    let none = counted(&rt, rt.alloc(), 0);
    for many in [3, MANY, LONG] {
        let mut lists = counted(&rt, rt.alloc(), many);
        put(lists.fronts.as_mut_slice(), 2, 7);
        heap.refuse_all();
        fails(&rt, &heap, &keeper, &lists, TraceError::Memory);
        is_empty(&rt, &heap, &keeper, &none);
        heap.grant_all();
        fails(
            &rt,
            &heap,
            &keeper,
            &lists,
            TraceError::Unknown { index: 2 },
        );
    }
}

/// Checks the fault of a list that is converted in memory of the heap.
fn fails(
    rt: &(impl Threads + Sync + Abort),
    heap: &Heap<Global>,
    keeper: &Timekeeper,
    lists: &Lists,
    fault: TraceError,
) {
    let answer = asked(heap, rt, keeper, lists);
    assert_same(rt, &answer.err(), &Some(fault));
}

/// Checks that a list has no values.
fn is_empty(
    rt: &(impl Threads + Sync + Abort),
    heap: &Heap<Global>,
    keeper: &Timekeeper,
    lists: &Lists,
) {
    let empty = asked(heap, rt, keeper, lists).expect(rt, "no values");
    assert_same(rt, &empty.len(), &0);
}

#[test]
fn the_answer_takes_one_request_of_its_own_length(rt: HostRuntime) {
    let heap = Heap::new(rt.alloc());
    let keeper = steered(&rt, rt.alloc());
    for many in [1, 3, MANY, LONG] {
        let lists = counted(&rt, rt.alloc(), many);
        heap.refuse(2);
        let values = asked(&heap, &rt, &keeper, &lists).expect(&rt, "values");
        assert_same(&rt, &heap.grant_all(), &true);
        assert_same(&rt, &(values.len(), values.capacity()), &(many, many));
    }
}
