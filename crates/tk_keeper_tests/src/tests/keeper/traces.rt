use super::{ABOVE, answers, assert_same, opened, put, steered, time};
use std::alloc::{Allocator, Global};
use std::process::Abort;
use tk_clock::{ClockId, Command};
use tk_keeper::{Timekeeper, TraceError};
use tk_test_support::Heap;

/// The items of the caller's memory before a call.
const OLD: u64 = 77;

/// The most items of a trace here.
const MOST: usize = 10_000;

/// Checks the answers of all three calls, one of which goes on after half of the items: the values,
/// or the first fault. The memory after the values must be unchanged.
pub(super) fn traced(
    rt: &impl Abort,
    keeper: &Timekeeper,
    fronts: &[u64],
    stamps: &[u64],
    clock: ClockId,
    values: &[u64],
    answer: Result<(), TraceError>,
) {
    assert!(rt; fronts.len() == stamps.len() && stamps.len() <= MOST);
    let mut memory = [OLD; MOST];
    let (out, _) = memory.split_at_mut(stamps.len());
    assert_same(rt, &into(rt, keeper, fronts, stamps, clock, out), &answer);
    written(rt, out, values);
    let mut memory = [OLD; MOST];
    let (out, _) = memory.split_at_mut(stamps.len());
    assert_same(rt, &halves(rt, keeper, fronts, stamps, clock, out), &answer);
    written(rt, out, values);
    match keeper.trace(fronts, stamps, clock) {
        Ok(list) => assert_same(rt, &(list.as_slice(), Ok(())), &(values, answer)),
        Err(error) => assert_same(rt, &Err(error), &answer),
    }
}

/// Converts stamps as of their fronts, into the caller's memory of the same length. It states
/// nothing of the values, to keep the proof of each test short.
fn into<A: Allocator + Copy>(
    rt: &impl Abort,
    keeper: &Timekeeper<A>,
    fronts: &[u64],
    stamps: &[u64],
    clock: ClockId,
    out: &mut [u64],
) -> Result<(), TraceError> {
    assert!(rt; fronts.len() == stamps.len() && stamps.len() == out.len());
    keeper.trace_into(fronts, stamps, clock, out)
}

/// Converts the first half of the stamps, and then the others.
fn halves(
    rt: &impl Abort,
    keeper: &Timekeeper,
    fronts: &[u64],
    stamps: &[u64],
    clock: ClockId,
    out: &mut [u64],
) -> Result<(), TraceError> {
    assert!(rt; fronts.len() == stamps.len() && stamps.len() == out.len());
    let half = out.len() / 2;
    let (begun, _) = out.split_at_mut(half);
    match keeper.trace_from(fronts, stamps, clock, 0, begun) {
        Ok(()) => keeper.trace_from(fronts, stamps, clock, half, out),
        fault => fault,
    }
}

/// Checks that the caller's memory contains the values, and after them what it contained.
fn written(rt: &impl Abort, out: &[u64], values: &[u64]) {
    for place in 0..out.len() {
        assert_same(
            rt,
            &out.get(place),
            &Some(values.get(place).unwrap_or(&OLD)),
        );
    }
}

/// The fronts of a trace, its stamps, the values of MONOTONIC up to the first fault, and the
/// answer.
type Row<'a> = (&'a [u64], &'a [u64], &'a [u64], Result<(), TraceError>);

/// Checks the answers to traces of MONOTONIC.
fn all_traced(rt: &impl Abort, keeper: &Timekeeper, rows: &[Row<'_>]) {
    for (fronts, stamps, values, answer) in rows {
        traced(
            rt,
            keeper,
            fronts,
            stamps,
            ClockId::Monotonic,
            values,
            *answer,
        );
    }
}

#[test]
fn each_stamp_is_converted_as_of_its_front(rt: HostRuntime) {
    let keeper = steered(&rt, rt.alloc());
    let at = 1_000_000_000;
    let rows: [Row<'_>; 2] = [
        (
            &[0, 1, 2, 2],
            &[at, at, at, at + 1],
            &[at, 1_000_499_963, 1_000_499_963, 1_000_499_964],
            Ok(()),
        ),
        // fronts go up and down, and no two neighbours have the same front
        (
            &[2, 0, 1, 0, 2, 1],
            &[at + 1, at, at, 5, at, 0],
            &[1_000_499_964, at, 1_000_499_963, 5, 1_000_499_963, 0],
            Ok(()),
        ),
    ];
    all_traced(&rt, &keeper, &rows);
}

#[test]
fn the_first_fault_decides_by_its_place(rt: HostRuntime) {
    let mut keeper = steered(&rt, rt.alloc());
    let at = 1_000_000_000;
    let unknown = Err(TraceError::Unknown { index: 1 });
    let whole: [Row<'_>; 3] = [
        (&[0, 3], &[0, 0], &[0], unknown),
        // of an item's two faults the front's comes first; a later item's front isn't tested
        (&[0, 3, 0], &[1, ABOVE, ABOVE], &[1], unknown),
        (
            &[1, 1, 2, 2, 2, 3],
            &[0, 0, at, at + 1, ABOVE, 0],
            &[0, 0, 1_000_499_963, 1_000_499_964],
            Err(TraceError::Invalid { index: 4 }),
        ),
    ];
    all_traced(&rt, &keeper, &whole);
    keeper.fold(1);
    let folded: [Row<'_>; 2] = [
        (&[1, 0], &[0, 0], &[0], Err(TraceError::Folded { index: 1 })),
        (
            &[2, 1],
            &[at + 1, at],
            &[1_000_499_964, 1_000_499_963],
            Ok(()),
        ),
    ];
    all_traced(&rt, &keeper, &folded);
}

#[test]
fn a_clock_past_its_limit_is_reported(rt: HostRuntime) {
    let mut keeper = opened(&rt, rt.alloc());
    let set = Command::SetTime(time(8_277_292_035, 999_999_999));
    let wake = Command::Resume(time(946_079_999, 999_999_999));
    answers(
        &rt,
        &mut keeper,
        &[
            (0, set, Ok(1)),
            (0, Command::Suspend, Ok(2)),
            (0, wake, Ok(3)),
        ],
    );
    // 9223372035 s and 999999998 ns at reading 0, so one nanosecond is left before the limit
    traced(
        &rt,
        &keeper,
        &[3, 3, 3],
        &[0, 1, 2],
        ClockId::Realtime,
        &[9_223_372_035_999_999_998, 9_223_372_035_999_999_999],
        Err(TraceError::Range { index: 2 }),
    );
}

#[test]
fn a_fault_in_any_part_of_a_list_is_returned(rt: HostRuntime) {
    let keeper = opened(&rt, rt.alloc());
    let clock = ClockId::Monotonic;
    let (mut fronts, mut stamps) = ([0; MOST], [0; MOST]);
    for place in 0..MOST {
        put(&mut stamps, place, place as u64);
    }
    let values = stamps;
    traced(&rt, &keeper, &fronts, &stamps, clock, &values, Ok(()));
    // in the last part, at the edges of parts, and in the first part; no fault is taken back
    for index in [
        9_999, 9_000, 5_000, 4_999, 999, 512, 511, 300, 256, 255, 5, 0,
    ] {
        ends_at(&rt, &keeper, &mut fronts, &mut stamps, &values, index);
    }
}

/// Gives an item a stamp above the mask, and then also a front that is unknown. Checks that both
/// faults end a trace of MONOTONIC.
fn ends_at(
    rt: &impl Abort,
    keeper: &Timekeeper,
    fronts: &mut [u64],
    stamps: &mut [u64],
    values: &[u64],
    index: usize,
) {
    assert!(rt; index <= values.len());
    let clock = ClockId::Monotonic;
    let (before, _) = values.split_at(index);
    put(stamps, index, ABOVE);
    let fault = Err(TraceError::Invalid { index });
    traced(rt, keeper, fronts, stamps, clock, before, fault);
    put(fronts, index, 1);
    let fault = Err(TraceError::Unknown { index });
    traced(rt, keeper, fronts, stamps, clock, before, fault);
}

/// Returns whether an item is in every second stretch, if each stretch has `length` items.
fn is_second(place: usize, length: usize) -> bool {
    place.checked_div(length).unwrap_or(0) % 2 == 1
}

#[test]
fn stretches_of_any_length_are_converted_by_their_own_front(rt: HostRuntime) {
    let keeper = steered(&rt, rt.alloc());
    let at = 1_000_000_000;
    for length in [1, 2, 8, 9, 17, 255, 256, 257, 600] {
        let (mut fronts, mut values) = ([0; 1_000], [at; 1_000]);
        for place in 0..1_000 {
            if is_second(place, length) {
                put(&mut fronts, place, 1);
                put(&mut values, place, 1_000_499_963);
            }
        }
        let row: Row<'_> = (&fronts, &[at; 1_000], &values, Ok(()));
        all_traced(&rt, &keeper, &[row]);
    }
}

/// Checks the values of MONOTONIC in a new list, or the fault.
fn listed(
    rt: &impl Abort,
    keeper: &Timekeeper<&Heap<Global>>,
    fronts: &[u64],
    stamps: &[u64],
    answer: Result<&[u64], TraceError>,
) {
    assert!(rt; fronts.len() == stamps.len());
    match keeper.trace(fronts, stamps, ClockId::Monotonic) {
        Ok(list) => assert_same(rt, &Ok(list.as_slice()), &answer),
        Err(error) => assert_same(rt, &Err(error), &answer),
    }
}

#[test]
fn each_request_refused_in_turn_is_returned_first(rt: HostRuntime) {
    let heap = Heap::new(rt.alloc());
    let keeper = steered(&rt, &heap);
    let at = 1_000_000_000;
    let memory = Err(TraceError::Memory);
    let short: Row<'_> = (&[0, 1], &[at, at], &[at, 1_000_499_963], Ok(()));
    let long: Row<'_> = (&[0; 1_000], &[7; 1_000], &[7; 1_000], Ok(()));
    // a trace makes one request, whatever its length
    for (fronts, stamps, values, _) in [short, long] {
        heap.refuse(1);
        listed(&rt, &keeper, fronts, stamps, memory);
        heap.refuse(2);
        listed(&rt, &keeper, fronts, stamps, Ok(values));
        assert_same(&rt, &heap.grant_all(), &true);
    }
    heap.refuse_all();
    // an allocation failure takes precedence over an item's fault
    listed(&rt, &keeper, &[3], &[ABOVE], memory);
    // no stamps give no values, and need no memory
    listed(&rt, &keeper, &[], &[], Ok(&[]));
    // the caller's memory needs no allocation
    let mut out = [OLD; 2];
    let clock = ClockId::Monotonic;
    let done = into(&rt, &keeper, &[0, 1], &[at, at], clock, &mut out);
    assert_same(&rt, &(done, out), &(Ok(()), [at, 1_000_499_963]));
    let done = into(&rt, &keeper, &[], &[], ClockId::Tai, &mut []);
    assert_same(&rt, &done, &Ok(()));
}
