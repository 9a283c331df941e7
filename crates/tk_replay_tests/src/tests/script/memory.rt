//! Refuses all allocations in turn. A call either returns `Memory` and changes nothing, or
//! completes.

use super::assert_same;
use std::alloc::Global;
use std::process::Abort;
use tk_clock::{ClockId, Refusal, Timespec};
use tk_counter::CounterDesc;
use tk_ntp::{Reply, TimeState, Timex};
use tk_script::{
    Calendar, ScriptError, line_adj, line_at, line_differs, line_no, line_ok, line_open, utc,
};
use tk_test_support::Heap;

const TIME: Timespec = Timespec {
    sec: 9_223_372_035,
    nsec: 999_999_999,
};

const REPLY: Reply = Reply {
    state: TimeState::Error,
    tai: u32::MAX,
    timex: Timex {
        modes: 0,
        offset: i64::MIN,
        freq: i64::MIN,
        maxerror: i64::MIN,
        esterror: i64::MIN,
        status: u32::MAX,
        constant: i64::MIN,
        tick: i64::MIN,
        sec: i64::MIN,
        sub: 999_999_999,
    },
};

/// Makes a date while this request is refused. Returns whether one was refused.
fn is_utc_refused(rt: &(impl Abort + AllocGlobal), request: u64) -> bool {
    let heap = Heap::new(rt.alloc());
    heap.refuse(request);
    let returned = utc(&heap, 1_700_000_000, 5);
    let is_refused = !heap.grant_all();
    assert_same(rt, &returned.is_err(), &is_refused);
    match returned {
        Ok(text) => assert_same(rt, &text.as_str(), &"2023-11-14T22:13:20.000000005Z"),
        Err(error) => assert_same(rt, &error, &ScriptError::Memory),
    }
    is_refused
}

#[test]
fn writes_utc_or_nothing(rt: HostRuntime) {
    assert!(rt; is_utc_refused(&rt, 1));
    for request in 2..100 {
        is_utc_refused(&rt, request);
    }
    assert!(rt; !is_utc_refused(&rt, 100));
}

/// One line of a report.
#[derive(Clone, Copy)]
enum Line {
    Open(CounterDesc),
    Accepted,
    Refused,
    Plain,
    Dated,
    Differing,
    Answered,
}

impl Line {
    /// Appends this line.
    fn write(&self, out: &mut Vec<u8, &Heap<Global>>) -> Result<(), ScriptError> {
        match self {
            Line::Open(desc) => line_open(out, desc),
            Line::Accepted => line_ok(out, u64::MAX, TIME),
            Line::Refused => line_no(out, Refusal::Invalid),
            Line::Plain => line_at(out, ClockId::MonotonicCoarse, TIME),
            Line::Dated => line_at(out, ClockId::RealtimeCoarse, TIME),
            Line::Differing => line_differs(out, u64::MAX, u64::MAX),
            Line::Answered => line_adj(out, &REPLY, u64::MAX),
        }
    }
}

/// Writes a line while this request is refused. Returns whether one was refused.
fn is_line_refused(
    rt: &(impl Abort + AllocGlobal),
    line: &Line,
    whole: &[u8],
    request: u64,
) -> bool {
    let heap = Heap::new(rt.alloc());
    let mut out = Vec::new(&heap);
    assert!(rt; out.push(b'-').is_ok());
    heap.refuse(request);
    let written = line.write(&mut out);
    let is_refused = !heap.grant_all();
    if is_refused {
        assert_same(rt, &written, &Err(ScriptError::Memory));
        assert_same(rt, &out.as_slice(), &b"-".as_slice());
    } else {
        assert_same(rt, &written, &Ok(()));
        assert_same(rt, &out.as_slice(), &whole);
    }
    is_refused
}

/// Stops the test unless every refused request leaves the text unchanged, and the line is whole if
/// none is refused.
fn assert_line_or_nothing(rt: &(impl Abort + AllocGlobal), line: &Line, whole: &[u8]) {
    assert!(rt; is_line_refused(rt, line, whole, 1));
    for request in 2..100 {
        is_line_refused(rt, line, whole, request);
    }
    assert!(rt; !is_line_refused(rt, line, whole, 100));
}

#[test]
fn writes_a_line_or_nothing(rt: HostRuntime) {
    let desc = CounterDesc::new(32, 3_869_339_906, 32).expect(&rt, "a counter");
    let lines: [(Line, &[u8]); 7] = [
        (Line::Open(desc), b"-open,32,3869339906,32\n"),
        (
            Line::Accepted,
            b"-ok,18446744073709551615,9223372035.999999999\n",
        ),
        (Line::Refused, b"-no,invalid\n"),
        (Line::Plain, b"-at,monotonic_coarse,9223372035.999999999\n"),
        (
            Line::Dated,
            b"-at,realtime_coarse,9223372035.999999999,2262-04-11T23:47:15.999999999Z\n",
        ),
        (
            Line::Differing,
            b"-differs,18446744073709551615,18446744073709551615\n",
        ),
        (
            Line::Answered,
            b"-adj,error,-9223372036854775808.999999999,-9223372036854775808,-9223372036854775808,\
            -9223372036854775808,-9223372036854775808,4294967295,-9223372036854775808,\
            -9223372036854775808,4294967295,18446744073709551615\n",
        ),
    ];
    for (line, whole) in &lines {
        assert_line_or_nothing(&rt, line, whole);
    }
}

/// Appends the line of a clock at this second.
fn write_at<'h>(
    calendar: &mut Calendar<&'h Heap<Global>>,
    out: &mut Vec<u8, &'h Heap<Global>>,
    clock: ClockId,
    sec: u32,
) -> Result<(), ScriptError> {
    let time = Timespec {
        sec: i64::from(sec),
        nsec: 0,
    };
    calendar.line_at(out, clock, time)
}

/// Appends the line of a second. If an allocation fails, nothing is written, and the next try
/// appends it.
fn write_second<'h>(
    rt: &impl Abort,
    calendar: &mut Calendar<&'h Heap<Global>>,
    out: &mut Vec<u8, &'h Heap<Global>>,
    sec: u32,
) {
    let before = out.len();
    if write_at(calendar, out, ClockId::Realtime, sec) == Err(ScriptError::Memory) {
        assert_same(rt, &out.len(), &before);
        let again = write_at(calendar, out, ClockId::Realtime, sec);
        assert_same(rt, &again, &Ok(()));
    }
}

/// The number of lines in the report.
const DAYS: u64 = 100;

/// The length of the report, in bytes.
const LENGTH: usize = 6_400;

/// Writes a line for each day while this request is refused. Returns whether one was refused.
fn is_day_refused(rt: &(impl Abort + AllocGlobal), request: u64) -> bool {
    let heap = Heap::new(rt.alloc());
    let mut calendar = Calendar::new(&heap);
    let mut out = Vec::new(&heap);
    let mut sec = 1_700_000_000u32;
    heap.refuse(request);
    for _ in 0..DAYS {
        write_second(rt, &mut calendar, &mut out, sec);
        sec = sec.wrapping_add(86_400);
    }
    assert_same(rt, &out.len(), &LENGTH);
    assert!(rt; out.ends_with(b"1708553600.000000000,2024-02-21T22:13:20.000000000Z\n"));
    !heap.grant_all()
}

#[test]
fn a_calendar_that_was_refused_a_date_goes_on(rt: HostRuntime) {
    for request in 1..1_000 {
        let is_refused = is_day_refused(&rt, request);
        assert!(rt; is_refused || request > DAYS);
    }
    assert!(rt; !is_day_refused(&rt, 1_000));
}

/// Appends the lines of a day, starting at its second 80,000. Only the first of them allocates.
fn write_day<'h>(
    rt: &impl Abort,
    heap: &Heap<Global>,
    calendar: &mut Calendar<&'h Heap<Global>>,
    out: &mut Vec<u8, &'h Heap<Global>>,
    first: u32,
) {
    // a second later the day ends
    let last = first.wrapping_add(6_399);
    heap.refuse_all();
    let refused = write_at(calendar, out, ClockId::Realtime, first);
    assert_same(rt, &refused, &Err(ScriptError::Memory));
    heap.grant_all();
    let mut written = write_at(calendar, out, ClockId::Realtime, first).is_ok();
    heap.refuse_all();
    for _ in 0..3 {
        written &= write_at(calendar, out, ClockId::RealtimeCoarse, last).is_ok();
        written &= write_at(calendar, out, ClockId::Monotonic, first).is_ok();
    }
    heap.grant_all();
    assert!(rt; written);
}

#[test]
fn only_the_first_line_of_a_day_asks_for_memory(rt: HostRuntime) {
    let heap = Heap::new(rt.alloc());
    let mut out = Vec::with_capacity(&heap, LENGTH).expect(&rt, "memory");
    let mut calendar = Calendar::new(&heap);
    for first in [1_700_000_000, 1_700_086_400, 1_700_172_800] {
        write_day(&rt, &heap, &mut calendar, &mut out, first);
    }
    assert!(rt;
        out.ends_with(b",2023-11-16T23:59:59.000000000Z\nat,monotonic,1700172800.000000000\n")
    );
}
