//! Tests failed allocations: the result is the whole report, or `Memory` and no output.

use super::fakes::{Turn, Writer};
use super::traces::{STAMPS, STEERED, traced};
use super::{assert_same, replayed, reported};
use std::alloc::Global;
use std::process::Abort;
use std::thread::Threads;
use tk_clock::ClockId;
use tk_keeper::Timekeeper;
use tk_replay::{CheckedReport, Fault, convert, keeper_after, keeper_of, report_rows};
use tk_script::{RowReader, ScriptError, Stamps};
use tk_test_support::Heap;

/// The length of the script: its opening, and 600 updates.
const LENGTH: usize = 35 + 600 * 9;

/// A script whose report needs several growths of every table. The script itself allocates nothing.
fn script() -> [u8; LENGTH] {
    let mut script = [0; LENGTH];
    script[..35].copy_from_slice(b"open,32,16777216,24,0,1700000000,0\n");
    for record in 0..600 {
        let start = 35 + record * 9;
        script[start..start + 9].copy_from_slice(b"update,0\n");
    }
    script
}

/// Stops the test unless the result is the report or `Memory`.
fn assert_report(rt: &impl Abort, returned: Result<Vec<u8>, ScriptError>) {
    match returned {
        Ok(text) => {
            assert!(rt; text.starts_with(b"open,32,16777216,24\nok,1,0.000000000\n"));
            assert!(rt; text.ends_with(b"\nok,600,0.000000000\n"));
        }
        Err(error) => assert_same(rt, &error, &ScriptError::Memory),
    }
}

#[test]
fn report_or_want_of_it(rt: HostRuntime) {
    assert_report(&rt, reported(rt.alloc(), false, &script()));
}

#[test]
fn bounded_report_or_want_of_it(rt: HostRuntime) {
    assert_report(&rt, reported(rt.alloc(), true, &script()));
}

/// Stops the test unless the whole report was written, or an allocation failed and nothing was
/// written.
fn assert_written<T: Drop>(rt: &impl Abort, outcome: Result<T, Fault>, writer: &Writer) {
    match outcome {
        Ok(_) => assert!(rt; writer.len > 0),
        Err(fault) => {
            assert_same(rt, &fault, &Fault::Memory);
            assert_same(rt, &writer.len, &0);
        }
    }
}

#[test]
fn replay_or_want_of_it(rt: HostRuntime) {
    let script = script();
    let mut reader = script.as_slice();
    let mut writer = Writer::new(1000, u32::MAX, Turn::TakesNone);
    let outcome = replayed(rt.alloc(), false, &mut reader, &mut writer);
    assert_written(&rt, outcome, &writer);
}

#[test]
fn bounded_replay_or_want_of_it(rt: HostRuntime) {
    let script = script();
    let mut reader = script.as_slice();
    let mut writer = Writer::new(1000, u32::MAX, Turn::TakesNone);
    let outcome = replayed(rt.alloc(), true, &mut reader, &mut writer);
    assert_written(&rt, outcome, &writer);
}

#[test]
fn there_is_memory(rt: HostRuntime) {
    let script = script();
    let text = reported(rt.alloc(), false, &script);
    assert!(rt; text.is_ok());
    assert_same(&rt, &reported(rt.alloc(), true, &script), &text);
}

/// A script whose report needs growths of the journal, of the text and of two dates. Its counter
/// changes to the same counter.
const DATED: &[u8] = b"open,64,16777216,24,0,1700000000,0\ncounter,0,64,16777216,24,0\n\
update,1\nupdate,2\nupdate,3\nupdate,4\nupdate,5\nget,5,realtime\nupdate,6\nupdate,7\n\
update,8\nupdate,9\nget,86400000000000,realtime\nget,86400000000000,tai\nupdate,10\n";

/// The clocks after `DATED`.
fn dated_keeper(rt: &(impl Abort + AllocGlobal)) -> Timekeeper {
    keeper_of(rt.alloc(), DATED).expect(rt, "a keeper")
}

/// The lines of stamps by the journal of `DATED`, out of the heap.
fn lines<'h>(
    heap: &'h Heap<Global>,
    rt: &(impl Abort + AllocGlobal + Threads + Sync),
    stamps: &[u8],
) -> Result<Vec<u8, &'h Heap<Global>>, Fault> {
    lines_by(heap, rt, &dated_keeper(rt), stamps)
}

/// The lines of stamps by this journal, out of the heap.
fn lines_by<'h>(
    heap: &'h Heap<Global>,
    rt: &(impl Abort + AllocGlobal + Threads + Sync),
    keeper: &Timekeeper,
    stamps: &[u8],
) -> Result<Vec<u8, &'h Heap<Global>>, Fault> {
    let items = Stamps::from_bytes(rt.alloc(), stamps).expect(rt, "stamps");
    convert(heap, rt, keeper, &items, ClockId::Monotonic)
}

/// The report of `DATED`, out of the heap.
fn text_of<'h>(
    heap: &'h Heap<Global>,
    rt: &(impl Abort + AllocGlobal),
    is_bounded: bool,
) -> Result<CheckedReport<&'h Heap<Global>>, ScriptError> {
    let (start, mut rows) = RowReader::open(rt.alloc(), DATED).expect(rt, "a script");
    let keep = if is_bounded { Some(1) } else { None };
    report_rows(heap, start, &mut rows, keep)
}

/// Returns the keeper after `DATED`, with a journal out of the heap.
fn kept_of<'h>(
    heap: &'h Heap<Global>,
    rt: &(impl Abort + AllocGlobal),
) -> Result<Timekeeper<&'h Heap<Global>>, ScriptError> {
    let (start, mut rows) = RowReader::open(rt.alloc(), DATED).expect(rt, "a script");
    keeper_after(heap, start, &mut rows)
}

/// The work during which allocations fail.
#[derive(Clone, Copy)]
enum Work {
    Report,
    BoundedReport,
    /// The journal of a trace.
    Journal,
    /// The lines of a trace.
    Lines,
}

/// The end of the report of `DATED`.
const DATED_END: &[u8] = b",2023-11-15T22:13:20.000000000Z\n\
at,tai,1700086400.000000000\nok,11,0.000000010\n";

/// The text is the report of `DATED`.
fn assert_dated(rt: &(impl Abort + AllocGlobal), text: &[u8]) {
    let alone = reported(rt.alloc(), false, DATED).expect(rt, "a report");
    assert_same(rt, &text, &alone.as_slice());
    assert!(rt; text.ends_with(DATED_END));
}

impl Work {
    /// Makes it from `DATED`, in memory of the heap. Stops the test if the result is wrong.
    fn make(
        self,
        rt: &(impl Abort + AllocGlobal + Threads + Sync),
        heap: &Heap<Global>,
    ) -> Result<(), Fault> {
        match self {
            Work::Report => assert_dated(rt, text_of(heap, rt, false)?.text.as_slice()),
            Work::BoundedReport => assert_dated(rt, text_of(heap, rt, true)?.text.as_slice()),
            Work::Journal => assert_same(rt, &kept_of(heap, rt)?.len(), &11),
            Work::Lines => {
                let text = lines(heap, rt, b"11,12\n1,7\n10,1000\n")?;
                assert_same(rt, &text.as_slice(), &b"12\n7\n1000\n".as_slice());
            }
        }
        Ok(())
    }
}

/// Does the work while this request is refused. Returns whether one was refused: the fault is then
/// `Memory`.
fn is_work_refused(
    rt: &(impl Abort + AllocGlobal + Threads + Sync),
    work: Work,
    request: u64,
) -> bool {
    let heap = Heap::new(rt.alloc());
    heap.refuse(request);
    let outcome = work.make(rt, &heap);
    let is_refused = !heap.grant_all();
    let wanted = if is_refused {
        Err(Fault::Memory)
    } else {
        Ok(())
    };
    assert_same(rt, &outcome, &wanted);
    is_refused
}

/// Every kind of work makes at least `least` requests of the heap, any of which may be refused.
#[test]
fn each_growth_refused_in_turn(rt: HostRuntime) {
    for (work, least) in [
        (Work::Report, 5),
        (Work::BoundedReport, 5),
        (Work::Journal, 2),
        (Work::Lines, 2),
    ] {
        for request in 1..1_000 {
            let is_refused = is_work_refused(&rt, work, request);
            assert!(rt; is_refused || request > least);
        }
        assert!(rt; !is_work_refused(&rt, work, 1_000));
    }
}

#[test]
fn the_lines_of_one_stamp_need_memory(rt: HostRuntime) {
    let heap = Heap::new(rt.alloc());
    heap.refuse_all();
    assert!(rt; matches!(lines(&heap, &rt, b"10,12\n"), Err(Fault::Memory)));
    heap.grant_all();
}

#[test]
fn trace_or_want_of_it(rt: HostRuntime) {
    let mut writer = Writer::willing();
    let outcome = traced(&rt, STEERED, STAMPS, ClockId::Monotonic, &mut writer);
    assert_written(&rt, outcome, &writer);
}
