//! Refuses all allocations of a text in turn: the result is the whole text or `Memory`.

use super::assert_same;
use std::alloc::Global;
use std::process::Abort;
use std::sync::Wait;
use std::test::Fail;
use std::thread::Threads;
use tk_clock::{Command, Timespec};
use tk_counter::CounterDesc;
use tk_program::{many_text, race_text};
use tk_replay::{Action, CheckedReport, Fault, NoGate, RaceReport, race};
use tk_script::ScriptError;
use tk_test_support::Heap;

/// A text that takes memory.
#[derive(Clone, Copy)]
enum Text<'a> {
    Reports(&'a [Result<CheckedReport, ScriptError>]),
    Race(&'a RaceReport),
}

impl Text<'_> {
    /// Makes the text with this allocator.
    fn made<'h>(&self, heap: &'h Heap<Global>) -> Result<Vec<u8, &'h Heap<Global>>, Fault> {
        match self {
            Text::Reports(outcomes) => many_text(heap, outcomes),
            Text::Race(report) => race_text(heap, report),
        }
    }
}

/// Refuses all requests of a text in turn. The text makes at least `least` of them.
fn assert_whole_or_memory(
    rt: &(impl Abort + AllocGlobal),
    text: &Text<'_>,
    whole: &[u8],
    least: u64,
) -> Result<(), Fail> {
    let heap = Heap::new(rt.alloc());
    for request in 1..=100 {
        heap.refuse(request);
        let ended = text.made(&heap);
        let granted = heap.grant_all();
        match ended {
            Ok(text) => {
                assert!(rt; granted && request > least);
                assert_same(rt, &text.as_slice(), &whole);
                return Ok(());
            }
            Err(fault) => assert!(rt; !granted && fault == Fault::Memory),
        }
    }
    Err("each text met a refusal".into())
}

/// A report, and the fault of a script.
fn outcomes(rt: &(impl Abort + AllocGlobal)) -> [Result<CheckedReport, ScriptError>; 2] {
    let text = Vec::from_slice(rt.alloc(), b"open,32,16777216,24\nno,behind\n");
    let report = CheckedReport {
        text: text.expect(rt, "memory"),
        differences: 0,
    };
    [Ok(report), Err(ScriptError::Fields { row: 2 })]
}

/// Their text.
const TEXT: &[u8] = b"file,0\nopen,32,16777216,24\nno,behind\n\
file,1\nfault,record 2: wrong number of fields\n";

#[test]
fn each_request_of_many_reports_refused_in_turn(rt: HostRuntime) -> Result<(), Fail> {
    assert_whole_or_memory(&rt, &Text::Reports(&outcomes(&rt)), TEXT, 1)
}

#[test]
fn the_text_of_many_reports_takes_one_request(rt: HostRuntime) {
    let heap = Heap::new(rt.alloc());
    heap.refuse(2);
    let text = many_text(&heap, &outcomes(&rt)).expect(&rt, "a text");
    assert_same(&rt, &heap.grant_all(), &true);
    assert_same(&rt, &text.as_slice(), &TEXT);
    // at most 100 bytes for each heading and fault
    assert_same(&rt, &(text.capacity() <= text.len() + 200), &true);
}

/// The race of three updates of one actor, and of two commands and two reads of another.
fn raced(rt: &(impl Abort + AllocGlobal + Threads + Wait + Sync)) -> RaceReport {
    let alloc = rt.alloc();
    let real = Timespec {
        sec: 1_700_000_000,
        nsec: 0,
    };
    let desc = CounterDesc::new(32, 16_777_216, 24).expect(rt, "a counter");
    let updates = [Action::Order(Command::Update); 3];
    let mixed = [
        Action::Look,
        Action::Order(Command::Tai(100_001)),
        Action::Glance,
        Action::Order(Command::Tai(37)),
    ];
    let actors = [
        Vec::from_slice(alloc, &updates).expect(rt, "memory"),
        Vec::from_slice(alloc, &mixed).expect(rt, "memory"),
    ];
    race(alloc, rt, desc, 0, real, 1_000, &actors, &NoGate).expect(rt, "a report")
}

#[test]
fn each_request_of_a_race_refused_in_turn(rt: HostRuntime) -> Result<(), Fail> {
    let text = b"entries,4\nactor,0,3,0\nactor,1,1,1\n";
    assert_whole_or_memory(&rt, &Text::Race(&raced(&rt)), text, 2)
}
