//! Tests traces from readers that fail, and into writers that fail.

use super::assert_same;
use super::fakes::{
    Endless, FAULTS, NEVER, Reader, TURNS, Turn, Writer, assert_taken, assert_write_fault,
};
use std::io::Read;
use std::process::Abort;
use std::thread::Threads;
use tk_clock::ClockId;
use tk_replay::{Fault, trace};
use tk_script::ScriptError;

/// One nanosecond a cycle, and two settings of the frequency.
pub(super) const STEERED: &[u8] =
    b"open,32,16777216,24,0,1700000000,0\nfreq,0,65536000\nfreq,1000000000,-32768000\n";

/// Stamps as of the opening, the first setting and both.
pub(super) const STAMPS: &[u8] = b"0,1000000000\n1,1000000000\n2,1000000001\n";

/// MONOTONIC at these, 33 bytes.
pub(super) const TRACE: &[u8] = b"1000000000\n1000499963\n1000499964\n";

/// Traces two texts into a writer.
pub(super) fn traced(
    rt: &(impl AllocGlobal + Threads + Sync),
    script: &[u8],
    stamps: &[u8],
    clock: ClockId,
    writer: &mut Writer,
) -> Result<(), Fault> {
    let (mut script, mut stamps) = (script, stamps);
    trace(rt.alloc(), rt, &mut script, &mut stamps, clock, writer)
}

/// Stops the test unless the trace of two readers has this fault, and nothing is written.
fn assert_stops<R: Read, S: Read>(
    rt: &(impl Abort + AllocGlobal + Threads + Sync),
    script: &mut R,
    stamps: &mut S,
    clock: ClockId,
    fault: Fault,
) {
    let mut writer = Writer::willing();
    let outcome = trace(rt.alloc(), rt, script, stamps, clock, &mut writer);
    assert_same(rt, &outcome, &Err(fault));
    assert_same(rt, &writer.calls, &0);
}

/// Traces two readers, one of which fails: nothing is written, and no read is repeated.
fn assert_unread<R: Read, S: Read>(
    rt: &(impl Abort + AllocGlobal + Threads + Sync),
    script: &mut R,
    stamps: &mut S,
) {
    assert_stops(rt, script, stamps, ClockId::Monotonic, Fault::Read);
}

#[test]
fn a_read_that_fails_is_reported_before_all_other_faults(rt: HostRuntime) {
    // both readers are read eight times, and once more to find the end
    let faulty = b"a script with a fault in its first record, and as many reads as the other\n";
    let scripts: [&[u8]; 2] = [STEERED, faulty];
    for fault in FAULTS {
        for text in scripts {
            for read in 0..9 {
                let mut script = Reader::new(text, read, fault);
                let mut stamps = Reader::new(b"no stamps", NEVER, fault);
                assert_unread(&rt, &mut script, &mut stamps);
                assert_same(&rt, &(script.reads, stamps.reads), &(read + 1, 0));
            }
            for read in 0..5 {
                let mut script = Reader::new(text, NEVER, fault);
                let mut stamps = Reader::new(STAMPS, read, fault);
                assert_unread(&rt, &mut script, &mut stamps);
                assert_same(&rt, &stamps.reads, &(read + 1));
            }
        }
    }
}

#[test]
fn reads_both_inputs_to_the_limit(rt: HostRuntime) {
    let mut script = Endless { given: 0 };
    let mut stamps = Endless { given: 0 };
    let fault = Fault::Script(ScriptError::TooLarge);
    assert_stops(&rt, &mut script, &mut stamps, ClockId::Tai, fault);
    let given = (script.given, stamps.given);
    assert_same(&rt, &given, &(16_777_217, 16_777_217));
}

#[test]
fn a_write_that_fails_ends_it(rt: HostRuntime) {
    for turn in TURNS {
        for write in 0..4 {
            let mut writer = Writer::new(10, write, turn);
            let outcome = traced(&rt, STEERED, STAMPS, ClockId::Monotonic, &mut writer);
            let text = &TRACE[..write as usize * 10];
            assert_write_fault(&rt, outcome, &writer, text, write + 1);
        }
    }
}

#[test]
fn a_flush_that_fails_is_reported_after_the_text(rt: HostRuntime) {
    for fault in FAULTS {
        let mut writer = Writer::willing();
        writer.flush_fault = Some(fault);
        let outcome = traced(&rt, STEERED, STAMPS, ClockId::Monotonic, &mut writer);
        assert_write_fault(&rt, outcome, &writer, TRACE, 5);
    }
}

#[test]
fn writes_a_trace_by_single_bytes(rt: HostRuntime) {
    let mut writer = Writer::new(1, NEVER, Turn::TakesNone);
    let outcome = traced(&rt, STEERED, STAMPS, ClockId::Monotonic, &mut writer);
    assert_same(&rt, &outcome, &Ok(()));
    assert_taken(&rt, &writer, TRACE, 34);
}
