//! Tests the readers and writers of std, by their impls.

use super::traces::{STAMPS, STEERED, TRACE};
use super::{REPORT, SCRIPT, assert_same, replayed};
use std::fs::{self, File};
use tk_clock::ClockId;
use tk_replay::{Fault, Sink, Source, trace};

#[test]
fn a_slice_gives_its_bytes_and_then_none(rt: HostRuntime) {
    let mut slice: &[u8] = b"abc";
    let mut room = [0; 2];
    assert_same(&rt, &slice.read_once(&mut room), &Some(2));
    assert_same(&rt, &room, &[b'a', b'b']);
    assert_same(&rt, &slice.read_once(&mut room), &Some(1));
    assert_same(&rt, &room, &[b'c', b'b']);
    assert_same(&rt, &slice.read_once(&mut room), &Some(0));
}

#[test]
fn a_vector_takes_all(rt: HostRuntime) {
    let mut taken = Vec::new(rt.alloc());
    assert_same(&rt, &taken.write_once(b"abc"), &Some(3));
    assert_same(&rt, &taken.write_once(b""), &None);
    assert!(rt; taken.flush_once());
    assert_same(&rt, &taken.as_slice(), &b"abc".as_slice());
}

#[test]
fn replays_a_file_into_a_file(rt: HostRuntime) {
    fs::write(&rt, "tk_replay_script", SCRIPT).expect(&rt, "a file");
    let mut script = File::open(&rt, "tk_replay_script").expect(&rt, "a file");
    let mut report = File::create(&rt, "tk_replay_report").expect(&rt, "a file");
    let outcome = replayed(rt.alloc(), false, &mut script, &mut report);
    assert_same(&rt, &outcome, &Ok(0));
    let text = fs::read(&rt, "tk_replay_report").expect(&rt, "a file");
    assert_same(&rt, &text.as_slice(), &REPORT);
    fs::remove_file(&rt, "tk_replay_script").expect(&rt, "a file");
    fs::remove_file(&rt, "tk_replay_report").expect(&rt, "a file");
}

#[test]
fn traces_two_files_into_a_third(rt: HostRuntime) {
    fs::write(&rt, "tk_replay_steered", STEERED).expect(&rt, "a file");
    fs::write(&rt, "tk_replay_stamps", STAMPS).expect(&rt, "a file");
    let mut script = File::open(&rt, "tk_replay_steered").expect(&rt, "a file");
    let mut stamps = File::open(&rt, "tk_replay_stamps").expect(&rt, "a file");
    let mut text = File::create(&rt, "tk_replay_trace").expect(&rt, "a file");
    let clock = ClockId::Monotonic;
    let outcome = trace(rt.alloc(), &rt, &mut script, &mut stamps, clock, &mut text);
    assert_same(&rt, &outcome, &Ok(()));
    let text = fs::read(&rt, "tk_replay_trace").expect(&rt, "a file");
    assert_same(&rt, &text.as_slice(), &TRACE);
    for name in ["tk_replay_steered", "tk_replay_stamps", "tk_replay_trace"] {
        fs::remove_file(&rt, name).expect(&rt, "a file");
    }
}

#[test]
fn reports_a_file_that_gives_or_takes_nothing(rt: HostRuntime) {
    let mut closed = File::create(&rt, "tk_replay_closed").expect(&rt, "a file");
    let mut report = Vec::new(rt.alloc());
    let unread = replayed(rt.alloc(), false, &mut closed, &mut report);
    assert_same(&rt, &unread, &Err(Fault::Read));
    assert_same(&rt, &report.len(), &0);
    let mut script = SCRIPT;
    let mut closed = File::open(&rt, "tk_replay_closed").expect(&rt, "a file");
    let unwritten = replayed(rt.alloc(), false, &mut script, &mut closed);
    assert_same(&rt, &unwritten, &Err(Fault::Write { written: 0 }));
    fs::remove_file(&rt, "tk_replay_closed").expect(&rt, "a file");
}
