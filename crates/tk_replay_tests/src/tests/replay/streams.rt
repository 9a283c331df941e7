use super::fakes::{
    Endless, FAULTS, NEVER, Reader, TURNS, Turn, Writer, assert_taken, assert_write_fault,
};
use super::{BOTH, REPORT, SCRIPT, assert_same, replayed};
use std::io::ErrorKind;
use tk_replay::Fault;
use tk_script::ScriptError;

#[test]
fn a_read_that_fails_is_not_tried_again(rt: HostRuntime) {
    for is_bounded in BOTH {
        for fault in FAULTS {
            for read in 0..12 {
                let mut reader = Reader::new(SCRIPT, read, fault);
                let mut writer = Writer::willing();
                let outcome = replayed(rt.alloc(), is_bounded, &mut reader, &mut writer);
                if outcome == Err(Fault::Memory) {
                    return;
                }
                assert_eq!(rt; outcome, Err(Fault::Read), "at {read}");
                assert_same(&rt, &reader.reads, &(read + 1));
                assert_same(&rt, &writer.calls, &0);
            }
        }
    }
}

#[test]
fn reads_to_the_end(rt: HostRuntime) {
    for is_bounded in BOTH {
        let mut reader = Reader::new(SCRIPT, 12, ErrorKind::Other);
        let mut writer = Writer::willing();
        let outcome = replayed(rt.alloc(), is_bounded, &mut reader, &mut writer);
        assert_same(&rt, &outcome, &Ok(0));
        assert_same(&rt, &writer.text(), &REPORT);
    }
}

#[test]
fn stops_reading_at_the_limit(rt: HostRuntime) {
    for is_bounded in BOTH {
        let mut reader = Endless { given: 0 };
        let mut writer = Writer::willing();
        let outcome = replayed(rt.alloc(), is_bounded, &mut reader, &mut writer);
        assert_same(&rt, &outcome, &Err(Fault::Script(ScriptError::TooLarge)));
        assert_same(&rt, &reader.given, &16_777_217);
        assert_same(&rt, &writer.calls, &0);
    }
}

#[test]
fn a_write_that_fails_is_not_tried_again(rt: HostRuntime) {
    for is_bounded in BOTH {
        for turn in TURNS {
            for write in 0..10 {
                let mut writer = Writer::new(10, write, turn);
                let mut script = SCRIPT;
                let outcome = replayed(rt.alloc(), is_bounded, &mut script, &mut writer);
                let text = &REPORT[..write as usize * 10];
                assert_write_fault(&rt, outcome, &writer, text, write + 1);
            }
        }
    }
}

#[test]
fn a_flush_that_fails_is_not_tried_again(rt: HostRuntime) {
    for is_bounded in BOTH {
        for fault in FAULTS {
            let mut writer = Writer::willing();
            writer.flush_fault = Some(fault);
            let mut script = SCRIPT;
            let outcome = replayed(rt.alloc(), is_bounded, &mut script, &mut writer);
            assert_write_fault(&rt, outcome, &writer, REPORT, 11);
        }
    }
}

#[test]
fn writes_by_single_bytes(rt: HostRuntime) {
    for is_bounded in BOTH {
        let mut writer = Writer::new(1, NEVER, Turn::TakesNone);
        let mut script = SCRIPT;
        let outcome = replayed(rt.alloc(), is_bounded, &mut script, &mut writer);
        assert_same(&rt, &outcome, &Ok(0));
        assert_taken(&rt, &writer, REPORT, 98);
    }
}
