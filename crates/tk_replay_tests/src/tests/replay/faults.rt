//! The texts of the faults.

use super::assert_lines;
use tk_keeper::TraceError;
use tk_replay::Fault;
use tk_script::ScriptError;

#[test]
fn names_each_fault(rt: HostRuntime) {
    let plain = [Fault::Read, Fault::Memory, Fault::Write { written: 30 }];
    let texts = "cannot read\nout of memory\ncannot write\n";
    assert_lines(&rt, plain.as_slice(), texts);
    let of_scripts = [
        Fault::Script(ScriptError::TooLarge),
        Fault::Script(ScriptError::Empty),
        Fault::Script(ScriptError::Opening { row: 1 }),
        Fault::Script(ScriptError::Word { row: 2 }),
        Fault::Script(ScriptError::Fields { row: 3 }),
        Fault::Script(ScriptError::Number { row: 4 }),
    ];
    let texts = "script: larger than 16777216 bytes\n\
script: no record\n\
script: record 1: not a valid opening\n\
script: record 2: unknown word\n\
script: record 3: wrong number of fields\n\
script: record 4: not a number in range\n";
    assert_lines(&rt, of_scripts.as_slice(), texts);
    let of_stamps = [
        Fault::Stamps(ScriptError::Fields { row: 5 }),
        Fault::Trace(TraceError::Unknown { index: 3 }),
        Fault::Trace(TraceError::Folded { index: 0 }),
        Fault::Trace(TraceError::Invalid { index: 1 }),
        Fault::Trace(TraceError::Range { index: 2 }),
    ];
    let texts = "stamps: record 5: wrong number of fields\n\
item 3: unknown front\n\
item 0: folded front\n\
item 1: stamp above the mask\n\
item 2: value out of range\n";
    assert_lines(&rt, of_stamps.as_slice(), texts);
}
