use super::super::assert_same;
use std::process::Abort;
use tk_script::{RowReader, Script, ScriptError, Start};

/// A 32-bit counter at 1 ns per cycle, whose clocks have accepted 5 commands. The last one was at
/// reading 100, MONOTONIC is 7.5 s, and TAI is 37 s ahead of REALTIME.
const RUNNING: &[u8] =
    b"openwords,32,16777216,24,5,100,16777216,8388608000000000,7,1700000000000000000,3,74,1,7,0,10000";

/// The words of the snapshot of these clocks.
const WORDS: [u64; 10] = [
    5,
    100,
    16_777_216,
    8_388_608_000_000_000,
    7,
    1_700_000_000_000_000_000,
    3,
    74,
    1,
    7,
];

/// The first records with one number that running clocks can't have.
const WRONG: [&[u8]; 12] = [
    // one command too many before the script
    b"openwords,32,16777216,24,4611686018427387905,0,16777216,0,0,0,0,0,0,0,0,10000",
    // a reading above the mask
    b"openwords,32,16777216,24,0,4294967296,16777216,0,0,0,0,0,0,0,0,10000",
    // a multiplier that the frequency and the tick don't give
    b"openwords,32,16777216,24,0,0,16777217,0,0,0,0,0,0,0,0,10000",
    b"openwords,32,16777216,24,0,0,16777216,0,0,0,0,0,0,0,32768000,10000",
    b"openwords,32,16777216,24,0,0,16777216,0,0,0,0,0,0,0,0,9999",
    // a tick out of its range, with its multiplier
    b"openwords,32,16777216,24,0,0,15097816,0,0,0,0,0,0,0,0,8999",
    // a part of a second that is a second
    b"openwords,32,16777216,24,0,0,16777216,16777216000000000,0,0,0,0,0,0,0,10000",
    // MONOTONIC, REALTIME and the TAI offset at their ends
    b"openwords,32,16777216,24,0,0,16777216,0,946080000,0,0,0,0,0,0,10000",
    b"openwords,32,16777216,24,0,0,16777216,0,0,9223372036000000000,0,0,0,0,0,10000",
    b"openwords,32,16777216,24,0,0,16777216,0,0,0,0,200002,0,0,0,10000",
    // MONOTONIC_RAW further ahead than the slowest rate allows
    b"openwords,32,16777216,24,0,0,16777216,0,0,0,0,0,1,0,0,10000",
    // no counter
    b"openwords,7,16777216,24,0,0,16777216,0,0,0,0,0,0,0,0,10000",
];

#[test]
fn reads_running_clocks(rt: HostRuntime) {
    let script = Script::from_bytes(rt.alloc(), RUNNING).expect(&rt, "a script");
    assert_running(&rt, script.start);
}

/// Stops the test unless a script begins from the clocks of `RUNNING`.
fn assert_running(rt: &impl Abort, start: Start) {
    let Start::Running { clock, front } = start else {
        assert!(rt; false);
        return;
    };
    assert_same(rt, &front, &5);
    assert_same(rt, &clock.snapshot(front).words(), &WORDS);
    assert_same(rt, &clock.frequency(), &0);
    assert_same(rt, &clock.tick(), &10_000);
}

#[test]
fn refuses_clocks_that_cannot_run(rt: HostRuntime) {
    for bytes in WRONG {
        let error = RowReader::open(rt.alloc(), bytes).err();
        assert_same(&rt, &error, &Some(ScriptError::Opening { row: 1 }));
    }
}

#[test]
fn tests_the_fields_of_running_clocks_first(rt: HostRuntime) {
    let few = b"openwords,7,16777216,24,0,0,16777216,0,0,0,0,0,0,0,0";
    let error = RowReader::open(rt.alloc(), few).err();
    assert_same(&rt, &error, &Some(ScriptError::Fields { row: 1 }));
    let many = b"openwords,7,16777216,24,0,0,16777216,0,0,0,0,0,0,0,0,10000,,0";
    let error = RowReader::open(rt.alloc(), many).err();
    assert_same(&rt, &error, &Some(ScriptError::Fields { row: 1 }));
    let signed = b"openwords,7,16777216,24,-1,0,16777216,0,0,0,0,0,0,0,0,10000";
    let error = RowReader::open(rt.alloc(), signed).err();
    assert_same(&rt, &error, &Some(ScriptError::Number { row: 1 }));
}
