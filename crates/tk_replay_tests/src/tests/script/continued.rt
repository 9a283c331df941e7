//! Scripts that continue steered clocks.
use super::super::assert_same;
use std::alloc::AllocGlobal;
use std::process::Abort;
use tk_ntp::SteeredNumbers;
use tk_script::{RowReader, Script, ScriptError, Start};

/// The record up to the tick: a 64-bit counter at 1 ns a cycle, whose clocks have accepted 10
/// commands.
const CLOCKS: &[u8] = b"openwords,64,8388608,23,10,9496540209,8391771,4194304007121448,9,\
1700000000500000000,0,0,4165281169539072,9,24718429,10000,";

/// The words of the snapshot of these clocks.
const WORDS: [u64; 10] = [
    10,
    9_496_540_209,
    8_391_771,
    4_194_304_007_121_448,
    9,
    1_700_000_000_500_000_000,
    0,
    0,
    4_165_281_169_539_072,
    9,
];

/// The numbers of a discipline, all of them different.
const NUMBERS: &[u8] = b"250,8209,1,1,1700006400,-1652045498007533,6,5000,7000,10001,\
-13107200000000,1700000000,-300,6478609796107,1152921504740785503,17553326032570810368,1700000011,\
9496540210";

/// The greatest numbers that a discipline can have.
const GREATEST: &[u8] = b"250,4294967295,4,1,18446744073709551615,8589934592000000,10,16000000,\
16000000,11000,2147483648000000,9223372036854775807,9223372036854775807,8598524526592000,\
1729382256910270464,0,9223372037,18446744073709551615";

/// The least numbers that a discipline can have.
const LEAST: &[u8] = b"1,0,0,0,0,-2147483648000000000,0,0,0,9000,-2147483648000000,0,\
-9223372036854775808,-2149631131648000000,576460752303423488,0,0,0";

/// Numbers of which one is out of its range.
const WRONG: [&[u8]; 20] = [
    b"0,0,0,0,0,0,0,0,0,9000,0,0,0,0,1152921504606846976,0,0,0",
    b"1025,0,0,0,0,0,0,0,0,9000,0,0,0,0,1152921504606846976,0,0,0",
    b"250,0,5,0,0,0,0,0,0,9000,0,0,0,0,1152921504606846976,0,0,0",
    b"250,0,0,2,0,0,0,0,0,9000,0,0,0,0,1152921504606846976,0,0,0",
    b"250,0,0,0,1,0,0,0,0,9000,0,0,0,0,1152921504606846976,0,0,0",
    b"250,0,0,0,0,8589934592000001,0,0,0,9000,0,0,0,0,1152921504606846976,0,0,0",
    b"250,0,0,0,0,-8589934592000001,0,0,0,9000,0,0,0,0,1152921504606846976,0,0,0",
    b"250,0,0,0,0,0,11,0,0,9000,0,0,0,0,1152921504606846976,0,0,0",
    b"250,0,0,0,0,0,0,16000001,0,9000,0,0,0,0,1152921504606846976,0,0,0",
    b"250,0,0,0,0,0,0,0,16000001,9000,0,0,0,0,1152921504606846976,0,0,0",
    b"250,0,0,0,0,0,0,0,0,8999,0,0,0,0,1152921504606846976,0,0,0",
    b"250,0,0,0,0,0,0,0,0,11001,0,0,0,0,1152921504606846976,0,0,0",
    b"250,0,0,0,0,0,0,0,0,9000,2147483648000001,0,0,0,1152921504606846976,0,0,0",
    b"250,0,0,0,0,0,0,0,0,9000,-2147483648000001,0,0,0,1152921504606846976,0,0,0",
    b"250,0,0,0,0,0,0,0,0,9000,0,9223372036854775808,0,0,1152921504606846976,0,0,0",
    b"250,0,0,0,0,0,0,0,0,9000,0,0,0,8598524526592001,1152921504606846976,0,0,0",
    b"250,0,0,0,0,0,0,0,0,9000,0,0,0,-8598524526592001,1152921504606846976,0,0,0",
    b"250,0,0,0,0,0,0,0,0,9000,0,0,0,0,576460752303423487,18446744073709551615,0,0",
    b"250,0,0,0,0,0,0,0,0,9000,0,0,0,0,1729382256910270464,1,0,0",
    b"250,0,0,0,0,0,0,0,0,9000,0,0,0,0,1152921504606846976,0,9223372038,0",
];

/// Numbers of which one isn't a number of its type.
const NO_NUMBERS: [&[u8]; 6] = [
    b"-1,0,0,0,0,0,0,0,0,9000,0,0,0,0,1152921504606846976,0,0,0",
    b"250,4294967296,0,0,0,0,0,0,0,9000,0,0,0,0,1152921504606846976,0,0,0",
    b"250,0,0,256,0,0,0,0,0,9000,0,0,0,0,1152921504606846976,0,0,0",
    b"250,0,0,0,0,9223372036854775808,0,0,0,9000,0,0,0,0,1152921504606846976,0,0,0",
    b"250,0,0,0,0,0,0,0,0,9000,0,0,0,0,1152921504606846976,18446744073709551616,0,0",
    b"250,0,0,0,0,0,0,0,0,9000,0,0,0,0,1152921504606846976,0,0,",
];

/// Returns the record of `CLOCKS` with these numbers.
fn record(rt: &(impl Abort + AllocGlobal), numbers: &[u8]) -> Vec<u8> {
    let mut bytes = Vec::new(rt.alloc());
    bytes.extend_from_slice(CLOCKS).expect(rt, "memory");
    bytes.extend_from_slice(numbers).expect(rt, "memory");
    bytes
}

/// Stops the test unless the record with these numbers has this fault, or none.
fn assert_fault(rt: &(impl Abort + AllocGlobal), numbers: &[u8], fault: Option<ScriptError>) {
    let bytes = record(rt, numbers);
    let found = RowReader::open(rt.alloc(), bytes.as_slice()).err();
    assert_same(rt, &found, &fault);
}

#[test]
fn continues_steered_clocks(rt: HostRuntime) {
    let bytes = record(&rt, NUMBERS);
    let script = Script::from_bytes(rt.alloc(), bytes.as_slice()).expect(&rt, "a script");
    assert_continued(&rt, script.start);
}

#[test]
fn continues_steered_clocks_by_fields_in_quotes(rt: HostRuntime) {
    let mut bytes = record(&rt, NUMBERS);
    let quoted = b"\n\"update\",\"9496540211\"\n";
    bytes.extend_from_slice(quoted).expect(&rt, "memory");
    let script = Script::from_bytes(rt.alloc(), bytes.as_slice()).expect(&rt, "a script");
    assert_continued(&rt, script.start);
}

/// Stops the test unless a script continues the clocks of `CLOCKS` with the numbers `NUMBERS`.
fn assert_continued(rt: &impl Abort, start: Start) {
    let Start::Continued { clock, front } = start else {
        assert!(rt; false);
        return;
    };
    assert_same(rt, &front, &10);
    assert_same(rt, &clock.snapshot(front).words(), &WORDS);
    assert_same(rt, &clock.rate().frequency, &24_718_429);
    assert_same(rt, &clock.rate().tick, &10_000);
    assert_numbers(rt, clock.numbers());
}

/// Stops the test unless these are the numbers `NUMBERS`.
fn assert_numbers(rt: &impl Abort, numbers: SteeredNumbers) {
    let ntp = numbers.steering.ntp;
    let lag = numbers.steering.lag;
    assert_same(rt, &(ntp.hz, ntp.status), &(250, 8_209));
    assert_same(rt, &(ntp.plan.state, ntp.plan.is_due), &(1, 1));
    assert_same(rt, &ntp.plan.due, &1_700_006_400);
    assert_same(rt, &ntp.offset, &-1_652_045_498_007_533);
    assert_same(rt, &(ntp.constant, ntp.maxerror), &(6, 5_000));
    assert_same(rt, &(ntp.esterror, ntp.tick), &(7_000, 10_001));
    assert_same(rt, &ntp.frequency, &-13_107_200_000_000);
    assert_same(rt, &ntp.reftime, &1_700_000_000);
    assert_same(rt, &(ntp.adjust, ntp.phase), &(-300, 6_478_609_796_107));
    assert_same(rt, &lag.high, &1_152_921_504_740_785_503);
    assert_same(rt, &lag.low, &17_553_326_032_570_810_368);
    assert_same(
        rt,
        &(numbers.next, numbers.last_account),
        &(1_700_000_011, 9_496_540_210),
    );
}

#[test]
fn takes_numbers_up_to_their_bounds(rt: HostRuntime) {
    assert_fault(&rt, GREATEST, None);
    assert_fault(&rt, LEAST, None);
}

#[test]
fn refuses_numbers_that_no_discipline_has(rt: HostRuntime) {
    for numbers in WRONG {
        assert_fault(&rt, numbers, Some(ScriptError::Opening { row: 1 }));
    }
}

#[test]
fn tests_the_fields_of_a_discipline_first(rt: HostRuntime) {
    for numbers in NO_NUMBERS {
        assert_fault(&rt, numbers, Some(ScriptError::Number { row: 1 }));
    }
    let few = b"250,0,0,0,0,0,0,0,0,9000,0,0,0,0,1152921504606846976,0,0";
    assert_fault(&rt, few, Some(ScriptError::Fields { row: 1 }));
    let many = b"250,0,0,0,0,0,0,0,0,9000,0,0,0,0,1152921504606846976,0,0,0,0";
    assert_fault(&rt, many, Some(ScriptError::Fields { row: 1 }));
}
