use super::{OPENING, act, assert_rows, assert_same, joined, look, time};
use std::process::Abort;
use tk_clock::{ClockId, Command};
use tk_counter::CounterDesc;
use tk_ntp::Timex;
use tk_script::{Row, Script, ScriptError};

/// Stops the test if one record after an opening gives another row.
fn assert_row(rt: &(impl Abort + AllocGlobal), record: &[u8], row: Row) {
    let bytes = joined(rt, OPENING, record);
    assert_rows(rt, bytes.as_slice(), [row].as_slice());
}

#[test]
fn reads_each_command(rt: HostRuntime) {
    for (record, cmd) in [
        (b"update,9".as_slice(), Command::Update),
        (
            b"set,9,2000000000,5".as_slice(),
            Command::SetTime(time(2_000_000_000, 5)),
        ),
        (
            b"step,9,-3,999999999".as_slice(),
            Command::Step(time(-3, 999_999_999)),
        ),
        (b"freq,9,-32768000".as_slice(), Command::Freq(-32_768_000)),
        (b"tick,9,11000".as_slice(), Command::Tick(11_000)),
        (b"tai,9,37".as_slice(), Command::Tai(37)),
        (b"suspend,9".as_slice(), Command::Suspend),
        (
            b"resume,9,5,500000000".as_slice(),
            Command::Resume(time(5, 500_000_000)),
        ),
    ] {
        assert_row(&rt, record, act(9, cmd));
    }
}

#[test]
fn reads_each_clock(rt: HostRuntime) {
    for (record, clock) in [
        (b"get,7,realtime".as_slice(), ClockId::Realtime),
        (b"get,7,monotonic".as_slice(), ClockId::Monotonic),
        (b"get,7,boottime".as_slice(), ClockId::Boottime),
        (b"get,7,tai".as_slice(), ClockId::Tai),
        (b"get,7,realtime_coarse".as_slice(), ClockId::RealtimeCoarse),
        (
            b"get,7,monotonic_coarse".as_slice(),
            ClockId::MonotonicCoarse,
        ),
        (b"get,7,monotonic_raw".as_slice(), ClockId::MonotonicRaw),
    ] {
        assert_row(&rt, record, look(7, clock));
    }
}

#[test]
fn reads_an_expected_value(rt: HostRuntime) {
    for (record, value) in [
        (b"get,7,tai,0".as_slice(), 0),
        (b"get,7,tai,0001", 1),
        (b"get,7,tai,18446744073709551615\n", u64::MAX),
        (
            b"\"get\",7,\"tai\",1700000000500000000",
            1_700_000_000_500_000_000,
        ),
    ] {
        let row = Row::Look {
            reading: 7,
            clock: ClockId::Tai,
            expected: Some(value),
        };
        assert_row(&rt, record, row);
    }
}

/// Stops the test unless one record after an opening has this fault.
fn assert_fault(rt: &(impl Abort + AllocGlobal), record: &[u8], fault: ScriptError) {
    let bytes = joined(rt, OPENING, record);
    let error = Script::from_bytes(rt.alloc(), bytes.as_slice()).err();
    assert_same(rt, &error, &Some(fault));
}

#[test]
fn refuses_faulty_reads_and_requests(rt: HostRuntime) {
    let (word, fields) = (ScriptError::Word { row: 2 }, ScriptError::Fields { row: 2 });
    let number = ScriptError::Number { row: 2 };
    for (record, fault) in [
        (b"get,7".as_slice(), fields),
        (b"get,7,tai,1,2", fields),
        (b"get,7,tai,", number),
        (b"get,7,tai,-1", number),
        (b"get,7,tai,1.000000000", number),
        (b"get,7,tai,18446744073709551616", number),
        // the reading comes before the clock, and the clock before the expected value
        (b"get,x,foo,y", number),
        (b"get,7,foo,y", word),
        (b"adjtimex,9,0,0,0,0,0,0,0,0,0", fields),
        (b"adjtimex,9,0,0,0,0,0,0,0,0,0,0,0", fields),
        (b"adjtimex,-1,0,0,0,0,0,0,0,0,0,0", number),
        (b"adjtimex,9,4294967296,0,0,0,0,0,0,0,0,0", number),
        (b"adjtimex,9,0,0,0,0,0,-1,0,0,0,0", number),
        (b"adjtimex,9,0,9223372036854775808,0,0,0,0,0,0,0,0", number),
        (b"adjtimex,9,0,0,0,0,0,0,0,0,0,", number),
    ] {
        assert_fault(&rt, record, fault);
    }
}

#[test]
fn reads_the_greatest_and_the_least_numbers(rt: HostRuntime) {
    for (record, row) in [
        (
            b"freq,18446744073709551615,9223372036854775807".as_slice(),
            act(u64::MAX, Command::Freq(i64::MAX)),
        ),
        (
            b"tai,0,-9223372036854775808",
            act(0, Command::Tai(i64::MIN)),
        ),
        (
            b"set,0,-9223372036854775808,4294967295",
            act(0, Command::SetTime(time(i64::MIN, u32::MAX))),
        ),
        (b"tick,000,-000", act(0, Command::Tick(0))),
    ] {
        assert_row(&rt, record, row);
    }
}

#[test]
fn reads_a_change_of_counter(rt: HostRuntime) {
    let desc = CounterDesc::new(64, 4_194_304, 22).expect(&rt, "a counter");
    let row = Row::Change {
        reading: 9,
        desc,
        first: u64::MAX,
    };
    assert_row(&rt, b"counter,9,64,4194304,22,18446744073709551615", row);
}

/// A request whose fields all differ.
fn request() -> Row {
    Row::Ask {
        reading: 9,
        request: Timex {
            modes: 0x2035,
            offset: -100_000_000,
            freq: i64::MIN,
            maxerror: 3,
            esterror: 4,
            status: u32::MAX,
            constant: 6,
            tick: 10_000,
            sec: -8,
            sub: i64::MAX,
        },
    }
}

#[test]
fn reads_a_request(rt: HostRuntime) {
    let plain = b"adjtimex,9,8245,-100000000,-9223372036854775808,3,4,4294967295,6,10000,-8,\
        9223372036854775807";
    assert_row(&rt, plain, request());
    let quoted = b"\"adjtimex\",9,8245,-100000000,-9223372036854775808,3,4,4294967295,6,10000,\
        -8,\"9223372036854775807\"";
    assert_row(&rt, quoted, request());
}
