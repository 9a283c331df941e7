use super::assert_same;
use tk_clock::{ClockId, Refusal, Timespec};
use tk_counter::CounterDesc;
use tk_ntp::{Reply, STA_NANO, STA_PLL, TimeState, Timex};
use tk_script::{Calendar, line_adj, line_at, line_differs, line_no, line_ok, line_open};

#[test]
fn writes_each_line(rt: HostRuntime) {
    let desc = CounterDesc::new(32, 16_777_216, 24).expect(&rt, "a counter");
    let mut out = Vec::new(rt.alloc());
    let zero = Timespec { sec: 0, nsec: 0 };
    let later = Timespec {
        sec: 2,
        nsec: 147_483_647,
    };
    let day = Timespec {
        sec: 1_700_000_000,
        nsec: 0,
    };
    line_open(&mut out, &desc).expect(&rt, "memory");
    line_ok(&mut out, 1, later).expect(&rt, "memory");
    line_no(&mut out, Refusal::Behind).expect(&rt, "memory");
    line_no(&mut out, Refusal::Memory).expect(&rt, "memory");
    line_at(&mut out, ClockId::Monotonic, zero).expect(&rt, "memory");
    line_at(&mut out, ClockId::Realtime, day).expect(&rt, "memory");
    line_at(&mut out, ClockId::Tai, day).expect(&rt, "memory");
    line_differs(&mut out, 7, 1_700_000_000_000_000_001).expect(&rt, "memory");
    let want = b"open,32,16777216,24\n\
        ok,1,2.147483647\n\
        no,behind\n\
        no,memory\n\
        at,monotonic,0.000000000\n\
        at,realtime,1700000000.000000000,2023-11-14T22:13:20.000000000Z\n\
        at,tai,1700000000.000000000\n\
        differs,7,1700000000000000001\n";
    assert_same(&rt, &out.as_slice(), &want.as_slice());
}

#[test]
fn writes_seconds_of_each_length(rt: HostRuntime) {
    for (sec, nsec, line) in [
        (9_999, 100_000_000, b"ok,7,9999.100000000\n".as_slice()),
        (10_000, 10_203_040, b"ok,7,10000.010203040\n"),
        (999_999_999, 999_999_999, b"ok,7,999999999.999999999\n"),
        (1_000_000_000, 5, b"ok,7,1000000000.000000005\n"),
        (1_020_304_050, 60_708_090, b"ok,7,1020304050.060708090\n"),
        (9_223_372_035, 999_999_999, b"ok,7,9223372035.999999999\n"),
    ] {
        let mut out = Vec::new(rt.alloc());
        line_ok(&mut out, 7, Timespec { sec, nsec }).expect(&rt, "memory");
        assert_same(&rt, &out.as_slice(), &line);
    }
}

#[test]
fn writes_replies_in_nanoseconds_and_in_microseconds(rt: HostRuntime) {
    let mut out = Vec::new(rt.alloc());
    let timex = Timex {
        offset: 99_609_375,
        freq: -223_090,
        maxerror: 500,
        esterror: 16_000_000,
        status: STA_PLL | STA_NANO,
        constant: 6,
        tick: 10_000,
        sec: 1_700_000_001,
        sub: 500_195_264,
        ..Timex::default()
    };
    let reply = Reply {
        state: TimeState::Ok,
        tai: 37,
        timex,
    };
    line_adj(&mut out, &reply, u64::MAX).expect(&rt, "memory");
    let coarse = Timex {
        status: STA_PLL,
        offset: -1,
        sub: 999,
        ..timex
    };
    for state in [
        TimeState::Ok,
        TimeState::Ins,
        TimeState::Del,
        TimeState::Oop,
        TimeState::Wait,
        TimeState::Error,
    ] {
        let reply = Reply {
            state,
            tai: 0,
            timex: coarse,
        };
        line_adj(&mut out, &reply, 0).expect(&rt, "memory");
    }
    let want = b"adj,ok,1700000001.500195264,99609375,-223090,500,16000000,8193,6,10000,37,\
        18446744073709551615\n\
        adj,ok,1700000001.000999,-1,-223090,500,16000000,1,6,10000,0,0\n\
        adj,ins,1700000001.000999,-1,-223090,500,16000000,1,6,10000,0,0\n\
        adj,del,1700000001.000999,-1,-223090,500,16000000,1,6,10000,0,0\n\
        adj,oop,1700000001.000999,-1,-223090,500,16000000,1,6,10000,0,0\n\
        adj,wait,1700000001.000999,-1,-223090,500,16000000,1,6,10000,0,0\n\
        adj,error,1700000001.000999,-1,-223090,500,16000000,1,6,10000,0,0\n";
    assert_same(&rt, &out.as_slice(), &want.as_slice());
}

#[test]
fn a_calendar_keeps_no_date_for_another_day(rt: HostRuntime) {
    let mut out = Vec::new(rt.alloc());
    let mut calendar = Calendar::new(rt.alloc());
    for sec in [951_782_399, 951_782_400, 951_868_799, 951_868_800, 0] {
        let time = Timespec { sec, nsec: 0 };
        calendar
            .line_at(&mut out, ClockId::RealtimeCoarse, time)
            .expect(&rt, "memory");
    }
    let want = b"at,realtime_coarse,951782399.000000000,2000-02-28T23:59:59.000000000Z\n\
        at,realtime_coarse,951782400.000000000,2000-02-29T00:00:00.000000000Z\n\
        at,realtime_coarse,951868799.000000000,2000-02-29T23:59:59.000000000Z\n\
        at,realtime_coarse,951868800.000000000,2000-03-01T00:00:00.000000000Z\n\
        at,realtime_coarse,0.000000000,1970-01-01T00:00:00.000000000Z\n";
    assert_same(&rt, &out.as_slice(), &want.as_slice());
}
