use super::{
    answers, assert_same, assert_same_at, has_words, nanosecond_counter, opened, reads, time,
};
use std::process::Abort;
use tk_clock::ClockId::{
    Boottime, Monotonic, MonotonicCoarse, MonotonicRaw, Realtime, RealtimeCoarse, Tai,
};
use tk_clock::{Clock, Command, Refusal, Timespec};
use tk_counter::CounterDesc;
use tk_test_support::OPENED_WORDS;

/// Returns clocks that are opened with an uptime.
fn ran_for(
    rt: &impl Abort,
    desc: CounterDesc,
    reading: u64,
    real: Timespec,
    uptime: Timespec,
) -> Clock {
    Clock::open_at(desc, reading, real, uptime).expect(rt, "clocks")
}

#[test]
fn clocks_count_the_uptime_that_they_are_opened_with(rt: HostRuntime) {
    let desc = nanosecond_counter(&rt);
    let uptime = time(3_600, 250_000_000);
    let clock = ran_for(&rt, desc, 9, time(1_700_000_000, 0), uptime);
    // 250,000,000 ns are 250,000,000 * 2^24 units
    let rest = 4_194_304_000_000_000;
    let offset = 1_699_996_399_750_000_000;
    let words = [0, 9, 16_777_216, rest, 3_600, offset, 0, 0, rest, 3_600];
    has_words(&rt, &clock, 0, &words);
    for id in [Monotonic, MonotonicRaw, Boottime] {
        reads(&rt, &clock, id, 1_000_009, time(3_600, 251_000_000));
    }
    for id in [Realtime, Tai] {
        reads(&rt, &clock, id, 1_000_009, time(1_700_000_000, 1_000_000));
    }
    reads(
        &rt,
        &clock,
        MonotonicCoarse,
        1_000_009,
        time(3_600, 250_000_000),
    );
    reads(
        &rt,
        &clock,
        RealtimeCoarse,
        1_000_009,
        time(1_700_000_000, 0),
    );
    assert_same(&rt, &(clock.frequency(), clock.tick()), &(0, 10_000));
}

#[test]
fn an_uptime_of_0_is_an_opening(rt: HostRuntime) {
    let desc = nanosecond_counter(&rt);
    let clock = ran_for(&rt, desc, 0, time(1_700_000_000, 0), time(0, 0));
    has_words(&rt, &clock, 0, &OPENED_WORDS);
}

#[test]
fn clocks_that_ran_for_a_time_equal_clocks_opened_with_it(rt: HostRuntime) {
    let mut ran = opened(&rt);
    answers(&rt, &mut ran, 1_500_000_000, Command::Update, Ok(()));
    let mut begun = ran_for(
        &rt,
        nanosecond_counter(&rt),
        1_500_000_000,
        time(1_700_000_001, 500_000_000),
        time(1, 500_000_000),
    );
    for (reading, cmd, answer) in [
        (1_499_999_999, Command::Update, Err(Refusal::Behind)),
        (1_500_000_007, Command::Freq(32_768_000), Ok(())),
        // REALTIME can't be below MONOTONIC
        (
            1_600_000_000,
            Command::SetTime(time(1, 0)),
            Err(Refusal::Invalid),
        ),
        (1_600_000_000, Command::SetTime(time(2, 0)), Ok(())),
    ] {
        answers(&rt, &mut ran, reading, cmd, answer);
        answers(&rt, &mut begun, reading, cmd, answer);
        has_words(&rt, &begun, 0, &ran.snapshot(0).words());
    }
}

#[test]
fn an_opening_with_an_uptime_returns_the_first_fault(rt: HostRuntime) {
    let desc = nanosecond_counter(&rt);
    let (invalid, range) = (Err(Refusal::Invalid), Err(Refusal::Range));
    for (reading, real, uptime, answer) in [
        (
            0,
            time(8_277_292_035, 0),
            time(946_079_999, 999_999_999),
            Ok(()),
        ),
        // the tests of an opening come before those of the uptime
        (4_294_967_296, time(5, 0), time(946_080_000, 0), invalid),
        (0, time(8_277_292_036, 0), time(946_080_000, 0), invalid),
        (0, time(5, 1_000_000_000), time(946_080_000, 0), invalid),
        // an uptime's seconds and nanoseconds are tested before its limit
        (0, time(5, 0), time(-1, 0), invalid),
        (0, time(5, 0), time(i64::MIN, 0), invalid),
        (0, time(5, 0), time(0, 1_000_000_000), invalid),
        (0, time(5, 0), time(946_080_000, 1_000_000_000), invalid),
        // the limit is tested before REALTIME
        (0, time(5, 0), time(946_080_000, 0), range),
        (0, time(8_277_292_035, 0), time(i64::MAX, 0), range),
        (0, time(5, 0), time(5, 1), invalid),
        (0, time(5, 0), time(5, 0), Ok(())),
        (4_294_967_295, time(0, 0), time(0, 0), Ok(())),
    ] {
        let opens = Clock::open_at(desc, reading, real, uptime).map(|_| ());
        assert_same_at(&rt, &(reading, real, uptime), &opens, &answer);
    }
}
