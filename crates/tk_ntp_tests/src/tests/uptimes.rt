//! Steered clocks that are opened with an uptime.
use super::{assert_same, nanosecond_counter, request};
use std::process::Abort;
use tk_clock::ClockId::{Boottime, Monotonic, MonotonicRaw, Realtime, Tai};
use tk_clock::{ClockId, Refusal, Timespec};
use tk_ntp::{SteeredClock, TimeState, Timex};

fn time(sec: i64, nsec: u32) -> Timespec {
    Timespec { sec, nsec }
}

/// Opens clocks at the reading 9, at the beginning of a second, that have run for 3,600.25 s.
fn opened(rt: &impl Abort, sec: i64) -> SteeredClock {
    let desc = nanosecond_counter(rt);
    let opened = SteeredClock::open_at(desc, 9, time(sec, 0), time(3_600, 250_000_000), 250);
    opened.expect(rt, "an uptime")
}

/// Checks what clocks read two seconds after their opening.
fn read(rt: &impl Abort, steered: &SteeredClock, times: &[(ClockId, Timespec)]) {
    let now = steered.snapshot(0);
    for (id, time) in times {
        assert_same(rt, &now.get(*id, 2_000_000_009), &Ok(*time));
    }
}

#[test]
fn steered_clocks_count_the_uptime_that_they_are_opened_with(rt: HostRuntime) {
    let mut steered = opened(&rt, 1_700_000_000);
    assert_same(&rt, &steered.next_second(), &Some(1_000_000_009));
    let reply = steered.adjtimex(9, &request(0)).expect(&rt, "no fault");
    assert_same(
        &rt,
        &(reply.timex.sec, reply.timex.sub),
        &(1_700_000_000, 0),
    );
    assert_same(&rt, &reply.state, &TimeState::Error);
    assert_same(&rt, &steered.advance(2_000_000_009), &Ok(()));
    let ran = time(3_602, 250_000_000);
    let times = [
        (Monotonic, ran),
        (MonotonicRaw, ran),
        (Boottime, ran),
        (Realtime, time(1_700_000_002, 0)),
    ];
    read(&rt, &steered, &times);
}

#[test]
fn clocks_with_an_uptime_make_a_leap_second(rt: HostRuntime) {
    let mut steered = opened(&rt, 1_483_228_798);
    // inserts a second, with a TAI offset of 36
    let announcing = Timex {
        status: 0x10,
        constant: 36,
        ..request(0x90)
    };
    let _ = steered.adjtimex(9, &announcing).expect(&rt, "no fault");
    assert_same(&rt, &steered.advance(2_000_000_009), &Ok(()));
    let times = [
        (Realtime, time(1_483_228_799, 0)),
        (Tai, time(1_483_228_836, 0)),
        (Monotonic, time(3_602, 250_000_000)),
    ];
    read(&rt, &steered, &times);
}

#[test]
fn an_opening_with_an_uptime_returns_the_first_fault(rt: HostRuntime) {
    let desc = nanosecond_counter(&rt);
    let limit = time(946_080_000, 0);
    for (real, uptime, hz, fault) in [
        (time(-1, 0), limit, 0, Refusal::Invalid),
        (time(5, 0), time(-1, 0), 250, Refusal::Invalid),
        (time(5, 0), limit, 0, Refusal::Range),
        (time(5, 0), time(5, 1), 250, Refusal::Invalid),
        (time(5, 0), time(5, 0), 0, Refusal::Invalid),
        (time(5, 0), time(5, 0), 1_025, Refusal::Invalid),
    ] {
        let refused = SteeredClock::open_at(desc, 9, real, uptime, hz).map(|_| ());
        assert_same(&rt, &refused, &Err(fault));
    }
    let opens = SteeredClock::open_at(desc, 9, time(5, 0), time(5, 0), 1_024).map(|_| ());
    assert_same(&rt, &opens, &Ok(()));
}
