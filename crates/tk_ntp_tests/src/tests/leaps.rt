//! Leap seconds.
use super::{Clock, assert_same, fields, request};
use std::process::Abort;
use tk_ntp::{Leap, Reply, TimeState, Timex};

/// Returns the reply with a TAI offset, whose modes are none.
fn reply(state: TimeState, tai: u32, sec: u32, status: u32, maxerror: i64) -> Reply {
    Reply {
        state,
        tai,
        timex: Timex {
            maxerror,
            status,
            ..fields(0, sec, 499_000)
        },
    }
}

/// Makes a discipline to which a status announces a leap second, during this second. Returns the
/// reply to the announcement too.
fn announced(rt: &impl Abort, sec: u32, status: u32) -> (Clock, Reply) {
    let mut clock = Clock::new(rt, sec);
    let announcing = Timex {
        status,
        constant: 36,
        ..request(0x94)
    };
    let first = clock.reply(rt, 499_000_000, &announcing);
    (clock, first)
}

/// Lets seconds begin, and checks their leaps, and the state, the TAI offset and the greatest error
/// that a request without modes then gets with a status.
fn begin_with(
    rt: &impl Abort,
    clock: &mut Clock,
    status: u32,
    seconds: &[(u32, Leap, TimeState, u32, i64)],
) {
    for (sec, leap, state, tai, maxerror) in seconds {
        assert_same(rt, &clock.begin(*sec), leap);
        let expected = reply(*state, *tai, *sec, status, *maxerror);
        assert_same(rt, &clock.reply(rt, 499_000_000, &request(0)), &expected);
    }
}

#[test]
fn a_second_is_inserted_at_midnight(rt: HostRuntime) {
    let (mut clock, first) = announced(&rt, 1_483_228_797, 16);
    assert_same(&rt, &first.state, &TimeState::Ok);
    assert_same(&rt, &first.tai, &36);
    let seconds = [
        (1_483_228_798, Leap::None, TimeState::Ins, 36, 500),
        (1_483_228_799, Leap::None, TimeState::Ins, 36, 1000),
        (1_483_228_800, Leap::Insert, TimeState::Oop, 37, 1500),
        (1_483_228_800, Leap::None, TimeState::Wait, 37, 2000),
    ];
    begin_with(&rt, &mut clock, 16, &seconds);
    let off = clock.reply(&rt, 499_000_000, &request(0x10));
    assert_same(&rt, &off.state, &TimeState::Wait);
    assert_same(&rt, &clock.begin(1_483_228_801), &Leap::None);
    let expected = reply(TimeState::Ok, 37, 1_483_228_801, 0, 2500);
    assert_same(&rt, &clock.reply(&rt, 499_000_000, &request(0)), &expected);
}

#[test]
fn the_last_second_of_a_day_is_deleted(rt: HostRuntime) {
    let (mut clock, _) = announced(&rt, 1_483_228_797, 32);
    let deleting = (1_483_228_798, Leap::None, TimeState::Del, 36, 500);
    let deleted = (1_483_228_799, Leap::Delete, TimeState::Wait, 35, 1000);
    let after = (1_483_228_801, Leap::None, TimeState::Wait, 35, 1500);
    begin_with(&rt, &mut clock, 32, &[deleting, deleted, after]);
}

#[test]
fn a_set_forgets_when_the_leap_is_due(rt: HostRuntime) {
    let (mut clock, _) = announced(&rt, 1_483_228_790, 16);
    assert_same(&rt, &clock.begin(1_483_228_791), &Leap::None);
    clock.ntp.clear();
    let seconds = [1_483_228_799, 1_483_228_800, 1_483_228_801].map(|sec| (
        sec,
        Leap::None,
        TimeState::Error,
        36,
        16_000_000,
    ));
    begin_with(&rt, &mut clock, 80, &seconds);
    assert_same(
        &rt,
        &clock.reply(&rt, 499_000_000, &request(0x10)).state,
        &TimeState::Ins,
    );
}

#[test]
fn tai_runs_on_at_a_leap(rt: HostRuntime) {
    for (leap, before, after, seconds) in [
        (Leap::Insert, 36, 37, -1),
        (Leap::Delete, 36, 35, 1),
        (Leap::None, 36, 36, 0),
        (Leap::Insert, 99_999, 100_000, -1),
        (Leap::Insert, 100_000, 100_000, -1),
        (Leap::Delete, 1, 0, 1),
        (Leap::Delete, 0, 0, 1),
    ] {
        assert_same(&rt, &leap.tai_after(before), &after);
        assert_same(&rt, &leap.seconds(), &seconds);
    }
}
