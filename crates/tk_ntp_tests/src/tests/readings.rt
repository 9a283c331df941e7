//! Readings that go back on steered clocks.
use super::{assert_same, nanosecond_counter, opened_at, request};
use std::process::Abort;
use tk_clock::{Command, Refusal};
use tk_ntp::{SteeredClock, Timex};

/// Opens clocks of a counter of 1 GHz at the reading 0, at the beginning of a second.
fn opened(rt: &impl Abort) -> SteeredClock {
    opened_at(rt, nanosecond_counter(rt), 1_700_000_000)
}

/// Checks that no call accepts a reading.
fn refuses(rt: &impl Abort, steered: &mut SteeredClock, reading: u64) {
    let behind = Err(Refusal::Behind);
    assert_same(rt, &steered.advance(reading), &behind);
    for cmd in [Command::Update, Command::Tick(10_001), Command::Suspend] {
        assert_same(rt, &steered.apply(reading, cmd), &behind);
    }
    for modes in [0, 0x10] {
        let asked = steered.adjtimex(reading, &request(modes));
        assert_same(rt, &asked.is_ok(), &false);
    }
}

#[test]
fn a_reading_behind_the_last_request_is_refused(rt: HostRuntime) {
    let mut steered = opened(&rt);
    let fast = Timex {
        freq: 33 * 65_536 + 7,
        ..request(0x2)
    };
    let status = Timex {
        status: 1,
        ..request(0x10)
    };
    let _ = steered.adjtimex(1000, &fast).expect(&rt, "no fault");
    let _ = steered.adjtimex(2000, &status).expect(&rt, "no fault");
    // the last command was at 1000: the status needs none
    for reading in [1999, 1500, 1001, 1000, 999, u64::MAX] {
        refuses(&rt, &mut steered, reading);
    }
    assert_same(&rt, &steered.advance(2000), &Ok(()));
    assert_same(&rt, &steered.advance(1_000_000_000), &Ok(()));
    let now = steered.snapshot(0);
    assert_same(&rt, &now.last(), &999_967_100);
    // 33 ppm, and one unit for the rest of the first second
    assert_same(&rt, &now.mult(), &8_388_885);
}

#[test]
fn a_reading_behind_the_present_second_is_refused(rt: HostRuntime) {
    let mut steered = opened(&rt);
    assert_same(&rt, &steered.advance(1_500_000_000), &Ok(()));
    // the second needs no command
    assert_same(&rt, &steered.snapshot(0).last(), &0);
    refuses(&rt, &mut steered, 999_999_999);
    assert_same(&rt, &steered.advance(1_000_000_000), &Ok(()));
    assert_same(&rt, &steered.next_second(), &Some(2_000_000_000));
}

#[test]
fn a_call_that_changes_nothing_refuses_no_reading(rt: HostRuntime) {
    let mut steered = opened(&rt);
    let _ = steered.adjtimex(2000, &request(0)).expect(&rt, "no fault");
    assert_same(&rt, &steered.advance(1999), &Ok(()));
    assert_same(&rt, &steered.apply(1998, Command::Update), &Ok(()));
    refuses(&rt, &mut steered, 1997);
}

/// Returns whether an update at a reading needs no search for the next second.
fn is_settled(steered: &SteeredClock, reading: u64) -> bool {
    steered.course().is_settled(&steered.clock(), reading)
}

#[test]
fn sleeping_clocks_refuse_an_update(rt: HostRuntime) {
    let mut steered = opened(&rt);
    assert_same(&rt, &is_settled(&steered, 1000), &true);
    assert_same(&rt, &steered.apply(1000, Command::Suspend), &Ok(()));
    assert_same(&rt, &is_settled(&steered, 2000), &false);
    let found = steered.apply(2000, Command::Update);
    assert_same(&rt, &found, &Err(Refusal::Asleep));
    assert_same(&rt, &steered.snapshot(0).last(), &1000);
}
