//! Ticks of a kernel, through an inserted second. By the counter of 1 GHz, each second begins at a
//! multiple of 10^9.
use super::{assert_same, nanosecond_counter, opened_at, request};
use std::process::Abort;
use tk_clock::{Clock, Refusal};
use tk_ntp::Course;

/// Checks a tick after which this second of REALTIME comes next, REALTIME is this many seconds
/// ahead of MONOTONIC, and the clocks have this TAI offset.
fn ticks(
    rt: &impl Abort,
    clock: &mut Clock,
    course: &mut Course,
    reading: u64,
    (coming, ahead, tai): (u64, u64, u32),
) {
    assert_same(rt, &course.tick(clock, 0, reading), &Ok(()));
    let now = clock.snapshot(0);
    assert_same(
        rt,
        &(now.last(), course.numbers().last_account),
        &(reading, reading),
    );
    assert_same(rt, &course.coming_second(), &coming);
    let offset = now.real_offset();
    assert_same(
        rt,
        &(offset / 1_000_000_000, offset % 1_000_000_000, now.tai()),
        &(ahead, 0, tai),
    );
}

/// Returns clocks that open three seconds before the end of a day, where a second is inserted.
fn announced(rt: &impl Abort) -> (Clock, Course) {
    let steered = opened_at(rt, nanosecond_counter(rt), 1_483_228_797);
    let (mut clock, mut course) = (steered.clock(), steered.course());
    let asked = tk_ntp::Timex {
        status: 0x10,
        ..request(0x10)
    };
    let answer = course.adjtimex(&mut clock, 0, 0, &asked);
    assert!(rt; answer.is_ok());
    (clock, course)
}

#[test]
fn seconds_begin_late_at_a_tick(rt: HostRuntime) {
    let (mut clock, mut course) = announced(&rt);
    let (clock, course) = (&mut clock, &mut course);
    let before = (1_483_228_797, 0);
    ticks(
        &rt,
        clock,
        course,
        999_999_999,
        (1_483_228_798, before.0, before.1),
    );
    ticks(
        &rt,
        clock,
        course,
        1_000_000_000,
        (1_483_228_799, before.0, before.1),
    );
    ticks(
        &rt,
        clock,
        course,
        2_000_300_000,
        (1_483_228_800, before.0, before.1),
    );
    // the inserted second: the same second comes next
    let after = (1_483_228_796, 1);
    ticks(
        &rt,
        clock,
        course,
        3_000_000_001,
        (1_483_228_800, after.0, after.1),
    );
    // two seconds begin, and the readings of a tick are far apart
    ticks(
        &rt,
        clock,
        course,
        5_500_000_000,
        (1_483_228_802, after.0, after.1),
    );
}

#[test]
fn a_refused_tick_changes_nothing(rt: HostRuntime) {
    let (mut clock, mut course) = announced(&rt);
    let (clock, course) = (&mut clock, &mut course);
    ticks(&rt, clock, course, 700, (1_483_228_798, 1_483_228_797, 0));
    let refused = course.tick(clock, 0, 699);
    assert_same(&rt, &refused, &Err(Refusal::Behind));
    ticks(&rt, clock, course, 700, (1_483_228_798, 1_483_228_797, 0));
}
