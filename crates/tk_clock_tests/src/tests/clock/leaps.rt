//! Tests leap seconds: REALTIME moves by a second, and TAI runs on.
use super::{answers, applies, assert_same, nanosecond_counter, opened_at, reads, time};
use std::process::Abort;
use tk_clock::{Clock, ClockId, Command, Refusal};

/// The first second of 2017, in UTC. The second before it was a leap second. TAI minus UTC was 36 s
/// before it, and 37 s after it (IERS, Bulletin C 52).
const YEAR_2017: i64 = 1_483_228_800;

/// The reading at which REALTIME is at `YEAR_2017`.
const MIDNIGHT: u64 = 1_500_000_000;

/// Returns clocks that are opened 1.5 s before 2017, with the TAI offset of that day.
fn before_midnight(rt: &impl Abort) -> Clock {
    let desc = nanosecond_counter(rt);
    let mut clock = opened_at(rt, desc, 0, time(YEAR_2017 - 2, 500_000_000));
    applies(rt, &mut clock, 0, Command::Tai(36));
    clock
}

/// Checks whole seconds of REALTIME and TAI at a reading.
fn shows(rt: &impl Abort, clock: &Clock, reading: u64, real: i64, tai: i64) {
    reads(rt, clock, ClockId::Realtime, reading, time(real, 0));
    reads(rt, clock, ClockId::Tai, reading, time(tai, 0));
}

#[test]
fn an_inserted_second_repeats_the_last_one_of_the_day(rt: HostRuntime) {
    let mut clock = before_midnight(&rt);
    shows(&rt, &clock, MIDNIGHT, 1_483_228_800, 1_483_228_836);
    let leap = Command::Leap { by: -1, tai: 37 };
    answers(&rt, &mut clock, MIDNIGHT, leap, Ok(()));
    shows(&rt, &clock, MIDNIGHT, 1_483_228_799, 1_483_228_836);
    let next = MIDNIGHT + 1_000_000_000;
    shows(&rt, &clock, next, 1_483_228_800, 1_483_228_837);
    reads(&rt, &clock, ClockId::Monotonic, next, time(2, 500_000_000));
    reads(&rt, &clock, ClockId::Boottime, next, time(2, 500_000_000));
}

#[test]
fn a_deleted_second_is_skipped(rt: HostRuntime) {
    let mut clock = before_midnight(&rt);
    let second = MIDNIGHT - 1_000_000_000;
    shows(&rt, &clock, second, 1_483_228_799, 1_483_228_835);
    let leap = Command::Leap { by: 1, tai: 35 };
    answers(&rt, &mut clock, second, leap, Ok(()));
    shows(&rt, &clock, second, 1_483_228_800, 1_483_228_835);
    shows(&rt, &clock, MIDNIGHT, 1_483_228_801, 1_483_228_836);
}

#[test]
fn a_leap_is_one_second_with_a_tai_offset_in_range(rt: HostRuntime) {
    let mut clock = before_midnight(&rt);
    for (by, tai, answer) in [
        (0, 36, Err(Refusal::Invalid)),
        (2, 36, Err(Refusal::Invalid)),
        (-2, 36, Err(Refusal::Invalid)),
        (i64::MIN, 36, Err(Refusal::Invalid)),
        (i64::MAX, 36, Err(Refusal::Invalid)),
        (-1, 100_001, Err(Refusal::Invalid)),
        (-1, -1, Err(Refusal::Invalid)),
        (1, i64::MIN, Err(Refusal::Invalid)),
        (1, 4_294_967_296, Err(Refusal::Invalid)),
        (-1, 100_000, Ok(())),
        (1, 0, Ok(())),
    ] {
        answers(&rt, &mut clock, 1_000, Command::Leap { by, tai }, answer);
    }
}

#[test]
fn a_leap_stays_between_monotonic_and_the_settable_end(rt: HostRuntime) {
    for (sec, nsec, by, answer) in [
        (0, 999_999_999, -1, Err(Refusal::Invalid)),
        (1, 0, -1, Ok(())),
        (8_277_292_035, 0, 1, Err(Refusal::Invalid)),
        (8_277_292_034, 999_999_999, 1, Ok(())),
    ] {
        let mut clock = opened_at(&rt, nanosecond_counter(&rt), 0, time(sec, nsec));
        answers(&rt, &mut clock, 0, Command::Leap { by, tai: 0 }, answer);
    }
}

#[test]
fn a_leap_is_refused_asleep_and_behind(rt: HostRuntime) {
    let mut clock = before_midnight(&rt);
    let leap = Command::Leap { by: -1, tai: 37 };
    answers(&rt, &mut clock, 1_000, Command::Update, Ok(()));
    answers(&rt, &mut clock, 999, leap, Err(Refusal::Behind));
    answers(&rt, &mut clock, 1_000, Command::Suspend, Ok(()));
    answers(&rt, &mut clock, 1_000, leap, Err(Refusal::Asleep));
    assert_same(&rt, &clock.snapshot(0).tai(), &36);
}
