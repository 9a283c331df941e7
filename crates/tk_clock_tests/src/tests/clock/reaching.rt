//! Tests the first reading at which a clock has reached a time, at values worked out manually.

use super::{
    applies, assert_same_at, desc_of, nanosecond_counter, opened, opened_at, time, wide_counter,
};
use std::process::Abort;
use tk_clock::{Clock, ClockId, Command, Timespec};

/// Checks the first reading at which a clock has reached a time.
fn reaches(rt: &impl Abort, clock: &Clock, id: ClockId, at: Timespec, first: Option<u64>) {
    let found = clock.snapshot(0).reading_at(id, at);
    assert_same_at(rt, &(id, at), &found, &first);
}

#[test]
fn a_time_is_reached_at_its_own_nanosecond(rt: HostRuntime) {
    let mut clock = opened(&rt);
    applies(&rt, &mut clock, 100, Command::Tai(37));
    applies(&rt, &mut clock, 200, Command::Step(time(0, 50)));
    for (id, at, first) in [
        (ClockId::Monotonic, time(0, 201), 201),
        (ClockId::Monotonic, time(2, 5), 2_000_000_005),
        (ClockId::Realtime, time(1_700_000_000, 251), 201),
        (ClockId::Realtime, time(1_700_000_001, 0), 999_999_950),
        (ClockId::Tai, time(1_700_000_037, 251), 201),
        (ClockId::Tai, time(1_700_000_038, 0), 999_999_950),
        (ClockId::Boottime, time(0, 201), 201),
        (ClockId::MonotonicRaw, time(0, 201), 201),
    ] {
        reaches(&rt, &clock, id, at, Some(first));
    }
}

#[test]
fn a_time_that_was_reached_before_gives_the_last_reading(rt: HostRuntime) {
    let mut clock = opened(&rt);
    applies(&rt, &mut clock, 100, Command::Suspend);
    applies(&rt, &mut clock, 200, Command::Resume(time(60, 0)));
    for (id, at) in [
        (ClockId::Monotonic, time(0, 100)),
        (ClockId::Monotonic, time(0, 99)),
        (ClockId::Monotonic, time(0, 0)),
        (ClockId::Monotonic, time(-1, 0)),
        (ClockId::Monotonic, time(i64::MIN, 0)),
        (ClockId::Boottime, time(60, 100)),
        (ClockId::Realtime, time(1_700_000_060, 100)),
        (ClockId::RealtimeCoarse, time(1_700_000_060, 100)),
        (ClockId::MonotonicCoarse, time(0, 100)),
        (ClockId::MonotonicRaw, time(0, 100)),
    ] {
        reaches(&rt, &clock, id, at, Some(200));
    }
}

#[test]
fn half_the_range_is_searched_and_not_one_reading_more(rt: HostRuntime) {
    let clock = opened(&rt);
    for (at, first) in [
        (time(2, 147_483_646), Some(2_147_483_646)),
        (time(2, 147_483_647), Some(2_147_483_647)),
        (time(2, 147_483_648), None),
        (time(4, 294_967_295), None),
        (time(i64::MAX, u32::MAX), None),
    ] {
        reaches(&rt, &clock, ClockId::Monotonic, at, first);
    }
}

#[test]
fn the_counter_wraps_before_the_time(rt: HostRuntime) {
    let desc = nanosecond_counter(&rt);
    let clock = opened_at(&rt, desc, 4_294_967_290, time(1_700_000_000, 0));
    for (at, first) in [
        (time(0, 5), Some(4_294_967_295)),
        (time(0, 6), Some(0)),
        (time(0, 16), Some(10)),
        (time(2, 147_483_647), Some(2_147_483_641)),
        (time(2, 147_483_648), None),
    ] {
        reaches(&rt, &clock, ClockId::Monotonic, at, first);
    }
}

#[test]
fn a_cycle_that_began_counts_until_its_end(rt: HostRuntime) {
    // 4,194,304 ns a cycle
    let clock = opened_at(&rt, wide_counter(&rt), 7, time(1_700_000_000, 0));
    for (at, first) in [
        (time(0, 1), 8),
        (time(0, 4_194_303), 8),
        (time(0, 4_194_304), 8),
        (time(0, 4_194_305), 9),
        // nanoseconds of a second and more: 954 cycles last 4,001,366,016 ns
        (time(0, 4_000_000_000), 961),
        (time(-1, 1_004_194_305), 9),
    ] {
        reaches(&rt, &clock, ClockId::Monotonic, at, Some(first));
    }
}

#[test]
fn a_limit_comes_before_the_time(rt: HostRuntime) {
    // MONOTONIC is 946,079,999.998296064 s at the last reading with a value
    let clock = opened_at(&rt, wide_counter(&rt), 0, time(1_700_000_000, 0));
    for (at, first) in [
        (time(946_079_999, 998_296_064), Some(225_563_049_316)),
        (time(946_079_999, 998_296_065), None),
        (time(946_080_000, 0), None),
    ] {
        reaches(&rt, &clock, ClockId::Monotonic, at, first);
    }
}

#[test]
fn a_clock_that_stands_still_reaches_no_later_time(rt: HostRuntime) {
    let mut clock = opened(&rt);
    reaches(&rt, &clock, ClockId::MonotonicCoarse, time(0, 1), None);
    let later = time(1_700_000_000, 1);
    reaches(&rt, &clock, ClockId::RealtimeCoarse, later, None);
    applies(&rt, &mut clock, 100, Command::Suspend);
    for id in [ClockId::Monotonic, ClockId::Boottime, ClockId::MonotonicRaw] {
        reaches(&rt, &clock, id, time(0, 100), Some(100));
        reaches(&rt, &clock, id, time(0, 101), None);
    }
}

#[test]
fn a_steered_clock_is_early_and_raw_is_not(rt: HostRuntime) {
    let mut clock = opened(&rt);
    // 500 ppm faster: 16,785,604 units of 2^-24 ns a cycle
    applies(&rt, &mut clock, 0, Command::Freq(32_768_000));
    for (id, first) in [
        (ClockId::Monotonic, 999_500_287),
        (ClockId::Boottime, 999_500_287),
        (ClockId::MonotonicRaw, 1_000_000_000),
    ] {
        reaches(&rt, &clock, id, time(1, 0), Some(first));
    }
}

#[test]
fn the_longest_wait_of_the_widest_counter_is_found(rt: HostRuntime) {
    // 2^-24 ns a cycle, so 2^63 cycles last 549,755,813,888 ns
    let desc = desc_of(&rt, 64, 256, 32);
    let clock = opened_at(&rt, desc, u64::MAX, time(1_700_000_000, 0));
    for (at, first) in [
        (time(0, 1), Some(16_777_215)),
        (time(549, 755_813_887), Some(9_223_372_036_837_998_591)),
        (time(549, 755_813_888), None),
    ] {
        reaches(&rt, &clock, ClockId::Monotonic, at, first);
    }
}
