//! Tests the first reading at which a clock has reached a time against a search by halves, on
//! snapshots of random journals, which are the same in each run.

use super::{assert_same_at, time};
use crate::tests::random::{clock_of, numbers};
use std::process::Abort;
use tk_clock::{ClockId, Snapshot, Timespec};
use tk_test_support::CLOCKS;

/// Computes a clock after a number of cycles, in ns, with 128-bit integers.
fn value(snapshot: &Snapshot, clock: ClockId, cycles: u64) -> u128 {
    let (sec, frac, mult) = match clock {
        ClockId::MonotonicRaw => (
            snapshot.raw_sec(),
            snapshot.raw_frac(),
            snapshot.desc().mult(),
        ),
        _ => (snapshot.sec(), snapshot.frac(), snapshot.mult()),
    };
    let counted = match clock {
        ClockId::RealtimeCoarse | ClockId::MonotonicCoarse => 0,
        _ if snapshot.asleep() => 0,
        _ => cycles,
    };
    let offset = match clock {
        ClockId::Realtime | ClockId::RealtimeCoarse => u128::from(snapshot.real_offset()),
        ClockId::Boottime => u128::from(snapshot.boot_offset()),
        ClockId::Tai => u128::from(snapshot.real_offset()).wrapping_add(u128::from(
            snapshot.tai(),
        ).wrapping_mul(1_000_000_000)),
        _ => 0,
    };
    let second = 1_000_000_000u128.wrapping_shl(snapshot.desc().shift());
    u128::from(sec)
        .wrapping_mul(second)
        .wrapping_add(u128::from(frac))
        .wrapping_add(u128::from(counted).wrapping_mul(u128::from(mult)))
        .wrapping_shr(snapshot.desc().shift())
        .wrapping_add(offset)
}

/// Returns the end of a clock, in ns.
fn end(clock: ClockId) -> u128 {
    match clock {
        ClockId::Monotonic | ClockId::MonotonicCoarse => 946_080_000_000_000_000,
        _ => 9_223_372_036_000_000_000,
    }
}

/// Searches for the first reading by halves.
fn searched(snapshot: &Snapshot, clock: ClockId, nanos: u128) -> Option<u64> {
    let mut low = 0;
    let mut high = snapshot.desc().half();
    if value(snapshot, clock, high) < nanos {
        return None;
    }
    for _ in 0..64u32 {
        let middle = (low & high).wrapping_add((low ^ high) >> 1);
        if value(snapshot, clock, middle) < nanos {
            low = middle.wrapping_add(1);
        } else {
            high = middle;
        }
    }
    if value(snapshot, clock, high) >= end(clock) {
        return None;
    }
    Some(snapshot.last().wrapping_add(high) & snapshot.desc().mask())
}

/// Converts nanoseconds to a time.
fn timespec(nanos: u64) -> Timespec {
    time(
        (nanos / 1_000_000_000) as i64,
        (nanos % 1_000_000_000) as u32,
    )
}

/// Compares the two searches for a time. Returns whether there is such a reading.
fn agrees(rt: &impl Abort, snapshot: &Snapshot, clock: ClockId, nanos: u64) -> bool {
    let at = timespec(nanos);
    let found = snapshot.reading_at(clock, at);
    let wanted = searched(snapshot, clock, u128::from(nanos));
    assert_same_at(rt, &(clock, at, snapshot), &found, &wanted);
    found.is_some()
}

/// Compares the two searches at the value after a number of cycles, and one nanosecond below and
/// above it. Returns the number of these times that are reached.
fn agrees_near(rt: &impl Abort, snapshot: &Snapshot, clock: ClockId, cycles: u64) -> u64 {
    let nanos = (value(snapshot, clock, cycles) & 0xffff_ffff_ffff_ffff) as u64;
    let mut reached: u64 = 0;
    for nanos in [nanos.saturating_sub(1), nanos, nanos.saturating_add(1)] {
        if agrees(rt, snapshot, clock, nanos) {
            reached = reached.wrapping_add(1);
        }
    }
    reached
}

#[test]
fn the_first_reading_agrees_with_a_search(rt: HostRuntime) {
    let mut reached: u64 = 0;
    let mut tried: u64 = 0;
    for seed in numbers(&rt, rt.alloc(), 88_172_645_463_325_252, 300) {
        let snapshot = clock_of(&rt, seed).snapshot(0);
        let half = snapshot.desc().half();
        for clock in CLOCKS {
            for cycles in [
                0,
                seed % 1_000,
                (seed >> 20) & half,
                half.wrapping_sub(seed % 3) & half,
                half.saturating_add(1),
            ] {
                let more = agrees_near(&rt, &snapshot, clock, cycles);
                reached = reached.wrapping_add(more);
                tried = tried.wrapping_add(3);
            }
        }
    }
    let missed = tried.wrapping_sub(reached);
    let both = (reached > 10_000, missed > 5_000);
    assert_same_at(&rt, &(reached, missed), &both, &(true, true));
}

#[test]
fn a_time_that_was_read_is_given_again(rt: HostRuntime) {
    let mut given: u64 = 0;
    for seed in numbers(&rt, rt.alloc(), 6_364_136_223_846_793_005, 300) {
        let snapshot = clock_of(&rt, seed).snapshot(0);
        let desc = snapshot.desc();
        let reading = snapshot.last().wrapping_add((seed >> 9) & desc.half()) & desc.mask();
        for clock in CLOCKS {
            let Ok(read) = snapshot.get(clock, reading) else {
                continue;
            };
            let first = snapshot.reading_at(clock, read);
            let first = first.expect(&rt, "a time that was read");
            let row = (clock, reading);
            assert_same_at(&rt, &row, &snapshot.get(clock, first), &Ok(read));
            let far = desc.gap(snapshot.last(), reading);
            let soon = desc.gap(snapshot.last(), first) <= far;
            assert_same_at(&rt, &row, &soon, &true);
            given = given.wrapping_add(1);
        }
    }
    assert_same_at(&rt, &given, &(given > 1_000), &true);
}
