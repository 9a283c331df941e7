use super::{agree, applies, assert_same, by_lanes, converts, opened, sevens};
use tk_clock::{ClockId, Command};

/// Stamps near the last command, near the end of 63 bits of units, and near the first readings that
/// are behind.
const STAMPS: [u64; 17] = [
    999,
    1_000,
    1_001,
    2_000,
    495_275_529_219,
    495_275_529_220,
    140_737_488_356_327,
    140_737_488_356_328,
    1_008,
    1_009,
    1_010,
    1_011,
    1_012,
    1_013,
    1_014,
    1_015,
    1_016,
];

/// MONOTONIC at these stamps, in ns.
const VALUES: [u64; 17] = [
    0,
    0,
    1,
    1_000,
    495_275_528_219,
    495_275_528_220,
    140_737_488_355_327,
    0,
    8,
    9,
    10,
    11,
    12,
    13,
    14,
    15,
    16,
];

#[test]
fn each_rotation_and_prefix_is_converted(rt: HostRuntime) {
    let alloc = rt.alloc();
    let snapshot = opened(&rt).snapshot(0);
    for turn in 0..17usize {
        let mut stamps = STAMPS;
        let mut values = VALUES;
        stamps.rotate_left(turn);
        values.rotate_left(turn);
        for len in 0..18usize {
            converts(
                &rt,
                alloc,
                &snapshot,
                ClockId::Monotonic,
                &stamps[..len],
                Ok(()),
                &values[..len],
            );
        }
    }
}

#[test]
fn a_steered_clock_and_the_raw_one_part(rt: HostRuntime) {
    let alloc = rt.alloc();
    let mut clock = opened(&rt);
    applies(&rt, &mut clock, 1_000, Command::Tick(11_000));
    let snapshot = clock.snapshot(1);
    // mult 18454937 instead of 16777216
    for (clock, value) in [
        (ClockId::Monotonic, 1_099_999_964),
        (ClockId::MonotonicRaw, 1_000_000_000),
        (ClockId::Realtime, 1_700_000_001_099_999_964),
        (ClockId::Boottime, 1_099_999_964),
        (ClockId::Tai, 1_700_000_001_099_999_964),
        (ClockId::MonotonicCoarse, 0),
        (ClockId::RealtimeCoarse, 1_700_000_000_000_000_000),
    ] {
        converts(
            &rt,
            alloc,
            &snapshot,
            clock,
            &[1_000_001_000; 9],
            Ok(()),
            &[value; 9],
        );
    }
}

#[test]
fn a_part_of_a_list_is_written_alone(rt: HostRuntime) {
    let snapshot = opened(&rt).snapshot(0);
    let mut out = [7; 17];
    let (clock, stamps) = (ClockId::Monotonic, &STAMPS[3..13]);
    let answer = by_lanes(&rt, &snapshot, clock, stamps, &mut out[3..13]);
    assert_same(&rt, &answer, &Ok(()));
    let mut values = [7; 17];
    values[3..13].copy_from_slice(&VALUES[3..13]);
    assert_same(&rt, &out, &values);
}

#[test]
fn a_million_stamps_are_converted(rt: HostRuntime) {
    let alloc = rt.alloc();
    let snapshot = opened(&rt).snapshot(0);
    let mut stamps = sevens(&rt, alloc, 1_048_576);
    let mut next = 0u64;
    for stamp in stamps.iter_mut() {
        *stamp = next;
        next = next.wrapping_add(1_000);
    }
    let answer = agree(&rt, alloc, &snapshot, ClockId::Monotonic, stamps.as_slice());
    assert_same(&rt, &answer, &Ok(()));
    let mut out = sevens(&rt, alloc, 1_048_576);
    let (clock, stamps) = (ClockId::Monotonic, stamps.as_slice());
    let answer = by_lanes(&rt, &snapshot, clock, stamps, out.as_mut_slice());
    assert_same(&rt, &answer, &Ok(()));
    // 1,048,575 times 1000 cycles, minus the opening's reading
    assert_same(&rt, &out.last(), &Some(&1_048_574_000));
}
