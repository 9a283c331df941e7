//! Tests stamps far from the last command, with values from products of 128 bits.

use super::{applies, converts, desc_of, opened_at, time};
use std::alloc::Global;
use std::process::Abort;
use tk_clock::{ClockId, Command, Snapshot};
use tk_lanes::BatchError;

/// The reading of the last command.
const LAST: u64 = 1_234_567;

/// The limit of MONOTONIC, in ns.
const LIMIT: u128 = 946_080_000_000_000_000;

/// Multipliers and shifts: from 256 ns a cycle to 0.9 ns, with the least and the greatest shift.
const RATES: [(u32, u32); 5] = [
    (256, 0),
    (16_777_216, 24),
    (699_050_667, 24),
    (2_147_483_648, 31),
    (3_869_339_000, 32),
];

/// Returns a snapshot of clocks with one command at `LAST`.
fn updated(rt: &impl Abort, bits: u32, mult: u32, shift: u32) -> Snapshot {
    let desc = desc_of(rt, bits, mult, shift);
    let mut clock = opened_at(rt, desc, 1_000, time(0, 0));
    applies(rt, &mut clock, LAST, Command::Update);
    clock.snapshot(1)
}

/// Returns MONOTONIC a number of cycles after the last command, in ns.
fn monotonic_after(snapshot: &Snapshot, cycles: u64) -> u128 {
    let units = u128::from(cycles) * u128::from(snapshot.mult()) + u128::from(snapshot.frac());
    u128::from(snapshot.sec()) * 1_000_000_000 + (units >> snapshot.desc().shift())
}

/// Returns MONOTONIC a number of cycles after the last command, in ns, or its limit.
fn nanos_after(snapshot: &Snapshot, cycles: u64) -> u64 {
    monotonic_after(snapshot, cycles).min(LIMIT) as u64
}

/// Checks a list of MONOTONIC in this order, in the reverse order, and with each item at the other
/// end of eight.
fn converts_in_each_order(
    rt: &impl Abort,
    alloc: Global,
    snapshot: &Snapshot,
    stamps: &mut [u64],
    values: &mut [u64],
) {
    let clock = ClockId::Monotonic;
    converts(rt, alloc, snapshot, clock, stamps, Ok(()), values);
    stamps.reverse();
    values.reverse();
    converts(rt, alloc, snapshot, clock, stamps, Ok(()), values);
    for turn in [1usize, 3, 7] {
        let places = turn.min(stamps.len()).min(values.len());
        stamps.rotate_left(places);
        values.rotate_left(places);
        converts(rt, alloc, snapshot, clock, stamps, Ok(()), values);
    }
}

/// Checks the stamps these numbers of cycles after the last command, except those at the limit.
fn converts_gaps(rt: &impl Abort, alloc: Global, snapshot: &Snapshot, gaps: &[u64]) {
    let (mut stamps, mut values) = (Vec::new(alloc), Vec::new(alloc));
    for cycles in gaps {
        let value = monotonic_after(snapshot, *cycles);
        if value < LIMIT {
            pushes(rt, &mut stamps, LAST.wrapping_add(*cycles));
            pushes(rt, &mut values, value as u64);
        }
    }
    let (stamps, values) = (stamps.as_mut_slice(), values.as_mut_slice());
    converts_in_each_order(rt, alloc, snapshot, stamps, values);
}

/// Appends a number to a list.
fn pushes(rt: &impl Abort, list: &mut Vec<u64>, number: u64) {
    list.push(number).expect(rt, "memory");
}

#[test]
fn gaps_next_to_each_power_of_two_are_converted(rt: HostRuntime) {
    let mut gaps = Vec::new(rt.alloc());
    for power in 1..60u32 {
        for cycles in [(1u64 << power) - 1, 1 << power, (1 << power) + 1] {
            pushes(&rt, &mut gaps, cycles);
        }
    }
    for (mult, shift) in RATES {
        let snapshot = updated(&rt, 64, mult, shift);
        converts_gaps(&rt, rt.alloc(), &snapshot, gaps.as_slice());
    }
}

#[test]
fn gaps_next_to_64_bits_of_units_are_converted(rt: HostRuntime) {
    for (mult, shift) in RATES {
        let most = u64::MAX / u64::from(mult.max(1));
        let mut gaps = [most.wrapping_sub(20); 40];
        for (step, gap) in gaps.iter_mut().enumerate() {
            *gap = gap.wrapping_add(step as u64);
        }
        converts_gaps(&rt, rt.alloc(), &updated(&rt, 64, mult, shift), &gaps);
    }
}

#[test]
fn half_the_range_ends_the_gaps_that_lead_forward(rt: HostRuntime) {
    let snapshot = updated(&rt, 48, 16_777_216, 24);
    // half of 2^48 cycles leads back, and one less leads forward
    let half = 140_737_488_355_328;
    let (first, last) = (
        LAST.wrapping_add(half),
        LAST.wrapping_add(half).wrapping_sub(1),
    );
    let opened = nanos_after(&snapshot, 0);
    let most = nanos_after(&snapshot, half.wrapping_sub(1));
    // the greatest reading leads back too, and so does 0
    let mask = 281_474_976_710_655;
    let mut stamps = [
        last, first, last, first, mask, 0, LAST, last, last, last, first,
    ];
    let mut values = [
        most, opened, most, opened, opened, opened, opened, most, most, most, opened,
    ];
    converts_in_each_order(&rt, rt.alloc(), &snapshot, &mut stamps, &mut values);
}

#[test]
fn gaps_after_a_wrap_are_converted(rt: HostRuntime) {
    let alloc = rt.alloc();
    // the greatest reading of 48 bits, less 5
    let last = 281_474_976_710_650u64;
    let mut clock = opened_at(&rt, desc_of(&rt, 48, 699_050_667, 24), last, time(0, 0));
    applies(&rt, &mut clock, last, Command::Update);
    let snapshot = clock.snapshot(1);
    let (mut stamps, mut values) = (Vec::new(alloc), Vec::new(alloc));
    for power in 0..47u32 {
        let cycles = (1u64 << power) - 1;
        let stamp = last.wrapping_add(cycles) & 281_474_976_710_655;
        pushes(&rt, &mut stamps, stamp);
        pushes(&rt, &mut values, nanos_after(&snapshot, cycles));
    }
    let (stamps, values) = (stamps.as_mut_slice(), values.as_mut_slice());
    converts_in_each_order(&rt, alloc, &snapshot, stamps, values);
}

#[test]
fn the_limit_ends_a_list_wherever_it_is_reached(rt: HostRuntime) {
    let alloc = rt.alloc();
    let clock = ClockId::Monotonic;
    let snapshot = updated(&rt, 64, 16_777_216, 24);
    // one nanosecond a cycle, and 1,233,567 ns at the last command
    let past = LAST
        .wrapping_add(946_080_000_000_000_000)
        .wrapping_sub(1_233_567);
    for place in 0..24usize {
        let (mut stamps, mut values) = ([0; 24], [7; 24]);
        for (index, stamp) in stamps.iter_mut().enumerate() {
            let before = (place as u64).wrapping_sub(index as u64);
            *stamp = past.wrapping_sub(before.wrapping_mul(1 << 23));
        }
        for (index, value) in values[..place].iter_mut().enumerate() {
            let before = (place as u64).wrapping_sub(index as u64);
            *value = 946_080_000_000_000_000u64.wrapping_sub(before.wrapping_mul(1 << 23));
        }
        let answer = Err(BatchError::Range { index: place });
        converts(&rt, alloc, &snapshot, clock, &stamps, answer, &values);
    }
}
