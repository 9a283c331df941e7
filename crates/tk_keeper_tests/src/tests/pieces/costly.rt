//! Lists with unordered fronts, so that several threads convert a few thousand items.

use super::{
    ABOVE, Lists, agrees_with_one_thread, answered, applies, assert_same, counted, first_faults,
    opened,
};
use std::alloc::Global;
use std::process::Abort;
use tk_clock::Command;
use tk_keeper::{Timekeeper, TraceError};
use tk_test_support::next_random;

/// The number of pairs of commands in a journal.
const PAIRS: u64 = 500;

/// The number of commands in a journal, which is also its last front.
const LAST: u64 = 1_000;

/// The reading of every command.
const READING: u64 = 1_000_000;

const UPDATES: [Command; 2] = [Command::Update, Command::Update];

const SETTINGS: [Command; 2] = [Command::Freq(65_536_000), Command::Freq(-32_768_000)];

/// Returns a timekeeper after `PAIRS` times these two commands.
fn busy(rt: &impl Abort, alloc: Global, pair: [Command; 2]) -> Timekeeper {
    let mut keeper = opened(rt, alloc);
    for _ in 0..PAIRS {
        for cmd in pair {
            assert_same(rt, &applies(&mut keeper, READING, cmd).is_ok(), &true);
        }
    }
    keeper
}

/// Returns this number of items, with stamps after `READING`.
fn late(rt: &impl Abort, alloc: Global, many: usize) -> Lists {
    let mut lists = counted(rt, alloc, many);
    for (place, stamp) in lists.stamps.as_mut_slice().iter_mut().enumerate() {
        *stamp = READING.wrapping_add(place as u64);
    }
    lists
}

/// Returns this number of items with unordered fronts.
fn scattered(rt: &impl Abort, alloc: Global, many: usize) -> Lists {
    let mut lists = late(rt, alloc, many);
    let mut seed: u64 = 88_172_645_463_325_252;
    for front in lists.fronts.as_mut_slice().iter_mut() {
        seed = next_random(seed);
        *front = seed % (LAST + 1);
    }
    lists
}

/// Returns a timekeeper after 396 commands, which are updates except for numbers 140 and 396. The
/// estimate assumes that the commands before these two are of their kind.
fn calm(rt: &impl Abort, alloc: Global) -> Timekeeper {
    let mut keeper = opened(rt, alloc);
    for number in 1..=396 {
        let cmd = if number % 256 == 140 {
            Command::Tai(37)
        } else {
            Command::Update
        };
        assert_same(rt, &applies(&mut keeper, READING, cmd), &Ok(number));
    }
    keeper
}

/// Returns this number of items with two fronts in turn, each 140 commands after a kept state. The
/// estimated time of an item is 2,215 ns, so a piece has the least number of items, which is 32.
fn far_apart(rt: &impl Abort, alloc: Global, many: usize) -> Lists {
    let mut lists = late(rt, alloc, many);
    for (place, front) in lists.fronts.as_mut_slice().iter_mut().enumerate() {
        *front = if place % 2 == 0 { 140 } else { 396 };
    }
    lists
}

#[test]
fn costly_lists_of_each_length_are_converted(rt: HostRuntime) {
    let alloc = rt.alloc();
    // around the least lengths that several threads convert, and multiples of a piece's length
    for (pair, lengths) in [
        (UPDATES, [6_800, 7_168, 7_169]),
        (SETTINGS, [1_023, 1_024, 2_049]),
    ] {
        let keeper = busy(&rt, alloc, pair);
        for many in lengths {
            let mut lists = scattered(&rt, alloc, many);
            agrees_with_one_thread(&rt, alloc, &keeper, &mut lists, many);
        }
    }
}

#[test]
fn the_first_fault_of_three_hundred_pieces_decides(rt: HostRuntime) {
    let alloc = rt.alloc();
    let keeper = calm(&rt, alloc);
    let mut lists = far_apart(&rt, alloc, 10_017);
    // MONOTONIC counts the cycles, because the commands set only TAI
    let values = lists.stamps.clone().expect(&rt, "memory");
    let found = answered(alloc, &rt, &keeper, &mut lists).expect(&rt, "values");
    assert_same(&rt, &(found.as_slice() == values.as_slice()), &true);
    // a piece has 32 items, the last one has one; stages end before the items 32, 544 and 8,736
    let items = [
        (10_016, 0, ABOVE, TraceError::Invalid { index: 10_016 }),
        (10_015, 1_001, 0, TraceError::Unknown { index: 10_015 }),
        (9_984, 0, ABOVE, TraceError::Invalid { index: 9_984 }),
        (8_736, 0, ABOVE, TraceError::Invalid { index: 8_736 }),
        (8_735, 1_001, 0, TraceError::Unknown { index: 8_735 }),
        (5_024, 0, ABOVE, TraceError::Invalid { index: 5_024 }),
        (5_023, 9_999, 0, TraceError::Unknown { index: 5_023 }),
        (544, 0, ABOVE, TraceError::Invalid { index: 544 }),
        (543, 1_001, 0, TraceError::Unknown { index: 543 }),
        (33, 0, ABOVE, TraceError::Invalid { index: 33 }),
        (32, 1_001, ABOVE, TraceError::Unknown { index: 32 }),
        (31, 0, ABOVE, TraceError::Invalid { index: 31 }),
        (0, 1_001, 0, TraceError::Unknown { index: 0 }),
    ];
    first_faults(&rt, alloc, &keeper, &mut lists, values.as_slice(), &items);
}
