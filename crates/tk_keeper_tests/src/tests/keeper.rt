//! Tests values that were worked out manually, outside the contracts, and the edges of each range.

mod change_counter;
mod copies;
mod folding;
mod fronts;
mod full;
mod leaps;
mod memory;
mod past;
mod refusals;
mod replayed;
mod running;
mod runs;
mod sleep;
mod steering;
mod times;
mod traces;

use super::{ABOVE, applies, assert_same, opened, put, steered};
use std::alloc::Allocator;
use std::process::Abort;
use tk_clock::{ClockId, Command, Entry, Refusal, Snapshot, Timespec};
use tk_keeper::{FrontError, Timekeeper};
use tk_test_support::{OPENED_REAL, OPENED_WORDS};

/// A thousand nanoseconds, in units of 2^-24 ns.
const THOUSAND: u64 = 16_777_216_000;

/// The words after a Suspend at reading 1,000.
const ASLEEP_WORDS: [u64; 10] = [
    1,
    1_000,
    16_777_216,
    THOUSAND,
    0,
    OPENED_REAL,
    0,
    1,
    THOUSAND,
    0,
];

/// The words after that Suspend and a Resume at reading 5, 5.5 s later.
const AWAKE_WORDS: [u64; 10] = [
    2,
    5,
    16_777_216,
    THOUSAND,
    0,
    1_700_000_005_500_000_000,
    5_500_000_000,
    0,
    THOUSAND,
    0,
];

/// The words after a frequency of 500 ppm at reading 0.
const FASTER_WORDS: [u64; 10] = [1, 0, 16_785_604, 0, 0, OPENED_REAL, 0, 0, 0, 0];

/// The words after a Tick to 11,000 at reading 0, and the highest frequency at reading 10^9.
const TICKED_WORDS: [u64; 10] = [
    2,
    1_000_000_000,
    18_463_326,
    1_677_721_000_000_000,
    1,
    OPENED_REAL,
    0,
    0,
    0,
    1,
];

fn time(sec: i64, nsec: u32) -> Timespec {
    Timespec { sec, nsec }
}

/// Returns the snapshot of the clocks. It states nothing of the journal, to keep the proof of each
/// test short, and so do the calls below.
fn snapshot_of<A: Allocator + Copy>(keeper: &Timekeeper<A>) -> Snapshot {
    keeper.snapshot()
}

/// Returns the words of the snapshot.
fn words_of<A: Allocator + Copy>(keeper: &Timekeeper<A>) -> [u64; 10] {
    snapshot_of(keeper).words()
}

/// Returns the number of accepted commands.
fn length<A: Allocator + Copy>(keeper: &Timekeeper<A>) -> usize {
    keeper.len()
}

/// Returns the number of accepted commands, and the words of the snapshot.
fn length_and_words<A: Allocator + Copy>(keeper: &Timekeeper<A>) -> (usize, [u64; 10]) {
    (length(keeper), words_of(keeper))
}

/// Returns the number of accepted commands, the words of the snapshot, and the number of commands
/// that need no memory.
fn parts<A: Allocator + Copy>(keeper: &Timekeeper<A>) -> ((usize, [u64; 10]), usize) {
    (length_and_words(keeper), keeper.spare())
}

/// Returns the entry of a command.
fn entry_of<A: Allocator + Copy>(keeper: &Timekeeper<A>, number: u64) -> Option<Entry> {
    keeper.entry(number)
}

/// Folds the journal, and checks the number of folded entries.
fn folds(rt: &impl Abort, keeper: &mut Timekeeper, keep: u64, folded: u64) {
    assert_same(rt, &keeper.fold(keep), &folded);
}

/// Asks for capacity.
fn reserves<A: Allocator + Copy>(keeper: &mut Timekeeper<A>, extra: usize) -> Result<(), Refusal> {
    keeper.reserve(extra)
}

/// Applies a command. If an allocation failed, checks that nothing changed, and applies it once
/// more.
fn applied<A: Allocator + Copy>(
    rt: &impl Abort,
    keeper: &mut Timekeeper<A>,
    reading: u64,
    cmd: Command,
) -> Result<u64, Refusal> {
    let before = parts(keeper);
    let answer = applies(keeper, reading, cmd);
    if answer != Err(Refusal::Memory) {
        return answer;
    }
    assert_same(rt, &parts(keeper), &before);
    applies(keeper, reading, cmd)
}

/// Applies `many` updates, `step` cycles after each other, and checks their numbers.
fn updates<A: Allocator + Copy>(rt: &impl Abort, keeper: &mut Timekeeper<A>, many: u64, step: u64) {
    for number in 1..=many {
        let answer = applied(rt, keeper, step.wrapping_mul(number), Command::Update);
        assert_same(rt, &answer, &Ok(number));
    }
}

/// Opens a timekeeper and applies `many` updates, `step` cycles after each other.
fn updated<A: Allocator + Copy>(rt: &impl Abort, alloc: A, many: u64, step: u64) -> Timekeeper<A> {
    let mut keeper = opened(rt, alloc);
    updates(rt, &mut keeper, many, step);
    keeper
}

/// Applies commands in their order, and checks all answers.
fn answers(
    rt: &impl Abort,
    keeper: &mut Timekeeper,
    steps: &[(u64, Command, Result<u64, Refusal>)],
) {
    for (reading, cmd, answer) in steps {
        let returned = applied(rt, keeper, *reading, *cmd);
        assert_same(rt, &(*reading, *cmd, returned), &(*reading, *cmd, *answer));
    }
}

/// Checks the time of MONOTONIC at a reading.
fn reads_monotonic(rt: &impl Abort, keeper: &Timekeeper, reading: u64, value: Timespec) {
    reads_now(rt, keeper, &[(ClockId::Monotonic, reading, value)]);
}

/// Reads clocks after the last command, and checks their times.
fn reads_now(rt: &impl Abort, keeper: &Timekeeper, values: &[(ClockId, u64, Timespec)]) {
    reads(rt, &snapshot_of(keeper), values);
}

/// Checks that a front has no snapshot, and the error.
fn has_no_front(rt: &impl Abort, keeper: &Timekeeper, front: u64, error: FrontError) {
    assert_same(rt, &keeper.snapshot_at(front).err(), &Some(error));
}

/// Returns the words of the snapshot as of a front.
fn words_at(keeper: &Timekeeper, front: u64) -> Result<[u64; 10], FrontError> {
    Ok(keeper.snapshot_at(front)?.words())
}

/// Reads clocks as of a front, and checks their times.
fn reads_at(rt: &impl Abort, keeper: &Timekeeper, front: u64, values: &[(ClockId, u64, Timespec)]) {
    match keeper.snapshot_at(front) {
        Ok(snapshot) => reads(rt, &snapshot, values),
        Err(error) => assert_same(rt, &Some(error), &None),
    }
}

/// Reads clocks, and checks their times.
fn reads(rt: &impl Abort, snapshot: &Snapshot, values: &[(ClockId, u64, Timespec)]) {
    for (clock, reading, value) in values {
        let read = snapshot.get(*clock, *reading);
        assert_same(
            rt,
            &(*clock, *reading, read),
            &(*clock, *reading, Ok(*value)),
        );
    }
}
