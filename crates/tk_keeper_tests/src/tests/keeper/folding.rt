use super::sleep::wakes;
use super::steering::speeds_up;
use super::{
    FASTER_WORDS, answers, assert_same, entry_of, folds, has_no_front, length, opened, reads_at,
    reads_monotonic, steered, time, updated, words_at,
};
use std::alloc::Global;
use std::process::Abort;
use tk_clock::{ClockId, Command};
use tk_keeper::{FrontError, Timekeeper};

/// Opens a timekeeper, applies a command and folds its entry.
fn folded(rt: &impl Abort, alloc: Global, reading: u64, cmd: Command) -> Timekeeper {
    let mut keeper = opened(rt, alloc);
    answers(rt, &mut keeper, &[(reading, cmd, Ok(1))]);
    folds(rt, &mut keeper, 0, 1);
    keeper
}

#[test]
fn folded_entries_are_gone_and_count_on(rt: HostRuntime) {
    let mut keeper = steered(&rt, rt.alloc());
    let at = 1_000_000_000;
    folds(&rt, &mut keeper, 1, 1);
    assert_same(&rt, &(length(&keeper), keeper.folded()), &(2, 1));
    assert_same(&rt, &entry_of(&keeper, 1), &None);
    assert_same(&rt, &entry_of(&keeper, 2).is_some(), &true);
    has_no_front(&rt, &keeper, 0, FrontError::Folded);
    assert_same(&rt, &words_at(&keeper, 1), &Ok(FASTER_WORDS));
    reads_at(
        &rt,
        &keeper,
        1,
        &[(ClockId::Monotonic, at, time(1, 499_963))],
    );
    reads_monotonic(&rt, &keeper, at + 1, time(1, 499_964));
    folds(&rt, &mut keeper, 5, 1);
}

#[test]
fn a_sleep_and_a_tick_outlast_folding(rt: HostRuntime) {
    let mut asleep = folded(&rt, rt.alloc(), 1_000, Command::Suspend);
    wakes(&rt, &mut asleep);
    let mut ticked = folded(&rt, rt.alloc(), 0, Command::Tick(11_000));
    speeds_up(&rt, &mut ticked);
}

#[test]
fn kept_states_outlast_folding(rt: HostRuntime) {
    let mut keeper = updated(&rt, rt.alloc(), 1_000, 1_000);
    for (keep, folded, front, coarse) in [
        (745, 255, 255, time(0, 255_000)),
        (744, 256, 256, time(0, 256_000)),
        (743, 257, 512, time(0, 512_000)),
        (300, 700, 767, time(0, 767_000)),
        (0, 1_000, 1_000, time(0, 1_000_000)),
    ] {
        folds(&rt, &mut keeper, keep, folded);
        let value = (ClockId::MonotonicCoarse, 0, coarse);
        reads_at(&rt, &keeper, front, &[value]);
        has_no_front(&rt, &keeper, 254, FrontError::Folded);
    }
}
