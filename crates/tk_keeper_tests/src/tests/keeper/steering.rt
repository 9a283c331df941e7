use super::{TICKED_WORDS, answers, assert_same, opened, reads_now, snapshot_of, time, words_of};
use std::process::Abort;
use tk_clock::{ClockId, Command};
use tk_keeper::Timekeeper;

/// Sets the highest frequency at reading 10^9 on clocks whose tick is 11,000 since reading 0, and
/// checks them before and after.
pub(super) fn speeds_up(rt: &impl Abort, keeper: &mut Timekeeper) {
    let at = 1_000_000_000;
    assert_same(rt, &snapshot_of(keeper).mult(), &18_454_937);
    reads_now(
        rt,
        keeper,
        &[
            (ClockId::Monotonic, at, time(1, 99_999_964)),
            (ClockId::MonotonicRaw, at, time(1, 0)),
        ],
    );
    answers(rt, keeper, &[(at, Command::Freq(32_768_000), Ok(2))]);
    assert_same(rt, &words_of(keeper), &TICKED_WORDS);
    reads_now(
        rt,
        keeper,
        &[
            (ClockId::Monotonic, at, time(1, 99_999_964)),
            (ClockId::Monotonic, at + 1, time(1, 99_999_965)),
            (ClockId::MonotonicRaw, at + 1, time(1, 1)),
        ],
    );
}

#[test]
fn a_tick_steers_monotonic_and_not_the_raw_clock(rt: HostRuntime) {
    let mut keeper = opened(&rt, rt.alloc());
    answers(&rt, &mut keeper, &[(0, Command::Tick(11_000), Ok(1))]);
    speeds_up(&rt, &mut keeper);
}

#[test]
fn the_running_clocks_have_the_rate_in_force(rt: HostRuntime) {
    let mut keeper = opened(&rt, rt.alloc());
    answers(&rt, &mut keeper, &[(0, Command::Tick(11_000), Ok(1))]);
    let clock = *keeper.clock();
    assert_same(&rt, &(clock.tick(), clock.frequency()), &(11_000, 0));
    assert_same(&rt, &clock.snapshot(1).words(), &words_of(&keeper));
}
