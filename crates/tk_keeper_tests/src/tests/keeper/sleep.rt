use super::{ASLEEP_WORDS, AWAKE_WORDS, answers, assert_same, opened, reads_now, time, words_of};
use std::process::Abort;
use tk_clock::ClockId;
use tk_clock::Command::{Resume, Suspend, Update};
use tk_clock::Refusal::Asleep;
use tk_keeper::Timekeeper;

/// Resumes clocks that were suspended at reading 1,000, and checks them before and after.
pub(super) fn wakes(rt: &impl Abort, keeper: &mut Timekeeper) {
    assert_same(rt, &words_of(keeper), &ASLEEP_WORDS);
    let steps = [
        (2_000, Update, Err(Asleep)),
        (5, Resume(time(5, 500_000_000)), Ok(2)),
    ];
    answers(rt, keeper, &steps);
    assert_same(rt, &words_of(keeper), &AWAKE_WORDS);
    reads_now(
        rt,
        keeper,
        &[
            (ClockId::Monotonic, 5, time(0, 1_000)),
            (ClockId::Realtime, 5, time(1_700_000_005, 500_001_000)),
            (ClockId::Boottime, 5, time(5, 500_001_000)),
            (ClockId::Monotonic, 15, time(0, 1_010)),
        ],
    );
}

#[test]
fn a_suspension_moves_realtime_and_boottime(rt: HostRuntime) {
    let mut keeper = opened(&rt, rt.alloc());
    answers(&rt, &mut keeper, &[(1_000, Suspend, Ok(1))]);
    wakes(&rt, &mut keeper);
}
