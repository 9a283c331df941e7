use super::{answers, assert_same, folds, opened, time};
use std::process::Abort;
use tk_clock::{ClockId, Command, ReadError, Timespec};
use tk_keeper::Timekeeper;

/// The result of reading a clock at a reading.
type Value = (ClockId, u64, Result<Timespec, ReadError>);

/// Reads clocks without a snapshot, and checks their results.
fn gives(rt: &impl Abort, keeper: &Timekeeper, values: &[Value]) {
    for (clock, reading, value) in values {
        assert_same(rt, &keeper.get(*clock, *reading), value);
    }
}

#[test]
fn reads_are_the_journals_own(rt: HostRuntime) {
    let mut keeper = opened(&rt, rt.alloc());
    let wake = Command::Resume(time(5, 500_000_000));
    let steps = [(1_000, Command::Suspend, Ok(1)), (5, wake, Ok(2))];
    answers(&rt, &mut keeper, &steps);
    let values = [
        (ClockId::Monotonic, 5, Ok(time(0, 1_000))),
        (ClockId::Monotonic, 15, Ok(time(0, 1_010))),
        (ClockId::MonotonicCoarse, 15, Ok(time(0, 1_000))),
        (ClockId::Realtime, 5, Ok(time(1_700_000_005, 500_001_000))),
        (ClockId::Boottime, 5, Ok(time(5, 500_001_000))),
    ];
    gives(&rt, &keeper, &values);
    folds(&rt, &mut keeper, 0, 2);
    gives(&rt, &keeper, &values);
}

#[test]
fn a_reading_above_the_mask_is_refused_first(rt: HostRuntime) {
    let mut keeper = opened(&rt, rt.alloc());
    let above = 4_294_967_296;
    let invalid = Err(ReadError::Invalid);
    gives(&rt, &keeper, &[(ClockId::Monotonic, above, invalid)]);
    let wake = Command::Resume(time(7_523_372_035, 999_999_999));
    let steps = [(0, Command::Suspend, Ok(1)), (0, wake, Ok(2))];
    answers(&rt, &mut keeper, &steps);
    let values = [
        (ClockId::Realtime, 1, Err(ReadError::Range)),
        (ClockId::Realtime, above, invalid),
    ];
    gives(&rt, &keeper, &values);
}

#[test]
fn monotonic_is_read_at_the_last_command(rt: HostRuntime) {
    let mut keeper = opened(&rt, rt.alloc());
    assert_same(&rt, &keeper.monotonic(), &time(0, 0));
    let wake = Command::Resume(time(5, 500_000_000));
    let steps = [
        (1_000_000_500, Command::Update, Ok(1)),
        (2_000_000_700, Command::Suspend, Ok(2)),
        (5, wake, Ok(3)),
    ];
    answers(&rt, &mut keeper, &steps);
    assert_same(&rt, &keeper.monotonic(), &time(2, 700));
    folds(&rt, &mut keeper, 0, 3);
    assert_same(&rt, &keeper.monotonic(), &time(2, 700));
}
