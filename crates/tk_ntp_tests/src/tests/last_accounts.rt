//! Where the last account may be, for clocks that are restored from their numbers. The counter has
//! 64 bits and 1 GHz, so the second that begins next does so at the reading 10^9.
use super::{assert_same, nanosecond_counter, opened_at};
use std::process::Abort;
use tk_clock::{Clock, Command};
use tk_ntp::{SteeredClock, SteeredNumbers};

/// Returns steered clocks that were opened at the reading 0, a second before the one that begins
/// next.
fn opened(rt: &impl Abort) -> SteeredClock {
    opened_at(rt, nanosecond_counter(rt), 1_700_000_000)
}

/// Checks whether clocks with their last account at a reading are where the laws want them.
fn check_consistent(
    rt: &impl Abort,
    clock: Clock,
    numbers: SteeredNumbers,
    last_account: u64,
    wanted: bool,
) {
    let moved = SteeredNumbers {
        last_account,
        ..numbers
    };
    let restored = SteeredClock::from_numbers(clock, moved).expect(rt, "numbers in range");
    assert_same(
        rt,
        &(last_account, restored.is_consistent()),
        &(last_account, wanted),
    );
}

#[test]
fn the_last_account_is_not_after_the_next_second(rt: HostRuntime) {
    let steered = opened(&rt);
    assert_same(&rt, &steered.is_consistent(), &true);
    let (clock, numbers) = (steered.clock(), steered.numbers());
    for last_account in [0, 1, 999_999_999, 1_000_000_000] {
        check_consistent(&rt, clock, numbers, last_account, true);
    }
    for last_account in [1_000_000_001, 1 << 62, u64::MAX] {
        check_consistent(&rt, clock, numbers, last_account, false);
    }
    let later = SteeredNumbers {
        next: 1_700_000_003,
        ..numbers
    };
    check_consistent(&rt, clock, later, 3_000_000_000, true);
    check_consistent(&rt, clock, later, 3_000_000_001, false);
}

#[test]
fn a_second_that_is_never_reached_leaves_half_the_range(rt: HostRuntime) {
    let steered = opened(&rt);
    let never = SteeredNumbers {
        next: 9_223_372_037,
        ..steered.numbers()
    };
    let half = u64::MAX / 2;
    check_consistent(&rt, steered.clock(), never, half, true);
    check_consistent(&rt, steered.clock(), never, half + 1, false);
}

#[test]
fn the_last_account_of_sleeping_clocks_is_their_last_command(rt: HostRuntime) {
    let mut steered = opened(&rt);
    assert_same(&rt, &steered.apply(500, Command::Suspend), &Ok(()));
    assert_same(&rt, &steered.is_consistent(), &true);
    let (clock, numbers) = (steered.clock(), steered.numbers());
    check_consistent(&rt, clock, numbers, 499, false);
    check_consistent(&rt, clock, numbers, 501, false);
}

#[test]
fn late_seconds_leave_it_where_it_may_be(rt: HostRuntime) {
    let mut steered = opened(&rt);
    assert_same(&rt, &steered.advance_late(3_500_000_000), &Ok(()));
    assert_same(&rt, &steered.numbers().last_account, &3_500_000_000);
    assert_same(&rt, &steered.is_consistent(), &true);
}
