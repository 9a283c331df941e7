//! Changes of the counter of steered clocks. A lag of `n` is the number 2^124 + `n` in two words of
//! 64 bits, so its upper word is 2^60 plus that of `n`.
use super::numbers::assert_numbers;
use super::{assert_same, nanosecond_counter, opened_at};
use std::process::Abort;
use tk_clock::{ClockId, Command, Refusal, Timespec};
use tk_counter::CounterDesc;
use tk_ntp::{LagNumbers, SteeredClock, SteeredNumbers, SteeringNumbers};

/// The upper word of a lag of 0.
const NONE: u64 = 1 << 60;

/// A second of REALTIME.
const SECOND: i64 = 1_700_000_000;

/// Returns a counter of a nanosecond a cycle with the shift 30, which is finer than 23.
fn fine_counter(rt: &impl Abort) -> CounterDesc {
    CounterDesc::new(64, 1 << 30, 30).expect(rt, "a counter of 1 GHz")
}

/// Returns a counter of 1.024 GHz with the shift 10 and readings of 32 bits.
fn coarse_counter(rt: &impl Abort) -> CounterDesc {
    CounterDesc::new(32, 1_000, 10).expect(rt, "a counter of 1.024 GHz")
}

/// Returns steered clocks over a counter with this lag.
fn lagging(rt: &impl Abort, desc: CounterDesc, (high, low): (u64, u64)) -> SteeredClock {
    let steered = opened_at(rt, desc, SECOND);
    let numbers = steered.numbers();
    let moved = SteeredNumbers {
        steering: SteeringNumbers {
            lag: LagNumbers { high, low },
            ..numbers.steering
        },
        ..numbers
    };
    SteeredClock::from_numbers(steered.clock(), moved).expect(rt, "a lag in range")
}

/// Returns the two words of the lag.
fn lag_of(steered: &SteeredClock) -> (u64, u64) {
    let lag = steered.numbers().steering.lag;
    (lag.high, lag.low)
}

/// Changes the counter at a reading, and checks the answer.
fn changes(
    rt: &impl Abort,
    steered: &mut SteeredClock,
    (reading, desc, first): (u64, CounterDesc, u64),
    wanted: Result<(), Refusal>,
) {
    assert_same(rt, &steered.change_counter(reading, desc, first), &wanted);
}

/// Checks that a change is refused and changes nothing.
fn refuses(
    rt: &impl Abort,
    steered: &mut SteeredClock,
    change: (u64, CounterDesc, u64),
    refusal: Refusal,
) {
    let (words, numbers) = (steered.snapshot(0).words(), steered.numbers());
    changes(rt, steered, change, Err(refusal));
    assert_same(rt, &steered.snapshot(0).words(), &words);
    assert_numbers(rt, &steered.numbers(), &numbers);
}

/// Checks that clocks with a lag have another one after a change at their first reading.
fn carries(
    rt: &impl Abort,
    from: CounterDesc,
    desc: CounterDesc,
    before: (u64, u64),
    after: (u64, u64),
) {
    let mut steered = lagging(rt, from, before);
    changes(rt, &mut steered, (0, desc, 5), Ok(()));
    assert_same(rt, &(before, lag_of(&steered)), &(before, after));
    assert_same(
        rt,
        &(steered.numbers().last_account, steered.is_consistent()),
        &(5, true),
    );
}

#[test]
fn a_finer_counter_keeps_the_lag_exactly(rt: HostRuntime) {
    let (from, desc) = (nanosecond_counter(&rt), fine_counter(&rt));
    carries(&rt, from, desc, (NONE, 3), (NONE, 384));
    carries(
        &rt,
        from,
        desc,
        (NONE - 1, u64::MAX),
        (NONE - 1, u64::MAX - 127),
    );
}

#[test]
fn a_coarser_counter_rounds_the_lag_down(rt: HostRuntime) {
    // the unit is 2^20 times as long
    let (from, desc) = (fine_counter(&rt), coarse_counter(&rt));
    carries(&rt, from, desc, (NONE, 1 << 20), (NONE, 1));
    carries(&rt, from, desc, (NONE, (1 << 20) - 1), (NONE, 0));
    carries(&rt, from, desc, (NONE - 1, u64::MAX), (NONE - 1, u64::MAX));
    carries(
        &rt,
        from,
        desc,
        (NONE - 1, u64::MAX - (1 << 20)),
        (NONE - 1, u64::MAX - 1),
    );
}

#[test]
fn no_more_than_half_a_second_is_carried_over(rt: HostRuntime) {
    // half a second is 10^18 * 2^54 at the shift 23, and 10^18 * 2^61 at the shift 30
    let (half, finer) = (976_562_500_000_000, 125_000_000_000_000_000);
    let (from, desc) = (nanosecond_counter(&rt), fine_counter(&rt));
    carries(&rt, from, desc, (NONE + half, 1), (NONE + finer, 0));
    carries(&rt, from, desc, (NONE + half, 0), (NONE + finer, 0));
    carries(&rt, from, desc, (NONE - half, 0), (NONE - finer, 0));
    carries(
        &rt,
        from,
        desc,
        (NONE - half - 1, u64::MAX),
        (NONE - finer, 0),
    );
}

#[test]
fn the_lag_is_accounted_for_up_to_the_change(rt: HostRuntime) {
    // at 1 ppm a cycle should have 1,000.001 units of 2^-10 ns, and has 1,000: in a million cycles
    // the clocks lag 1,000 of these units behind, which is 1,000 * 10^9 * 2^32
    let counter = CounterDesc::new(64, 1_000, 10).expect(&rt, "a counter of 1.024 GHz");
    let finer = CounterDesc::new(64, 4_000, 12).expect(&rt, "a counter of 1.024 GHz");
    let mut steered = opened_at(&rt, counter, SECOND);
    assert_same(&rt, &steered.apply(0, Command::Freq(65_536)), &Ok(()));
    changes(&rt, &mut steered, (1_000_000, finer, 77), Ok(()));
    assert_same(&rt, &lag_of(&steered), &(NONE + 931, 1_385_447_424 << 32));
    let numbers = steered.numbers();
    assert_same(
        &rt,
        &(numbers.last_account, numbers.next),
        &(77, 1_700_000_001),
    );
    assert_same(&rt, &numbers.steering.ntp.frequency, &(1_000 << 32));
    assert_same(&rt, &steered.is_consistent(), &true);
    let monotonic = steered.snapshot(0).get(ClockId::Monotonic, 77);
    let time = Timespec {
        sec: 0,
        nsec: 976_562,
    };
    assert_same(&rt, &monotonic, &Ok(time));
}

#[test]
fn the_seconds_before_the_change_begin(rt: HostRuntime) {
    let mut steered = opened_at(&rt, nanosecond_counter(&rt), SECOND);
    changes(
        &rt,
        &mut steered,
        (2_500_000_000, fine_counter(&rt), 9),
        Ok(()),
    );
    assert_same(&rt, &steered.numbers().next, &1_700_000_003);
    assert_same(&rt, &steered.next_second(), &Some(500_000_009));
    assert_same(&rt, &steered.advance(500_000_009), &Ok(()));
    assert_same(&rt, &steered.numbers().next, &1_700_000_004);
}

#[test]
fn sleeping_clocks_stay_asleep(rt: HostRuntime) {
    let coarse = coarse_counter(&rt);
    let mut steered = lagging(&rt, coarse, (NONE, 3));
    assert_same(&rt, &steered.apply(500, Command::Suspend), &Ok(()));
    let lag = lag_of(&steered);
    refuses(
        &rt,
        &mut steered,
        (1 << 32, fine_counter(&rt), 5),
        Refusal::Invalid,
    );
    // a reading behind the last command is no error, and no cycle is accounted for
    changes(&rt, &mut steered, (0, coarse, 7), Ok(()));
    assert_same(&rt, &lag_of(&steered), &lag);
    let (last_account, asleep) = (steered.numbers().last_account, steered.snapshot(0).asleep());
    assert_same(
        &rt,
        &(last_account, asleep, steered.is_consistent()),
        &(7, true, true),
    );
}

#[test]
fn the_first_test_that_fails_decides(rt: HostRuntime) {
    let coarse = coarse_counter(&rt);
    let mut steered = opened_at(&rt, coarse, SECOND);
    assert_same(&rt, &steered.apply(1_000, Command::Update), &Ok(()));
    refuses(&rt, &mut steered, (999, coarse, 1 << 32), Refusal::Invalid);
    refuses(&rt, &mut steered, (1 << 32, coarse, 0), Refusal::Invalid);
    refuses(&rt, &mut steered, (999, coarse, 0), Refusal::Behind);
}

#[test]
fn raw_may_be_too_far_ahead_for_another_counter(rt: HostRuntime) {
    // at the slowest rate of this counter MONOTONIC runs exactly 0.8995 times as fast as
    // MONOTONIC_RAW, and at that of the present one a little slower
    let exact = CounterDesc::new(64, 1_000_000_000, 30).expect(&rt, "a counter of 1.07 GHz");
    let mut steered = opened_at(&rt, nanosecond_counter(&rt), SECOND);
    assert_same(&rt, &steered.apply(0, Command::Freq(-32_768_000)), &Ok(()));
    assert_same(&rt, &steered.apply(0, Command::Tick(9_000)), &Ok(()));
    refuses(&rt, &mut steered, (1_000, exact, 0), Refusal::Range);
    // the first reading at which a second is due, at the multiplier 7,545,552
    let due = 1_111_728_871;
    changes(&rt, &mut steered, (due, exact, 0), Err(Refusal::Range));
    let numbers = steered.numbers();
    assert_same(
        &rt,
        &(numbers.next, numbers.last_account),
        &(1_700_000_002, due),
    );
}
