use super::{
    answers, applies, assert_same, assert_same_at, desc_of, has_words, nanosecond_counter, opened,
    opened_at, reads, time, wide_counter,
};
use std::process::Abort;
use tk_clock::ClockId::{
    Boottime, Monotonic, MonotonicCoarse, MonotonicRaw, Realtime, Tai as TaiClock,
};
use tk_clock::Command::{Freq, Resume, SetTime, Suspend, Tai, Tick, Update};
use tk_clock::{Clock, Refusal, Timespec};
use tk_counter::CounterDesc;

/// Returns a counter of about 0.698 nanoseconds a cycle, with the shift 32 and 64-bit readings.
fn fine_counter(rt: &impl Abort) -> CounterDesc {
    desc_of(rt, 64, 3_000_000_000, 32)
}

/// Returns a counter at whose slowest rate MONOTONIC runs exactly 0.8995 times as fast as
/// MONOTONIC_RAW. At the slowest rate of `nanosecond_counter` the ratio is a little lower.
fn exact_counter(rt: &impl Abort) -> CounterDesc {
    desc_of(rt, 64, 1_000_000_000, 30)
}

/// Changes the counter, and checks the answer. A refused change must leave the clocks unchanged.
fn changes(
    rt: &impl Abort,
    clock: &mut Clock,
    reading: u64,
    to: &(CounterDesc, u64),
    answer: Result<(), Refusal>,
) {
    let (desc, first) = (to.0, to.1);
    let row = (reading, first);
    let before = clock.snapshot(0);
    assert_same_at(
        rt,
        &row,
        &clock.change_counter(reading, desc, first),
        &answer,
    );
    let after = clock.snapshot(0);
    if answer.is_err() {
        assert_same_at(rt, &row, &after.words(), &before.words());
        assert_same_at(rt, &row, &after.desc(), &before.desc());
    } else {
        assert_same_at(rt, &row, &after.desc(), &desc);
    }
}

#[test]
fn a_finer_counter_and_the_first_one_again(rt: HostRuntime) {
    let mut clock = opened(&rt);
    answers(&rt, &mut clock, 0, Freq(32_768_000), Ok(()));
    answers(&rt, &mut clock, 10, Tai(37), Ok(()));
    changes(
        &rt,
        &mut clock,
        1_000_000_007,
        &(fine_counter(&rt), 5),
        Ok(()),
    );
    has_words(
        &rt,
        &clock,
        0,
        &[
            0,
            5,
            3_001_500_000,
            2_147_358_079_802_368,
            1,
            1_700_000_000_000_000_000,
            0,
            74,
            30_064_771_072,
            1,
        ],
    );
    for (id, value) in [
        (Monotonic, time(1, 499_970)),
        (MonotonicCoarse, time(1, 499_970)),
        (Boottime, time(1, 499_970)),
        (Realtime, time(1_700_000_001, 499_970)),
        (TaiClock, time(1_700_000_038, 499_970)),
        (MonotonicRaw, time(1, 7)),
    ] {
        reads(&rt, &clock, id, 5, value);
    }
    let last = (nanosecond_counter(&rt), 4_294_967_295);
    changes(&rt, &mut clock, 1_000_005, &last, Ok(()));
    has_words(
        &rt,
        &clock,
        0,
        &[
            0,
            4_294_967_295,
            16_785_604,
            20_112_726_874_228,
            1,
            1_700_000_000_000_000_000,
            0,
            74,
            11_718_867_440_512,
            1,
        ],
    );
    for (id, reading, value) in [
        (Monotonic, 4_294_967_295, time(1, 1_198_811)),
        (MonotonicRaw, 4_294_967_295, time(1, 698_498)),
        (Monotonic, 0, time(1, 1_198_812)),
        (Monotonic, 999, time(1, 1_199_812)),
    ] {
        reads(&rt, &clock, id, reading, value);
    }
}

#[test]
fn from_8_bits_to_64_bits(rt: HostRuntime) {
    // 256 nanoseconds a cycle
    let narrow = desc_of(&rt, 8, 256, 0);
    let mut clock = opened_at(&rt, narrow, 200, time(0, 0));
    answers(&rt, &mut clock, 255, Update, Ok(()));
    changes(&rt, &mut clock, 100, &(wide_counter(&rt), u64::MAX), Ok(()));
    for (reading, nanos) in [
        (u64::MAX, 39_936),
        (0, 4_234_240),
        (9, 41_982_976),
        (u64::MAX - 1, 39_936),
    ] {
        reads(&rt, &clock, Monotonic, reading, time(0, nanos));
    }
}

#[test]
fn a_smaller_shift_cuts_the_fraction(rt: HostRuntime) {
    let mut clock = opened_at(&rt, fine_counter(&rt), 0, time(5, 0));
    let halves = (desc_of(&rt, 40, 1_000, 1), 3);
    let wholes = (desc_of(&rt, 40, 1_000, 0), 9);
    // 7 cycles last 4.889 nanoseconds, of which halves are kept
    changes(&rt, &mut clock, 7, &halves, Ok(()));
    assert_same(&rt, &clock.snapshot(0).frac(), &9);
    assert_same(&rt, &clock.snapshot(0).raw_frac(), &9);
    reads(&rt, &clock, Monotonic, 3, time(0, 4));
    reads(&rt, &clock, Monotonic, 4, time(0, 504));
    // of 504.5 nanoseconds only whole ones are kept
    changes(&rt, &mut clock, 4, &wholes, Ok(()));
    assert_same(&rt, &clock.snapshot(0).frac(), &504);
    reads(&rt, &clock, Monotonic, 9, time(0, 504));
}

#[test]
fn a_change_asleep_brings_nothing_forward(rt: HostRuntime) {
    let mut clock = opened(&rt);
    answers(&rt, &mut clock, 1_000, Suspend, Ok(()));
    let to = (fine_counter(&rt), 77);
    changes(&rt, &mut clock, 4_294_967_296, &to, Err(Refusal::Invalid));
    // the reading is behind the suspension's
    changes(&rt, &mut clock, 5, &to, Ok(()));
    assert_same(&rt, &clock.snapshot(0).last(), &77);
    assert!(rt; clock.snapshot(0).asleep());
    reads(&rt, &clock, Monotonic, 1_000_000, time(0, 1_000));
    answers(&rt, &mut clock, 100, Resume(time(3, 0)), Ok(()));
    for (id, value) in [
        (Monotonic, time(0, 1_069)),
        (MonotonicRaw, time(0, 1_069)),
        (Boottime, time(3, 1_069)),
        (Realtime, time(1_700_000_003, 1_069)),
    ] {
        reads(&rt, &clock, id, 200, value);
    }
}

/// Returns clocks of `nanosecond_counter` at reading 0, after a suspension of this length.
fn slept(rt: &impl Abort, real: Timespec, tai: i64, away: Timespec) -> Clock {
    let mut clock = opened_at(rt, nanosecond_counter(rt), 0, real);
    applies(rt, &mut clock, 0, Tai(tai));
    applies(rt, &mut clock, 0, Suspend);
    applies(rt, &mut clock, 0, Resume(away));
    clock
}

#[test]
fn a_change_at_each_limit_is_refused(rt: HostRuntime) {
    // 1,000 nanoseconds before the end of the clocks
    let away = time(9_223_372_035, 999_999_000);
    let mut boottime = slept(&rt, time(0, 0), 0, away);
    applies(&rt, &mut boottime, 0, SetTime(time(0, 0)));
    let realtime = slept(&rt, time(7, 0), 0, time(9_223_372_028, 999_999_000));
    let tai = slept(&rt, time(0, 0), 100_000, time(9_223_272_035, 999_999_000));
    let to = (fine_counter(&rt), 0);
    for mut clock in [boottime, realtime, tai] {
        changes(&rt, &mut clock, 1_000, &to, Err(Refusal::Range));
        changes(&rt, &mut clock, 999, &to, Ok(()));
    }
    let mut monotonic = opened_at(&rt, wide_counter(&rt), 0, time(0, 0));
    let to = (nanosecond_counter(&rt), 0);
    let (last, past) = (225_563_049_316, 225_563_049_317);
    changes(&rt, &mut monotonic, past, &to, Err(Refusal::Range));
    changes(&rt, &mut monotonic, last, &to, Ok(()));
    let most = time(946_079_999, 998_296_064);
    reads(&rt, &monotonic, Monotonic, 0, most);
}

/// Returns clocks of `nanosecond_counter` that have run at their slowest rate since the reading 0.
fn slowed(rt: &impl Abort) -> Clock {
    let mut clock = opened(rt);
    applies(rt, &mut clock, 0, Freq(-32_768_000));
    applies(rt, &mut clock, 0, Tick(9_000));
    clock
}

#[test]
fn raw_may_be_too_far_ahead_for_another_counter(rt: HostRuntime) {
    let mut clock = slowed(&rt);
    let exact = (exact_counter(&rt), 0);
    // this counter's slowest rate is lower
    let slower = (desc_of(&rt, 64, 259, 0), 0);
    changes(&rt, &mut clock, 1_000, &exact, Err(Refusal::Range));
    changes(&rt, &mut clock, 1_000, &slower, Ok(()));
    reads(&rt, &clock, Monotonic, 0, time(0, 899));
    reads(&rt, &clock, MonotonicRaw, 0, time(0, 1_000));

    // one cycle at the usual rate is enough
    let mut clock = slowed(&rt);
    answers(&rt, &mut clock, 1_000_000, Freq(0), Ok(()));
    answers(&rt, &mut clock, 1_000_000, Tick(10_000), Ok(()));
    changes(&rt, &mut clock, 1_000_000, &exact, Err(Refusal::Range));
    changes(&rt, &mut clock, 1_000_001, &exact, Ok(()));
}

#[test]
fn the_first_test_that_fails_decides(rt: HostRuntime) {
    let mut clock = slowed(&rt);
    let narrow = desc_of(&rt, 8, 1_000_000, 0);
    for (reading, first, refusal) in [
        (4_294_967_296, 0, Refusal::Invalid),
        (1_000, 256, Refusal::Invalid),
        (2_147_483_648, 256, Refusal::Invalid),
        (2_147_483_648, 255, Refusal::Behind),
        (1_000, 255, Refusal::Range),
    ] {
        changes(&rt, &mut clock, reading, &(narrow, first), Err(refusal));
    }
}

/// Changes the counter 1,000 times, to these counters in turn. The clocks run `turn + 10` cycles
/// before each change.
fn change_in_turn(rt: &impl Abort, clock: &mut Clock, counters: &[CounterDesc; 6]) {
    for turn in 0..1_000_u64 {
        let desc = counters[(turn % 6) as usize];
        let changed = clock.change_counter(4 * turn + 10, desc, 3 * turn + 3);
        changed.expect(rt, "a change");
    }
}

#[test]
fn a_thousand_changes_lose_only_parts_of_a_nanosecond(rt: HostRuntime) {
    let whole = nanosecond_counter(&rt);
    let half = desc_of(&rt, 64, 8_388_608, 24);
    let mut clock = opened(&rt);
    change_in_turn(&rt, &mut clock, &[half, whole, half, whole, half, whole]);
    // 254,500 cycles of a nanosecond, and 255,000 of half a nanosecond
    reads(&rt, &clock, Monotonic, 3_000, time(0, 382_000));
    assert_same(&rt, &clock.snapshot(0).frac(), &(382_000 << 24));

    let fine = fine_counter(&rt);
    let coarse = desc_of(&rt, 16, 1_000, 1);
    let mut clock = opened(&rt);
    answers(&rt, &mut clock, 0, Freq(32_768_000), Ok(()));
    change_in_turn(&rt, &mut clock, &[fine, coarse, whole, fine, coarse, whole]);
    // The exact sum is 85,203,709.56 nanoseconds. Each of 333 changes to the coarse counter loses
    // less than half a nanosecond, and each of 333 changes from it to the first one loses nothing.
    has_words(
        &rt,
        &clock,
        0,
        &[
            0,
            3_000,
            3_001_500_000,
            365_946_789_337_269_248,
            0,
            1_700_000_000_000_000_000,
            0,
            0,
            365_946_166_547_841_024,
            0,
        ],
    );
}
