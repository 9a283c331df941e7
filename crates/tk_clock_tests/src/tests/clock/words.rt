use super::{applies, assert_same, assert_same_at, nanosecond_counter, opened, time};
use std::process::Abort;
use tk_clock::{ClockId, Command, ReadError, Snapshot};
use tk_counter::CounterDesc;

/// The words of clocks that were opened at the beginning of 1970.
const OPENING: [u64; 10] = [0, 0, 16_777_216, 0, 0, 0, 0, 0, 0, 0];

/// One second below the end of REALTIME, BOOTTIME and TAI, in ns; the next constant is 1 ns below.
const SECOND_BELOW_END: u64 = 9_223_372_035_000_000_000;

const BELOW_END: u64 = 9_223_372_035_999_999_999;

/// The greatest values of the words after the first one, in clocks of `nanosecond_counter`.
const BOUNDS: [u64; 9] = [
    // the last reading, up to the mask
    4_294_967_295,
    // the multiplier, up to 11 percent above the usual one
    18_622_709,
    // MONOTONIC: units below a second, and 30 years of seconds
    16_777_215_999_999_999,
    946_079_999,
    // REALTIME and BOOTTIME
    BELOW_END,
    BELOW_END,
    // a TAI offset of 100,000 seconds, asleep
    200_001,
    // MONOTONIC_RAW: units below a second, and seconds
    16_777_215_999_999_999,
    1_059_999_999,
];

/// Checks whether words make a snapshot. If they do, the snapshot must return the same words.
fn is_taken(rt: &impl Abort, desc: CounterDesc, words: [u64; 10], taken: bool) {
    let back = Snapshot::from_words(desc, words).map(|snapshot| snapshot.words());
    let wanted = if taken { Some(words) } else { None };
    assert_same(rt, &back, &wanted);
}

#[test]
fn a_word_is_taken_at_its_bound_and_not_past_it(rt: HostRuntime) {
    let desc = nanosecond_counter(&rt);
    for place in 0..9usize {
        let most = BOUNDS[place];
        let past = most.saturating_add(1);
        for (word, taken) in [(most, true), (past, false), (u64::MAX, false)] {
            let mut words = OPENING;
            words[place + 1] = word;
            is_taken(&rt, desc, words, taken);
        }
    }
}

#[test]
fn a_front_may_be_any_and_a_multiplier_is_not_0(rt: HostRuntime) {
    let desc = nanosecond_counter(&rt);
    for (front, mult, taken) in [(u64::MAX, 1, true), (0, 0, false)] {
        let words = [front, 0, mult, 0, 0, 0, 0, 0, 0, 0];
        is_taken(&rt, desc, words, taken);
    }
}

#[test]
fn a_clock_is_below_its_end_at_the_last_reading(rt: HostRuntime) {
    let desc = nanosecond_counter(&rt);
    for (frac, sec, real, boot, tai, taken) in [
        // MONOTONIC is at one second
        (0, 1, SECOND_BELOW_END - 1, 0, 0, true),
        (0, 1, SECOND_BELOW_END, 0, 0, false),
        (0, 1, 0, SECOND_BELOW_END - 1, 0, true),
        (0, 1, 0, SECOND_BELOW_END, 0, false),
        // TAI is one second ahead of REALTIME
        (0, 0, SECOND_BELOW_END - 1, 0, 2, true),
        (0, 0, SECOND_BELOW_END, 0, 2, false),
        // units below a nanosecond don't count
        (16_777_215, 0, BELOW_END, BELOW_END, 1, true),
        (16_777_216, 0, BELOW_END, 0, 1, false),
        (16_777_216, 0, 0, BELOW_END, 1, false),
    ] {
        let words = [0, 0, 16_777_216, frac, sec, real, boot, tai, 0, 0];
        is_taken(&rt, desc, words, taken);
    }
}

#[test]
fn the_greatest_monotonic_reads_beyond_its_limit_soon(rt: HostRuntime) {
    let desc = nanosecond_counter(&rt);
    let mut words = [
        0,
        0,
        18_622_709,
        16_777_215_999_999_999,
        946_079_999,
        0,
        0,
        0,
        0,
        0,
    ];
    let snapshot = Snapshot::from_words(desc, words).expect(&rt, "words in range");
    for (id, value) in [
        (ClockId::Monotonic, Err(ReadError::Range)),
        (ClockId::Realtime, Ok(time(946_080_002, 383_706_750))),
    ] {
        assert_same_at(&rt, &id, &snapshot.get(id, 2_147_483_647), &value);
    }
    words[2] = 18_622_710;
    is_taken(&rt, desc, words, false);
}

#[test]
fn known_words_give_their_snapshot_back(rt: HostRuntime) {
    let mut clock = opened(&rt);
    applies(&rt, &mut clock, 1_000, Command::Tai(37));
    applies(&rt, &mut clock, 2_000, Command::Suspend);
    let snapshot = clock.snapshot(2);
    let again = Snapshot::from_known_words(snapshot.desc(), snapshot.words());
    let wanted = [
        2,
        2_000,
        16_777_216,
        33_554_432_000,
        0,
        1_700_000_000_000_000_000,
        0,
        75,
        33_554_432_000,
        0,
    ];
    assert_same(&rt, &again.words(), &wanted);
    assert_same(
        &rt,
        &(again.front(), again.last(), again.tai()),
        &(2, 2_000, 37),
    );
    assert!(rt; again.asleep());
}
