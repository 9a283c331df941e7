use super::{applies, assert_same, assert_same_at, nanosecond_counter, opened, time};
use std::process::Abort;
use tk_clock::{Clock, Command, Snapshot};

/// Applies two more commands.
fn go_on(rt: &impl Abort, clock: &mut Clock) {
    applies(rt, clock, 3_000, Command::Step(time(-1, 5)));
    applies(rt, clock, 4_000, Command::Freq(0));
}

#[test]
fn clocks_come_back_from_their_parts(rt: HostRuntime) {
    let mut clock = opened(&rt);
    applies(&rt, &mut clock, 1_000, Command::Freq(32_768_000));
    applies(&rt, &mut clock, 2_000, Command::Tick(11_000));
    assert_same(
        &rt,
        &(clock.frequency(), clock.tick()),
        &(32_768_000, 11_000),
    );
    let snapshot = clock.snapshot(2);
    let again = Clock::from_snapshot(snapshot, clock.frequency(), clock.tick());
    let mut again = again.expect(&rt, "running clocks");
    go_on(&rt, &mut clock);
    go_on(&rt, &mut again);
    assert_same(&rt, &again.snapshot(4).words(), &clock.snapshot(4).words());
    assert_same(&rt, &(again.frequency(), again.tick()), &(0, 11_000));
}

#[test]
fn no_clocks_have_another_rate_than_their_multiplier(rt: HostRuntime) {
    let desc = nanosecond_counter(&rt);
    for (mult, frequency, tick, raw_frac, made) in [
        (16_777_216, 0, 10_000, 0, true),
        (18_463_326, 32_768_000, 11_000, 0, true),
        (18_463_326, i64::MAX, 11_000, 0, true),
        (16_777_215, 0, 10_000, 0, false),
        (16_777_216, 32_768_000, 10_000, 0, false),
        // a tick that can't be set
        (16_777_216, 0, 8_999, 0, false),
        (16_777_216, 0, 11_001, 0, false),
        (16_777_216, 0, i64::MIN, 0, false),
        // MONOTONIC_RAW is above 0, but MONOTONIC is 0
        (16_777_216, 0, 10_000, 1, false),
    ] {
        let words = [0, 0, mult, 0, 0, 0, 0, 0, raw_frac, 0];
        let snapshot = Snapshot::from_words(desc, words).expect(&rt, "words in range");
        let clock = Clock::from_snapshot(snapshot, frequency, tick);
        let row = (mult, frequency, tick, raw_frac);
        assert_same_at(&rt, &row, &clock.is_some(), &made);
    }
}
