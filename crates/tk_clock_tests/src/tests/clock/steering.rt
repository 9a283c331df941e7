use super::{answers, assert_same, assert_same_at, has_words, opened, reads, time};
use tk_clock::ClockId::{Monotonic, MonotonicRaw};
use tk_clock::Command::{Freq, Tick};

/// The reading one second after the opening.
const SECOND: u64 = 1_000_000_000;

#[test]
fn a_snapshot_used_beyond_its_life_may_give_more(rt: HostRuntime) {
    let mut clock = opened(&rt);
    answers(&rt, &mut clock, 0, Freq(32_768_000), Ok(()));
    let first = clock.snapshot(1);
    answers(&rt, &mut clock, 1_000, Freq(-32_768_000), Ok(()));
    let second = clock.snapshot(2);
    for (snapshot, value) in [(first, time(1, 499_963)), (second, time(0, 999_499_977))] {
        let read = snapshot.get(Monotonic, SECOND);
        assert_same_at(&rt, &snapshot.front(), &read, &Ok(value));
    }
}

#[test]
fn a_tick_and_a_frequency_keep_each_other(rt: HostRuntime) {
    let mut clock = opened(&rt);
    answers(&rt, &mut clock, 0, Tick(11_000), Ok(()));
    assert_same(&rt, &clock.snapshot(1).mult(), &18_454_937);
    reads(&rt, &clock, Monotonic, SECOND, time(1, 99_999_964));
    reads(&rt, &clock, MonotonicRaw, SECOND, time(1, 0));
    answers(&rt, &mut clock, SECOND, Freq(32_768_000), Ok(()));
    reads(&rt, &clock, Monotonic, SECOND, time(1, 99_999_964));
    has_words(
        &rt,
        &clock,
        2,
        &[
            2,
            1_000_000_000,
            18_463_326,
            1_677_721_000_000_000,
            1,
            1_700_000_000_000_000_000,
            0,
            0,
            0,
            1,
        ],
    );
    reads(&rt, &clock, Monotonic, SECOND + 1, time(1, 99_999_965));
    reads(&rt, &clock, MonotonicRaw, SECOND + 1, time(1, 1));
}
