use super::{assert_same, assert_same_at, nanosecond_counter, opened, time, wide_counter};
use tk_clock::{Clock, Refusal};
use tk_test_support::OPENED_WORDS;

#[test]
fn the_clocks_open_awake_at_their_usual_rate(rt: HostRuntime) {
    assert_same(&rt, &opened(&rt).snapshot(0).words(), &OPENED_WORDS);
}

#[test]
fn the_getters_return_the_words(rt: HostRuntime) {
    let snapshot = opened(&rt).snapshot(0);
    assert_same(&rt, &snapshot.desc(), &nanosecond_counter(&rt));
    assert!(rt; !snapshot.asleep());
    assert_same(
        &rt,
        &[
            snapshot.front(),
            snapshot.last(),
            u64::from(snapshot.mult()),
            snapshot.frac(),
            snapshot.sec(),
            snapshot.real_offset(),
            snapshot.boot_offset(),
            u64::from(snapshot.tai()),
            snapshot.raw_frac(),
            snapshot.raw_sec(),
        ],
        &OPENED_WORDS,
    );
}

#[test]
fn an_opening_has_a_reading_and_a_settable_time(rt: HostRuntime) {
    let desc = nanosecond_counter(&rt);
    for (reading, real, opens) in [
        (4_294_967_295, time(0, 0), true),
        (4_294_967_296, time(0, 0), false),
        (0, time(8_277_292_035, 999_999_999), true),
        (0, time(8_277_292_036, 0), false),
        (0, time(-1, 0), false),
        (0, time(0, 1_000_000_000), false),
    ] {
        let refusal = Clock::open(desc, reading, real).err();
        let wanted = if opens { None } else { Some(Refusal::Invalid) };
        assert_same_at(&rt, &(real, reading), &refusal, &wanted);
    }
    assert!(rt; Clock::open(wide_counter(&rt), u64::MAX, time(0, 0)).is_ok());
}
