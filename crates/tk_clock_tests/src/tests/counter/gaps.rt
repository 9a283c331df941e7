use super::{assert_same, assert_same_at, desc_of, nanosecond_counter, quick};
use tk_counter::CounterDesc;

#[test]
fn a_gap_goes_over_the_wrap(rt: HostRuntime) {
    let desc = nanosecond_counter(&rt);
    for (last, now, gap) in [
        (0, 0, 0),
        (1_000, 2_000, 1_000),
        (4_294_967_295, 0, 1),
        (4_294_967_295, 1, 2),
        (2_000, 1_000, 4_294_966_296),
    ] {
        assert_same_at(&rt, &(last, now), &desc.gap(last, now), &gap);
    }
    assert_same(&rt, &quick(&rt).gap(u64::MAX, 1), &2);
}

#[test]
fn bits_above_the_counters_do_not_count(rt: HostRuntime) {
    let desc = desc_of(&rt, 8, 256, 0);
    assert_same(&rt, &desc.gap(0x1234_56fe, 0xabcd_ef03), &5);
}

#[test]
fn half_the_range_leads_forward_and_one_more_leads_back(rt: HostRuntime) {
    let desc = nanosecond_counter(&rt);
    for (last, now, behind) in [
        (0, 0, false),
        (0, 2_147_483_647, false),
        (0, 2_147_483_648, true),
        (4_294_967_295, 2_147_483_646, false),
        (4_294_967_295, 2_147_483_647, true),
        (1, 0, true),
    ] {
        let found = desc.is_behind(desc.gap(last, now));
        assert_same_at(&rt, &(last, now), &found, &behind);
    }
    let wide = quick(&rt);
    assert!(rt; !wide.is_behind(u64::MAX >> 1));
    assert!(rt; wide.is_behind(1 << 63));
}
