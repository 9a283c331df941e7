use super::{assert_same, assert_same_at, desc_of, nanosecond_counter};
use crate::tests::random::drawn;
use std::process::Abort;
use tk_counter::CounterDesc;

/// Computes `mult_at` with 128-bit integers.
fn plain_mult_at(desc: &CounterDesc, freq: i64, tick: i64) -> Option<u128> {
    let rate = tick
        .checked_mul(6_553_600)?
        .checked_add(freq.clamp(-32_768_000, 32_768_000))?;
    let rate = u64::try_from(rate).ok()?;
    Some(u128::from(desc.mult()) * u128::from(rate) / 65_536_000_000)
}

/// Compares the two computations. The tick must be one that can be set.
fn agrees(rt: &impl Abort, desc: &CounterDesc, freq: i64, tick: i64) {
    assert!(rt; tick >= 9_000 && tick <= 11_000);
    let found = Some(u128::from(desc.mult_at(freq, tick)));
    let wanted = plain_mult_at(desc, freq, tick);
    assert_same_at(rt, &(desc, freq, tick), &found, &wanted);
}

/// Checks the multiplier that both calls return for a frequency, at the usual tick.
fn has_mult(rt: &impl Abort, desc: &CounterDesc, freq: i64, mult: u32) {
    let both = (desc.mult_for(freq), desc.mult_at(freq, 10_000));
    assert_same_at(rt, &freq, &both, &(mult, mult));
}

#[test]
fn a_frequency_is_followed_up_to_500_ppm(rt: HostRuntime) {
    let desc = nanosecond_counter(&rt);
    has_mult(&rt, &desc, 0, 16_777_216);
    for freq in [32_768_000, 65_536_000, i64::MAX] {
        has_mult(&rt, &desc, freq, 16_785_604);
    }
    for freq in [-32_768_000, i64::MIN] {
        has_mult(&rt, &desc, freq, 16_768_827);
    }
}

#[test]
fn a_longer_tick_is_faster(rt: HostRuntime) {
    let desc = nanosecond_counter(&rt);
    assert_same(&rt, &desc.mult_at(0, 11_000), &18_454_937);
    assert_same(&rt, &desc.mult_at(32_768_000, 11_000), &18_463_326);
}

#[test]
fn every_tick_agrees_with_wide_integers(rt: HostRuntime) {
    for mult in [256, 16_777_216, 3_869_339_906] {
        let desc = desc_of(&rt, 64, mult, 24);
        for tick in 9_000..=11_000 {
            agrees(&rt, &desc, 32_768_000, tick);
            agrees(&rt, &desc, -32_768_000, tick);
            agrees(&rt, &desc, tick.wrapping_mul(-3_119), tick);
        }
    }
}

#[test]
fn any_frequency_agrees_with_wide_integers(rt: HostRuntime) {
    let mut seed = 88_172_645_463_325_252;
    for _ in 0..10_000 {
        let mult = 256 + (drawn(&mut seed) % 3_869_339_651) as u32;
        let desc = desc_of(&rt, 64, mult, 24);
        let number = drawn(&mut seed);
        let freq = (number & 0x7ff_ffff) as i64 - 0x400_0000;
        let tick = 9_000 + (number >> 32) as i64 % 2_001;
        agrees(&rt, &desc, freq, tick);
    }
}
