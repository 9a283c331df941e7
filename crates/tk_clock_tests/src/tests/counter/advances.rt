use super::{assert_same_at, desc_of, nanosecond_counter, quick, slow};
use crate::tests::random::drawn;
use std::process::Abort;
use tk_counter::CounterDesc;

const DELTAS: [u64; 16] = [
    0,
    1,
    255,
    999_999_999,
    1_000_000_000,
    0xffff_ffff,
    0x1_0000_0000,
    0xff_ffff_ffff,
    0x100_0000_0000,
    9_223_372_036,
    1_000_000_000_000_000,
    16_777_215_999_999_999,
    9_223_372_036_854_775_807,
    0x8000_0000_0000_0000,
    0xffff_ffff_0000_0000,
    0xffff_ffff_ffff_ffff,
];

const MULTS: [u32; 8] = [
    0,
    1,
    256,
    16_777_216,
    699_050_667,
    0x7fff_ffff,
    0x8000_0000,
    0xffff_ffff,
];

/// Computes `advance` with 128-bit integers.
fn plain_advance(desc: &CounterDesc, frac: u64, delta: u64, mult: u32) -> Option<(u128, u128)> {
    let units = u128::from(frac) + u128::from(delta) * u128::from(mult);
    let second = u128::from(desc.second());
    let seconds = units.checked_div(second)?;
    if seconds >= 9_223_372_036 {
        return None;
    }
    Some((seconds, units.checked_rem(second)?))
}

/// Compares the two computations, if the units are less than a second.
fn agrees(rt: &impl Abort, desc: &CounterDesc, frac: u64, delta: u64, mult: u32) {
    if frac < desc.second() {
        let found = desc.advance(frac, delta, mult);
        let wide = found.map(|(seconds, rest)| (u128::from(seconds), u128::from(rest)));
        let wanted = plain_advance(desc, frac, delta, mult);
        assert_same_at(rt, &(desc, frac, delta, mult), &wide, &wanted);
    }
}

/// Checks the seconds and the rest of a gap, or that it is refused.
fn advances(
    rt: &impl Abort,
    desc: &CounterDesc,
    (frac, delta, mult): (u64, u64, u32),
    parts: Option<(u64, u64)>,
) {
    assert!(rt; frac < desc.second());
    let found = desc.advance(frac, delta, mult);
    assert_same_at(rt, &(frac, delta, mult), &found, &parts);
}

#[test]
fn seconds_and_what_is_left_are_exact(rt: HostRuntime) {
    for (gap, parts) in [
        ((16_777_215, 1, 16_777_216), (0, 33_554_431)),
        ((16_777_215_999_999_999, 1, 16_777_216), (1, 16_777_215)),
    ] {
        advances(&rt, &nanosecond_counter(&rt), gap, Some(parts));
    }
    advances(
        &rt,
        &slow(&rt),
        (862_207, 2_199_023_255_348, 4_194_304),
        Some((9_223_372_035, 999_999_999)),
    );
    advances(
        &rt,
        &quick(&rt),
        (16_777_215_999_999_999, 1_000_000_000_000_000, 699_050_667),
        Some((41_666_667, 11_518_143_999_999_999)),
    );
}

#[test]
fn seconds_that_no_clock_reaches_are_refused(rt: HostRuntime) {
    for gap in [
        (862_208, 2_199_023_255_348, 4_194_304),
        (0, 9_223_372_036_854_775_807, 4_194_304),
    ] {
        advances(&rt, &slow(&rt), gap, None);
    }
    let gap = (
        16_777_215_999_999_999,
        9_223_372_036_854_775_807,
        699_050_667,
    );
    advances(&rt, &quick(&rt), gap, None);
}

#[test]
fn edges_agree_with_wide_integers(rt: HostRuntime) {
    for shift in 0..=32 {
        let desc = desc_of(&rt, 64, 256, shift);
        let last = desc.second().saturating_sub(1);
        for delta in DELTAS {
            for mult in MULTS {
                agrees(&rt, &desc, 0, delta, mult);
                agrees(&rt, &desc, last, delta, mult);
            }
        }
    }
}

#[test]
fn any_gap_agrees_with_wide_integers(rt: HostRuntime) {
    let mut seed = 88_172_645_463_325_252;
    for _ in 0..10_000 {
        let desc = desc_of(&rt, 64, 256, (drawn(&mut seed) % 33) as u32);
        let number = drawn(&mut seed);
        let mult = (number & 0xffff_ffff) as u32;
        let frac = number >> 2;
        let delta = drawn(&mut seed);
        agrees(&rt, &desc, frac, delta, mult);
        agrees(&rt, &desc, frac >> 24, delta >> 24, mult);
        agrees(&rt, &desc, frac >> 32, delta >> 40, mult);
    }
}
