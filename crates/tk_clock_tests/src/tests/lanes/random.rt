//! Tests both calls on snapshots of random journals, which are the same in each run.

use super::{agree, assert_same_at, sevens};
use crate::tests::random::{clock_of, drawn};
use tk_test_support::CLOCKS;

/// Makes a stamp from a number. Most stamps are near the last command, and some are above the mask.
fn stamp(number: u64, last: u64, mask: u64) -> u64 {
    let far = number >> 12;
    match number % 64 {
        0 => number,
        1 => mask,
        2..20 => far & mask,
        20..30 => last.wrapping_sub(far & 0xff) & mask,
        _ => last.wrapping_add(far & 0xffff_ffff) & mask,
    }
}

#[test]
fn both_calls_agree_on_any_journal(rt: HostRuntime) {
    let alloc = rt.alloc();
    let mut seed = 88_172_645_463_325_252;
    let mut whole: u64 = 0;
    let mut refused: u64 = 0;
    for _ in 0..200u64 {
        let snapshot = clock_of(&rt, drawn(&mut seed)).snapshot(0);
        let mask = snapshot.desc().mask();
        let mut stamps = sevens(&rt, alloc, 43);
        for stamp_at in stamps.iter_mut() {
            *stamp_at = stamp(drawn(&mut seed), snapshot.last(), mask);
        }
        for clock in CLOCKS {
            match agree(&rt, alloc, &snapshot, clock, stamps.as_slice()) {
                Ok(()) => whole = whole.wrapping_add(1),
                Err(_) => refused = refused.wrapping_add(1),
            }
        }
    }
    // there were lists of both kinds
    let both = (whole > 100, refused > 100);
    assert_same_at(&rt, &(whole, refused), &both, &(true, true));
}
