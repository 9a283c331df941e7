//! Tests the nanoseconds of reads and the lines of clocks, on snapshots of random journals, which
//! are the same in each run.

use super::{assert_same, assert_same_at, opened};
use crate::tests::random::{clock_of, numbers};
use tk_clock::{ClockId, ReadError, Refusal, Snapshot, Timespec};
use tk_test_support::CLOCKS;

/// Converts a time to nanoseconds.
fn nanos_of(time: Timespec) -> u64 {
    let whole = time.sec.unsigned_abs().wrapping_mul(1_000_000_000);
    whole.wrapping_add(u64::from(time.nsec))
}

/// Computes a clock at a reading by its line, with 128-bit integers.
fn by_line(snapshot: &Snapshot, clock: ClockId, reading: u64) -> Result<u64, ReadError> {
    let (desc, origin) = (snapshot.desc(), snapshot.origin(clock));
    let gap = desc.gap(snapshot.last(), reading);
    let cycles = if desc.is_behind(gap) { 0 } else { gap };
    let second = 1_000_000_000u128.wrapping_shl(desc.shift());
    let nanos = u128::from(origin.sec)
        .wrapping_mul(second)
        .wrapping_add(u128::from(origin.frac))
        .wrapping_add(u128::from(cycles).wrapping_mul(u128::from(origin.mult)))
        .wrapping_shr(desc.shift())
        .wrapping_add(u128::from(origin.offset));
    if nanos >= u128::from(origin.limit) {
        return Err(ReadError::Range);
    }
    Ok((nanos & 0xffff_ffff_ffff_ffff) as u64)
}

#[test]
fn nanoseconds_are_the_time_of_a_read(rt: HostRuntime) {
    for seed in numbers(&rt, rt.alloc(), 2_862_933_555_777_941_757, 300) {
        let snapshot = clock_of(&rt, seed).snapshot(0);
        let (last, mask) = (snapshot.last(), snapshot.desc().mask());
        for reading in [
            last,
            mask,
            (seed >> 9) & mask,
            last.wrapping_add(seed >> 32) & mask,
        ] {
            for clock in CLOCKS {
                let wanted = match snapshot.get(clock, reading) {
                    Ok(time) => Ok(nanos_of(time)),
                    Err(refusal) => Err(refusal),
                };
                let row = (clock, reading);
                assert_same_at(&rt, &row, &snapshot.nanos(clock, reading), &wanted);
                assert_same_at(&rt, &row, &by_line(&snapshot, clock, reading), &wanted);
            }
        }
    }
}

#[test]
fn a_reading_above_the_mask_has_no_nanoseconds(rt: HostRuntime) {
    let snapshot = opened(&rt).snapshot(0);
    for clock in CLOCKS {
        let found = snapshot.nanos(clock, 1 << 32);
        assert_same_at(&rt, &clock, &found, &Err(ReadError::Invalid));
    }
}

#[test]
fn a_refusal_reads_as_text(rt: HostRuntime) {
    let text = format!(in rt.alloc(); "{}, {}", Refusal::Behind, ReadError::Invalid);
    let text = text.expect(&rt, "memory");
    let wanted = "reading behind the last one, reading above the mask";
    assert_same(&rt, &text.as_str(), &wanted);
}
