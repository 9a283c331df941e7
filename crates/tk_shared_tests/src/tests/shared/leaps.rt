//! Tests that no reader sees a leap second without its TAI offset: one thread makes leaps in turn,
//! and another reads by the page and the latch.
use super::deeds::{Deed, does};
use super::{assert_same, commanded, glanced, read_by};
use std::process::Abort;
use std::sync::Wait;
use std::thread::{Threads, join};
use tk_clock::{Command, Refusal, Snapshot};
use tk_shared::{Caller, Named, SharedKeeper, Ticker};

/// The number of leaps.
const LEAPS: u64 = 100_000;

/// The number of reads by each way.
const READS: u64 = 100_000;

/// TAI minus MONOTONIC in nanoseconds, which no leap changes: the clocks are opened at
/// 1,700,000,000 s, and the TAI offset is 37 s before each insertion.
const TAI_OFFSET: u64 = 1_700_000_037_000_000_000;

/// An insertion and a deletion in turn.
fn leap_of(turn: u64) -> Command {
    if turn % 2 == 0 {
        Command::Leap { by: -1, tai: 38 }
    } else {
        Command::Leap { by: 1, tai: 37 }
    }
}

/// Returns TAI minus MONOTONIC in nanoseconds.
fn tai_offset(snapshot: Snapshot) -> u64 {
    let seconds = u64::from(snapshot.tai());
    snapshot
        .real_offset()
        .wrapping_add(seconds.wrapping_mul(1_000_000_000))
}

/// Makes all leaps, up to the first that is refused.
fn leaps<L: Named, R: Wait>(
    rt: &R,
    keeper: &SharedKeeper<L, Ticker>,
    caller: &mut Caller<L>,
) -> Result<(), Refusal> {
    for turn in 0..LEAPS {
        commanded(rt, keeper, caller, leap_of(turn))?;
    }
    Ok(())
}

/// Reads, and returns the number of snapshots in which TAI has leapt.
fn reads<L: Named, R: Wait>(
    rt: &R,
    keeper: &SharedKeeper<L, Ticker>,
    caller: &mut Caller<L>,
) -> u64 {
    let mut leapt = 0u64;
    for _ in 0..READS {
        let by_page = tai_offset(read_by(rt, keeper, caller));
        let by_latch = glanced(keeper, caller).map_or(TAI_OFFSET, tai_offset);
        if by_page != TAI_OFFSET || by_latch != TAI_OFFSET {
            leapt = leapt.wrapping_add(1);
        }
    }
    leapt
}

#[test]
fn no_reader_sees_tai_leap(rt: HostRuntime) {
    does(&rt, rt.alloc(), Ticker::new(0, 1_000), Deed::Leap);
}

pub(super) fn both_act<L: Named + Send + Sync, R: Threads + Wait + Abort + Sync>(
    rt: &R,
    keeper: &SharedKeeper<L, Ticker>,
    one: &mut Caller<L>,
    other: &mut Caller<L>,
) {
    let answer = commanded(rt, keeper, one, Command::Tai(37));
    let (made, leapt) = join(
        rt,
        move || leaps(rt, keeper, one),
        move || reads(rt, keeper, other),
    );
    assert_same(rt, &(answer, made, leapt), &(Ok(1), Ok(()), 0));
}
