//! Times updates of clocks that aren't published.
use std::time::{Clock as Hours, Instant};
use tk_clock::{Clock, Command};
use tk_test_support::{Effort, OPENED_TIME, Turn, nanosecond_counter, reading_of, weight};

/// The number of updates of a full turn.
const UPDATES: u64 = 10_000_000;

/// The most updates after one opening, so that the counter doesn't wrap.
const UPDATES_LIMIT: u64 = 1_000_000;

/// Updates clocks `count` times, and returns the sum of their snapshots' weights.
fn updates(clock: &mut Clock, count: u64) -> Option<u64> {
    let mut sum = 0u64;
    for number in 1..=count {
        if clock.apply(reading_of(number), Command::Update).is_err() {
            return None;
        }
        sum = sum.wrapping_add(weight(&clock.snapshot(number)));
    }
    Some(sum)
}

/// Times updates with their snapshots. Returns `None` if a call fails.
pub fn turn<R: Hours>(rt: &R, effort: Effort) -> Option<Turn> {
    let count = effort.of(UPDATES);
    let each = count.min(UPDATES_LIMIT);
    let opened = Clock::open(nanosecond_counter().ok()?, 0, OPENED_TIME).ok()?;
    let mut check = 0u64;
    let start = Instant::now(rt).ok()?;
    for _ in 0..count / each.max(1) {
        let mut clock = opened;
        check = check.wrapping_add(updates(&mut clock, each)?);
    }
    let time = start.elapsed(rt).ok()?;
    Some(Turn { time, count, check })
}
