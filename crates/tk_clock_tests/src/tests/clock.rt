//! Tests values that were worked out manually, outside the contracts, and the edges of each range.

mod change_counter;
mod copies;
mod leaps;
mod nanoseconds;
mod openings;
mod parts;
mod reaching;
mod reaching_random;
mod sleep;
mod steering;
mod uptimes;
mod words;

use super::{
    applies, are_distinct, assert_same, assert_same_at, desc_of, nanosecond_counter, opened_at,
    time,
};
use std::process::Abort;
use tk_clock::{Clock, ClockId, Command, Refusal, Timespec};
use tk_counter::CounterDesc;

/// Returns a counter of 4,194,304 nanoseconds a cycle, with 64-bit readings.
fn wide_counter(rt: &impl Abort) -> CounterDesc {
    desc_of(rt, 64, 4_194_304, 0)
}

/// Returns clocks of `nanosecond_counter`, opened at reading 0, with REALTIME at 1,700,000,000 s.
fn opened(rt: &impl Abort) -> Clock {
    let desc = nanosecond_counter(rt);
    opened_at(rt, desc, 0, time(1_700_000_000, 0))
}

/// Applies a command and checks its answer. A refused command must leave the words unchanged.
fn answers(
    rt: &impl Abort,
    clock: &mut Clock,
    reading: u64,
    cmd: Command,
    answer: Result<(), Refusal>,
) {
    let row = (cmd, reading);
    let before = clock.snapshot(0).words();
    assert_same_at(rt, &row, &clock.apply(reading, cmd), &answer);
    if answer.is_err() {
        assert_same_at(rt, &row, &clock.snapshot(0).words(), &before);
    }
}

/// Checks the words of the snapshot with this front.
fn has_words(rt: &impl Abort, clock: &Clock, front: u64, words: &[u64; 10]) {
    assert_same(rt, &clock.snapshot(front).words(), words);
}

/// Reads a clock and checks its time.
fn reads(rt: &impl Abort, clock: &Clock, id: ClockId, reading: u64, value: Timespec) {
    let read = clock.snapshot(0).get(id, reading);
    assert_same_at(rt, &(id, reading), &read, &Ok(value));
}
