//! Tests values that come from outside the contracts, and compares calls with plain
//! implementations.

mod clock;
mod counter;
mod lanes;
mod random;

use std::fmt::Debug;
use std::process::Abort;
use tk_clock::{Clock, Command, Timespec};
use tk_counter::CounterDesc;
use tk_test_support::mixed_up;

/// Stops the test if `found` is not equal to `wanted`. It is a separate call to keep the proof of
/// each test short.
fn assert_same<T: PartialEq + Debug>(rt: &impl Abort, found: &T, wanted: &T) {
    assert_eq!(rt; found, wanted);
}

/// Stops the test as `assert_same` does, and prints the row of the test's table.
fn assert_same_at<R: Debug, T: PartialEq + Debug>(rt: &impl Abort, row: &R, found: &T, wanted: &T) {
    assert_eq!(rt; found, wanted, "at {row:?}");
}

/// Returns a time in seconds and nanoseconds.
fn time(sec: i64, nsec: u32) -> Timespec {
    Timespec { sec, nsec }
}

/// Returns the counter with these numbers. It states nothing of them, to keep the proof of each test
/// short, and so do the calls below.
fn desc_of(rt: &impl Abort, bits: u32, mult: u32, shift: u32) -> CounterDesc {
    CounterDesc::new(bits, mult, shift).expect(rt, "a counter")
}

/// Returns a 32-bit counter of one nanosecond a cycle.
fn nanosecond_counter(rt: &impl Abort) -> CounterDesc {
    tk_test_support::nanosecond_counter().expect(rt, "a counter")
}

/// Returns clocks that are opened at a reading and a time of REALTIME.
fn opened_at(rt: &impl Abort, desc: CounterDesc, reading: u64, real: Timespec) -> Clock {
    Clock::open(desc, reading, real).expect(rt, "clocks")
}

/// Applies a command that must not be refused.
fn applies(rt: &impl Abort, clock: &mut Clock, reading: u64, cmd: Command) {
    clock.apply(reading, cmd).expect(rt, "a command");
}

/// Checks that every value is equal to its clone, and to no other value of the list.
fn are_distinct<T: Copy + PartialEq>(rt: &impl Abort, values: &[T]) {
    let found = mixed_up(values).expect(rt, "a copy");
    assert_same(rt, &found, &None);
}
