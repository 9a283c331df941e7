//! Tests values that were worked out manually, outside the contracts, and the edges of each range.

mod heap;
mod keeper;
mod pieces;

use std::alloc::{Allocator, Global};
use std::fmt::Debug;
use std::process::Abort;
use tk_clock::{Command, Refusal};
use tk_keeper::Timekeeper;
use tk_test_support::{OPENED_TIME, nanosecond_counter};

/// The first reading above the mask.
const ABOVE: u64 = 4_294_967_296;

/// Returns a timekeeper of one nanosecond a cycle, opened at reading 0, with REALTIME at
/// 1,700,000,000 s.
fn opened<A: Allocator + Copy>(rt: &impl Abort, alloc: A) -> Timekeeper<A> {
    let desc = nanosecond_counter().expect(rt, "a counter");
    Timekeeper::open(alloc, desc, 0, OPENED_TIME).expect(rt, "a timekeeper")
}

/// Returns the same timekeeper after two commands: 500 ppm faster at reading 0, and 500 ppm slower
/// at reading 10^9.
fn steered<A: Allocator + Copy>(rt: &impl Abort, alloc: A) -> Timekeeper<A> {
    let mut keeper = opened(rt, alloc);
    let faster = applies(&mut keeper, 0, Command::Freq(65_536_000));
    assert_same(rt, &faster, &Ok(1));
    let slower = applies(&mut keeper, 1_000_000_000, Command::Freq(-32_768_000));
    assert_same(rt, &slower, &Ok(2));
    keeper
}

/// Applies a command. It states nothing of the journal, to keep the proof of each test short.
fn applies<A: Allocator + Copy>(
    keeper: &mut Timekeeper<A>,
    reading: u64,
    cmd: Command,
) -> Result<u64, Refusal> {
    keeper.apply(0, reading, cmd)
}

/// Returns a list of `many` times the same number.
fn repeated(rt: &impl Abort, alloc: Global, number: u64, many: usize) -> Vec<u64> {
    Vec::from_elem(alloc, number, many).expect(rt, "memory")
}

/// Returns the numbers below `many`, in their order.
fn numbers(rt: &impl Abort, alloc: Global, many: usize) -> Vec<u64> {
    let mut list = repeated(rt, alloc, 0, many);
    for place in 0..many {
        put(list.as_mut_slice(), place, place as u64);
    }
    list
}

/// Writes an item, if its place is in the list.
fn put(list: &mut [u64], place: usize, number: u64) {
    if let Some(item) = list.get_mut(place) {
        *item = number;
    }
}

/// Stops the test if `found` is not equal to `wanted`. It is a separate call to keep the proof of
/// each test short.
fn assert_same<T: PartialEq + Debug>(rt: &impl Abort, found: &T, wanted: &T) {
    assert_eq!(rt; found, wanted);
}
