//! Tests values that come from outside the contracts, and compares with plain implementations.

mod advances;
mod copies;
mod descriptions;
mod frequencies;
mod gaps;
mod multipliers;

use super::{are_distinct, assert_same, assert_same_at, desc_of, nanosecond_counter};
use std::process::Abort;
use tk_counter::CounterDesc;
use tk_test_support::next_random;

/// Returns a counter of 24 MHz, with 64-bit readings.
fn quick(rt: &impl Abort) -> CounterDesc {
    desc_of(rt, 64, 699_050_667, 24)
}

/// Returns a counter of 4,194,304 nanoseconds a cycle, with 64-bit readings.
fn slow(rt: &impl Abort) -> CounterDesc {
    desc_of(rt, 64, 4_194_304, 0)
}
