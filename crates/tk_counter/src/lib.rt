//! Describes free-running counters and computes with their readings: the gap between two readings,
//! and exact cycle arithmetic.
//!
//! | Item | Its meaning |
//! |---|---|
//! | `CounterDesc` | the bits of a reading, and the length of a cycle |
//! | `DescError` | says why numbers describe no counter |
//! | `NANOS_PER_SECOND` | the nanoseconds of a second |
//! | `SECONDS_END` | the seconds that no clock reaches |
//! | `FREQUENCY_LIMIT` | the greatest frequency that takes effect |
//! | `USUAL_TICK` | the tick of a clock that no command has set |
//!
//! Units: readings and gaps in cycles; amounts of time in `2^-shift` ns; a counter's own rate in Hz
//! or kHz; frequencies that a clock follows in `2^-16` ppm; ticks in microseconds. No call
//! allocates or waits.
#![tactic(auto)]

mod counter;
mod desc_error;

pub use counter::{CounterDesc, FREQUENCY_LIMIT, NANOS_PER_SECOND, SECONDS_END, USUAL_TICK};
pub use desc_error::DescError;
