//! Converts whole lists of stamps to clock time on several threads.
//!
//! | Item | Its meaning |
//! |---|---|
//! | `trace_all` | converts stamps by the journal at their fronts, and returns a new list |
//! | `trace_all_into` | converts stamps in the same way, into the caller's memory |
//! | `WORKERS_LIMIT` | the greatest number of workers, for calls that take such a number |
//! | `Gate`, `NoGate` | hooks before and after a piece of work of a race or of many reports |
//!
//! Units: stamps are readings, in cycles; clock times are in ns.
#![tactic(auto)]

mod cost;
mod input;
mod pieces;
mod stages;
mod workers;

pub use pieces::{trace_all, trace_all_into};
pub use workers::{Gate, NoGate, WORKERS_LIMIT};
