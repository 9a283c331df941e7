//! Keeps the running clocks of a counter, and the journal of all accepted commands.
//!
//! | Item | Its meaning |
//! |---|---|
//! | `Timekeeper` | the clocks and their journal: opens, changes, reads and folds them |
//! | `GivenClocks` | clocks that ran already when a keeper was opened for them, and their front |
//! | `FrontError` | why a front has no snapshot |
//! | `TraceError` | why a list of stamps isn't converted |
//! | `LISTED_LIMIT` | the most entries that a journal lists |
//! | `KEEP_LIMIT` | the most entries that a full journal is folded to: half of `LISTED_LIMIT` |
//! | `KEPT_EVERY` | the number of commands from one kept copy of the clocks to the next |
//! | `time_of` | a time of whole seconds and a part below a second |
//!
//! Units: readings in cycles, clock times in s and ns. Entries are numbered from 1. A front is the
//! number of commands accepted up to then. Both count the folded commands. No call waits. Only
//! `apply` while `spare()` is 0, `ready` while it is below its count, `reserve`, `run`, `trace` and
//! `trace_in` allocate; for an empty list `run`, `trace` and `trace_in` don't.
#![tactic(auto)]

mod front_error;
mod ring;
mod timekeeper;
mod trace_error;

pub use front_error::FrontError;
pub use timekeeper::{GivenClocks, KEEP_LIMIT, KEPT_EVERY, LISTED_LIMIT, Timekeeper, time_of};
pub use trace_error::TraceError;
