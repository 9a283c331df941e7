//! Converts whole lists of stamps to clock time by one snapshot: one by one, or eight at a time.
//!
//! | Item | Its meaning |
//! |---|---|
//! | `plain_batch` | converts a list, one stamp after the other |
//! | `lane_batch` | converts a list, eight stamps at a time |
//! | `BatchError` | the index of the first refused stamp, and the reason |
//!
//! Units: stamps are readings, in cycles; clock times in ns. No call allocates or waits.
#![tactic(auto)]

mod batch;
mod batch_error;
mod segment;

pub use batch::{lane_batch, plain_batch};
pub use batch_error::BatchError;
