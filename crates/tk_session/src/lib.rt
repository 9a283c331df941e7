//! Makes the report of a script one record at a time, with no memory from an allocator.
//!
//! | Item | Its meaning |
//! |---|---|
//! | `Session` | the clocks of a script, and the number of its records so far |
//! | `Text` | contains the lines of one record, at most `TEXT_ROOM` bytes |
//! | `Fault` | says why a record was not carried out |
//! | `lines_are_the_report` | proves that the lines are the report of the whole script |
//!
//! Records are lines of a script without quotes. Their grammar, their faults and their lines are those
//! of tk_script and tk_report. Units: readings in cycles; times in seconds and nanoseconds. No call
//! allocates or waits.
#![tactic(auto)]

mod fault;
mod plain;
mod session;
mod steered;
mod text;
mod whole_script;

pub use fault::Fault;
pub use session::Session;
pub use text::{TEXT_ROOM, Text};
pub use whole_script::lines_are_the_report;
