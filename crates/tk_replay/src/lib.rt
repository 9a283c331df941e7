//! Makes the reports of many scripts, and traces of stamp files, one line for each stamp, on several
//! threads. It re-exports the other calls and types that take scripts, so that a caller can import
//! all by one name.
//!
//! | Item | Its meaning |
//! |---|---|
//! | `replay_all` | makes the reports of many scripts on several threads |
//! | `ManyError` | says why `replay_all` made no reports |
//! | `trace` | reads a script and a stamp file, and writes a clock's value at each stamp |
//! | `convert` | makes the lines of stamps from a keeper's clocks |
//! | `report` | makes the report of a script's bytes |
//! | `report_bounded` | makes the report with no limit on commands except of steered clocks |
//! | `report_rows` | makes the report from a reader of rows, in the caller's memory, and counts the differences |
//! | `CheckedReport` | holds a report, and the number of reads that do not give the value that they expect |
//! | `replay` | reads a script to its end and writes its report |
//! | `replay_bounded` | reads a script and writes the report of `report_bounded` |
//! | `replay_with` | does `replay` or `replay_bounded`, by an optional number of entries to keep |
//! | `KEEP_LIMIT` | the greatest number of entries to keep |
//! | `keeper_of`, `keeper_after` | return the clocks after all accepted commands of a script |
//! | `read_to_end` | reads a whole input, up to one byte more than the largest script |
//! | `write_whole` | writes a text and flushes |
//! | `Fault` | says why `replay` or `trace` stopped, and how much of the text was written |
//! | `Source`, `Sink` | represent any reader and any writer |
//! | `trace_all`, `trace_all_into` | convert lists of stamps on several threads; from `tk_pieces` |
//! | `Gate`, `NoGate` | hooks around the pieces of `replay_all` and `race`; from `tk_pieces` |
//! | `WORKERS_LIMIT` | the greatest number of workers; from `tk_pieces` |
//! | `race`, `RaceReport`, `RaceError` | actors in threads on one keeper; from `tk_race` |
//! | `Action`, `RaceReply` | an actor's action, and the reply to it; from `tk_race` |
//!
//! Items after `convert` without a crate in this table are from `tk_report`. Units: readings in
//! cycles; times in seconds and nanoseconds; texts and lengths in bytes.
#![tactic(auto)]

mod converting;
mod many;
mod many_error;
mod tracing;
mod worklist;

pub use converting::convert;
pub use many::replay_all;
pub use many_error::ManyError;
pub use tk_pieces::{Gate, NoGate, WORKERS_LIMIT, trace_all, trace_all_into};
pub use tk_race::{Action, RaceError, RaceReply, RaceReport, race};
pub use tk_report::{
    CheckedReport, Fault, KEEP_LIMIT, Sink, Source, keeper_after, keeper_of, read_to_end, replay,
    replay_bounded, replay_with, report, report_bounded, report_rows, write_whole,
};
pub use tracing::trace;
