//! Makes reports of scripts, one line for each record and a second one after a read that differs,
//! and the clocks after a script.
//!
//! | Item | Its meaning |
//! |---|---|
//! | `report` | makes the report of a script's bytes |
//! | `report_bounded` | makes the report with no limit on commands except of steered clocks |
//! | `report_rows` | makes the report from a reader of rows, in the caller's memory, and counts the differences |
//! | `CheckedReport` | holds a report, and the number of reads that do not give the value that they expect |
//! | `replay` | reads a script to its end and writes its report |
//! | `replay_bounded` | reads a script and writes the report of `report_bounded` |
//! | `replay_with` | does `replay` or `replay_bounded`, by an optional number of entries to keep |
//! | `KEEP_LIMIT` | the greatest number of entries to keep; from `tk_keeper` |
//! | `keeper_of`, `keeper_after` | return the clocks after all accepted commands of a script |
//! | `read_to_end` | reads a whole input, up to one byte more than the largest script |
//! | `write_whole` | writes a text and flushes |
//! | `Fault` | says why a replay or a trace stopped, and how much of the text was written |
//! | `CountedClocks`, `PlainStart`, `missed_by` | are the clocks of a report that list no command, how they begin, and the test of an expected value |
//! | `Source`, `Sink` | represent any reader and any writer |
//!
//! Units: readings in cycles; times in seconds and nanoseconds; texts and lengths in bytes.
#![tactic(auto)]

mod beginning;
mod checked_report;
mod counted_clocks;
mod fault;
mod journaling;
mod obeying;
mod plain_start;
mod replaying;
mod report_lines;
mod reporting;
mod row_reporting;
mod sink;
mod source;
mod steered_journaling;
mod steered_reporting;

pub use checked_report::CheckedReport;
pub use counted_clocks::CountedClocks;
pub use fault::Fault;
pub use journaling::{keeper_after, keeper_of};
pub use plain_start::PlainStart;
pub use replaying::{replay, replay_bounded, replay_with};
pub use reporting::{missed_by, report, report_bounded};
pub use row_reporting::report_rows;
pub use sink::{Sink, write_whole};
pub use source::{Source, read_to_end};
pub use tk_keeper::KEEP_LIMIT;
