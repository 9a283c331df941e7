//! Parses scripts of commands and reads, and stamp files, and makes the lines of a report.
//!
//! | Item | Its meaning |
//! |---|---|
//! | `Script`, `Row` | hold a parsed script: how the clocks begin, and its later records |
//! | `RowReader` | reads a script one row at a time |
//! | `Start`, `Opening` | say how clocks begin: opened with values, or already running; steered or not |
//! | `Stamps` | holds a parsed stamp file: readings of the counter, each with its front |
//! | `SIZE_LIMIT` | is the greatest size of a script or of a stamp file, in bytes |
//! | `ScriptError` | names the first fault of a script or of a stamp file |
//! | `number`, `clock_word` | parse one field |
//! | `line_open`, `line_ok`, `line_no`, `line_adj` | append one line of a report |
//! | `line_at`, `line_differs` | append the line of a read, and the line after a read that differs |
//! | `Calendar` | appends lines of clocks, and computes the date once for lines of one day |
//! | `utc` | returns a time as UTC text |
//! | `is_line`, `start_in`, `row_in` | test and parse one record of a plain text, with no allocation |
//! | `Line`, `AdjLine` | contain one line of a report, with no allocation |
//!
//! Units: readings in cycles; times in seconds and nanoseconds. Records are counted from 1, fields
//! from 0. No call waits.
#![tactic(auto)]

mod adj_line;
mod at_lines;
mod calendar;
mod digits;
mod discipline_fields;
mod fields;
mod frequent;
mod later_fields;
mod line;
mod lines;
mod names;
mod numbers;
mod one_line;
mod opening;
mod plain;
mod record;
mod records;
mod requests;
mod row;
mod row_reader;
mod running_clocks;
mod script;
mod script_error;
mod stamps;

pub use adj_line::{AdjLine, line_adj};
pub use at_lines::line_at;
pub use calendar::{Calendar, utc};
pub use line::Line;
pub use lines::{line_differs, line_no, line_ok, line_open};
pub use names::clock_word;
pub use numbers::number;
pub use one_line::{is_line, row_in, start_in};
pub use opening::{Opening, Start};
pub use records::SIZE_LIMIT;
pub use row::Row;
pub use row_reader::RowReader;
pub use script::Script;
pub use script_error::ScriptError;
pub use stamps::Stamps;
