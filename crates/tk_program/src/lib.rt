//! Runs the program `tkcore`, except for its `main`: carries out the command line, and ends with a
//! status and at most one line of error.
//!
//! | Item | Its effect |
//! |---|---|
//! | `run_and_tell` | runs the program with the process's arguments, and returns the exit code |
//! | `run` | runs given arguments, from any reader and any folder to any writer |
//! | `Arguments` | reads the process's arguments: the host's, or a test's |
//! | `Folder` | opens files by their names: the host's, or a test's |
//! | `many_text` | joins the reports of many scripts into one text |
//! | `race_text` | makes the lines of a race |
//! | `same_opening` | compares two openings of clocks |
//! | `Ending` | says how the program ends: its status and its line of error |
//! | `asked`, `Request`, `WordsError` | parse arguments into a request; from `tk_command_line` |
//!
//! Each subcommand has a variant of `Request`. docs/TKCORE.md describes the program.
#![tactic(auto)]

mod arguments;
mod ending;
mod files;
mod folder;
mod many;
mod openings;
mod race_lines;
mod racer;
mod racing;
mod reports_text;
mod running;
mod scripts;
mod tracing;
mod usage;
mod writing;

pub use arguments::Arguments;
pub use ending::Ending;
pub use folder::Folder;
pub use openings::same_opening;
pub use race_lines::race_text;
pub use reports_text::many_text;
pub use running::{run, run_and_tell};
pub use tk_command_line::{Request, WordsError, asked};
