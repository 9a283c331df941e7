//! Parses the command line of the program `tkcore`.
//!
//! | Item | Its meaning |
//! |---|---|
//! | `asked` | parses arguments into a request |
//! | `Request` | a parsed command line: a variant for each subcommand |
//! | `WordsError` | says why arguments aren't accepted |
//!
//! docs/TKCORE.md describes the arguments.
#![tactic(auto)]

mod command_line;
mod request;
mod words_error;

pub use command_line::asked;
pub use request::Request;
pub use words_error::WordsError;
