ghost use Rattle.std.specs.Prelude.{Some};
ghost use Rattle.tk_replay.specs.ManyError.{many_text};

use std::fmt;
use thiserror::Error;

/// Says why `replay_all` made no reports. If several causes apply, the first one in this list is
/// returned. `Display` prints the program's text.
#[derive(Clone, Copy, Debug, PartialEq, Eq, Error)]
pub enum ManyError {
    /// The number of workers is 0 or more than 64.
    Count,
    /// An allocation failed before a thread was started.
    Memory,
    /// A thread could not be started. An allocation failure at its start is one cause.
    Threads,
}

impl fmt::Display for ManyError {
    ghost output = { λ error. Some (many_text error) };

    fn fmt<W: fmt::Write>(&self, f: &mut fmt::Formatter<W>) -> fmt::Result {
        f.write_str(match self {
            ManyError::Count => "count out of range",
            ManyError::Memory => "out of memory",
            ManyError::Threads => "cannot start a thread",
        })
    }
}
