ghost use Rattle.std.specs.Prelude.{Some};
ghost use Rattle.tk_keeper.specs.FrontError.{fault_text};

use std::fmt;
use thiserror::Error;

/// States why a front has no snapshot. A front is the number of commands accepted up to then.
#[derive(Clone, Copy, Debug, PartialEq, Eq, Error)]
pub enum FrontError {
    /// The front is greater than the number of accepted commands.
    Unknown,
    /// The entry after the front was folded: the front is below `Timekeeper::folded`.
    Folded,
}

impl fmt::Display for FrontError {
    ghost output = { λ fault. Some (fault_text fault) };

    fn fmt<W: fmt::Write>(&self, f: &mut fmt::Formatter<W>) -> fmt::Result {
        f.write_str(match self {
            FrontError::Unknown => "unknown front",
            FrontError::Folded => "folded front",
        })
    }
}
