ghost use Rattle.std.specs.Prelude.{◌≡◌};
ghost use Rattle.tk_lanes.specs.BatchError.{batch_text, refused_at};

use std::fmt;
use thiserror::Error;
use tk_clock::ReadError;

/// Names the first stamp of a list that is refused, by its index from 0, and says why. The stamps
/// before it were converted.
#[derive(Clone, Copy, Debug, PartialEq, Eq, Error)]
pub enum BatchError {
    /// The stamp at `index` is above the mask.
    Invalid { index: usize },
    /// The clock's value at the stamp at `index` is at its limit or beyond it.
    Range { index: usize },
}

impl BatchError {
    /// Returns the error of the stamp at `index`.
    pub(crate) fn at(index: usize, refusal: ReadError) -> BatchError
        ensures { result ≡ refused_at index refusal }
    {
        match refusal {
            ReadError::Invalid => BatchError::Invalid { index },
            ReadError::Range => BatchError::Range { index },
        }
    }
}

impl fmt::Display for BatchError {
    ghost output = { batch_text };

    fn fmt<W: fmt::Write>(&self, f: &mut fmt::Formatter<W>) -> fmt::Result {
        match self {
            BatchError::Invalid { index } => write!(f, "item {index}: stamp above the mask"),
            BatchError::Range { index } => write!(f, "item {index}: value out of range"),
        }
    }
}
