ghost use Rattle.std.specs.Prelude.{Some};
ghost use Rattle.tk_latch.specs.Errors.{fault_text, full_text, moved_text};

use std::fmt;
use thiserror::Error;

/// Says why a latch can't be opened: the first variant that applies, in this order.
#[derive(Clone, Copy, Debug, PartialEq, Eq, Error)]
pub enum LatchError {
    /// The number of readers is below 1 or above 64.
    Count,
    /// An allocation for the words or for the readers failed.
    Memory,
}

impl fmt::Display for LatchError {
    ghost output = { λ fault. Some (fault_text fault) };

    fn fmt<W: fmt::Write>(&self, f: &mut fmt::Formatter<W>) -> fmt::Result {
        f.write_str(match self {
            LatchError::Count => "count out of range",
            LatchError::Memory => "out of memory",
        })
    }
}

/// Says that a snapshot wasn't published, because 2^63 - 1 were, and the sequence can't count
/// further.
#[derive(Clone, Copy, Debug, PartialEq, Eq, Error)]
pub struct PageFull;

impl fmt::Display for PageFull {
    ghost output = { λ _. Some full_text };

    fn fmt<W: fmt::Write>(&self, f: &mut fmt::Formatter<W>) -> fmt::Result {
        f.write_str("page full")
    }
}

/// Says that a read returned no snapshot, because a publication was begun or made between its two
/// loads of the sequence.
#[derive(Clone, Copy, Debug, PartialEq, Eq, Error)]
pub struct Moved {
    /// The sequence number that the first load found.
    pub first: u64,
    /// The sequence number that the second load found. It is greater.
    pub last: u64,
}

impl fmt::Display for Moved {
    ghost output = { λ moved. Some (moved_text moved.first moved.last) };

    fn fmt<W: fmt::Write>(&self, f: &mut fmt::Formatter<W>) -> fmt::Result {
        write!(f, "moved from {} to {}", self.first, self.last)
    }
}
