ghost use Rattle.std.specs.Prelude.{◌≡◌, ◌+◌, ◌<◌, ◌^◌};
ghost use Rattle.tk_keeper.specs.Item.{fault_of_front};
ghost use Rattle.tk_keeper.specs.Trace.{fault_of_batch, place_of};
ghost use Rattle.tk_keeper.specs.TraceError.{trace_text};

use crate::front_error::FrontError;
use std::fmt;
use thiserror::Error;
use tk_lanes::BatchError;

/// States why a list of stamps isn't converted: the first item with a fault, or an allocation
/// failure.
///
/// `index` is the item's place in the whole list, counted from 0. The faults of an item are listed
/// in the order in which they are tested.
#[derive(Clone, Copy, Debug, PartialEq, Eq, Error)]
pub enum TraceError {
    /// The item's front is greater than the number of accepted commands.
    Unknown { index: usize },
    /// The entry after the item's front was folded.
    Folded { index: usize },
    /// The item's stamp is above the mask.
    Invalid { index: usize },
    /// The clock's value at the stamp is at or above the clock's limit.
    Range { index: usize },
    /// The memory for the result could not be allocated.
    Memory,
}

impl TraceError {
    /// Returns the fault of the item at `index` whose front has `error`.
    pub(crate) fn of_front(index: usize, error: FrontError) -> TraceError
        ensures { result ≡ fault_of_front index error }
    {
        match error {
            FrontError::Unknown => TraceError::Unknown { index },
            FrontError::Folded => TraceError::Folded { index },
        }
    }

    /// Returns the fault of the item that a batch rejected; the batch begins at the item `first`.
    pub(crate) fn of_batch(first: usize, error: BatchError) -> TraceError
        requires { first + place_of error < 2 ^ 64 }
        ensures { result ≡ fault_of_batch first error }
    {
        match error {
            BatchError::Invalid { index } => TraceError::Invalid {
                index: first + index,
            },
            BatchError::Range { index } => TraceError::Range {
                index: first + index,
            },
        }
    }
}

impl fmt::Display for TraceError {
    ghost output = { trace_text };

    fn fmt<W: fmt::Write>(&self, f: &mut fmt::Formatter<W>) -> fmt::Result {
        match self {
            TraceError::Unknown { index } => write!(f, "item {index}: unknown front"),
            TraceError::Folded { index } => write!(f, "item {index}: folded front"),
            TraceError::Invalid { index } => write!(f, "item {index}: stamp above the mask"),
            TraceError::Range { index } => write!(f, "item {index}: value out of range"),
            TraceError::Memory => write!(f, "out of memory"),
        }
    }
}
