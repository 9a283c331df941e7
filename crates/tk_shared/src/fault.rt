ghost use Rattle.std.specs.Prelude.{◌≡◌, Some};
ghost use Rattle.tk_shared.specs.Errors.{open_text};

use crate::counter::Counter;
use std::fmt;
use thiserror::Error;

/// Says why a keeper can't be opened: the first variant that applies, in this order.
#[derive(Clone, Copy, Debug, PartialEq, Eq, Error)]
pub enum OpenError {
    /// The number of callers is below 1 or above 64. The counter wasn't read.
    Count,
    /// REALTIME may not be set to the requested time. The counter wasn't read.
    Invalid,
    /// An allocation failed, after the counter was read.
    Memory,
}

impl fmt::Display for OpenError {
    ghost output = { λ error. Some (open_text error) };

    fn fmt<W: fmt::Write>(&self, f: &mut fmt::Formatter<W>) -> fmt::Result {
        f.write_str(match self {
            OpenError::Count => "count out of range",
            OpenError::Invalid => "invalid opening",
            OpenError::Memory => "out of memory",
        })
    }
}

/// Contains the reason why a keeper can't be opened, and the counter.
#[derive(Debug, Drop, Error)]
#[error_bound(C: fmt::Debug)]
pub struct OpenFault<C: Counter> {
    /// The reason.
    pub error: OpenError,
    /// The counter that was passed to `prepare`.
    pub counter: C,
}

impl<C: Counter> OpenFault<C> {
    /// Returns the fault with this reason, and the counter.
    pub(crate) fn new(error: OpenError, counter: C) -> OpenFault<C>
        ensures error { result.error ≡ error }
        ensures counter { result.counter ≡ counter }
    {
        OpenFault { error, counter }
    }
}

impl<C: Counter> fmt::Display for OpenFault<C> {
    ghost output = { λ fault. Some (open_text fault.error) };

    fn fmt<W: fmt::Write>(&self, f: &mut fmt::Formatter<W>) -> fmt::Result {
        write!(f, "{}", self.error)
    }
}
