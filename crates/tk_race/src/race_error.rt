ghost use Rattle.std.specs.Prelude.{◌≡◌, Some};
ghost use Rattle.tk_race.specs.RaceError.{error_of, error_text};
ghost use Rattle.tk_race.specs.declared.race_error.RaceError.TheVariants.{Memory};

use std::alloc::AllocError;
use std::fmt;
use thiserror::Error;
use tk_shared::OpenError;

/// Says why a race returns no report: the first variant that applies, in this order.
#[derive(Clone, Copy, Debug, PartialEq, Eq, Error)]
pub enum RaceError {
    /// The number of actors is below 1 or above 64.
    Count,
    /// The reading is above the mask, or REALTIME may not be set to the requested time.
    Invalid,
    /// An allocation failed, before any thread was started.
    Memory,
    /// A thread couldn't be started. The threads that were started have ended.
    Threads,
}

impl fmt::Display for RaceError {
    ghost output = { λ error. Some (error_text error) };

    fn fmt<W: fmt::Write>(&self, f: &mut fmt::Formatter<W>) -> fmt::Result {
        f.write_str(match self {
            RaceError::Count => "count out of range",
            RaceError::Invalid => "invalid opening",
            RaceError::Memory => "out of memory",
            RaceError::Threads => "cannot start a thread",
        })
    }
}

impl From<AllocError> for RaceError {
    ghost from_gives = { λ _ error. error ≡ Memory };

    fn from(_: AllocError) -> RaceError {
        RaceError::Memory
    }
}

impl From<OpenError> for RaceError {
    ghost from_gives = { λ fault error. error ≡ error_of fault };

    fn from(fault: OpenError) -> RaceError {
        match fault {
            OpenError::Count => RaceError::Count,
            OpenError::Invalid => RaceError::Invalid,
            OpenError::Memory => RaceError::Memory,
        }
    }
}
