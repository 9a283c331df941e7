ghost use Rattle.std.specs.Prelude.{◌≡◌};
ghost use Rattle.tk_report.specs.Fault.{fault_of, fault_of_trace, fault_text};
ghost use Rattle.tk_report.specs.declared.fault.Fault.TheVariants.{Memory};

use std::alloc::AllocError;
use std::fmt;
use thiserror::Error;
use tk_keeper::TraceError;
use tk_script::ScriptError;

/// Says why a replay or a trace stopped. Nothing was written, except with `Write`.
///
/// `Display` prints the program's text. docs/TKCORE.md lists the texts.
#[derive(Clone, Copy, Debug, PartialEq, Eq, Error)]
pub enum Fault {
    /// A read returned an error, or (in the program) a file could not be opened.
    Read,
    /// The script has a fault, which is never `ScriptError::Memory`.
    Script(ScriptError),
    /// The stamp file of a trace has a fault, which is never `ScriptError::Memory`.
    Stamps(ScriptError),
    /// A stamp of a trace can't be converted. The error is never `TraceError::Memory`.
    Trace(TraceError),
    /// An allocation failed before anything was written.
    Memory,
    /// A write or the flush returned an error, or a write accepted no byte.
    Write {
        /// The number of bytes written, from the beginning of the report or of the trace.
        written: u64,
    },
}

impl fmt::Display for Fault {
    ghost output = { fault_text };

    fn fmt<W: fmt::Write>(&self, f: &mut fmt::Formatter<W>) -> fmt::Result {
        match self {
            Fault::Read => write!(f, "cannot read"),
            Fault::Script(error) => write!(f, "script: {error}"),
            Fault::Stamps(error) => write!(f, "stamps: {error}"),
            Fault::Trace(error) => write!(f, "{error}"),
            Fault::Memory => write!(f, "out of memory"),
            Fault::Write { .. } => write!(f, "cannot write"),
        }
    }
}

impl From<ScriptError> for Fault {
    ghost from_gives = { λ error fault. fault ≡ fault_of error };

    fn from(error: ScriptError) -> Fault {
        match error {
            ScriptError::Memory => Fault::Memory,
            error => Fault::Script(error),
        }
    }
}

impl From<TraceError> for Fault {
    ghost from_gives = { λ error fault. fault ≡ fault_of_trace error };

    fn from(error: TraceError) -> Fault {
        match error {
            TraceError::Memory => Fault::Memory,
            error => Fault::Trace(error),
        }
    }
}

impl From<AllocError> for Fault {
    ghost from_gives = { λ _ fault. fault ≡ Memory };

    fn from(_error: AllocError) -> Fault {
        Fault::Memory
    }
}
