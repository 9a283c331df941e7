ghost use Rattle.std.specs.Prelude.{Some};
ghost use Rattle.tk_session.specs.Fault.{fault_text};

use std::fmt;
use thiserror::Error;
use tk_script::ScriptError;

/// Says why a record was not carried out. The session is then as it was.
#[derive(Clone, Copy, Debug, PartialEq, Eq, Error)]
pub enum Fault {
    /// The record contains a quote, a carriage return or a line feed, or the first record begins with
    /// the byte 0xef, which may begin a byte order mark.
    NotPlain,
    /// The session has counted 2^64 - 1 records.
    TooMany,
    /// The record has this fault: the script's fault, if the records before it have none.
    Script(ScriptError),
}

impl fmt::Display for Fault {
    ghost output = { λ fault. Some (fault_text fault) };

    fn fmt<W: fmt::Write>(&self, f: &mut fmt::Formatter<W>) -> fmt::Result {
        match self {
            Fault::NotPlain => write!(f, "not a plain line"),
            Fault::TooMany => write!(f, "too many records"),
            Fault::Script(error) => write!(f, "{error}"),
        }
    }
}
