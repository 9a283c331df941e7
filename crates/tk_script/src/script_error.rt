ghost use Rattle.std.specs.Prelude.{Some};
ghost use Rattle.tk_script.specs.ScriptError.{script_text};

use crate::records::SIZE_LIMIT;
use std::fmt;
use thiserror::Error;
use tk_counter::DescError;

/// Names the first fault of a script or a stamp file, or an allocation failure.
///
/// `TooLarge` is tested first, then `Empty`. After that the first record with a fault decides: its
/// keyword, then its number of fields, then its fields from left to right, and last, in the first
/// record of a script, the opening, and in a change of counter the counter's numbers. `row` counts
/// records from 1. `Display` prints the program's text.
#[derive(Clone, Copy, Debug, PartialEq, Eq, Error)]
pub enum ScriptError {
    /// The text has more than 16,777,216 bytes.
    TooLarge,
    /// The script has no record. A stamp file may have none.
    Empty,
    /// The first record doesn't begin with `open`, `openhz` or `openwords`, or no clocks can begin
    /// with its values.
    Opening { row: u64 },
    /// The keyword of a later record or the name of a clock is unknown. The keyword of a second
    /// opening counts as unknown.
    Word { row: u64 },
    /// The record has too few or too many fields for its keyword.
    Fields { row: u64 },
    /// A field isn't a number, or the number is out of the range of its type.
    Number { row: u64 },
    /// The numbers of a change of counter describe no counter, for the reason `error`.
    Counter { row: u64, error: DescError },
    /// An allocation failed. This may replace any other result.
    Memory,
}

impl fmt::Display for ScriptError {
    ghost output = { λ error. Some (script_text error) };

    fn fmt<W: fmt::Write>(&self, f: &mut fmt::Formatter<W>) -> fmt::Result {
        match self {
            ScriptError::TooLarge => write!(f, "larger than {SIZE_LIMIT} bytes"),
            ScriptError::Empty => write!(f, "no record"),
            ScriptError::Opening { row } => write!(f, "record {row}: not a valid opening"),
            ScriptError::Word { row } => write!(f, "record {row}: unknown word"),
            ScriptError::Fields { row } => write!(f, "record {row}: wrong number of fields"),
            ScriptError::Number { row } => write!(f, "record {row}: not a number in range"),
            ScriptError::Counter { row, error } => write!(f, "record {row}: {error}"),
            ScriptError::Memory => write!(f, "out of memory"),
        }
    }
}
