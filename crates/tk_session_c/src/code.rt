ghost use Rattle.std.specs.Prelude.{◌≡◌};
ghost use Rattle.tk_session_c.specs.Codes.{number_of, code_of_counter, code_of_fault, code_of_script};

use tk_counter::DescError;
use tk_script::ScriptError;
use tk_session::Fault;

/// Lists the codes that calls return, with their numbers in include/tkcore.h and
/// include/tkcore_session.h.
#[derive(Clone, Copy)]
pub enum Code {
    /// The call is done.
    Done = 0,
    /// A reading of the next counter would have fewer than 8 bits or more than 64.
    BadBits = 32,
    /// The shift of the next counter is above 32.
    BadShift = 33,
    /// The mult of the next counter is below 256.
    BadMult = 34,
    /// The mult of the next counter plus 11 percent doesn't fit in 32 bits.
    BadAdjust = 35,
    /// The frequency is 0 Hz, or the span is not 1 to 600 seconds. No record states either.
    BadRate = 36,
    /// The record contains a quote, a carriage return or a line feed, or the first record begins
    /// with the byte 0xef.
    NotPlain = 48,
    /// The session has counted 2^64 - 1 records.
    TooMany = 49,
    /// The first record is no opening, or no clocks can begin with its values.
    BadOpening = 50,
    /// The keyword or the name of a clock is unknown.
    BadWord = 51,
    /// The record has too few or too many fields for its keyword.
    BadFields = 52,
    /// A field isn't a number, or the number is out of the range of its type.
    BadNumber = 53,
}

impl Code {
    /// Returns the code's number.
    pub fn number(self) -> u32
        ensures { result ≡ number_of self }
    {
        self as u32
    }
}

impl From<DescError> for Code {
    ghost from_gives = { λ fault code. code ≡ code_of_counter fault };

    fn from(fault: DescError) -> Code {
        match fault {
            DescError::Bits => Code::BadBits,
            DescError::Shift => Code::BadShift,
            DescError::Mult => Code::BadMult,
            DescError::Adjust => Code::BadAdjust,
            DescError::Rate => Code::BadRate,
        }
    }
}

impl From<ScriptError> for Code {
    ghost from_gives = { λ error code. code ≡ code_of_script error };

    fn from(error: ScriptError) -> Code {
        match error {
            ScriptError::Opening { .. } => Code::BadOpening,
            ScriptError::Word { .. } => Code::BadWord,
            ScriptError::Fields { .. } => Code::BadFields,
            ScriptError::Number { .. } => Code::BadNumber,
            ScriptError::Counter { error, .. } => Code::from(error),
            // no record has these faults of whole scripts
            ScriptError::TooLarge | ScriptError::Empty | ScriptError::Memory => Code::BadOpening,
        }
    }
}

impl From<Fault> for Code {
    ghost from_gives = { λ fault code. code ≡ code_of_fault fault };

    fn from(fault: Fault) -> Code {
        match fault {
            Fault::NotPlain => Code::NotPlain,
            Fault::TooMany => Code::TooMany,
            Fault::Script(error) => Code::from(error),
        }
    }
}
