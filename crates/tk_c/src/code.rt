ghost use Rattle.std.specs.Prelude.{◌≡◌};
ghost use Rattle.tk_c.specs.CallResults.{code_of_call};
ghost use Rattle.tk_c.specs.Codes.{number_of, code_of_refusal, code_of_read, code_of_fault};

use tk_clock::{ReadError, Refusal};
use tk_counter::DescError;

/// Lists the codes that calls return, with the numbers of `enum tkc_code` in include/tkcore.h.
#[derive(Clone, Copy)]
pub enum Code {
    /// The call is done.
    Done = 0,
    /// The front leaves no room below 2^63 for the commands that a call may make.
    Full = 1,
    /// The clocks are asleep, and the command is not `Resume`.
    Asleep = 2,
    /// The clocks are awake, and the command is `Resume`.
    Awake = 3,
    /// The reading or an argument is out of its range, or REALTIME can't have the resulting value.
    Invalid = 4,
    /// The reading is behind the last accepted command's reading.
    Behind = 5,
    /// A clock would be at or past its limit.
    Range = 6,
    /// An allocation failed. No call of this crate returns it.
    Memory = 7,
    /// The clock is on its way to the time, but doesn't reach it up to half the counter's range
    /// after the last command.
    Further = 8,
    /// The clock doesn't reach the time: it doesn't count, or it reaches its limit first.
    Never = 9,
    /// No command has this number.
    BadCommand = 16,
    /// No clock has this number.
    BadClock = 17,
    /// The words represent no snapshot, or no running clocks.
    BadWords = 18,
    /// `out` has fewer elements than `stamps`.
    BadRoom = 19,
    /// A reading would have fewer than 8 bits or more than 64.
    BadBits = 32,
    /// The shift is above 32.
    BadShift = 33,
    /// The mult is below 256.
    BadMult = 34,
    /// The mult plus 11 percent doesn't fit in 32 bits.
    BadAdjust = 35,
    /// The frequency is 0 Hz or above 2^32 - 1 Hz, or the span is not 1 to 600 seconds.
    BadRate = 36,
}

impl Code {
    /// Returns the code's number in `enum tkc_code`.
    pub fn number(self) -> u32
        ensures { result ≡ number_of self }
    {
        self as u32
    }
}

/// Returns the code of a result.
pub(crate) fn code_of_call(called: Result<(), Refusal>) -> Code
    ensures { result ≡ code_of_call called }
{
    match called {
        Ok(()) => Code::Done,
        Err(refusal) => Code::from(refusal),
    }
}

impl From<Refusal> for Code {
    ghost from_gives = { λ refusal code. code ≡ code_of_refusal refusal };

    fn from(refusal: Refusal) -> Code {
        match refusal {
            Refusal::Full => Code::Full,
            Refusal::Asleep => Code::Asleep,
            Refusal::Awake => Code::Awake,
            Refusal::Invalid => Code::Invalid,
            Refusal::Behind => Code::Behind,
            Refusal::Range => Code::Range,
            Refusal::Memory => Code::Memory,
        }
    }
}

impl From<ReadError> for Code {
    ghost from_gives = { λ error code. code ≡ code_of_read error };

    fn from(error: ReadError) -> Code {
        Code::from(Refusal::from(error))
    }
}

impl From<DescError> for Code {
    ghost from_gives = { λ fault code. code ≡ code_of_fault fault };

    fn from(fault: DescError) -> Code {
        match fault {
            DescError::Bits => Code::BadBits,
            DescError::Shift => Code::BadShift,
            DescError::Mult => Code::BadMult,
            DescError::Adjust => Code::BadAdjust,
            DescError::Rate => Code::BadRate,
        }
    }
}
