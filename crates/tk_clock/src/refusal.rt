ghost use Rattle.std.specs.Prelude.{◌≡◌, Some};
ghost use Rattle.tk_clock.specs.Refusal.{refusal_of};
ghost use Rattle.tk_clock.specs.RefusalText.{refusal_text, read_text};

use std::fmt;
use thiserror::Error;

/// Says why a command is refused: the first test that fails. A refused command changes nothing.
///
/// The tests run in this order: `Full`, `Asleep` or `Awake`, `Invalid` for numbers out of range,
/// `Behind`, `Range`, `Invalid` for a time that REALTIME can't be set to, `Memory`.
#[derive(Clone, Copy, Debug, PartialEq, Eq, Error)]
pub enum Refusal {
    /// The journal has no capacity for another entry.
    Full,
    /// The clocks are asleep, and the command is not `Resume`.
    Asleep,
    /// The clocks are awake, and the command is `Resume`.
    Awake,
    /// The reading is above the mask, a number of the command is out of its range, or REALTIME
    /// would be below MONOTONIC or beyond what may be set.
    Invalid,
    /// The reading is behind the last accepted command's.
    Behind,
    /// A clock would be at its limit or beyond it.
    Range,
    /// The allocation for the entry failed.
    Memory,
}

impl fmt::Display for Refusal {
    ghost output = { λ refusal. Some (refusal_text refusal) };

    fn fmt<W: fmt::Write>(&self, f: &mut fmt::Formatter<W>) -> fmt::Result {
        f.write_str(match self {
            Refusal::Full => "full journal",
            Refusal::Asleep => "clocks asleep",
            Refusal::Awake => "clocks awake",
            Refusal::Invalid => "reading, number or time out of range",
            Refusal::Behind => "reading behind the last one",
            Refusal::Range => "value out of range",
            Refusal::Memory => "out of memory",
        })
    }
}

/// Says why a clock can't be read: the first test that fails.
#[derive(Clone, Copy, Debug, PartialEq, Eq, Error)]
pub enum ReadError {
    /// The reading is above the mask.
    Invalid,
    /// The clock is at its limit or beyond it.
    Range,
}

impl fmt::Display for ReadError {
    ghost output = { λ error. Some (read_text error) };

    fn fmt<W: fmt::Write>(&self, f: &mut fmt::Formatter<W>) -> fmt::Result {
        f.write_str(match self {
            ReadError::Invalid => "reading above the mask",
            ReadError::Range => "value out of range",
        })
    }
}

impl From<ReadError> for Refusal {
    ghost from_gives = { λ error refusal. refusal ≡ refusal_of error };

    /// Converts the refusal of a read to a command's refusal with the same name.
    fn from(error: ReadError) -> Refusal {
        match error {
            ReadError::Invalid => Refusal::Invalid,
            ReadError::Range => Refusal::Range,
        }
    }
}
