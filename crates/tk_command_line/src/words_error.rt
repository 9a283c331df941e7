ghost use Rattle.std.specs.Prelude.{◌≡◌, Some};
ghost use Rattle.std.specs.IoError.{error_kind};
ghost use Rattle.clap.specs.Words.{kind_of};
ghost use Rattle.tk_command_line.specs.WordsError.{error_of, unread_of, words_text};
ghost use Rattle.tk_command_line.specs.declared.words_error.WordsError.TheVariants.{Memory};

use clap::error::ErrorKind;
use std::alloc::AllocError;
use std::{fmt, io};
use thiserror::Error;

/// Says why arguments aren't accepted. `Display` prints the program's text.
#[derive(Clone, Copy, Debug, PartialEq, Eq, Error)]
pub enum WordsError {
    /// The arguments aren't in the form that docs/TKCORE.md gives, or one of them isn't UTF-8.
    Refused,
    /// An allocation failed.
    Memory,
}

impl fmt::Display for WordsError {
    ghost output = { λ error. Some (words_text error) };

    fn fmt<W: fmt::Write>(&self, f: &mut fmt::Formatter<W>) -> fmt::Result {
        f.write_str(match self {
            WordsError::Refused => "words refused",
            WordsError::Memory => "out of memory",
        })
    }
}

impl From<AllocError> for WordsError {
    ghost from_gives = { λ _ error. error ≡ Memory };

    fn from(_error: AllocError) -> WordsError {
        WordsError::Memory
    }
}

/// Converts the error of arguments that don't parse: one is unknown, wrong or missing, or an
/// allocation failed.
impl From<clap::Error> for WordsError {
    ghost from_gives = { λ error words_error. words_error ≡ error_of (kind_of error) };

    fn from(error: clap::Error) -> WordsError {
        match error.kind() {
            ErrorKind::OutOfMemory => WordsError::Memory,
            _ => WordsError::Refused,
        }
    }
}

/// Converts the error of arguments that can't be read: one of them isn't UTF-8, or an allocation
/// failed.
impl From<io::Error> for WordsError {
    ghost from_gives = { λ error words_error. words_error ≡ unread_of (error_kind error) };

    fn from(error: io::Error) -> WordsError {
        match error.kind() {
            io::ErrorKind::OutOfMemory => WordsError::Memory,
            _ => WordsError::Refused,
        }
    }
}
