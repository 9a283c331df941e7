//! Reads the arguments of the process.
ghost use Rattle.std.specs.Prelude.{List, IfErr, IfOk, MatchResult, Ok, Err, map, string_bytes};
ghost use Rattle.std.specs.IoError.{error_kind};
ghost use Rattle.std.specs.Vec.Iter.{into_iter_items};
ghost use Rattle.tk_program.specs.Arguments.{AreUnread};

use std::env::Args;
use std::rt::Env;
use std::{env, io};
use tk_command_line::WordsError;

/// Reads the arguments of a process. Every runtime that reaches them implements it; any other impl
/// is for tests.
///
/// The program reads its arguments through this trait, so that its contract can say that it runs on
/// all of them. The contract is proved for every relation `args_give`, so it can name only the
/// result of a call that was made.
pub trait Arguments {
    ghost use Rattle.std.specs.Prelude.{ℕ, Result};
    ghost use Rattle.std.specs.declared.io.ErrorKind.{ErrorKind};

    // The possible results of reading the arguments: the process, and the bytes of each argument in
    // their order, the program's name first, or the kind of the error.
    ghost args_give: { Self → Result (List (List ℕ)) ErrorKind → Type 0 };

    /// Returns all arguments, the program's name first.
    ///
    /// # Errors
    ///
    /// `InvalidData` if one of them isn't UTF-8, and `OutOfMemory` if an allocation failed.
    fn args_once(&self) -> io::Result<Args>
        ensures { MatchResult result
            (λ args. args_give self.now (Ok (map string_bytes (into_iter_items args))))
            (λ error. args_give self.now (Err (error_kind error))) };
}

impl<R: Env + AllocGlobal> Arguments for R {
    ghost args_give = { λ _ _. Unit {0} };

    fn args_once(&self) -> io::Result<Args> {
        env::args(self)
    }
}

/// Returns the process's arguments, the program's name first.
///
/// # Errors
///
/// - `WordsError::Refused`: one of them isn't UTF-8
/// - `WordsError::Memory`: an allocation failed
pub(crate) fn words_of<E: Arguments + AllocGlobal>(rt: &E) -> Result<Vec<String>, WordsError>
    ensures ok { IfOk result (λ words.
        E.Arguments.args_give rt.now (Ok (map string_bytes words.items))) }
    ensures err { IfErr result (AreUnread (E.Arguments.args_give rt.now)) }
{
    let words: Vec<String> = rt.args_once()?.collect(rt.alloc())?;
    Ok(words)
}
