//! Carries out the rows of a script, one after the other.
ghost use Rattle.std.specs.Prelude.{◌≡◌, ◌≢◌, MatchResult};
ghost use Rattle.tk_report.specs.Rows.{HasDone};
ghost use Rattle.tk_script.specs.Coming.{IsReady, coming, records_left};
ghost use Rattle.tk_script.specs.Grammar.{Fails};

use tk_clock::Refusal;
use tk_script::{Row, RowReader, ScriptError};

/// Carries out rows: clocks apply their commands, and a report also appends their lines.
pub(crate) trait Obeys {
    ghost use Rattle.std.specs.Prelude.{◌≡◌, ℕ, ◌+◌, OnOk, IfErr};
    ghost use Rattle.tk_script.specs.declared.row.Row.{Row};

    // what it is after a row
    ghost does: { Self → Row → Self → Type 0 };

    // whether it can carry out this many more rows
    ghost has_room: { ℕ → Self → Type 0 };

    /// Carries out a row. A refused command is no error.
    ///
    /// # Errors
    ///
    /// `Memory`: an allocation failed.
    fn obey(&mut self, row: Row) -> Result<(), ScriptError>
        requires { (later : ℕ) × has_room (later + 1) self.old }
        ensures done { OnOk result (does self.old row self.new) }
        ensures err { IfErr result (λ error. error ≡ ScriptError.Memory) };

    // a row takes the room of one
    ghost leaves: { (later : ℕ) (a b : Self) (row : Row) → does a row b →
        has_room (later + 1) a → has_room later b };
}

/// Carries out the remaining rows of `rows`.
///
/// # Errors
///
/// Returns the first fault of the rows. `Memory` may replace any other result.
#[inline(always)]
pub(crate) fn obey_all<O: Obeys>(
    obeying: &mut O,
    rows: &mut RowReader<'_>,
) -> Result<(), ScriptError>
    requires ready { IsReady rows.old }
    requires room { O.has_room (records_left rows.old) obeying.old }
    ensures { MatchResult result
        (λ _. HasDone O.does obeying.old (coming rows.old) obeying.new)
        (λ error. Fails error (coming rows.old)) }
{
    'rows: while let Some(row) = rows.next_row()? {
        obeying.obey(row)?;
    }
    Ok(())
}

/// Returns an answer of clocks. A refusal is no error, but an allocation failure is one.
#[inline(always)]
pub(crate) fn unless_memory<T>(
    answer: Result<T, Refusal>,
) -> Result<Result<T, Refusal>, ScriptError>
    ensures { MatchResult result
        (λ told. (told ≡ answer) × (told ≢ Err Refusal.Memory))
        (λ error. (answer ≡ Err Refusal.Memory) × (error ≡ ScriptError.Memory)) }
{
    match answer {
        Err(Refusal::Memory) => Err(ScriptError::Memory),
        told => Ok(told),
    }
}
