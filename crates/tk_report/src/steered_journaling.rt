//! Makes the clocks after the commands of a script whose clocks a discipline steers.
ghost use Rattle.std.specs.Prelude.{◌≡◌, IfOk, MatchResult};
ghost use Rattle.tk_report.specs.SteeredReport.{IsSteeredJournalOfRows};
ghost use Rattle.tk_script.specs.Coming.{IsReady, coming};
ghost use Rattle.tk_script.specs.Grammar.{Fails};

use crate::journaling::CALLER;
use crate::obeying::{Obeys, obey_all, unless_memory};
use crate::steered_reporting::begin_seconds;
use std::alloc::Allocator;
use tk_keeper::Timekeeper;
use tk_script::{Row, RowReader, ScriptError};
use tk_steered::Steered;

/// Carries out the remaining records of `rows` with the steered clocks `first`, and returns the
/// clocks with the journal of all commands that they were given.
pub(crate) fn steered_after<A: Allocator + Copy>(
    first: Steered<A>,
    rows: &mut RowReader<'_>,
) -> Result<Timekeeper<A>, ScriptError>
    requires { IsReady rows.old }
    ensures answer { MatchResult result
        (λ keeper. IsSteeredJournalOfRows first (coming rows.old) keeper.journal)
        (λ error. Fails error (coming rows.old)) }
    ensures began { IfOk result (λ keeper. keeper.began ≡ first.keeper.began) }
{
    let mut clocks = first;
    obey_all(&mut clocks, rows)?;
    Ok(clocks.into_keeper())
}

/// With a discipline, a command is applied, a request is answered, and a read lets the seconds up to
/// its reading begin. A change of counter is refused.
impl<A: Allocator + Copy> Obeys for Steered<A> {
    ghost use Rattle.tk_report.specs.SteeredReport.{IsSteeredAfter};

    ghost does = { IsSteeredAfter };

    ghost has_room = { λ _ _. Unit {0} };

    ghost leaves = { λ _ _ _ _ _ _. tt };

    fn obey(&mut self, row: Row) -> Result<(), ScriptError> {
        match row {
            Row::Act { reading, cmd } => {
                let _number = unless_memory(self.apply(CALLER, reading, cmd))?;
                Ok(())
            }
            Row::Ask { reading, request } => {
                let _reply = unless_memory(self.adjtimex(CALLER, reading, &request))?;
                Ok(())
            }
            Row::Look { reading, .. } => begin_seconds(self, reading),
            Row::Change { .. } => Ok(()),
        }
    }
}
