//! Makes the clocks after the commands of a script.
ghost use Rattle.std.specs.Prelude.{◌≡◌, IfOk, MatchResult};
ghost use Rattle.tk_script.specs.Coming.{IsReady, coming, opened_with};
ghost use Rattle.tk_script.specs.Grammar.{Fails, Gives, parse_of};
ghost use Rattle.tk_script.specs.Start.{IsOpenable, journal_at};
ghost use Rattle.tk_report.specs.Began.{began_by};
ghost use Rattle.tk_report.specs.Beginnings.{start_of};
ghost use Rattle.tk_report.specs.AllRows.{IsJournalOf, journal_after};

use crate::beginning::{Beginning, begin};
use crate::obeying::{Obeys, obey_all, unless_memory};
use crate::plain_start::PlainStart;
use crate::steered_journaling::steered_after;
use std::alloc::{Allocator, Global};
use tk_keeper::Timekeeper;
use tk_script::{Row, RowReader, ScriptError, Start};

/// The caller number of all commands of a script.
pub(crate) const CALLER: u32 = 0;

/// Begins the clocks of a script, applies its commands, and returns them with their journal.
///
/// It skips refused commands and reads of clocks. It folds the journal only at a change of counter,
/// so every command after 1,048,576 accepted ones over one counter is refused as `Full`. The
/// journal of steered clocks isn't folded, and also lists the commands of the discipline. Reads let
/// their seconds begin.
///
/// # Errors
///
/// Returns the script's first fault, in the order of `ScriptError`. `Memory` may replace any other
/// result.
pub fn keeper_of(alloc: Global, script: &[u8]) -> Result<Timekeeper, ScriptError>
    ensures answer { MatchResult result
        (λ keeper. IsJournalOf (parse_of script.now) keeper.journal)
        (λ error. Fails error (parse_of script.now)) }
    ensures began { IfOk result (λ keeper.
        IfOk (parse_of script.now) (λ parse. keeper.began ≡ began_by parse.start)) }
{
    let (start, mut rows) = RowReader::open(alloc, script)?;
    keeper_after(alloc, start, &mut rows)
}

/// Begins clocks with `start`, applies the remaining commands of `rows`, and returns the clocks.
///
/// One call of `RowReader::open` must have returned `start` and `rows`. The journal is allocated
/// from `alloc`; the reader of the rows allocates from its own allocator. In all else it acts as
/// `keeper_of`.
///
/// # Errors
///
/// Returns the first fault of the rows. `Memory` may replace any other result.
pub fn keeper_after<A: Allocator + Copy>(
    alloc: A,
    start: Start,
    rows: &mut RowReader<'_>,
) -> Result<Timekeeper<A>, ScriptError>
    requires opens { IsOpenable start }
    requires ready { IsReady rows.old }
    ensures answer { MatchResult result
        (λ keeper. IsJournalOf (opened_with start (coming rows.old)) keeper.journal)
        (λ error. Fails error (coming rows.old)) }
    ensures began { IfOk result (λ keeper. keeper.began ≡ began_by start) }
{
    match begin(alloc, start) {
        Beginning::Plain(start) => plain_after(alloc, start, rows),
        Beginning::Steered(clocks) => steered_after(clocks, rows),
    }
}

/// Returns the clocks of `keeper_after` if no discipline steers them.
fn plain_after<A: Allocator + Copy>(
    alloc: A,
    start: PlainStart,
    rows: &mut RowReader<'_>,
) -> Result<Timekeeper<A>, ScriptError>
    requires opens { IsOpenable (start_of start) }
    requires ready { IsReady rows.old }
    ensures answer { Gives (λ keeper. keeper.journal) result
        (journal_after (journal_at (start_of start)) (coming rows.old)) }
    ensures began { IfOk result (λ keeper. keeper.began ≡ began_by (start_of start)) }
{
    let mut keeper = start.keeper(alloc);
    obey_all(&mut keeper, rows)?;
    Ok(keeper)
}

/// Without a discipline, a command is applied and the counter is changed. A refused command, a read
/// and a request change nothing.
impl<A: Allocator + Copy> Obeys for Timekeeper<A> {
    ghost use Rattle.tk_report.specs.Journaling.{HasRoom, IsJournaled, leaves_room};

    ghost does = { IsJournaled };

    ghost has_room = { HasRoom };

    ghost leaves = { leaves_room };

    fn obey(&mut self, row: Row) -> Result<(), ScriptError> {
        match row {
            Row::Act { reading, cmd } => {
                let _number = unless_memory(self.apply(CALLER, reading, cmd))?;
                Ok(())
            }
            Row::Look { .. } | Row::Ask { .. } => Ok(()),
            Row::Change {
                reading,
                desc,
                first,
            } => {
                let _ = self.change_counter(reading, desc, first);
                Ok(())
            }
        }
    }
}
