//! Carries out a record of clocks that no discipline steers.
ghost use Rattle.std.specs.Prelude.{◌≡◌, ◌≤◌, ℕ, length, None};
ghost use Rattle.tk_clock.specs.Journal.{Journal};
ghost use Rattle.tk_clock.specs.Refusal.{first_refusal};
ghost use Rattle.tk_clock.specs.Run.{Reply};
ghost use Rattle.tk_clock.specs.Snapshot.{snapshot_of};
ghost use Rattle.tk_report.specs.CountedClocks.{IsReplied};
ghost use Rattle.tk_report.specs.Report.{event, reply_by, reply_line};
ghost use Rattle.tk_session.specs.Told.{ForKept, IsLooked, IsToldPlain};

use crate::text::Text;
use tk_clock::{COUNTED_LIMIT, ClockId, Command, Refusal, Snapshot};
use tk_report::{CountedClocks, missed_by};
use tk_script::{Line, Row};

/// Carries out a record, and returns its line and the expected value that a read does not give, in
/// ns, if there is one.
pub(crate) fn tell(clocks: &mut CountedClocks, row: Row) -> (Text, Option<u64>)
    ensures told { IsToldPlain clocks.old row result.0 result.1 clocks.new }
    ensures short { length result.0 ≤ 96 }
{
    match row {
        Row::Act { reading, cmd } => {
            let answer = apply(clocks, reading, cmd);
            (Text::of(&line_of(clocks, answer)), None)
        }
        Row::Look {
            reading,
            clock,
            expected,
        } => look(&clocks.snapshot(), reading, clock, expected),
        Row::Change {
            reading,
            desc,
            first,
        } => {
            let answer = clocks.change_counter(reading, desc, first);
            (Text::of(&line_of(clocks, answer)), None)
        }
        // no discipline steers the clocks
        Row::Ask { .. } => (Text::of(&Line::no(Refusal::Invalid)), None),
    }
}

/// Applies a command and returns its number, or the first test that it fails.
fn apply(clocks: &mut CountedClocks, reading: u64, cmd: Command) -> Result<u64, Refusal>
    ensures { ForKept clocks.old (λ journal. IsReplied None reading result clocks.new
        (reply_by first_refusal journal (event reading cmd))) }
{
    if clocks.count() >= COUNTED_LIMIT {
        return Err(Refusal::Full);
    }
    clocks.apply(reading, cmd)
}

/// Makes the line of an answer. The line of an accepted command or change gives MONOTONIC at the
/// reading to which it brought the clocks forward.
fn line_of(clocks: &CountedClocks, answer: Result<u64, Refusal>) -> Line
    ensures { (reading : ℕ) (reply : Reply) → IsReplied None reading answer clocks.now reply →
        result ≡ reply_line reading reply }
{
    match answer {
        Ok(number) => Line::ok(number, clocks.monotonic()),
        Err(refusal) => Line::no(refusal),
    }
}

/// Reads a clock, and returns its line and the expected value that the read does not give.
pub(crate) fn look(
    now: &Snapshot,
    reading: u64,
    clock: ClockId,
    expected: Option<u64>,
) -> (Text, Option<u64>)
    ensures looked { (journal : Journal) → now.now ≡ snapshot_of journal →
        IsLooked journal clock reading expected result.0 result.1 }
    ensures short { length result.0 ≤ 96 }
{
    match now.get(clock, reading) {
        Ok(time) => (Text::of(&Line::at(clock, time)), missed_by(time, expected)),
        Err(error) => (Text::of(&Line::no(error.into())), expected),
    }
}
