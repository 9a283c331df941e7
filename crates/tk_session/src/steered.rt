//! Carries out a record of clocks that a discipline steers.
ghost use Rattle.std.specs.Prelude.{◌≤◌, length, IsSome, None};
ghost use Rattle.tk_clock.specs.declared.clock_id.ClockId.TheVariants.{Monotonic};
ghost use Rattle.tk_keeper.specs.Read.{read_fault};
ghost use Rattle.tk_report.specs.SteeredReport.{IsAcceptedLine};
ghost use Rattle.tk_script.specs.declared.row.Row.TheVariants.{Act, Ask};
ghost use Rattle.tk_session.specs.Told.{ForKept, IsToldSteered};

use crate::plain::look;
use crate::text::Text;
use tk_clock::{ClockId, Command, Refusal};
use tk_ntp::{Course, Timex};
use tk_report::CountedClocks;
use tk_script::{AdjLine, Line, Row};

/// The caller number of all commands of a script.
const CALLER: u32 = 0;

/// Carries out a record, and returns its line and the expected value that a read does not give, in
/// ns, if there is one.
pub(crate) fn tell(clocks: &mut CountedClocks, course: &mut Course, row: Row) -> (Text, Option<u64>)
    ensures told { IsToldSteered clocks.old course.old row result.0 result.1 clocks.new course.new }
    ensures short { IsSome result.1 → length result.0 ≤ 96 }
{
    match row {
        Row::Act { reading, cmd } => (apply(clocks, course, reading, cmd), None),
        Row::Ask { reading, request } => (answer(clocks, course, reading, &request), None),
        Row::Look {
            reading,
            clock,
            expected,
        } => {
            let _begun = course.advance(clocks, false, CALLER, reading);
            look(&clocks.snapshot(), reading, clock, expected)
        }
        // the lag is in units of the counter, so its discipline can't continue over another one
        Row::Change { .. } => (Text::of(&Line::no(Refusal::Invalid)), None),
    }
}

/// Applies a command, and makes its line.
fn apply(clocks: &mut CountedClocks, course: &mut Course, reading: u64, cmd: Command) -> Text
    ensures { IsToldSteered clocks.old course.old (Act reading cmd) result None clocks.new course.new }
{
    match course.apply(clocks, CALLER, reading, cmd) {
        Ok(()) => Text::of(&accepted(clocks, reading)),
        Err(refusal) => Text::of(&Line::no(refusal)),
    }
}

/// Makes the line of an accepted command, with MONOTONIC at its reading. A request for a frequency
/// or a tick may give no command, so the reading may be after the last command's.
fn accepted(clocks: &CountedClocks, reading: u64) -> Line
    ensures { ForKept clocks.now (λ journal. IsAcceptedLine journal reading clocks.now.count
        (read_fault journal Monotonic reading) result) }
{
    match clocks.snapshot().get(ClockId::Monotonic, reading) {
        Ok(time) => Line::ok(clocks.count(), time),
        Err(error) => Line::no(error.into()),
    }
}

/// Does what a request asks for, and makes the line of its reply.
fn answer(clocks: &mut CountedClocks, course: &mut Course, reading: u64, request: &Timex) -> Text
    ensures { IsToldSteered clocks.old course.old (Ask reading request.now) result None clocks.new
        course.new }
{
    match course.adjtimex(clocks, CALLER, reading, request) {
        Ok(reply) => {
            let line = AdjLine::new(&reply, clocks.count());
            let mut text = Text::of(&line.beginning);
            text.add(&line.middle);
            text.add(&line.end);
            text
        }
        Err(refusal) => Text::of(&Line::no(refusal)),
    }
}
