//! Makes the report of a script whose clocks a discipline steers.
ghost use Rattle.std.specs.Prelude.{◌≡◌, ◌++◌, List, ℕ, OnOk, IfOk, IfErr, MatchResult};
ghost use Rattle.tk_clock.specs.declared.clock_id.ClockId.TheVariants.{Monotonic};
ghost use Rattle.tk_keeper.specs.Read.{read_fault};
ghost use Rattle.tk_report.specs.SteeredReport.{IsAcceptedLine, IsAnswerLine, IsLookAt, IsReplyLine, IsSteeredLine, IsSteeredReportOfRows, missed_after};
ghost use Rattle.tk_script.specs.Coming.{IsReady, coming};
ghost use Rattle.tk_script.specs.Grammar.{Fails};

use crate::checked_report::CheckedReport;
use crate::journaling::CALLER;
use crate::obeying::{Obeys, obey_all, unless_memory};
use crate::report_lines::Lines;
use crate::reporting::add_look;
use std::alloc::Allocator;
use tk_clock::{ClockId, Command, Refusal};
use tk_keeper::Timekeeper;
use tk_ntp::Timex;
use tk_script::{Calendar, Row, RowReader, ScriptError, line_adj, line_no, line_ok};
use tk_steered::Steered;

/// Makes the report of a script that begins with the steered clocks `first`, from the remaining rows
/// of `rows`, and counts the reads that do not give the value that their record states.
pub(crate) fn report_steered<A: Allocator + Copy>(
    alloc: A,
    first: Steered<A>,
    rows: &mut RowReader<'_>,
) -> Result<CheckedReport<A>, ScriptError>
    requires { IsReady rows.old }
    ensures { MatchResult result
        (λ report. IsSteeredReportOfRows first (coming rows.old) report.text.items
        report.differences)
        (λ error. Fails error (coming rows.old)) }
{
    let lines = Lines::open(alloc, &first.keeper().snapshot().desc())?;
    let mut report = SteeredReport {
        clocks: first,
        lines,
    };
    obey_all(&mut report, rows)?;
    Ok(report.lines.finish())
}

/// Contains a report so far, and its clocks, which a discipline steers.
#[derive(Drop)]
struct SteeredReport<A: Allocator> {
    clocks: Steered<A>,
    lines: Lines<A>,
}

impl<A: Allocator + Copy> Obeys for SteeredReport<A> {
    ghost use Rattle.tk_report.specs.SteeredSteps.{HasRoomFor, IsSteeredStep, leaves_room};

    ghost does = { IsSteeredStep };

    ghost has_room = { HasRoomFor };

    ghost leaves = { leaves_room };

    fn obey(&mut self, row: Row) -> Result<(), ScriptError> {
        let lines = &mut self.lines;
        let missed = add_steered_line(&mut lines.text, &mut lines.calendar, &mut self.clocks, row)?;
        self.lines.note(missed)
    }
}

/// Carries out a record, and appends its line. Returns the expected value that a read does not
/// give, in ns, if there is one.
fn add_steered_line<A: Allocator + Copy>(
    text: &mut Vec<u8, A>,
    calendar: &mut Calendar<A>,
    clocks: &mut Steered<A>,
    row: Row,
) -> Result<Option<u64>, ScriptError>
    ensures line { OnOk result ((line : List ℕ)
        × IsSteeredLine clocks.old row line clocks.new
        × (text.new.items ≡ text.old.items ++ line)) }
    ensures missed { IfOk result (λ value. value ≡ missed_after clocks.new.keeper.journal row) }
    ensures err { IfErr result (λ error. error ≡ ScriptError.Memory) }
{
    match row {
        Row::Act { reading, cmd } => {
            add_applied(text, clocks, reading, cmd)?;
            Ok(None)
        }
        Row::Ask { reading, request } => {
            add_answer(text, clocks, reading, &request)?;
            Ok(None)
        }
        Row::Look {
            reading,
            clock,
            expected,
        } => {
            begin_seconds(clocks, reading)?;
            let now = clocks.keeper().snapshot();
            add_look(text, calendar, &now, reading, clock, expected)
        }
        // the lag is in units of the counter, so its discipline can't continue over another one
        Row::Change { .. } => {
            line_no(text, Refusal::Invalid)?;
            Ok(None)
        }
    }
}

/// Applies a command, and appends its line.
fn add_applied<A: Allocator + Copy>(
    text: &mut Vec<u8, A>,
    clocks: &mut Steered<A>,
    reading: u64,
    cmd: Command,
) -> Result<(), ScriptError>
    ensures line { OnOk result ((line : List ℕ) × IsReplyLine clocks.old reading cmd line clocks.new
        × (text.new.items ≡ text.old.items ++ line)) }
    ensures err { IfErr result (λ error. error ≡ ScriptError.Memory) }
{
    match clocks.apply(CALLER, reading, cmd) {
        Ok(number) => add_accepted(text, clocks.keeper(), reading, number),
        Err(Refusal::Memory) => Err(ScriptError::Memory),
        Err(refusal) => line_no(text, refusal),
    }
}

/// Appends the line of an accepted command, with MONOTONIC at its reading. A request for a
/// frequency or a tick may give no command, so the reading may be after the last command's.
fn add_accepted<A: Allocator + Copy>(
    text: &mut Vec<u8, A>,
    keeper: &Timekeeper<A>,
    reading: u64,
    number: u64,
) -> Result<(), ScriptError>
    ensures line { OnOk result ((line : List ℕ)
        × IsAcceptedLine keeper.now.journal reading number
        (read_fault keeper.now.journal Monotonic reading) line
        × (text.new.items ≡ text.old.items ++ line)) }
    ensures err { IfErr result (λ error. error ≡ ScriptError.Memory) }
{
    match keeper.get(ClockId::Monotonic, reading) {
        Ok(time) => line_ok(text, number, time),
        Err(error) => line_no(text, error.into()),
    }
}

/// Does what a request asks for, and appends the line of its reply.
fn add_answer<A: Allocator + Copy>(
    text: &mut Vec<u8, A>,
    clocks: &mut Steered<A>,
    reading: u64,
    request: &Timex,
) -> Result<(), ScriptError>
    ensures line { OnOk result ((line : List ℕ)
        × IsAnswerLine clocks.old reading request.now line clocks.new
        × (text.new.items ≡ text.old.items ++ line)) }
    ensures err { IfErr result (λ error. error ≡ ScriptError.Memory) }
{
    match clocks.adjtimex(CALLER, reading, request) {
        Ok(reply) => line_adj(text, &reply, clocks.keeper().len() as u64),
        Err(Refusal::Memory) => Err(ScriptError::Memory),
        Err(refusal) => line_no(text, refusal),
    }
}

/// Lets the seconds up to a reading begin, if it isn't refused and as far as the journal has room.
pub(crate) fn begin_seconds<A: Allocator + Copy>(
    clocks: &mut Steered<A>,
    reading: u64,
) -> Result<(), ScriptError>
    ensures begun { OnOk result (IsLookAt clocks.old reading clocks.new) }
    ensures err { IfErr result (λ error. error ≡ ScriptError.Memory) }
{
    let _begun = unless_memory(clocks.advance(CALLER, reading))?;
    Ok(())
}
