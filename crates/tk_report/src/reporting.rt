ghost use Rattle.std.specs.Prelude.{◌≡◌, ◌++◌, ◌<◌, ◌≤◌, List, ℕ, Option, OnOk, IfOk, IfErr, Result, MatchResult, None};
ghost use Rattle.std.specs.Option.{ForSome};
ghost use Rattle.tk_clock.specs.Journal.{Journal};
ghost use Rattle.tk_clock.specs.Limits.{counted_most, most_kept};
ghost use Rattle.tk_clock.specs.Run.{Reply};
ghost use Rattle.tk_clock.specs.Snapshot.{snapshot_of};
ghost use Rattle.tk_clock.specs.Time.{nanoseconds};
ghost use Rattle.tk_keeper.specs.Read.{read_fault};
ghost use Rattle.tk_script.specs.Coming.{IsReady, coming, opened_with};
ghost use Rattle.tk_script.specs.Lines.{IsWritable};
ghost use Rattle.tk_script.specs.Grammar.{Fails, parse_of};
ghost use Rattle.tk_script.specs.Start.{IsOpenable};
ghost use Rattle.tk_report.specs.Beginnings.{start_of};
ghost use Rattle.tk_report.specs.CountedClocks.{ForKept, IsKept, IsReplied};
ghost use Rattle.tk_report.specs.Folding.{rule_of};
ghost use Rattle.tk_report.specs.Report.{IsLine, IsLookLine, IsPlainReportOfRows, after, differences_of, event, missed, missed_at, missed_if, reply_by, reply_line};
ghost use Rattle.tk_report.specs.Reports.{IsReport, IsReportBy, IsReportUnlimited};

use crate::checked_report::CheckedReport;
use crate::counted_clocks::CountedClocks;
use crate::obeying::{Obeys, obey_all};
use crate::plain_start::PlainStart;
use crate::report_lines::Lines;
use crate::row_reporting::report_rows;
use std::alloc::{Allocator, Global};
use tk_clock::{ClockId, Command, Refusal, Snapshot, Timespec};
use tk_counter::NANOS_PER_SECOND;
use tk_script::{Calendar, Row, RowReader, ScriptError, line_no, line_ok};

/// Makes the report of a script's bytes: a line for the opening, and one for each later record.
///
/// Commands are applied in their order, all with the caller 0. The line of an accepted command
/// gives MONOTONIC at its reading, and the line of a change of counter at the new counter's. After
/// 1,048,576 accepted commands every further one is refused as `Full`, until the counter changes.
///
/// # Errors
///
/// Returns the script's first fault, in the order of `ScriptError`. `Memory` may replace any other
/// result.
pub fn report(alloc: Global, script: &[u8]) -> Result<Vec<u8>, ScriptError>
    ensures { MatchResult result
        (λ text. IsReport script.now text.items)
        (λ error. Fails error (parse_of script.now)) }
{
    Ok(report_by(alloc, script, None)?.text)
}

/// Makes the report of a script's bytes by a journal that is never full, so that no command is
/// refused as `Full`, unless a discipline steers the clocks: their journal is never folded.
///
/// It is the report of a journal that is folded to its last `keep` entries, from 1 to 524,288, when
/// it is full. No line shows what a journal lists. So no command is listed, and `keep` changes no
/// line.
///
/// # Errors
///
/// Returns the same errors as `report`.
pub fn report_bounded(alloc: Global, script: &[u8], keep: u64) -> Result<Vec<u8>, ScriptError>
    requires { (1 ≤ keep) × (keep ≤ most_kept) }
    ensures { MatchResult result
        (λ text. IsReportUnlimited script.now text.items)
        (λ error. Fails error (parse_of script.now)) }
{
    Ok(report_by(alloc, script, Some(keep))?.text)
}

/// Makes the report of a script's bytes and counts its differences. Without `keep`, a full journal
/// refuses commands.
pub(crate) fn report_by(
    alloc: Global,
    script: &[u8],
    keep: Option<u64>,
) -> Result<CheckedReport, ScriptError>
    requires { ForSome keep (λ n. n ≤ most_kept) }
    ensures { MatchResult result
        (λ report. IsReportBy (rule_of keep) script.now report.text.items report.differences)
        (λ error. Fails error (parse_of script.now)) }
{
    let (start, mut rows) = RowReader::open(alloc, script)?;
    report_rows(alloc, start, &mut rows, keep)
}

/// Makes the report of `report_rows` for clocks that no discipline steers.
pub(crate) fn report_plain<A: Allocator + Copy>(
    alloc: A,
    start: PlainStart,
    rows: &mut RowReader<'_>,
    keep: Option<u64>,
) -> Result<CheckedReport<A>, ScriptError>
    requires opens { IsOpenable (start_of start) }
    requires ready { IsReady rows.old }
    ensures { let rule = rule_of keep in let script = start_of start in MatchResult result
        (λ report. IsPlainReportOfRows rule script (coming rows.old) report.text.items
        × (report.differences ≡ differences_of rule (opened_with script (coming rows.old))))
        (λ error. Fails error (coming rows.old)) }
{
    let clocks = CountedClocks::begin(start, keep);
    let lines = Lines::open(alloc, &clocks.snapshot().desc())?;
    let mut report = PlainReport { clocks, lines };
    obey_all(&mut report, rows)?;
    Ok(report.lines.finish())
}

/// Contains a report so far, and its clocks, which no discipline steers.
#[derive(Drop)]
struct PlainReport<A: Allocator> {
    clocks: CountedClocks,
    lines: Lines<A>,
}

impl<A: Allocator + Copy> Obeys for PlainReport<A> {
    ghost use Rattle.tk_report.specs.PlainSteps.{HasRoomFor, IsPlainStep, leaves_room};

    ghost does = { IsPlainStep };

    ghost has_room = { HasRoomFor };

    ghost leaves = { leaves_room };

    #[inline(always)]
    fn obey(&mut self, row: Row) -> Result<(), ScriptError> {
        let lines = &mut self.lines;
        let missed = add_line(&mut lines.text, &mut lines.calendar, &mut self.clocks, row)?;
        self.lines.note(missed)
    }
}

/// Applies a record's command, reads its clock, changes the counter, or refuses its request, and
/// appends the line. Returns the expected value that the read does not give, in ns, if there is
/// one.
#[inline(always)]
fn add_line<A: Allocator + Copy>(
    text: &mut Vec<u8, A>,
    calendar: &mut Calendar<A>,
    clocks: &mut CountedClocks,
    row: Row,
) -> Result<Option<u64>, ScriptError>
    requires { clocks.old.count < counted_most }
    ensures ok { ForKept clocks.old (λ keep journal. IfOk result (λ value.
        ((line : List ℕ) × IsLine (rule_of keep) journal row line
        × (text.new.items ≡ text.old.items ++ line))
        × IsKept keep clocks.new (after (rule_of keep) journal row)
        × (value ≡ missed journal row))) }
    ensures err { IfErr result (λ error. error ≡ ScriptError.Memory) }
{
    match row {
        Row::Act { reading, cmd } => {
            add_reply(text, clocks, reading, cmd)?;
            Ok(None)
        }
        Row::Look {
            reading,
            clock,
            expected,
        } => add_look(text, calendar, &clocks.snapshot(), reading, clock, expected),
        Row::Change {
            reading,
            desc,
            first,
        } => {
            let answer = clocks.change_counter(reading, desc, first);
            add_answer(text, clocks, answer)?;
            Ok(None)
        }
        // no discipline steers the clocks
        Row::Ask { .. } => {
            line_no(text, Refusal::Invalid)?;
            Ok(None)
        }
    }
}

/// Applies a command and appends the line of its answer. It is a separate function, so that the
/// loop over the rows has few values to keep.
#[inline(never)]
fn add_reply<A: Allocator>(
    text: &mut Vec<u8, A>,
    clocks: &mut CountedClocks,
    reading: u64,
    cmd: Command,
) -> Result<(), ScriptError>
    requires { clocks.old.count < counted_most }
    ensures line { ForKept clocks.old (λ keep journal. OnOk result (text.new.items
        ≡ text.old.items ++ reply_line reading
        (reply_by (rule_of keep) journal (event reading cmd)))) }
    ensures kept { ForKept clocks.old (λ keep journal. IsKept keep clocks.new
        (reply_by (rule_of keep) journal (event reading cmd)).journal) }
    ensures err { IfErr result (λ error. error ≡ ScriptError.Memory) }
{
    let answer = clocks.apply(reading, cmd);
    add_answer(text, clocks, answer)
}

/// Appends the line of an answer. The line of an accepted command or change gives MONOTONIC at the
/// reading to which it brought the clocks forward.
#[inline(always)]
fn add_answer<A: Allocator>(
    text: &mut Vec<u8, A>,
    clocks: &CountedClocks,
    answer: Result<u64, Refusal>,
) -> Result<(), ScriptError>
    ensures line { (keep : Option ℕ) (reading : ℕ) (reply : Reply) →
        IsReplied keep reading answer clocks.now reply →
        OnOk result (text.new.items ≡ text.old.items ++ reply_line reading reply) }
    ensures err { IfErr result (λ error. error ≡ ScriptError.Memory) }
{
    match answer {
        Ok(number) => line_ok(text, number, clocks.monotonic()),
        Err(refusal) => line_no(text, refusal),
    }
}

/// Reads a clock and appends its line. Returns the expected value that the read does not give.
#[inline(always)]
pub(crate) fn add_look<A: Allocator + Copy>(
    text: &mut Vec<u8, A>,
    calendar: &mut Calendar<A>,
    now: &Snapshot,
    reading: u64,
    clock: ClockId,
    expected: Option<u64>,
) -> Result<Option<u64>, ScriptError>
    ensures ok { (journal : Journal) → now.now ≡ snapshot_of journal → IfOk result (λ value.
        ((line : List ℕ)
        × IsLookLine journal clock reading (read_fault journal clock reading) line
        × (text.new.items ≡ text.old.items ++ line))
        × (value ≡ missed_at journal clock reading expected)) }
    ensures err { IfErr result (λ error. error ≡ ScriptError.Memory) }
{
    match now.get(clock, reading) {
        Ok(time) => {
            calendar.line_at(text, clock, time)?;
            Ok(missed_by(time, expected))
        }
        Err(error) => {
            line_no(text, error.into())?;
            Ok(expected)
        }
    }
}

/// Returns the expected value of a read, unless it is the time in ns.
pub fn missed_by(time: Timespec, expected: Option<u64>) -> Option<u64>
    requires { IsWritable time }
    ensures { result ≡ missed_if None (nanoseconds time) expected }
{
    let nanos = time.sec as u64 * NANOS_PER_SECOND + u64::from(time.nsec);
    match expected {
        Some(value) if value == nanos => None,
        missed => missed,
    }
}
