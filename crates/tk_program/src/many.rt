//! Runs the subcommand `many`.
ghost use Rattle.std.specs.Prelude.{◌≡◌, ◌≤◌, is_ok};
ghost use Rattle.std.specs.List.{list_all};
ghost use Rattle.tk_pieces.specs.Workers.{most_workers};
ghost use Rattle.tk_program.specs.Many.{EndsMany, EndsReplays, EndsTelling, ending_of_outcomes, is_agreeing};

use crate::ending::Ending;
use crate::files::read_files;
use crate::folder::Folder;
use crate::reports_text::many_text;
use crate::writing::write_text;
use std::alloc::Global;
use std::sync::Wait;
use std::thread::Threads;
use tk_race::NoGate;
use tk_replay::replay_all;
use tk_report::{CheckedReport, Fault, Sink};
use tk_script::ScriptError;

/// Reads all files, makes the reports of their scripts on `workers` threads, and writes them.
pub(crate) fn answer<E: Threads + Wait + Sync, D: Folder, W: Sink>(
    alloc: Global,
    rt: &E,
    folder: &D,
    writer: &mut W,
    workers: u64,
    files: &[&str],
) -> Ending
    requires { (1 ≤ workers) × (workers ≤ most_workers) }
    ensures { EndsMany W.Write.contents W.Sink.write_gives W.Sink.flush_gives
        writer.old writer.new
        D.Folder.open_gives D.File.Read.remaining D.File.Source.read_gives folder.now
        files.now result }
{
    match read_files(alloc, folder, files) {
        Ok(texts) => replay_texts(alloc, rt, writer, workers, texts.as_slice()),
        Err(fault) => Ending::Fault(fault),
    }
}

/// Makes the reports of the scripts with these texts, and writes them.
fn replay_texts<E: Threads + Wait + Sync, W: Sink>(
    alloc: Global,
    rt: &E,
    writer: &mut W,
    workers: u64,
    texts: &[Vec<u8>],
) -> Ending
    requires { (1 ≤ workers) × (workers ≤ most_workers) }
    ensures { EndsReplays W.Write.contents W.Sink.write_gives W.Sink.flush_gives
        writer.old writer.new texts.now result }
{
    match replay_all(alloc, rt, texts, workers as usize, &NoGate) {
        Ok(outcomes) => write_reports(alloc, writer, outcomes.as_slice()),
        Err(error) => Ending::Many(error),
    }
}

/// Writes reports and faults. Returns `Faulty` if a script has a fault, and otherwise `Differs` if a
/// read does not give the value that it expects.
fn write_reports<W: Sink>(
    alloc: Global,
    writer: &mut W,
    outcomes: &[Result<CheckedReport, ScriptError>],
) -> Ending
    ensures { EndsTelling W.Write.contents W.Sink.write_gives W.Sink.flush_gives
        writer.old writer.new outcomes.now result }
{
    match many_text(alloc, outcomes) {
        Ok(text) => write_text(writer, text.as_slice(), ending_of(outcomes)),
        Err(_) => Ending::Fault(Fault::Memory),
    }
}

/// Returns the ending after all outcomes are written.
fn ending_of(outcomes: &[Result<CheckedReport, ScriptError>]) -> Ending
    ensures { result ≡ ending_of_outcomes outcomes.now }
{
    if are_agreeing(outcomes) {
        Ending::Done
    } else if are_whole(outcomes) {
        Ending::Differs
    } else {
        Ending::Faulty
    }
}

/// Returns whether no script has a fault or a difference.
fn are_agreeing(outcomes: &[Result<CheckedReport, ScriptError>]) -> bool
    ensures { result ≡ list_all is_agreeing outcomes.now }
{
    outcomes.iter().all(|outcome| is_agreeing(outcome))
}

/// Returns whether a script has neither a fault nor a difference.
fn is_agreeing(outcome: &Result<CheckedReport, ScriptError>) -> bool
    ensures { result ≡ is_agreeing outcome.now }
{
    match outcome {
        Ok(report) => report.differences == 0,
        Err(_) => false,
    }
}

/// Returns whether no script has a fault.
fn are_whole(outcomes: &[Result<CheckedReport, ScriptError>]) -> bool
    ensures { result ≡ list_all is_ok outcomes.now }
{
    outcomes.iter().all(|outcome| outcome.is_ok())
}
