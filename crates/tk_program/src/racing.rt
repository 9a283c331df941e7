//! Runs the subcommand `race`.
ghost use Rattle.std.specs.Prelude.{◌≡◌, ◌↔◌, length, map, IfOk, IsTrue};
ghost use Rattle.std.specs.List.{All};
ghost use Rattle.tk_clock.specs.Journal.{accepted_count};
ghost use Rattle.tk_program.specs.Race.{EndsParts, EndsRace, EndsScripts, EndsWritten, IsOpenable, OpensAs, action_of, part_of};

use crate::ending::Ending;
use crate::folder::Folder;
use crate::openings::same_opening;
use crate::race_lines::race_text;
use crate::racer::Racer;
use crate::scripts::read_scripts;
use crate::writing::write_text;
use std::alloc::{AllocError, Global};
use std::sync::Wait;
use std::thread::Threads;
use tk_race::{Action, NoGate, RaceError, RaceReport, race};
use tk_report::{Fault, Sink};
use tk_script::Row;

/// Reads and parses the files, races an actor for each script, and writes the result.
///
/// The clocks are opened with the opening of the scripts, which must be the same for all. The
/// counter advances by `step` cycles at each command.
pub(crate) fn answer<E: Threads + Wait + Sync, D: Folder, W: Sink>(
    alloc: Global,
    rt: &E,
    folder: &D,
    writer: &mut W,
    step: u64,
    files: &[&str],
) -> Ending
    ensures { EndsRace W.Write.contents W.Sink.write_gives W.Sink.flush_gives
        writer.old writer.new
        D.Folder.open_gives D.File.Read.remaining D.File.Source.read_gives folder.now
        step files.now result }
{
    let scripts = match read_scripts(alloc, folder, files) {
        Ok(scripts) => scripts,
        Err(ending) => return ending,
    };
    match actors_of(alloc, scripts.as_slice()) {
        Ok(actors) => race_all(
            alloc,
            rt,
            writer,
            step,
            scripts.as_slice(),
            actors.as_slice(),
        ),
        Err(_) => Ending::Fault(Fault::Memory),
    }
}

/// Races these actors, one for each script, if all openings are the same.
fn race_all<E: Threads + Wait + Sync, W: Sink>(
    alloc: Global,
    rt: &E,
    writer: &mut W,
    step: u64,
    scripts: &[Racer],
    actors: &[Vec<Action>],
) -> Ending
    requires opens { All IsOpenable scripts.now }
    requires count { length actors.now ≡ length scripts.now }
    requires parts { map (λ a. a.items) actors.now ≡ map part_of scripts.now }
    ensures { EndsScripts W.Write.contents W.Sink.write_gives W.Sink.flush_gives
        writer.old writer.new step scripts.now result }
{
    let Some((first, others)) = scripts.split_first() else {
        return Ending::Race(RaceError::Count);
    };
    if open_alike(first, others) {
        race_as(alloc, rt, writer, step, first, actors)
    } else {
        Ending::Openings
    }
}

/// Races these actors on clocks with the script's opening, and writes the result.
fn race_as<E: Threads + Wait + Sync, W: Sink>(
    alloc: Global,
    rt: &E,
    writer: &mut W,
    step: u64,
    first: &Racer,
    actors: &[Vec<Action>],
) -> Ending
    requires { IsOpenable first.now }
    ensures { EndsParts W.Write.contents W.Sink.write_gives W.Sink.flush_gives
        writer.old writer.new
        step first.now (length actors.now) (map (λ a. a.items) actors.now) result }
{
    match race(
        alloc,
        rt,
        first.opening.desc,
        first.opening.reading,
        first.opening.real,
        step,
        actors,
        &NoGate,
    ) {
        Ok(report) => write_race(alloc, writer, &report),
        Err(error) => Ending::Race(error),
    }
}

/// Returns whether all others have the opening of the first script.
fn open_alike(first: &Racer, others: &[Racer]) -> bool
    ensures { IsTrue result ↔ All (OpensAs first.now) others.now }
{
    others
        .iter()
        .all(|other| same_opening(&first.opening, &other.opening))
}

/// Writes the lines of a race.
fn write_race<W: Sink>(alloc: Global, writer: &mut W, report: &RaceReport) -> Ending
    ensures { EndsWritten W.Write.contents W.Sink.write_gives W.Sink.flush_gives
        writer.old writer.new
        report.now.keeper.journal (map (λ r. r.items) report.now.replies.items) result }
{
    match race_text(alloc, report) {
        Ok(text) => write_text(writer, text.as_slice(), Ending::Done),
        Err(fault) => Ending::Fault(fault),
    }
}

/// Makes the part of each script.
fn actors_of(alloc: Global, scripts: &[Racer]) -> Result<Vec<Vec<Action>>, AllocError>
    ensures count { IfOk result (λ actors. length actors.items ≡ length scripts.now) }
    ensures parts { IfOk result (λ actors.
        map (λ a. a.items) actors.items ≡ map part_of scripts.now) }
{
    let mut actors = Vec::with_capacity(alloc, scripts.len())?;
    'scripts: for script in scripts {
        actors.push_reserved(part_in(alloc, script.rows.as_slice())?);
    }
    Ok(actors)
}

/// Makes the part of a script: an order for each command, and a read for each read of a clock.
fn part_in(alloc: Global, rows: &[Row]) -> Result<Vec<Action>, AllocError>
    ensures { IfOk result (λ actions. actions.items ≡ map action_of rows.now) }
{
    rows.iter().map(|row| action_in(row)).collect(alloc)
}

/// Returns the action for a row. No script of a race contains a change of counter or a request.
fn action_in(row: &Row) -> Action
    ensures { result ≡ action_of row.now }
{
    match row {
        Row::Act { cmd, .. } => Action::Order(*cmd),
        Row::Look { .. } | Row::Change { .. } | Row::Ask { .. } => Action::Look,
    }
}
