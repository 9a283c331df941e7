//! Runs the subcommand `trace`.
ghost use Rattle.tk_program.specs.Running.{EndsTrace};

use crate::ending::Ending;
use crate::folder::Folder;
use std::alloc::Global;
use std::thread::Threads;
use tk_clock::ClockId;
use tk_replay::trace;
use tk_report::{Fault, Sink};

/// Converts the stamps of one file by the script in another, and writes the lines.
///
/// It opens both files before it reads either. Both names may name one file, which it then opens
/// twice.
pub(crate) fn answer<E: Threads + Sync, D: Folder, W: Sink>(
    alloc: Global,
    rt: &E,
    folder: &D,
    writer: &mut W,
    clock: ClockId,
    script: &str,
    stamps: &str,
) -> Ending
    ensures { EndsTrace W.Write.contents W.Sink.write_gives W.Sink.flush_gives
        writer.old writer.new
        D.Folder.open_gives D.File.Read.remaining D.File.Source.read_gives folder.now
        clock script.now stamps.now result }
{
    let Some(mut script) = folder.open_once(script) else {
        return Ending::Fault(Fault::Read);
    };
    let Some(mut stamps) = folder.open_once(stamps) else {
        return Ending::Fault(Fault::Read);
    };
    let outcome = trace(alloc, rt, &mut script, &mut stamps, clock, writer);
    Ending::from(outcome)
}
