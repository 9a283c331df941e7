ghost use Rattle.std.specs.Prelude.{◌≡◌, ℕ, List, Result, Some, map, string_bytes};
ghost use Rattle.std.specs.Process.{exit_status};
ghost use Rattle.std.specs.declared.io.ErrorKind.{ErrorKind};
ghost use Rattle.tk_command_line.specs.Request.{IsAllowed, task_of};
ghost use Rattle.tk_program.specs.Ending.{IsTold, status_of};
ghost use Rattle.tk_program.specs.Running.{Ends, IsRun, IsRunBy};
ghost use Rattle.tk_program.specs.Usage.{IsFollowed};
ghost use Rattle.tk_program.specs.declared.ending.Ending.{Ending};

use crate::arguments::{Arguments, words_of};
use crate::ending::Ending;
use crate::folder::Folder;
use crate::usage::write_usage;
use crate::{many, racing, tracing};
use std::alloc::Global;
use std::process::ExitCode;
use std::sync::Wait;
use std::thread::Threads;
use tk_command_line::{Request, asked};
use tk_report::{Sink, Source, replay_with};

/// Runs the program with these arguments, and returns how it ended. The first argument is the
/// program's name.
///
/// `replay` reads from `reader`; the other subcommands open their files in `folder`. All output
/// goes to `writer`. Reader and writer stay as they were if the arguments are refused. `many` waits
/// for the threads that make the reports, and `race` for its actors'. Several threads convert a
/// long trace.
pub fn run<E: Threads + Wait + Sync, D: Folder, R: Source, W: Sink>(
    alloc: Global,
    rt: &E,
    words: &[String],
    folder: &D,
    reader: &mut R,
    writer: &mut W,
) -> Ending
    ensures { IsRun R.Read.remaining R.Source.read_gives
        W.Write.contents W.Sink.write_gives W.Sink.flush_gives
        D.Folder.open_gives D.File.Read.remaining D.File.Source.read_gives
        folder.now reader.old reader.new writer.old writer.new
        (map string_bytes words.now) result }
{
    match asked(alloc, words) {
        Ok(request) => answer(alloc, rt, &request, folder, reader, writer),
        Err(error) => Ending::from(error),
    }
}

/// Carries out a request, and returns how it ended.
fn answer<E: Threads + Wait + Sync, D: Folder, R: Source, W: Sink>(
    alloc: Global,
    rt: &E,
    request: &Request<'_>,
    folder: &D,
    reader: &mut R,
    writer: &mut W,
) -> Ending
    requires { IsAllowed request.now }
    ensures { Ends R.Read.remaining R.Source.read_gives
        W.Write.contents W.Sink.write_gives W.Sink.flush_gives
        D.Folder.open_gives D.File.Read.remaining D.File.Source.read_gives
        folder.now reader.old reader.new writer.old writer.new
        (Some (task_of request.now)) result }
{
    match request {
        Request::Replay { keep } => Ending::of_replay(replay_with(alloc, reader, writer, *keep)),
        Request::Trace {
            clock,
            script,
            stamps,
        } => tracing::answer(alloc, rt, folder, writer, *clock, script, stamps),
        Request::Many { workers, files } => {
            many::answer(alloc, rt, folder, writer, *workers, files.as_slice())
        }
        Request::Race { step, files } => {
            racing::answer(alloc, rt, folder, writer, *step, files.as_slice())
        }
    }
}

/// Runs the program with all arguments of the process, as `run` does. Writes the ending's line of
/// error to `errors`, and then the usage to `writer` if the arguments are refused. Returns the exit
/// code.
///
/// A line or a usage that can't be written is left out, and doesn't change the exit code.
pub fn run_and_tell<E, R, W, T>(rt: &E, reader: &mut R, writer: &mut W, errors: &mut T) -> ExitCode
where
    E: AllocGlobal + Arguments + Folder + Threads + Wait + Sync,
    R: Source,
    W: Sink,
    T: Sink,
    ensures { (words : Result (List (List ℕ)) ErrorKind) × (ending : Ending) × (answered : W)
        × E.Arguments.args_give rt.now words
        × IsRunBy R.Read.remaining R.Source.read_gives
        W.Write.contents W.Sink.write_gives W.Sink.flush_gives
        E.Folder.open_gives E.File.Read.remaining E.File.Source.read_gives
        rt.now reader.old reader.new writer.old answered words ending
        × (exit_status result ≡ status_of ending)
        × IsTold T.Sink.write_gives errors.old errors.new ending
        × IsFollowed W.Write.contents W.Sink.write_gives W.Sink.flush_gives
        answered writer.new ending }
{
    match words_of(rt) {
        Ok(words) => {
            let ending = run(rt.alloc(), rt, words.as_slice(), rt, reader, writer);
            exit_code(ending, writer, errors)
        }
        Err(error) => exit_code(Ending::from(error), writer, errors),
    }
}

/// Writes the line of error of an ending, and the usage if the arguments were refused. Returns the
/// ending's exit code. A line or a usage that can't be written is left out.
fn exit_code<W: Sink, T: Sink>(ending: Ending, writer: &mut W, errors: &mut T) -> ExitCode
    ensures status { exit_status result ≡ status_of ending }
    ensures told { IsTold T.Sink.write_gives errors.old errors.new ending }
    ensures followed { IsFollowed W.Write.contents W.Sink.write_gives W.Sink.flush_gives
        writer.old writer.new ending }
{
    let _ = ending.tell(errors);
    write_usage(writer, ending);
    ExitCode::from(ending.status())
}
