ghost use Rattle.std.specs.Prelude.{◌≡◌};
ghost use Rattle.tk_report.specs.Reading.{ReadFailed};
ghost use Rattle.tk_replay.specs.Trace.{EitherFailed, IsTraceDone};

use crate::converting::trace_of;
use std::alloc::Global;
use std::thread::Threads;
use tk_clock::ClockId;
use tk_report::{Fault, Sink, Source, read_to_end, write_whole};

/// Reads a script and then a stamp file to their ends, writes the value of `clock` at each stamp,
/// in ns, one line each, and flushes. Without stamps it writes no byte.
///
/// A stamp's front is the number of accepted commands before it: the clock is read in the script's
/// journal at that front. After 1,048,576 accepted commands every further one is refused as `Full`.
///
/// It reads both inputs before it parses either, at most 16,777,217 bytes of each; the last of
/// these shows that the input is too large. It repeats no read or write, as `replay`.
///
/// Several threads convert the stamps if that is likely to save time, at most two for each
/// processor. If none can be started, the calling thread converts them. The calling thread does all
/// other work.
///
/// # Errors
///
/// Returns the first of these. `Memory` may replace any other result before the first byte is
/// written. Nothing is written, except with `Write`.
/// - `Fault::Read`: a read of the script failed, or after it a read of the stamp file
/// - `Fault::Script`: the script has a fault
/// - `Fault::Stamps`: the stamp file has a fault
/// - `Fault::Trace`: the first stamp in the file that can't be converted
/// - `Fault::Write`: a write or the flush failed; it contains the number of bytes written
pub fn trace<E: Threads + Sync, R: Source, S: Source, W: Sink>(
    alloc: Global,
    rt: &E,
    script: &mut R,
    stamps: &mut S,
    clock: ClockId,
    writer: &mut W,
) -> Result<(), Fault>
    ensures { IsTraceDone clock
        (R.Read.remaining script.old) (R.Read.remaining script.new)
        (S.Read.remaining stamps.old) (S.Read.remaining stamps.new)
        (EitherFailed (R.Read.remaining script.old) (R.Read.remaining script.new)
        (ReadFailed R.Source.read_gives script.new) (stamps.new ≡ stamps.old)
        (ReadFailed S.Source.read_gives stamps.new))
        W.Write.contents W.Sink.write_gives W.Sink.flush_gives writer.old writer.new result }
{
    let script = read_to_end(alloc, script)?;
    let stamps = read_to_end(alloc, stamps)?;
    let text = trace_of(alloc, rt, script.as_slice(), stamps.as_slice(), clock)?;
    match write_whole(writer, text.as_slice()) {
        Ok(()) => Ok(()),
        Err(written) => Err(Fault::Write { written }),
    }
}
