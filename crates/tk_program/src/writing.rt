//! Writes the text of a subcommand, and a line of error.
ghost use Rattle.std.specs.Prelude.{◌<◌, length, OnOk};
ghost use Rattle.std.specs.Io.KnownBytes.{Appends};
ghost use Rattle.tk_program.specs.Ending.{IsWrittenOnce};
ghost use Rattle.tk_program.specs.Many.{EndsWriting};

use crate::ending::Ending;
use tk_report::{Fault, Sink, write_whole};

/// Writes a whole text. Returns `done` if it is written, and otherwise the fault of the write.
pub(crate) fn write_text<W: Sink>(writer: &mut W, text: &[u8], done: Ending) -> Ending
    ensures { EndsWriting W.Write.contents W.Sink.write_gives W.Sink.flush_gives
        writer.old writer.new text.now done result }
{
    match write_whole(writer, text) {
        Ok(()) => done,
        Err(written) => Ending::Fault(Fault::Write { written }),
    }
}

/// Writes a whole line with one call, and the rest of it only if the writer takes a part.
///
/// # Errors
///
/// Returns the number of bytes written, if a write failed or took no byte.
pub(crate) fn write_line<W: Sink>(writer: &mut W, line: &[u8]) -> Result<(), u64>
    requires { 0 < length line.now }
    ensures ok { OnOk result
        (Appends (W.Write.contents writer.old) (W.Write.contents writer.new) line.now) }
    ensures once { IsWrittenOnce W.Sink.write_gives writer.old writer.new line.now }
{
    let Some(first) = writer.write_once(line) else {
        return Err(0);
    };
    if first == line.len() {
        return Ok(());
    }
    match write_whole(writer, &line[first..]) {
        Ok(()) => Ok(()),
        Err(more) => Err(first as u64 + more),
    }
}
