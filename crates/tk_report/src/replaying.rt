ghost use Rattle.std.specs.Prelude.{◌≤◌};
ghost use Rattle.std.specs.Option.{ForSome};
ghost use Rattle.tk_clock.specs.Limits.{most_kept};
ghost use Rattle.tk_clock.specs.Refusal.{clock_refusal, first_refusal};
ghost use Rattle.tk_report.specs.Folding.{rule_of};
ghost use Rattle.tk_report.specs.Reading.{ReadFailed};
ghost use Rattle.tk_report.specs.Reports.{IsReportBy};
ghost use Rattle.tk_report.specs.Replay.{IsReplayed};

use crate::fault::Fault;
use crate::reporting::report_by;
use crate::sink::{Sink, write_whole};
use crate::source::{Source, read_to_end};
use std::alloc::Global;

/// Reads a script to its end, makes its report as `report` does, writes it and flushes. Returns the
/// number of reads that do not give the value that their record states.
///
/// It reads at most 16,777,217 bytes; the last of these shows that the script is too large. It
/// repeats no read or write: an interrupted one (EINTR) is a fault.
///
/// # Errors
///
/// Nothing is written, except with `Write`:
/// - `Fault::Read`: a read failed
/// - `Fault::Script`: the script has a fault
/// - `Fault::Memory`: an allocation failed; it may replace any other result before the first write
/// - `Fault::Write`: a write or the flush failed; it contains the number of bytes written
pub fn replay<R: Source, W: Sink>(
    alloc: Global,
    reader: &mut R,
    writer: &mut W,
) -> Result<u64, Fault>
    ensures { IsReplayed (IsReportBy first_refusal)
        (R.Read.remaining reader.old) (R.Read.remaining reader.new)
        (ReadFailed R.Source.read_gives reader.new)
        W.Write.contents W.Sink.write_gives W.Sink.flush_gives writer.old writer.new result }
{
    replay_with(alloc, reader, writer, None)
}

/// Reads a script to its end, makes its report as `report_bounded` does, writes it and flushes.
/// Returns the same number as `replay`.
///
/// `keep` is from 1 to 524,288, and changes no line. No command is refused as `Full`, unless a
/// discipline steers the clocks: their journal is never folded.
///
/// # Errors
///
/// Returns the same faults as `replay`.
pub fn replay_bounded<R: Source, W: Sink>(
    alloc: Global,
    reader: &mut R,
    writer: &mut W,
    keep: u64,
) -> Result<u64, Fault>
    requires { (1 ≤ keep) × (keep ≤ most_kept) }
    ensures { IsReplayed (IsReportBy clock_refusal)
        (R.Read.remaining reader.old) (R.Read.remaining reader.new)
        (ReadFailed R.Source.read_gives reader.new)
        W.Write.contents W.Sink.write_gives W.Sink.flush_gives writer.old writer.new result }
{
    replay_with(alloc, reader, writer, Some(keep))
}

/// Does the same as `replay` without `keep`, and the same as `replay_bounded` with `keep`.
///
/// `keep` is at most 524,288. Without it, a full journal refuses commands. With it, no command is
/// refused as `Full`, unless a discipline steers the clocks.
///
/// # Errors
///
/// Returns the same faults as `replay`.
pub fn replay_with<R: Source, W: Sink>(
    alloc: Global,
    reader: &mut R,
    writer: &mut W,
    keep: Option<u64>,
) -> Result<u64, Fault>
    requires { ForSome keep (λ n. n ≤ most_kept) }
    ensures { IsReplayed (IsReportBy (rule_of keep))
        (R.Read.remaining reader.old) (R.Read.remaining reader.new)
        (ReadFailed R.Source.read_gives reader.new)
        W.Write.contents W.Sink.write_gives W.Sink.flush_gives writer.old writer.new result }
{
    let script = read_to_end(alloc, reader)?;
    let report = report_by(alloc, script.as_slice(), keep)?;
    match write_whole(writer, report.text.as_slice()) {
        Ok(()) => Ok(report.differences),
        Err(written) => Err(Fault::Write { written }),
    }
}
