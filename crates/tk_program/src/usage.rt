//! Writes the usage.
ghost use Rattle.tk_program.specs.Usage.{IsFollowed};

use crate::ending::Ending;
use crate::writing::write_text;
use tk_report::Sink;

/// Lists the forms of the arguments, in twelve lines.
const USAGE: &[u8] = b"\
tkcore 0.3.0 computes the clocks of Linux from readings of a counter.\n\
\n  \
tkcore < SCRIPT                    writes the report of a script of commands\n  \
tkcore replay [--keep N] < SCRIPT  folds its journal to N entries, 1 to 524288\n  \
tkcore trace CLOCK SCRIPT STAMPS   writes CLOCK in ns at each stamp of a file\n  \
tkcore many WORKERS FILE..         writes reports, made by 1 to 64 threads\n  \
tkcore race STEP FILE..            runs scripts concurrently on shared clocks\n\
\n\
CLOCK: realtime, monotonic, boottime, tai, monotonic_raw, realtime_coarse or\n\
monotonic_coarse. A name that begins with - must come after --.\n\
Status: 0 done, 1 a fault, 2 these arguments refused, 3 a read differs.\n\
The manual page tkcore(1) describes scripts, reports and faults.\n";

/// Writes the usage if the arguments were refused, and otherwise nothing. A usage that can't be
/// written is left out.
pub(crate) fn write_usage<W: Sink>(writer: &mut W, ending: Ending)
    ensures { IsFollowed W.Write.contents W.Sink.write_gives W.Sink.flush_gives
        writer.old writer.new ending }
{
    match ending {
        Ending::Words => {
            let _ = write_text(writer, USAGE, Ending::Words);
        }
        _ => {}
    }
}
