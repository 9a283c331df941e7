//! Makes the report of rows, by the way in which the clocks begin.
ghost use Rattle.std.specs.Prelude.{◌≤◌, MatchResult};
ghost use Rattle.std.specs.Option.{ForSome};
ghost use Rattle.tk_clock.specs.Limits.{most_kept};
ghost use Rattle.tk_script.specs.Coming.{IsReady, coming};
ghost use Rattle.tk_script.specs.Grammar.{Fails};
ghost use Rattle.tk_script.specs.Start.{IsOpenable};
ghost use Rattle.tk_report.specs.Folding.{rule_of};
ghost use Rattle.tk_report.specs.Reports.{IsReportOfRows};

use crate::beginning::{Beginning, begin};
use crate::checked_report::CheckedReport;
use crate::reporting::report_plain;
use crate::steered_reporting::report_steered;
use std::alloc::Allocator;
use tk_script::{RowReader, ScriptError, Start};

/// Makes the report of an opening and of the remaining rows of `rows`, and counts the reads that do
/// not give the value that their record states.
///
/// One call of `RowReader::open` must have returned `start` and `rows`. With `keep`, at most
/// 524,288, the report is made as `report_bounded` does, and otherwise as `report` does. The report,
/// and the journal of steered clocks, are allocated from `alloc`; the reader of the rows allocates
/// from its own allocator.
///
/// # Errors
///
/// Returns the first fault of the rows. `Memory` may replace any other result.
pub fn report_rows<A: Allocator + Copy>(
    alloc: A,
    start: Start,
    rows: &mut RowReader<'_>,
    keep: Option<u64>,
) -> Result<CheckedReport<A>, ScriptError>
    requires opens { IsOpenable start }
    requires ready { IsReady rows.old }
    requires keep { ForSome keep (λ n. n ≤ most_kept) }
    ensures { MatchResult result
        (λ report. IsReportOfRows (rule_of keep) start (coming rows.old) report.text.items
        report.differences)
        (λ error. Fails error (coming rows.old)) }
{
    match begin(alloc, start) {
        Beginning::Plain(start) => report_plain(alloc, start, rows, keep),
        Beginning::Steered(clocks) => report_steered(alloc, clocks, rows),
    }
}
