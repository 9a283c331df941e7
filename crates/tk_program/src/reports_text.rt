//! Makes the text of many scripts' reports.
ghost use Rattle.std.specs.Prelude.{◌≡◌, ◌++◌, OnOk, MatchResult};
ghost use Rattle.tk_program.specs.ManyText.{heading, outcome_text, text_from};

use std::alloc::{AllocError, Allocator};
use std::io::Write;
use tk_report::{CheckedReport, Fault};
use tk_script::ScriptError;

/// More bytes than a heading and the line of a fault need.
const LINES: usize = 100;

/// Joins the reports of scripts into one text: for each script the line `file,INDEX`, from 0, and
/// then its report, or the line `fault,TEXT` if it has a fault.
///
/// It first reserves the capacity for the whole text.
///
/// # Errors
///
/// - `Fault::Memory`: an allocation failed
pub fn many_text<A: Allocator>(
    alloc: A,
    outcomes: &[Result<CheckedReport, ScriptError>],
) -> Result<Vec<u8, A>, Fault>
    ensures { MatchResult result
        (λ text. text.items ≡ text_from 0 outcomes.now)
        (λ fault. fault ≡ Fault.Memory) }
{
    let mut text = Vec::with_capacity(alloc, room_for(outcomes))?;
    for (index, outcome) in outcomes.iter().enumerate() {
        add_heading(&mut text, index)?;
        add_outcome(&mut text, outcome)?;
    }
    Ok(text)
}

/// Returns at least the number of bytes of the text, or `usize::MAX` if that is more.
fn room_for(outcomes: &[Result<CheckedReport, ScriptError>]) -> usize {
    let mut room = 0usize;
    for outcome in outcomes {
        let report = match outcome {
            Ok(report) => report.text.len(),
            Err(_) => 0,
        };
        room = room.saturating_add(LINES).saturating_add(report);
    }
    room
}

/// Appends the line above a script's report.
fn add_heading<A: Allocator>(text: &mut Vec<u8, A>, index: usize) -> Result<(), AllocError>
    ensures { OnOk result (text.new.items ≡ text.old.items ++ heading index) }
{
    writeln!(text, "file,{index}").map_err(|_| AllocError)
}

/// Appends a script's report, or a line with the text of its fault.
fn add_outcome<A: Allocator>(
    text: &mut Vec<u8, A>,
    outcome: &Result<CheckedReport, ScriptError>,
) -> Result<(), AllocError>
    ensures { OnOk result (text.new.items ≡ text.old.items ++ outcome_text outcome.now) }
{
    match outcome {
        Ok(report) => text.extend_from_slice(report.text.as_slice()),
        Err(error) => writeln!(text, "fault,{error}").map_err(|_| AllocError),
    }
}
