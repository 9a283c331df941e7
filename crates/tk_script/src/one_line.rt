//! Parses one record of a plain text, and takes no memory from an allocator.
ghost use Rattle.std.specs.Prelude.{◌≡◌, IfOk};
ghost use Rattle.tk_script.specs.Opening.{start_of};
ghost use Rattle.tk_script.specs.Plain.{cut_at_commas, is_plain_line};
ghost use Rattle.tk_script.specs.Rows.{row_of};
ghost use Rattle.tk_script.specs.Start.{IsOpenable};

use crate::opening::{Start, read_start};
use crate::plain::Lines;
use crate::row::{Row, read_row};
use crate::script_error::ScriptError;
use memchr::memchr3;

/// Returns whether a line contains no quote, no carriage return and no line feed. The fields of such
/// a record are the parts between its commas.
pub fn is_line(line: &[u8]) -> bool
    ensures { result ≡ is_plain_line line.now }
{
    memchr3(b'"', b'\r', b'\n', line).is_none()
}

/// Parses a plain line as the first record of a script. Clocks can begin as it says.
///
/// # Errors
///
/// - `Opening`, `Fields`, `Number`: the fault of the record
pub fn start_in(line: &[u8]) -> Result<Start, ScriptError>
    ensures value { result ≡ start_of (cut_at_commas line.now) }
    // clocks can begin in this way
    ensures opens { IfOk result IsOpenable }
{
    read_start(&Lines::of(line))
}

/// Parses a plain line as the record `row` of a script, 2 or more.
///
/// # Errors
///
/// - `Word`, `Fields`, `Number`, `Counter`: the fault of the record
pub fn row_in(row: u64, line: &[u8]) -> Result<Row, ScriptError>
    ensures { result ≡ row_of row (cut_at_commas line.now) }
{
    read_row(row, &Lines::of(line))
}
