//! Parses records for C.
ghost use Rattle.tk_session_c.specs.Rows.{IsParsed};

use crate::code::Code;
use crate::row_storage::RowStorage;
use tk_script::{is_line, row_in};

/// Parses the record with a number, 2 or more, of a script, and writes it to `row` (`row_in`).
///
/// A record is a line without its line feed. An empty line is no record: here its keyword is
/// unknown.
///
/// # Errors
///
/// Leaves `row` and returns, in this order:
///
/// - `Code::NotPlain` if the record contains a quote, a carriage return or a line feed;
/// - the code of the record's fault: `BadWord`, `BadFields`, `BadNumber`, or `BadBits` to
///   `BadAdjust`.
#[unsafe(no_mangle)]
pub extern "C" fn tkc_row_parse(row: &mut RowStorage, number: u64, line: &[u8]) -> u32
    ensures { IsParsed number line.now row.old row.new result }
{
    if !is_line(line) {
        return Code::NotPlain.number();
    }
    match row_in(number, line) {
        Ok(parsed) => {
            *row = RowStorage::of(&parsed);
            Code::Done.number()
        }
        Err(error) => Code::from(error).number(),
    }
}
