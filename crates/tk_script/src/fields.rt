ghost use Rattle.std.specs.Prelude.{◌≡◌, ◌+◌, ◌<◌};
ghost use Rattle.tk_script.specs.Word.{is_word};
ghost use Rattle.tk_script.specs.Field as spec;

use crate::names::clock_word;
use crate::numbers::{number, number8, number32, signed};
use crate::record::Record;
use crate::script_error::ScriptError;
use tk_clock::{ClockId, Timespec};

/// The number of fields of the longest record except `openwords` with a discipline: those that a
/// plain line keeps.
pub(crate) const MOST_FIELDS: usize = 16;

/// Returns whether the bytes are this keyword. Most keywords differ in length. The compiler knows
/// the keyword at each call, so it compares a few words of the machine.
#[inline(always)]
pub(crate) fn has_word(bytes: &[u8], word: &[u8]) -> bool
    ensures { result ≡ is_word bytes.now word.now }
{
    bytes.len() == word.len() && bytes == word
}

/// Returns the field at an index, or an empty field after the last one.
pub(crate) fn field<'a, R: Record>(fields: &'a R, i: usize) -> &'a [u8]
    ensures { result.now ≡ spec.field (R.fields fields.now) i }
{
    fields.get(i).unwrap_or(&[])
}

/// Parses an unsigned 64-bit number in the record `row`.
pub(crate) fn number_at<R: Record>(row: u64, fields: &R, i: usize) -> Result<u64, ScriptError>
    ensures { result ≡ spec.number_at row (R.fields fields.now) i }
{
    number(field(fields, i)).ok_or(ScriptError::Number { row })
}

/// Parses the reading of a record that has `count` fields.
#[tactic(auto, unfolding(crate::specs::Field::reading_of))]
pub(crate) fn reading_of<R: Record>(row: u64, fields: &R, count: usize) -> Result<u64, ScriptError>
    ensures { result ≡ spec.reading_of row (R.fields fields.now) count }
{
    if fields.len() != count {
        return Err(ScriptError::Fields { row });
    }
    number_at(row, fields, 1)
}

/// Parses an unsigned 8-bit number.
pub(crate) fn number8_at<R: Record>(row: u64, fields: &R, i: usize) -> Result<u8, ScriptError>
    ensures { result ≡ spec.number8_at row (R.fields fields.now) i }
{
    number8(field(fields, i)).ok_or(ScriptError::Number { row })
}

/// Parses an unsigned 32-bit number.
pub(crate) fn number32_at<R: Record>(row: u64, fields: &R, i: usize) -> Result<u32, ScriptError>
    ensures { result ≡ spec.number32_at row (R.fields fields.now) i }
{
    number32(field(fields, i)).ok_or(ScriptError::Number { row })
}

/// Parses a signed 64-bit number.
pub(crate) fn signed_at<R: Record>(row: u64, fields: &R, i: usize) -> Result<i64, ScriptError>
    ensures { result ≡ spec.signed_at row (R.fields fields.now) i }
{
    signed(field(fields, i)).ok_or(ScriptError::Number { row })
}

/// Parses seconds, and nanoseconds in the next field.
#[tactic(auto, unfolding(crate::specs::Field::time_at))]
pub(crate) fn time_at<R: Record>(row: u64, fields: &R, i: usize) -> Result<Timespec, ScriptError>
    requires { i < 15 }
    ensures { result ≡ spec.time_at row (R.fields fields.now) i }
{
    let sec = signed_at(row, fields, i)?;
    let nsec = number32_at(row, fields, i + 1)?;
    Ok(Timespec { sec, nsec })
}

/// Parses a clock's name.
pub(crate) fn clock_at<R: Record>(row: u64, fields: &R, i: usize) -> Result<ClockId, ScriptError>
    ensures { result ≡ spec.clock_at row (R.fields fields.now) i }
{
    clock_word(field(fields, i)).ok_or(ScriptError::Word { row })
}
