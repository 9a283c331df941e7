//! Parses the frequent forms of a record in a plain text in one pass over the bytes.
ghost use Rattle.std.specs.Prelude.{◌≡◌, ◌++◌, IfSome};
ghost use Rattle.memchr.specs.Find.{is_byte2};
ghost use Rattle.tk_script.specs.Plain.{FirstLineGives, IsExpected, Lacks};
ghost use Rattle.tk_script.specs.Rows.{row_of};
ghost use Rattle.tk_script.specs.Stamps.{stamp_of};

use crate::names::clock_word;
use crate::numbers::leading_number;
use crate::plain::after_line;
use crate::row::Row;
use tk_clock::Command;

/// Is parsed from the frequent forms of a record.
pub(crate) trait Frequent: Sized {
    ghost use Rattle.std.specs.Prelude.{ℕ, List, Result};
    ghost use Rattle.tk_script.specs.declared.script_error.ScriptError.{ScriptError};

    // The item of the record with this number and these fields, or the record's fault.
    ghost item_of: { ℕ → List (List ℕ) → Result Self ScriptError };

    /// Parses the item at the beginning of a text, and returns it and the text after its line.
    /// `None` means that the line has another form or a fault.
    fn leading(text: &[u8]) -> Option<(Self, &[u8])>
        ensures { IfSome result (λ found. FirstLineGives item_of text.now found.0 found.1.now) };
}

impl Frequent for Row {
    ghost item_of = { row_of };

    #[inline(always)]
    fn leading(text: &[u8]) -> Option<(Row, &[u8])> {
        match leading_update(text) {
            Some(found) => Some(found),
            None => leading_look(text),
        }
    }
}

impl Frequent for (u64, u64) {
    ghost item_of = { stamp_of };

    #[inline(always)]
    fn leading(text: &[u8]) -> Option<((u64, u64), &[u8])> {
        let (front, end) = leading_number(text)?;
        let (stamp, end) = leading_number(skip(end, b",")?)?;
        let rest = after_line(end)?;
        Some(((front, stamp), rest))
    }
}

/// Parses an update, and returns its row and the text after its line.
#[inline(always)]
fn leading_update(text: &[u8]) -> Option<(Row, &[u8])>
    ensures { IfSome result (λ found. FirstLineGives row_of text.now found.0 found.1.now) }
{
    let (reading, end) = leading_number(skip(text, b"update,")?)?;
    let rest = after_line(end)?;
    let cmd = Command::Update;
    Some((Row::Act { reading, cmd }, rest))
}

/// Parses a read, and returns its row and the text after its line.
#[inline(always)]
fn leading_look(text: &[u8]) -> Option<(Row, &[u8])>
    ensures { IfSome result (λ found. FirstLineGives row_of text.now found.0 found.1.now) }
{
    let (reading, end) = leading_number(skip(text, b"get,")?)?;
    let (word, end) = leading_field(skip(end, b",")?);
    let clock = clock_word(word)?;
    let (expected, end) = leading_expected(end)?;
    let rest = after_line(end)?;
    let row = Row::Look {
        reading,
        clock,
        expected,
    };
    Some((row, rest))
}

/// Parses the value that a read expects, after its clock, if there is one. Most reads have none.
#[inline(always)]
fn leading_expected(text: &[u8]) -> Option<(Option<u64>, &[u8])>
    ensures { IfSome result (λ found. IsExpected text.now found.0 found.1.now) }
{
    let Some(field) = skip(text, b",") else {
        return Some((None, text));
    };
    let (value, rest) = leading_number(field)?;
    Some((Some(value), rest))
}

/// Returns the field at the beginning of a text, and the text after it. The field is usually short.
fn leading_field(text: &[u8]) -> (&[u8], &[u8])
    ensures split { text.now ≡ result.0.now ++ result.1.now }
    ensures whole { Lacks (is_byte2 44 10) result.0.now }
{
    for i in 0..text.len() {
        if text[i] == b',' || text[i] == b'\n' {
            return text.split_at(i);
        }
    }
    (text, &[])
}

/// Returns the text after these bytes, if it begins with them. The compiler knows the few bytes at
/// each call, so it unrolls the loop.
#[inline(always)]
fn skip<'a>(text: &'a [u8], beginning: &[u8]) -> Option<&'a [u8]>
    ensures { IfSome result (λ rest. text.now ≡ beginning.now ++ rest.now) }
{
    if text.len() < beginning.len() {
        return None;
    }
    for i in 0..beginning.len() {
        if text[i] != beginning[i] {
            return None;
        }
    }
    Some(&text[beginning.len()..])
}
