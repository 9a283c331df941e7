ghost use Rattle.std.specs.Prelude.{◌≡◌, ◌<◌, ℕ, List, Some, true, IfOk, IfErr, IfSome, IfNone};
ghost use Rattle.csv.specs.Reading.{error_kind};
ghost use Rattle.csv.specs.Records as csv_records;
ghost use Rattle.tk_script.specs.Cursor.{IsCursor, TakesGiving, fields_of, left_in};
ghost use Rattle.tk_script.specs.Reading.{IsReading, IsWantOfMemory, Takes, left_of};
ghost use Rattle.tk_script.specs.Records.{records_of};

use crate::frequent::Frequent;
use crate::plain::{Lines, is_plain};
use crate::record::Record;
use crate::script_error::ScriptError;
use csv::{ByteRecord, Error, Reader, ReaderBuilder};
use std::alloc::Global;

/// The greatest size of a script or of a stamp file, in bytes.
pub const SIZE_LIMIT: usize = 16_777_216;

/// Reads the records of a text one at a time, and contains the last one. Both variants follow the
/// rules of csv.
#[derive(Drop)]
pub(crate) enum Records<'a> {
    /// Reads any text, with csv.
    Quoted(Quoted<'a>),
    /// Reads a text without quotes and carriage returns.
    Plain(Lines<'a>),
}

/// A reader of csv, and the record that it read last.
#[derive(Drop)]
pub(crate) struct Quoted<'a> {
    reader: Reader<&'a [u8]>,
    fields: ByteRecord,
}

impl<'a> Records<'a> {
    /// Starts at the first record of the bytes. No record is a header, and the numbers of fields
    /// may differ.
    pub(crate) fn open(alloc: Global, bytes: &'a [u8]) -> Records<'a>
        ensures reading { IsCursor result }
        ensures left { left_in result ≡ Some (records_of bytes.now) }
    {
        if is_plain(bytes) {
            return Records::Plain(Lines::new(bytes));
        }
        Records::Quoted(Quoted {
            reader: open_reader(alloc, bytes),
            fields: ByteRecord::new(alloc),
        })
    }

    /// Reads the next record, if there is one.
    pub(crate) fn advance(&mut self) -> Result<bool, ScriptError>
        requires { IsCursor self.old }
        ensures reading { IfOk result (λ found. found ≡ true → IsCursor self.new) }
        ensures takes { IfOk result (λ found. (rs : List (List (List ℕ)))
            → left_in self.old ≡ Some rs
            → Takes found (fields_of self.new) rs (left_in self.new)) }
        ensures err { IfErr result (λ e. e ≡ ScriptError.Memory) }
    {
        match self {
            Records::Quoted(quoted) => next_fields(&mut quoted.reader, &mut quoted.fields),
            Records::Plain(lines) => Ok(lines.advance()),
        }
    }

    /// Takes the item of the next record, if the text is plain and the record has a frequent form
    /// and no fault.
    #[inline(always)]
    pub(crate) fn take<T: Frequent>(&mut self) -> Option<T>
        requires { IsCursor self.old }
        ensures some { IfSome result (λ item. TakesGiving T.item_of item self.old self.new) }
        ensures none { IfNone result (self.new ≡ self.old) }
    {
        match self {
            Records::Quoted(_) => None,
            Records::Plain(lines) => lines.take(),
        }
    }
}

/// The fields are those of the record that was read last.
impl Record for Records<'_> {
    ghost fields = { fields_of };

    fn len(&self) -> usize {
        match self {
            Records::Quoted(quoted) => quoted.fields.len(),
            Records::Plain(lines) => lines.len(),
        }
    }

    fn get(&self, i: usize) -> Option<&[u8]> {
        match self {
            Records::Quoted(quoted) => quoted.fields.get(i),
            Records::Plain(lines) => lines.get(i),
        }
    }
}

/// Makes a csv reader of the bytes with csv's defaults, except that no record is a header and that
/// the numbers of fields may differ.
fn open_reader(alloc: Global, bytes: &[u8]) -> Reader<&[u8]>
    ensures reading { IsReading result }
    ensures left { left_of result ≡ Some (records_of bytes.now) }
{
    ReaderBuilder::new()
        .has_headers(false)
        .flexible(true)
        .from_reader(alloc, bytes)
}

/// Reads the next record with csv, if there is one.
fn next_fields(reader: &mut Reader<&[u8]>, fields: &mut ByteRecord) -> Result<bool, ScriptError>
    requires { IsReading reader.old }
    ensures reading { IfOk result (λ found. found ≡ true → IsReading reader.new) }
    ensures takes { IfOk result (λ found. (rs : List (List (List ℕ))) → left_of reader.old ≡ Some rs
        → Takes found (csv_records.fields_of fields.new) rs (left_of reader.new)) }
    ensures err { IfErr result (λ e. e ≡ ScriptError.Memory) }
{
    match reader.read_byte_record(fields) {
        Ok(found) => Ok(found),
        Err(error) => Err(want_of_memory(error)),
    }
}

/// Returns the fault of a record that csv could not read from bytes in memory. The error is never
/// about the number of fields, or about bytes that aren't UTF-8.
fn want_of_memory(error: Error) -> ScriptError
    requires { IsWantOfMemory (error_kind error) }
    ensures { result ≡ ScriptError.Memory }
{
    drop(error);
    ScriptError::Memory
}
