//! Reads texts without quotes and carriage returns: a record is a line, cut at its commas.
ghost use Rattle.std.specs.Prelude.{◌≡◌, ◌≢◌, ◌<◌, ◌+◌, ◌^◌, ◌++◌, ◌∷◌, ℕ, List, [], length, option_map, slice_index, None, Some, true, IfSome, IfNone, MatchOption};
ghost use Rattle.csv.specs.Machine.{next_record};
ghost use Rattle.csv.specs.Reading.{default_config, strip_bom};
ghost use Rattle.csv.specs.Records.{field_at};
ghost use Rattle.csv.specs.declared.parser.State.TheVariants.{StartRecord};
ghost use Rattle.tk_script.specs.Plain.{EndsLine, FirstLineGives, HasFields, IsPlain, cut_at_commas};
ghost use Rattle.tk_script.specs.Reading.{Takes};
ghost use Rattle.tk_script.specs.Records.{records_after};

use crate::fields::MOST_FIELDS;
use crate::frequent::Frequent;
use crate::later_fields::field_in_line;
use crate::record::Record;
use memchr::{memchr, memchr2};

/// The fields of a line.
#[derive(Clone, Copy)]
struct Fields<'a> {
    /// The first `MOST_FIELDS` of them; if there are fewer, then empty ones.
    first: [&'a [u8]; MOST_FIELDS],
    /// Their number.
    count: usize,
}

impl<'a> Fields<'a> {
    /// Counts a field, and keeps it if it is one of the first.
    fn push(&mut self, field: &'a [u8])
        requires { self.old.count < 2 ^ 63 }
        ensures fields { (fields : List (List ℕ)) → HasFields fields self.old →
            HasFields (fields ++ field.now ∷ []) self.new }
        ensures count { self.new.count ≡ self.old.count + 1 }
    {
        if self.count < MOST_FIELDS {
            self.first[self.count] = field;
        }
        self.count += 1;
    }
}

/// Contains the line of a plain text that was read last, its fields, and the text after it.
#[derive(Clone, Copy)]
pub(crate) struct Lines<'a> {
    line: &'a [u8],
    fields: Fields<'a>,
    rest: &'a [u8],
    ghost split: { HasFields (cut_at_commas line.now) fields },
}

impl<'a> Lines<'a> {
    /// Starts at the first line of a text.
    pub(crate) fn new(text: &'a [u8]) -> Lines<'a>
        ensures { result.rest.now ≡ text.now }
    {
        Lines {
            line: &[],
            fields: split_at_commas(&[]),
            rest: text,
        }
    }

    /// Contains one line, as if it had been read from a text that ends with it.
    pub(crate) fn of(line: &'a [u8]) -> Lines<'a>
        ensures { result.line.now ≡ line.now }
    {
        let fields = split_at_commas(line);
        Lines {
            line,
            fields,
            rest: &[],
        }
    }

    /// Advances to the next line that isn't empty, if there is one, and splits it at its commas.
    pub(crate) fn advance(&mut self) -> bool
        requires { IsPlain self.old.rest.now }
        ensures plain { result ≡ true → IsPlain self.new.rest.now }
        ensures takes { Takes result (cut_at_commas self.new.line.now)
            (records_after StartRecord self.old.rest.now)
            (Some (records_after StartRecord self.new.rest.now)) }
    {
        let Some((line, rest)) = first_line(self.rest) else {
            return false;
        };
        *self = Lines {
            line,
            fields: split_at_commas(line),
            rest,
        };
        true
    }

    /// Takes the item of the next line, if the line has a frequent form and no fault.
    #[inline(always)]
    pub(crate) fn take<T: Frequent>(&mut self) -> Option<T>
        ensures some { IfSome result
            (λ item. FirstLineGives T.item_of self.old.rest.now item self.new.rest.now) }
        ensures none { IfNone result (self.new ≡ self.old) }
    {
        let Some((item, rest)) = T::leading(self.rest) else {
            return None;
        };
        self.rest = rest;
        Some(item)
    }
}

/// The fields are those of the line that was read last.
impl Record for Lines<'_> {
    ghost fields = { λ lines. cut_at_commas lines.line.now };

    fn len(&self) -> usize {
        self.fields.count
    }

    fn get(&self, i: usize) -> Option<&[u8]> {
        if i < self.fields.count.min(MOST_FIELDS) {
            Some(self.fields.first[i])
        } else {
            field_in_line(self.line, i)
        }
    }
}

/// Returns whether the bytes are a plain text, with no byte order mark that csv would drop.
pub(crate) fn is_plain(bytes: &[u8]) -> bool
    ensures plain { result ≡ true → IsPlain bytes.now }
    ensures unmarked { result ≡ true → strip_bom bytes.now ≡ bytes.now }
{
    if !bytes.is_empty() && bytes[0] == 0xef {
        return false;
    }
    memchr2(b'"', b'\r', bytes).is_none()
}

/// Returns the first line that isn't empty, and the text after it.
pub(crate) fn first_line(text: &[u8]) -> Option<(&[u8], &[u8])>
    requires { IsPlain text.now }
    ensures record { MatchOption result
        (next_record default_config StartRecord [] [] text.now ≡ None)
        (λ found. next_record default_config StartRecord [] [] text.now
        ≡ Some (cut_at_commas found.0.now, StartRecord, found.1.now)) }
    ensures plain { IfSome result (λ found. IsPlain found.1.now) }
{
    let text = after_empty_lines(text);
    if text.is_empty() {
        return None;
    }
    match memchr(b'\n', text) {
        Some(end) => Some((&text[..end], &text[end + 1..])),
        None => Some((text, &[])),
    }
}

/// Returns the text after the empty lines at its beginning.
fn after_empty_lines(text: &[u8]) -> &[u8]
    requires { IsPlain text.now }
    ensures same { next_record default_config StartRecord [] [] result.now
        ≡ next_record default_config StartRecord [] [] text.now }
    ensures plain { IsPlain result.now }
    ensures first { 0 < length result.now → slice_index result.now 0 ≢ 10 }
{
    for i in 0..text.len() {
        if text[i] != b'\n' {
            return &text[i..];
        }
    }
    &[]
}

/// Returns the text after the end of a line, which is a line feed or the end of the text.
pub(crate) fn after_line(text: &[u8]) -> Option<&[u8]>
    ensures { IfSome result (λ rest. EndsLine text.now rest.now) }
{
    if text.is_empty() {
        return Some(text);
    }
    if text[0] == b'\n' {
        Some(&text[1..])
    } else {
        None
    }
}

/// Splits a line at its commas. The fields after the first ones are only counted.
fn split_at_commas(line: &[u8]) -> Fields<'_>
    ensures { HasFields (cut_at_commas line.now) result }
{
    let mut fields = Fields {
        first: [&[]; MOST_FIELDS],
        count: 0,
    };
    let mut rest = line;
    'commas: while let Some(comma) = memchr(b',', rest) {
        if fields.count >= MOST_FIELDS {
            fields.count += count_fields(rest);
            return fields;
        }
        fields.push(&rest[..comma]);
        rest = &rest[comma + 1..];
    }
    fields.push(rest);
    fields
}

/// Returns the number of fields of a line.
fn count_fields(line: &[u8]) -> usize
    ensures { result ≡ length (cut_at_commas line.now) }
{
    let mut count = 1;
    for i in 0..line.len() {
        if line[i] == b',' {
            count += 1;
        }
    }
    count
}
