//! Makes the text of a fault on the stack, from its end to its beginning, because the first digit of
//! a number is computed last.
ghost use Rattle.std.specs.Prelude.{◌≡◌, ◌+◌, ◌≤◌, ℕ, List, ◌++◌, codes, length, decimal, drop};
ghost use Rattle.tk_counter.specs.DescError.{fault_text as counter_text};
ghost use Rattle.tk_script.specs.Line.{HasRoom};
ghost use Rattle.tk_script.specs.ScriptError.{record_text, script_text};
ghost use Rattle.tk_session.specs.Fault.{fault_text};

use itoa::write_digits;
use std::marker::Model;
use tk_counter::DescError;
use tk_script::ScriptError;
use tk_session::Fault;

/// The size of the buffer, in bytes. No text is longer than 86 bytes.
const ROOM: usize = 96;

/// Contains the text of a fault, or its end while it is built.
#[derive(Drop)]
pub(crate) struct FaultText {
    bytes: [u8; ROOM],
    /// The index of its first byte in `bytes`.
    start: usize,
}

impl Model for FaultText {
    ghost Value = { List ℕ };

    ghost view = { λ a. drop a.start a.bytes };

    ghost invariant = { λ a. a.start ≤ 96 };
}

impl FaultText {
    /// Makes the text of a fault.
    pub fn of(fault: &Fault) -> FaultText
        ensures { result ≡ fault_text fault.now }
    {
        match fault {
            Fault::NotPlain => FaultText::ending(b"not a plain line"),
            Fault::TooMany => FaultText::ending(b"too many records"),
            Fault::Script(error) => FaultText::of_script(error),
        }
    }

    /// Makes the text of a script's fault.
    fn of_script(error: &ScriptError) -> FaultText
        ensures { result ≡ script_text error.now }
    {
        match error {
            ScriptError::Opening { row } => of_record(*row, b": not a valid opening"),
            ScriptError::Word { row } => of_record(*row, b": unknown word"),
            ScriptError::Fields { row } => of_record(*row, b": wrong number of fields"),
            ScriptError::Number { row } => of_record(*row, b": not a number in range"),
            ScriptError::Counter { row, error } => of_record(*row, counter_fault(*error)),
            ScriptError::TooLarge => too_large(),
            ScriptError::Empty => FaultText::ending(b"no record"),
            ScriptError::Memory => FaultText::ending(b"out of memory"),
        }
    }

    /// Starts a text with its end.
    fn ending(end: &[u8]) -> FaultText
        requires { length end.now ≤ 96 }
        ensures { result ≡ end.now }
    {
        let mut text = FaultText {
            bytes: [0; ROOM],
            start: ROOM,
        };
        text.put(end);
        text
    }

    /// Returns the bytes of the text.
    pub fn as_bytes(&self) -> &[u8]
        ensures text { result.now ≡ self.now }
        ensures short { length result.now ≤ 96 }
    {
        &self.bytes[self.start..]
    }

    /// Prepends bytes to the text.
    fn put(&mut self, bytes: &[u8])
        requires { HasRoom (length bytes.now) self.old }
        ensures text { self.new ≡ bytes.now ++ self.old }
        ensures more { length self.new ≡ length bytes.now + length self.old }
    {
        let start = self.start - bytes.len();
        self.bytes[start..self.start].copy_from_slice(bytes);
        self.start = start;
    }

    /// Prepends a number in decimal.
    fn put_number(&mut self, n: u64)
        requires { HasRoom 20 self.old }
        ensures text { self.new ≡ decimal n ++ self.old }
        ensures more { length self.new ≤ 20 + length self.old }
    {
        self.start = write_digits(n, &mut self.bytes, self.start);
    }
}

/// Makes the text of a fault of the record `row`.
#[inline(never)]
fn of_record(row: u64, what: &[u8]) -> FaultText
    requires { length what.now ≤ 69 }
    ensures { result ≡ record_text row what.now }
{
    let mut text = FaultText::ending(what);
    text.put_number(row);
    text.put(b"record ");
    text
}

/// Returns what the text of a fault of a counter's numbers says after the record's number.
fn counter_fault(error: DescError) -> &'static [u8]
    ensures text { result.now ≡ codes ": " ++ counter_text error }
    ensures short { length result.now ≤ 69 }
{
    match error {
        DescError::Bits => b": a reading does not have 8 to 64 bits",
        DescError::Shift => b": the shift is above 32",
        DescError::Mult => b": the mult is below 256",
        DescError::Adjust => b": the mult and 11 percent of it do not fit 32 bits",
        DescError::Rate => b": the frequency is 0 Hz or the span is not 1 to 600 seconds",
    }
}

/// Makes the text of a script that is too large, which is no fault of a record.
fn too_large() -> FaultText
    ensures { result ≡ script_text ScriptError.TooLarge }
{
    let mut text = FaultText::ending(b" bytes");
    text.put_number(16_777_216);
    text.put(b"larger than ");
    text
}
