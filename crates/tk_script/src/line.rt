//! Builds one line of a report on the stack, from its end to its beginning, because the first digit
//! of a number is computed last.
ghost use Rattle.std.specs.Prelude.{◌≡◌, ◌+◌, ◌<◌, ◌≤◌, ℕ, List, [], ◌++◌, OnOk, OnErr, IfErr, codes, length, decimal, drop};
ghost use Rattle.std.specs.Fmt.{signed_decimal};
ghost use Rattle.jiff.specs.Words.{date_text};
ghost use Rattle.tk_clock.specs.Limits.{clock_end};
ghost use Rattle.tk_script.specs.AdjLine.{number_field};
ghost use Rattle.tk_script.specs.Line.{HasRoom};
ghost use Rattle.tk_script.specs.Lines.{IsWritable, time_text};

use crate::digits::{nine_digits_of, two_digits_of};
use crate::script_error::ScriptError;
use itoa::write_digits;
use jiff_core::civil::Date;
use std::alloc::Allocator;
use std::marker::Model;
use tk_clock::Timespec;

/// The size of the buffer, in bytes. No line is longer than 85 bytes.
const ROOM: usize = 96;

/// Contains a line of a report, or its end while it is built. It takes no memory from an allocator.
#[derive(Drop)]
pub struct Line {
    bytes: [u8; ROOM],
    /// The index of its first byte in `bytes`.
    start: usize,
}

impl Model for Line {
    ghost Value = { List ℕ };

    ghost view = { λ a. drop a.start a.bytes };

    ghost invariant = { λ a. a.start ≤ 96 };
}

impl Line {
    /// Starts a line with its end, a line feed.
    #[inline(always)]
    pub(crate) fn end() -> Line
        ensures { result ≡ codes "\n" }
    {
        Line {
            bytes: [b'\n'; ROOM],
            start: ROOM - 1,
        }
    }

    /// Starts a text without a line feed.
    #[inline(always)]
    pub(crate) fn empty() -> Line
        ensures { result ≡ [] }
    {
        Line {
            bytes: [0; ROOM],
            start: ROOM,
        }
    }

    /// Returns the bytes of the line.
    #[inline(always)]
    pub fn as_bytes(&self) -> &[u8]
        ensures text { result.now ≡ self.now }
        ensures short { length result.now ≤ 96 }
    {
        &self.bytes[self.start..]
    }

    /// Prepends a text to the line.
    #[inline(always)]
    pub(crate) fn put(&mut self, text: &[u8])
        requires { HasRoom (length text.now) self.old }
        ensures text { self.new ≡ text.now ++ self.old }
        ensures more { length self.new ≡ length text.now + length self.old }
    {
        let start = self.start - text.len();
        self.bytes[start..self.start].copy_from_slice(text);
        self.start = start;
    }

    /// Prepends a number in decimal.
    #[inline(always)]
    pub(crate) fn put_number(&mut self, n: u64)
        requires { HasRoom 20 self.old }
        ensures text { self.new ≡ decimal n ++ self.old }
        ensures more { length self.new ≤ 20 + length self.old }
    {
        self.start = write_digits(n, &mut self.bytes, self.start);
    }

    /// Prepends two numbers in decimal, with a comma between them.
    #[inline(always)]
    pub(crate) fn put_numbers(&mut self, first: u64, second: u64)
        requires { HasRoom 41 self.old }
        ensures text { self.new ≡ decimal first ++ codes "," ++ decimal second ++ self.old }
        ensures more { length self.new ≤ 41 + length self.old }
    {
        self.put_number(second);
        self.put(b",");
        self.put_number(first);
    }

    /// Prepends a comma and a number in decimal.
    pub(crate) fn put_field(&mut self, n: &i64)
        requires { HasRoom 22 self.old }
        ensures text { self.new ≡ number_field n.now ++ self.old }
        ensures more { length self.new ≤ 22 + length self.old }
    {
        self.put_signed(n);
        self.put(b",");
    }

    /// Prepends a number in decimal, with its sign if it is negative. A number behind a reference
    /// has its value in a proof without a test of its range.
    pub(crate) fn put_signed(&mut self, n: &i64)
        requires { HasRoom 21 self.old }
        ensures text { self.new ≡ signed_decimal n.now ++ self.old }
        ensures more { length self.new ≤ 21 + length self.old }
    {
        let n = *n;
        self.put_number(n.unsigned_abs());
        if n < 0 {
            self.put(b"-");
        }
    }

    /// Prepends a date, `YYYY-MM-DD`. A year before 0 has a sign and six digits.
    pub(crate) fn put_date(&mut self, date: Date)
        requires { HasRoom 13 self.old }
        ensures text { self.new ≡ date_text date ++ self.old }
        ensures more { length self.new ≤ 13 + length self.old }
    {
        self.put(&two_digits_of(u32::from(date.day)));
        self.put(b"-");
        self.put(&two_digits_of(u32::from(date.month)));
        self.put(b"-");
        let year = u32::from(date.year.unsigned_abs());
        self.put(&two_digits_of(year % 100));
        self.put(&two_digits_of(year / 100));
        if date.year < 0 {
            self.put(b"-00");
        }
    }

    /// Prepends seconds, a dot and nanoseconds.
    #[inline(always)]
    pub(crate) fn put_time(&mut self, time: Timespec)
        requires writable { IsWritable time }
        requires room { HasRoom 30 self.old }
        ensures text { self.new ≡ time_text time ++ self.old }
        ensures more { length self.new ≤ 30 + length self.old }
    {
        self.put(&nine_digits_of(time.nsec));
        self.put(b".");
        self.put_seconds(time.sec as u64);
    }

    /// Prepends seconds. Those of a time since 1970 mostly have ten digits, and the last nine need
    /// no loop.
    #[inline(always)]
    fn put_seconds(&mut self, sec: u64)
        requires below { sec < clock_end }
        requires room { HasRoom 20 self.old }
        ensures text { self.new ≡ decimal sec ++ self.old }
        ensures more { length self.new ≤ 20 + length self.old }
    {
        if sec < 1_000_000_000 {
            return self.put_number(sec);
        }
        self.put(&nine_digits_of((sec % 1_000_000_000) as u32));
        self.put(&[b'0' + (sec / 1_000_000_000) as u8]);
    }

    /// Appends the line to a report. An allocation failure leaves the report unchanged.
    #[inline(always)]
    pub(crate) fn add_to<A: Allocator>(&self, out: &mut Vec<u8, A>) -> Result<(), ScriptError>
        ensures ok { OnOk result (out.new.items ≡ out.old.items ++ self.now) }
        ensures err { OnErr result (out.new.items ≡ out.old.items) }
        ensures memory { IfErr result (λ e. e ≡ ScriptError.Memory) }
    {
        out.extend_from_slice(&self.bytes[self.start..])
            .map_err(|_| ScriptError::Memory)
    }
}
