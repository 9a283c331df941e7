ghost use Rattle.std.specs.Prelude.{◌≡◌, ◌++◌, OnOk, OnErr, IfErr};
ghost use Rattle.tk_script.specs.Lines.{IsWritable, differs_line, open_line, ok_line, no_line};

use crate::line::Line;
use crate::names::word_of_refusal;
use crate::script_error::ScriptError;
use std::alloc::Allocator;
use tk_clock::{Refusal, Timespec};
use tk_counter::CounterDesc;

impl Line {
    /// Makes the line of an opening: `open,BITS,MULT,SHIFT`.
    #[inline(always)]
    pub fn open(desc: &CounterDesc) -> Line
        ensures { result ≡ open_line desc.now }
    {
        let mut line = Line::end();
        line.put_number(u64::from(desc.shift()));
        line.put(b",");
        line.put_numbers(u64::from(desc.bits()), u64::from(desc.mult()));
        line.put(b"open,");
        line
    }

    /// Makes the line of an accepted command: `ok,NUMBER,SEC.NNNNNNNNN`. `n` is the command's number,
    /// and `time` is MONOTONIC at its reading, from 0 to 9,223,372,035.999999999 s.
    #[inline(always)]
    pub fn ok(n: u64, time: Timespec) -> Line
        requires { IsWritable time }
        ensures { result ≡ ok_line n time }
    {
        let mut line = Line::end();
        line.put_time(time);
        line.put(b",");
        line.put_number(n);
        line.put(b"ok,");
        line
    }

    /// Makes the line of a refusal: `no,WORD`.
    #[inline(always)]
    pub fn no(refusal: Refusal) -> Line
        ensures { result ≡ no_line refusal }
    {
        let mut line = Line::end();
        line.put(word_of_refusal(refusal));
        line.put(b"no,");
        line
    }

    /// Makes the line of a read that does not give the value that its record states:
    /// `differs,RECORD,VALUE`. `row` is the record's number, counted from 1, and `value` the stated
    /// value, in ns.
    #[inline(always)]
    pub fn differs(row: u64, value: u64) -> Line
        ensures { result ≡ differs_line row value }
    {
        let mut line = Line::end();
        line.put_numbers(row, value);
        line.put(b"differs,");
        line
    }
}

/// Appends the line of an opening: `open,BITS,MULT,SHIFT`.
///
/// # Errors
///
/// - `Memory`: an allocation failed; `out` is as it was
pub fn line_open<A: Allocator>(out: &mut Vec<u8, A>, desc: &CounterDesc) -> Result<(), ScriptError>
    ensures ok { OnOk result (out.new.items ≡ out.old.items ++ open_line desc.now) }
    ensures err { OnErr result (out.new.items ≡ out.old.items) }
    ensures memory { IfErr result (λ e. e ≡ ScriptError.Memory) }
{
    Line::open(desc).add_to(out)
}

/// Appends the line of an accepted command: `ok,NUMBER,SEC.NNNNNNNNN`. `n` is the command's number,
/// and `time` is MONOTONIC at its reading, from 0 to 9,223,372,035.999999999 s.
///
/// # Errors
///
/// - `Memory`: an allocation failed; `out` is as it was
#[inline(always)]
pub fn line_ok<A: Allocator>(
    out: &mut Vec<u8, A>,
    n: u64,
    time: Timespec,
) -> Result<(), ScriptError>
    requires { IsWritable time }
    ensures ok { OnOk result (out.new.items ≡ out.old.items ++ ok_line n time) }
    ensures err { OnErr result (out.new.items ≡ out.old.items) }
    ensures memory { IfErr result (λ e. e ≡ ScriptError.Memory) }
{
    Line::ok(n, time).add_to(out)
}

/// Appends the line of a refusal: `no,WORD`.
///
/// # Errors
///
/// - `Memory`: an allocation failed; `out` is as it was
pub fn line_no<A: Allocator>(out: &mut Vec<u8, A>, refusal: Refusal) -> Result<(), ScriptError>
    ensures ok { OnOk result (out.new.items ≡ out.old.items ++ no_line refusal) }
    ensures err { OnErr result (out.new.items ≡ out.old.items) }
    ensures memory { IfErr result (λ e. e ≡ ScriptError.Memory) }
{
    Line::no(refusal).add_to(out)
}

/// Appends the line of a read that does not give the value that its record states:
/// `differs,RECORD,VALUE`. `row` is the record's number, counted from 1, and `value` the stated value,
/// in ns.
///
/// # Errors
///
/// - `Memory`: an allocation failed; `out` is as it was
pub fn line_differs<A: Allocator>(
    out: &mut Vec<u8, A>,
    row: u64,
    value: u64,
) -> Result<(), ScriptError>
    ensures ok { OnOk result (out.new.items ≡ out.old.items ++ differs_line row value) }
    ensures err { OnErr result (out.new.items ≡ out.old.items) }
    ensures memory { IfErr result (λ e. e ≡ ScriptError.Memory) }
{
    Line::differs(row, value).add_to(out)
}
