//! Makes the line of the reply to a request.
ghost use Rattle.std.specs.Prelude.{◌≡◌, ◌+◌, ◌++◌, ◌<◌, ◌≤◌, OnOk, OnErr, IfErr, codes, decimal, flat_map, length, pos, unsigned_abs};
ghost use Rattle.std.specs.Fmt.{signed_decimal};
ghost use Rattle.tk_ntp.specs.Bits.{has, sta_nano};
ghost use Rattle.tk_script.specs.AdjLine.{IsAdjWritable, adj_line, number_field, reply_time, sub_digits};
ghost use Rattle.tk_script.specs.Line.{HasRoom};
ghost use Rattle.tk_script.specs.Word.{state_name};

use crate::digits::nine_digits_of;
use crate::line::Line;
use crate::names::word_of_state;
use crate::script_error::ScriptError;
use itoa::Buffer;
use std::alloc::Allocator;
use tk_ntp::{Reply, STA_NANO, Timex};

/// Appends the line of the reply to a request:
/// `adj,STATE,TIME,OFFSET,FREQ,MAXERROR,ESTERROR,STATUS,CONSTANT,TICK,TAI,NUMBER`. `number` is the
/// number of the commands that were accepted so far.
///
/// TIME has nine digits after its dot if the status has `STA_NANO`, otherwise six.
///
/// # Errors
///
/// - `Memory`: an allocation failed; `out` is as it was
pub fn line_adj<A: Allocator + Copy>(
    out: &mut Vec<u8, A>,
    reply: &Reply,
    number: u64,
) -> Result<(), ScriptError>
    requires { IsAdjWritable reply.now }
    ensures ok { OnOk result (out.new.items ≡ out.old.items ++ adj_line reply.now number) }
    ensures err { OnErr result (out.new.items ≡ out.old.items) }
    ensures memory { IfErr result (λ e. e ≡ ScriptError.Memory) }
{
    let timex = &reply.timex;
    let mut line = Vec::new(*out.allocator());
    add(&mut line, b"adj,")?;
    add(&mut line, word_of_state(reply.state))?;
    add(&mut line, b",")?;
    add_time(&mut line, timex)?;
    add_numbers(
        &mut line,
        &[
            timex.offset,
            timex.freq,
            timex.maxerror,
            timex.esterror,
            i64::from(timex.status),
            timex.constant,
            timex.tick,
            i64::from(reply.tai),
        ],
    )?;
    add(&mut line, b",")?;
    add(&mut line, Buffer::new().format(number).as_bytes())?;
    add(&mut line, b"\n")?;
    add(out, line.as_slice())
}

/// Contains the line of the reply to a request in three parts, since it is longer than a `Line`.
#[derive(Drop)]
pub struct AdjLine {
    /// The state, the time, the offset and the frequency.
    pub beginning: Line,
    /// The errors, the status and the time constant.
    pub middle: Line,
    /// The tick, the TAI offset and the number of the accepted commands.
    pub end: Line,
}

impl AdjLine {
    /// Makes the line that `line_adj` appends.
    pub fn new(reply: &Reply, number: u64) -> AdjLine
        requires { IsAdjWritable reply.now }
        ensures { result.beginning ++ (result.middle ++ result.end) ≡ adj_line reply.now number }
    {
        AdjLine {
            beginning: beginning_of(reply),
            middle: middle_of(&reply.timex),
            end: end_of(reply, number),
        }
    }
}

/// Makes the first part of the line of a reply.
fn beginning_of(reply: &Reply) -> Line
    requires { IsAdjWritable reply.now }
    ensures { result ≡ codes "adj," ++ state_name reply.now.state ++ codes "," ++ reply_time reply.now
        ++ number_field reply.now.timex.offset ++ number_field reply.now.timex.freq }
{
    let timex = &reply.timex;
    let mut line = Line::empty();
    line.put_field(&timex.freq);
    line.put_field(&timex.offset);
    put_sub(&mut line, timex);
    line.put(b".");
    line.put_signed(&timex.sec);
    line.put(b",");
    line.put(word_of_state(reply.state));
    line.put(b"adj,");
    line
}

/// Prepends the part of a second of a reply.
fn put_sub(line: &mut Line, timex: &Timex)
    requires whole { timex.now.sub ≡ pos (unsigned_abs timex.now.sub) }
    requires below { unsigned_abs timex.now.sub < 1000000000 }
    requires room { HasRoom 9 line.old }
    ensures text { line.new
        ≡ sub_digits (has timex.now.status sta_nano) (unsigned_abs timex.now.sub) ++ line.old }
    ensures more { length line.new ≤ 9 + length line.old }
{
    let digits = nine_digits_of(timex.sub.unsigned_abs() as u32);
    if timex.status & STA_NANO != 0 {
        return line.put(&digits);
    }
    line.put(&digits[3..]);
}

/// Makes the second part of the line of a reply.
fn middle_of(timex: &Timex) -> Line
    ensures { result ≡ number_field timex.now.maxerror ++ number_field timex.now.esterror
        ++ number_field (pos timex.now.status) ++ number_field timex.now.constant }
{
    let mut line = Line::empty();
    line.put_field(&timex.constant);
    line.put_field(&i64::from(timex.status));
    line.put_field(&timex.esterror);
    line.put_field(&timex.maxerror);
    line
}

/// Makes the last part of the line of a reply.
fn end_of(reply: &Reply, number: u64) -> Line
    ensures { result ≡ number_field reply.now.timex.tick ++ number_field (pos reply.now.tai)
        ++ codes "," ++ decimal number ++ codes "\n" }
{
    let mut line = Line::end();
    line.put_number(number);
    line.put(b",");
    line.put_field(&i64::from(reply.tai));
    line.put_field(&reply.timex.tick);
    line
}

/// Appends the time of a reply.
fn add_time<A: Allocator>(line: &mut Vec<u8, A>, timex: &Timex) -> Result<(), ScriptError>
    requires whole { timex.now.sub ≡ pos (unsigned_abs timex.now.sub) }
    requires below { unsigned_abs timex.now.sub < 1000000000 }
    ensures ok { OnOk result (line.new.items ≡ line.old.items ++ (signed_decimal timex.now.sec
        ++ codes "."
        ++ sub_digits (has timex.now.status sta_nano) (unsigned_abs timex.now.sub))) }
    ensures memory { IfErr result (λ e. e ≡ ScriptError.Memory) }
{
    add(line, Buffer::new().format(timex.sec).as_bytes())?;
    add(line, b".")?;
    let digits = nine_digits_of(timex.sub.unsigned_abs() as u32);
    if timex.status & STA_NANO != 0 {
        add(line, &digits)
    } else {
        add(line, &digits[3..])
    }
}

/// Appends a comma and a number for each of some numbers.
fn add_numbers<A: Allocator>(line: &mut Vec<u8, A>, numbers: &[i64]) -> Result<(), ScriptError>
    ensures ok { OnOk result (line.new.items
        ≡ line.old.items ++ flat_map number_field numbers.now) }
    ensures memory { IfErr result (λ e. e ≡ ScriptError.Memory) }
{
    for number in numbers {
        add(line, b",")?;
        add(line, Buffer::new().format(*number).as_bytes())?;
    }
    Ok(())
}

/// Appends bytes. An allocation failure leaves the line unchanged.
fn add<A: Allocator>(line: &mut Vec<u8, A>, bytes: &[u8]) -> Result<(), ScriptError>
    ensures ok { OnOk result (line.new.items ≡ line.old.items ++ bytes.now) }
    ensures err { OnErr result (line.new.items ≡ line.old.items) }
    ensures memory { IfErr result (λ e. e ≡ ScriptError.Memory) }
{
    line.extend_from_slice(bytes)
        .map_err(|_| ScriptError::Memory)
}
