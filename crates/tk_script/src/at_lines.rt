ghost use Rattle.std.specs.Prelude.{◌≡◌, ◌++◌, OnOk, OnErr, IfErr};
ghost use Rattle.tk_script.specs.Line.{HasRoom};
ghost use Rattle.tk_script.specs.Lines.{AppendsAtLine, IsWritable, IsAtLine, at_text};

use crate::calendar::{Calendar, date_at, day_and_second, time_of_day};
use crate::line::Line;
use crate::script_error::ScriptError;
use std::alloc::Allocator;
use tk_clock::{ClockId, Timespec};

/// Appends the line of a clock's time: `at,CLOCK,SEC.NNNNNNNNN`, followed by `,UTC` for REALTIME
/// and REALTIME_COARSE.
///
/// `time` is from 0 to 9,223,372,035.999999999 s. For many lines use a `Calendar`, which computes
/// each date once.
///
/// # Errors
///
/// - `Memory`: an allocation failed; `out` is as it was
pub fn line_at<A: Allocator + Copy>(
    out: &mut Vec<u8, A>,
    clock: ClockId,
    time: Timespec,
) -> Result<(), ScriptError>
    requires { IsWritable time }
    ensures ok { OnOk result (AppendsAtLine clock time out.old.items out.new.items) }
    ensures err { OnErr result (out.new.items ≡ out.old.items) }
    ensures memory { IfErr result (λ e. e ≡ ScriptError.Memory) }
{
    let mut calendar = Calendar::new(*out.allocator());
    calendar.line_at(out, clock, time)
}

impl<A: Allocator + Copy> Calendar<A> {
    /// Appends the line of a clock's time as the function `line_at` does, and keeps its date.
    ///
    /// It allocates for the growth of `out`, and for a date if the day differs from the day of the
    /// last line with a date.
    ///
    /// # Errors
    ///
    /// - `Memory`: an allocation failed; `out` is as it was
    #[inline(always)]
    pub fn line_at(
        &mut self,
        out: &mut Vec<u8, A>,
        clock: ClockId,
        time: Timespec,
    ) -> Result<(), ScriptError>
        requires { IsWritable time }
        ensures ok { OnOk result (AppendsAtLine clock time out.old.items out.new.items) }
        ensures err { OnErr result (out.new.items ≡ out.old.items) }
        ensures memory { IfErr result (λ e. e ≡ ScriptError.Memory) }
    {
        let mut line = Line::end();
        if let ClockId::Realtime | ClockId::RealtimeCoarse = clock {
            let (day, second) = day_and_second(time.sec.unsigned_abs());
            line.put(&time_of_day(second, time.nsec));
            line.put(self.date_of(day)?.as_bytes());
            line.put(b",");
        }
        put_at(&mut line, clock, time);
        line.add_to(out)
    }
}

impl Line {
    /// Makes the line of a clock's time, as `line_at` does.
    pub fn at(clock: ClockId, time: Timespec) -> Line
        requires { IsWritable time }
        ensures { IsAtLine clock time result }
    {
        let mut line = Line::end();
        if let ClockId::RealtimeCoarse | ClockId::Realtime = clock {
            let (day, second) = day_and_second(time.sec.unsigned_abs());
            line.put(&time_of_day(second, time.nsec));
            line.put_date(date_at(day));
            line.put(b",");
        }
        put_at(&mut line, clock, time);
        line
    }
}

/// Prepends a clock and its time to a line.
#[inline(always)]
fn put_at(line: &mut Line, clock: ClockId, time: Timespec)
    requires writable { IsWritable time }
    requires room { HasRoom 50 line.old }
    ensures { line.new ≡ at_text clock time ++ line.old }
{
    line.put_time(time);
    match clock {
        ClockId::Realtime => line.put(b"at,realtime,"),
        ClockId::Monotonic => line.put(b"at,monotonic,"),
        ClockId::Boottime => line.put(b"at,boottime,"),
        ClockId::Tai => line.put(b"at,tai,"),
        ClockId::RealtimeCoarse => line.put(b"at,realtime_coarse,"),
        ClockId::MonotonicCoarse => line.put(b"at,monotonic_coarse,"),
        ClockId::MonotonicRaw => line.put(b"at,monotonic_raw,"),
    }
}
