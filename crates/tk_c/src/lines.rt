ghost use Rattle.tk_c.specs.Lines.{IsLineBy};

use crate::code::Code;
use crate::named::clock_named;
use tk_clock::Snapshot;
use tk_line::{Line, line_of};

/// Writes the numbers by which a program computes a clock without a call (`tk_line::line_of`).
/// `clock` is a number of `enum tkc_clock_id`.
///
/// # Errors
///
/// Leaves `out` and returns `Code::BadClock` if no clock has the number `clock`.
#[unsafe(no_mangle)]
pub extern "C" fn tkc_snapshot_line(out: &mut Line, snapshot: &Snapshot, clock: u32) -> u32
    ensures { IsLineBy snapshot.now.base clock out.old out.new result }
{
    let Some(named) = clock_named(clock) else {
        return Code::BadClock.number();
    };
    // field by field, so that no vector register is used
    let line = line_of(snapshot, named);
    out.last = line.last;
    out.mask = line.mask;
    out.span = line.span;
    out.sec = line.sec;
    out.frac = line.frac;
    out.mult = line.mult;
    out.shift = line.shift;
    Code::Done.number()
}
