ghost use Rattle.tk_line.specs.Line.{IsLine};

use crate::numbers::{begun, room_of, span_of};
use tk_clock::{ClockId, Snapshot};
use tk_counter::NANOS_PER_SECOND;

/// Contains the numbers by which a program computes a clock without a call, as the kernel's vDSO
/// does (lib/vdso/gettimeofday.c).
///
/// At a reading let `cycles` be `(reading - last) & mask`. If that is below `span`, the clock is at
/// `sec` seconds and `(frac + cycles * mult) >> shift` ns, and the product and the sum fit in 64
/// bits.
#[repr(C)]
#[derive(Clone, Copy, Debug, PartialEq, Eq)]
pub struct Line {
    /// The reading of the last command, in cycles.
    pub last: u64,
    /// The greatest reading, `2^bits - 1`.
    pub mask: u64,
    /// The number of cycles, from 0, for which the line is the clock: at most half of the readings,
    /// and 0 if the clock is at its limit.
    pub span: u64,
    /// The whole seconds of the clock at `last`.
    pub sec: u64,
    /// The part of the clock below a second at `last`, in `2^-shift` ns.
    pub frac: u64,
    /// The amount that a cycle adds, in `2^-shift` ns: 0 for a coarse clock, and while asleep.
    pub mult: u32,
    /// The right shift that converts amounts to ns.
    pub shift: u32,
}

/// Returns the numbers by which a program computes a clock without a call, up to the next accepted
/// command. As far as the line's span reaches, its value is the one of `Snapshot::get`, to the
/// nanosecond.
#[inline(always)]
pub fn line_of(snapshot: &Snapshot, clock: ClockId) -> Line
    ensures { IsLine snapshot.now.base clock result }
{
    let desc = snapshot.desc();
    let shift = desc.shift();
    let origin = snapshot.origin(clock);
    let (sec, frac) = begun(origin, shift);
    let now = sec * NANOS_PER_SECOND + (frac >> shift);
    let span = if now < origin.limit {
        span_of(
            room_of(frac, shift, origin.limit - now),
            origin.mult,
            desc.half(),
        )
    } else {
        0
    };
    Line {
        last: snapshot.last(),
        mask: desc.mask(),
        span,
        sec,
        frac,
        mult: origin.mult,
        shift,
    }
}
