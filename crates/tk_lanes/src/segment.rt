//! Describes a clock as a straight line over the cycles since the last command, as far as the clock
//! stays below its limit.
ghost use Rattle.std.specs.Prelude.{◌≡◌, ◌+◌, ◌*◌, ◌-◌, ◌^◌, ◌<◌, ◌≤◌, IfSome};
ghost use Rattle.tk_clock.specs.Limits.{raw_end};
ghost use Rattle.tk_lanes.specs.Segment.{IsFitting, IsSegment};

mod lanes;

use tk_clock::{ClockId, Origin, Snapshot};
use tk_counter::NANOS_PER_SECOND;

/// The number of stamps that are converted at a time.
pub(crate) const LANES: usize = 8;

/// Gives the clock at a stamp within its span: `((cycles * mult + frac) >> shift) + base`, in ns.
///
/// `cycles` is the number of cycles since the last command, or 0 if the stamp is behind.
#[derive(Clone, Copy)]
pub(crate) struct Segment {
    /// The reading of the last command.
    last: u64,
    /// The units of `2^-shift` ns that a cycle adds.
    mult: u32,
    /// The right shift that converts units to ns.
    shift: u32,
    /// The part below a nanosecond at the last command, in `2^-shift` ns.
    frac: u64,
    /// The clock at the last command without that part, in ns.
    base: u64,
    /// The greatest reading.
    mask: u64,
    /// The longest gap that leads forward, in cycles.
    half: u64,
    /// A gap up to which the segment is the clock, in cycles.
    span: u64,
    /// The greatest distance, in cycles, by which a stamp may be ahead of `last` without exceeding
    /// the mask or the span.
    ahead: u64,
}

impl Segment {
    /// Makes the segment of a snapshot's clock. Returns `None` if the clock is out of range at the
    /// last command.
    pub(crate) fn of(snapshot: &Snapshot, clock: ClockId) -> Option<Segment>
        ensures drawn { IfSome result (λ segment. IsSegment snapshot.now.base clock segment) }
        ensures fitting { IfSome result IsFitting }
    {
        let desc = snapshot.desc();
        let shift = desc.shift();
        let origin = snapshot.origin(clock);
        let (counts, frac) = split(origin, shift);
        let base = counts + origin.offset;
        if base >= origin.limit {
            return None;
        }
        let span = span_of(origin.limit - base, origin.mult, shift, desc.half());
        let (last, mask) = (snapshot.last(), desc.mask());
        let left = mask.checked_sub(last)?;
        Some(Segment {
            last,
            mult: origin.mult,
            shift,
            frac,
            base,
            mask,
            half: desc.half(),
            span,
            ahead: left.min(span),
        })
    }
}

/// Splits the time that a clock counts up to the last command into whole nanoseconds and the rest,
/// in `2^-shift` ns.
fn split(origin: Origin, shift: u32) -> (u64, u64)
    requires sec { origin.sec < raw_end }
    requires frac { origin.frac < 10 ^ 9 * 2 ^ shift }
    requires shift { shift ≤ 32 }
    ensures value { result.0 * 2 ^ shift + result.1
        ≡ origin.sec * (10 ^ 9 * 2 ^ shift) + origin.frac }
    ensures few { result.0 < raw_end * 10 ^ 9 }
    ensures low { result.1 < 2 ^ shift }
{
    let nanos = origin.sec * NANOS_PER_SECOND + (origin.frac >> shift);
    (nanos, origin.frac % (1 << shift))
}

/// Returns a gap, up to `half`, over which the clock gains less than `room` ns.
///
/// The longest such gap may be longer, by less than `2^(shift + 1)` cycles: a division of 64 bits
/// gives this one.
fn span_of(room: u64, mult: u32, shift: u32, half: u64) -> u64
    requires some { 0 < room }
    requires shift { shift ≤ 32 }
    ensures inside { result ≤ half }
    ensures in_range { result * mult ≤ (room - 1) * 2 ^ shift }
{
    let steps = (room - 1) / u64::from(mult.max(1));
    let span = u128::from(steps) << shift;
    span.min(u128::from(half)) as u64
}
