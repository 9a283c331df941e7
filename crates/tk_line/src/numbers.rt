//! Computes the numbers of a line.
ghost use Rattle.std.specs.Prelude.{◌≡◌, ℕ, ◌+◌, ◌*◌, ◌/◌, ◌^◌, ◌<◌, ◌≤◌, ◌↔◌};
ghost use Rattle.tk_clock.specs.Limits.{clock_end, raw_end};

use tk_clock::Origin;
use tk_counter::NANOS_PER_SECOND;

/// Adds the offset of a clock to the time that it counts up to the last command. Returns whole
/// seconds and the part below a second, in `2^-shift` ns.
#[inline(always)]
pub(crate) fn begun(origin: Origin, shift: u32) -> (u64, u64)
    requires shift { shift ≤ 32 }
    requires sec { origin.sec < raw_end }
    requires frac { origin.frac < 10 ^ 9 * 2 ^ shift }
    requires offset { origin.offset < clock_end * 10 ^ 9 }
    ensures value { result.0 * (10 ^ 9 * 2 ^ shift) + result.1
        ≡ origin.sec * (10 ^ 9 * 2 ^ shift) + origin.frac + origin.offset * 2 ^ shift }
    ensures few { result.0 ≤ raw_end + clock_end }
    ensures low { result.1 < 10 ^ 9 * 2 ^ shift }
{
    let second = NANOS_PER_SECOND << shift;
    let sec = origin.sec + origin.offset / NANOS_PER_SECOND;
    let frac = origin.frac + ((origin.offset % NANOS_PER_SECOND) << shift);
    if frac < second {
        (sec, frac)
    } else {
        (sec + 1, frac - second)
    }
}

/// Returns the most units, in `2^-shift` ns, that may be added to `frac` so that the sum fits in 64
/// bits and the clock gains less than `left` ns.
#[inline(always)]
pub(crate) fn room_of(frac: u64, shift: u32, left: u64) -> u64
    requires shift { shift ≤ 32 }
    requires some { 0 < left }
    ensures { (units : ℕ) → (units ≤ result)
        ↔ ((frac + units < 2 ^ 64) × ((frac + units) / 2 ^ shift < frac / 2 ^ shift + left)) }
{
    let widest = u64::MAX - frac;
    if left > u64::MAX >> shift {
        return widest;
    }
    widest.min((left << shift) - 1 - frac % (1 << shift))
}

/// Returns the number of cycles, from 0 and at most up to `half`, after which no more than `room`
/// units are added, at `mult` units a cycle.
#[inline(always)]
pub(crate) fn span_of(room: u64, mult: u32, half: u64) -> u64
    requires { half < 2 ^ 63 }
    ensures high { result ≤ half + 1 }
    ensures value { (cycles : ℕ) → cycles ≤ half → (cycles < result) ↔ (cycles * mult ≤ room) }
{
    if mult == 0 {
        return half + 1;
    }
    (room / u64::from(mult)).min(half) + 1
}
