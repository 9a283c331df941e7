ghost use Rattle.std.specs.Prelude.{◌≡◌, ◌≤◌, length};
ghost use Rattle.tk_lanes.specs.Batch.{IsBatch, IsBatchFrom};

use crate::batch_error::BatchError;
use crate::segment::{LANES, Segment};
use tk_clock::{ClockId, Snapshot};

/// Writes a clock's time at each stamp to `out`, in ns, one stamp after the other. Stamps are in
/// cycles.
///
/// The caller proves that `stamps` and `out` have the same length.
///
/// # Errors
///
/// The first stamp that `Snapshot::get` refuses ends the call. The items before it are written, and
/// the others are unchanged.
///
/// - `Invalid`: the stamp is above the mask.
/// - `Range`: the clock is at its limit at the stamp, or beyond it.
pub fn plain_batch(
    snapshot: &Snapshot,
    clock: ClockId,
    stamps: &[u64],
    out: &mut [u64],
) -> Result<(), BatchError>
    requires { length stamps.now ≡ length out.old }
    ensures { IsBatch snapshot.now.base clock stamps.now out.old out.new result }
{
    plain_from(snapshot, clock, stamps, out, 0, stamps.len())
}

/// Writes the same times and returns the same results as `plain_batch`, but converts eight stamps
/// at a time.
///
/// Eight stamps are converted one after the other if one of them is above the mask, or so far ahead
/// that the clock is at its limit or a few seconds before it. So are the stamps after the last
/// eight.
///
/// # Errors
///
/// Returns `Invalid` and `Range` in the same cases and for the same stamp as `plain_batch`.
pub fn lane_batch(
    snapshot: &Snapshot,
    clock: ClockId,
    stamps: &[u64],
    out: &mut [u64],
) -> Result<(), BatchError>
    requires { length stamps.now ≡ length out.old }
    ensures { IsBatch snapshot.now.base clock stamps.now out.old out.new result }
{
    if stamps.len() < LANES {
        return plain_batch(snapshot, clock, stamps, out);
    }
    let Some(segment) = Segment::of(snapshot, clock) else {
        return plain_batch(snapshot, clock, stamps, out);
    };
    let mut at = 0;
    'eights: while stamps.len() - at >= LANES {
        // these eight wherever they are, and then the following ones as long as they are ahead
        if !segment.converts(stamps, out, at) {
            plain_from(snapshot, clock, stamps, out, at, at + LANES)?;
        }
        at = segment.convert_ahead(stamps, out, at + LANES);
    }
    plain_from(snapshot, clock, stamps, out, at, stamps.len())
}

/// Converts the stamps from `first` up to `end`, after those before `first` were converted.
fn plain_from(
    snapshot: &Snapshot,
    clock: ClockId,
    stamps: &[u64],
    out: &mut [u64],
    first: usize,
    end: usize,
) -> Result<(), BatchError>
    requires lengths { length stamps.now ≡ length out.old }
    requires order { first ≤ end }
    requires inside { end ≤ length stamps.now }
    ensures { IsBatchFrom snapshot.now.base clock stamps.now first end out.old out.new result }
{
    for index in first..end {
        match snapshot.nanos(clock, stamps[index]) {
            Ok(nanos) => out[index] = nanos,
            Err(refusal) => return Err(BatchError::at(index, refusal)),
        }
    }
    Ok(())
}
