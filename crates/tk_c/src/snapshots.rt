ghost use Rattle.std.specs.Prelude.{◌≡◌, ◌^◌, ◌*◌, ◌<◌, ℕ, List, [], length, MatchOption};
ghost use types.Logic.{sem};
ghost use Rattle.tk_clock.specs.State.{ReadBase};
ghost use Rattle.tk_c.specs.Codes.{number_of};
ghost use Rattle.tk_c.specs.declared.code.Code.TheVariants.{Done, BadClock};
ghost use Rattle.tk_c.specs.Converted.{IsAnswered};
ghost use Rattle.tk_c.specs.Lists.{owned_at, shared_at, Lists};
ghost use Rattle.tk_c.specs.Named.{clock_named};
ghost use Rattle.tk_c.specs.Read.{IsRead, IsReadBy};

use crate::code::Code;
use crate::named::clock_named;
use crate::storage::TimeStorage;
use std::slice::{from_raw_parts, from_raw_parts_mut};
use tk_clock::{ClockId, Snapshot};
use tk_lanes::{BatchError, lane_batch};

/// Writes a clock's time at a reading to `out`, and 0 to its padding (`Snapshot::get`). `clock` is
/// a number of `enum tkc_clock_id`.
///
/// # Errors
///
/// Leaves `out` and returns, in this order:
///
/// - `Code::BadClock` if no clock has the number `clock`;
/// - `Code::Invalid` if the reading is above the mask;
/// - `Code::Range` if the clock is at or past its limit.
#[unsafe(no_mangle)]
pub extern "C" fn tkc_snapshot_get(
    out: &mut TimeStorage,
    snapshot: &Snapshot,
    clock: u32,
    reading: u64,
) -> u32
    ensures { IsReadBy snapshot.now.base clock reading out.old out.new result }
{
    // `get_named` does the other reads, so that no call returns to here and no register is saved
    if !is_ahead(snapshot, reading) {
        return get_named(out, snapshot, clock, reading);
    }
    match clock {
        0 => get_known(out, snapshot, ClockId::Realtime, reading),
        1 => get_known(out, snapshot, ClockId::Monotonic, reading),
        _ => get_named(out, snapshot, clock, reading),
    }
}

/// Returns whether the clocks are awake and count up to a reading, as in almost every read.
#[inline(always)]
fn is_ahead(snapshot: &Snapshot, reading: u64) -> bool {
    let desc = snapshot.desc();
    let gap = desc.gap(snapshot.last(), reading);
    reading <= desc.mask() && !snapshot.asleep() && !desc.is_behind(gap)
}

/// Writes the time of the clock with a number, as `tkc_snapshot_get` does for any number.
///
/// `tkc_snapshot_get` itself contains separate branches for the two most frequent clocks. This
/// function is out of line, so that those branches don't start with a jump table.
#[inline(never)]
fn get_named(out: &mut TimeStorage, snapshot: &Snapshot, clock: u32, reading: u64) -> u32
    ensures { IsReadBy snapshot.now.base clock reading out.old out.new result }
{
    match clock_named(clock) {
        Some(named) => get_known(out, snapshot, named, reading),
        None => Code::BadClock.number(),
    }
}

/// Writes a clock's time at a reading, or returns the code of the first test that fails.
#[inline(always)]
pub(crate) fn get_known(
    out: &mut TimeStorage,
    snapshot: &Snapshot,
    clock: ClockId,
    reading: u64,
) -> u32
    ensures { IsRead snapshot.now.base clock reading out.old out.new result }
{
    match snapshot.get(clock, reading) {
        Ok(time) => {
            // three stores, two of which write fields unchanged as the read returned them
            out.sec = time.sec;
            out.nsec = time.nsec;
            out.padding = 0;
            Code::Done.number()
        }
        Err(refusal) => Code::from(refusal).number(),
    }
}

/// Converts `count` stamps to a clock's times in ns, and writes the times to `out` (`lane_batch`).
///
/// Writes the number of converted stamps to `done`: all of them, or the stamps before the first
/// refused one. `out` has capacity for `room` numbers. The numbers after the converted ones don't
/// change. If `room` is 0, `out` may be NULL; if `count` is 0, `stamps` may be NULL.
///
/// # Errors
///
/// Returns, in this order:
///
/// - `Code::BadClock` if no clock has the number `clock`: nothing is written;
/// - `Code::BadRoom` if `room` is below `count`: nothing is written;
/// - `Code::Invalid` or `Code::Range` if a read at stamp number `done` is refused with this code:
///   the times of the stamps before it are written.
#[unsafe(no_mangle)]
pub unsafe extern "C" fn tkc_snapshot_convert(
    out: *mut u64,
    room: usize,
    done: &mut usize,
    snapshot: &Snapshot,
    clock: u32,
    stamps: *const u64,
    count: usize,
) -> u32
    ghost lists: { Lists }
    requires* { sem 𝓛 (owned_at out room lists.old)
        ∗ sem 𝓛 (shared_at stamps count lists.alive lists.share lists.stamps)
        ∗ ⌜ (length lists.stamps ≡ count) × (room * 8 < 2 ^ 63) ⌝ }
    ensures* { ∃ₛ (λ (new : List ℕ). sem 𝓛 (owned_at out room new)
        ∗ sem 𝓛 (shared_at stamps count lists.alive lists.share lists.stamps)
        ∗ ⌜ IsAnswered snapshot.now.base clock lists.stamps lists.old new done.old done.new
        result ⌝) }
{
    if count == 0 {
        return convert_none(done, clock);
    }
    if room == 0 {
        return convert_into_none(clock);
    }
    convert(
        from_raw_parts_mut(out, room),
        done,
        snapshot,
        clock,
        from_raw_parts(stamps, count),
    )
}

/// Converts no stamps: tests the clock's number and writes 0 to `done`.
fn convert_none(done: &mut usize, clock: u32) -> u32
    ensures { MatchOption (clock_named clock)
        ((result ≡ number_of BadClock) × (done.new ≡ done.old))
        (λ named. (result ≡ number_of Done) × (done.new ≡ 0)) }
{
    if clock_named(clock).is_none() {
        return Code::BadClock.number();
    }
    *done = 0;
    Code::Done.number()
}

/// Returns the code that says why one or more stamps can't be converted into an empty list.
fn convert_into_none(clock: u32) -> u32
    ensures { (base : ReadBase) (stamps : List ℕ) (done : ℕ) → 0 < length stamps →
        IsAnswered base clock stamps [] [] done done result }
{
    match clock_named(clock) {
        Some(_) => Code::BadRoom.number(),
        None => Code::BadClock.number(),
    }
}

/// Converts stamps as `tkc_snapshot_convert` does, for lists that are slices.
fn convert(
    out: &mut [u64],
    done: &mut usize,
    snapshot: &Snapshot,
    clock: u32,
    stamps: &[u64],
) -> u32
    ensures { IsAnswered snapshot.now.base clock stamps.now out.old out.new done.old done.new
        result }
{
    let Some(named) = clock_named(clock) else {
        return Code::BadClock.number();
    };
    let count = stamps.len();
    if out.len() < count {
        return Code::BadRoom.number();
    }
    let (converted, code) = match lane_batch(snapshot, named, stamps, &mut out[..count]) {
        Ok(()) => (count, Code::Done),
        Err(BatchError::Invalid { index }) => (index, Code::Invalid),
        Err(BatchError::Range { index }) => (index, Code::Range),
    };
    *done = converted;
    code.number()
}
