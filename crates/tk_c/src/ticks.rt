//! Lets steered clocks pass a tick of a kernel in one call.
ghost use Rattle.std.specs.Prelude.{◌≡◌};
ghost use Rattle.tk_c.specs.CountedNtp.{whole};
ghost use Rattle.tk_c.specs.Ticks.{IsTicked, changes, tick_numbers_of};

use crate::code::Code;
use crate::counted_ntp::CountedNtp;
use crate::general_registers::store_snapshot;
use crate::storage::SnapshotStorage;

/// The bit of a tick in which a second of REALTIME has begun.
pub const TICK_SECOND: u32 = 1;

/// The bit of a tick in which a leap second has moved REALTIME.
pub const TICK_LEAP: u32 = 2;

/// The bit of a tick after which the clocks have another rate.
pub const TICK_RATE: u32 = 4;

/// Contains the numbers of clocks that differ after a tick that changed them.
#[derive(Clone, Copy)]
pub struct TickNumbers {
    /// The second of REALTIME that begins next.
    pub next: u64,
    /// REALTIME minus MONOTONIC, in ns.
    pub real_offset: u64,
    /// The multiplier in force.
    pub mult: u32,
}

/// Lets steered clocks pass a tick at a reading: each second of REALTIME up to it begins late, with
/// all commands at the reading, and then the clocks are updated there (`Course::tick`). Counts these
/// commands, writes a snapshot of the clocks to `out`, and what changed, as a sum of `TICK_SECOND`,
/// `TICK_LEAP` and `TICK_RATE`, to `changed`.
///
/// # Errors
///
/// Writes neither `out` nor `changed` then. Returns the codes of `tkc_ntp_advance_late`, in its order,
/// and `Code::Full` too if the front leaves no room for the 3 commands that an update may need: the
/// seconds up to the reading have begun then.
#[unsafe(no_mangle)]
pub extern "C" fn tkc_ntp_tick(
    out: &mut SnapshotStorage,
    changed: &mut u32,
    ntp: &mut CountedNtp,
    reading: u64,
) -> u32
    ensures { IsTicked (whole ntp.old) reading out.old changed.old result out.new changed.new
        (whole ntp.new) }
{
    let before = tick_numbers(ntp);
    match ntp.course.tick(&mut ntp.clocks, 0, reading) {
        Ok(()) => {
            store_snapshot(out, ntp.clocks.clock.snapshot(ntp.clocks.front));
            *changed = changes(&before, &tick_numbers(ntp));
            Code::Done.number()
        }
        Err(refusal) => Code::from(refusal).number(),
    }
}

/// Returns the numbers of these clocks that differ after a tick that changed them.
#[inline(always)]
fn tick_numbers(ntp: &CountedNtp) -> TickNumbers
    ensures { result ≡ tick_numbers_of (whole ntp.now).steered }
{
    let now = ntp.clocks.clock.snapshot(0);
    TickNumbers {
        next: ntp.course.coming_second(),
        real_offset: now.real_offset(),
        mult: now.mult(),
    }
}

/// Returns what changed, as the sum of its bits. As an inserted second begins, the same second of
/// REALTIME comes next as before.
fn changes(before: &TickNumbers, after: &TickNumbers) -> u32
    ensures { result ≡ changes before.now after.now }
{
    let is_leap = before.real_offset != after.real_offset;
    let second = if before.next != after.next || is_leap {
        TICK_SECOND
    } else {
        0
    };
    let leap = if is_leap { TICK_LEAP } else { 0 };
    let rate = if before.mult != after.mult {
        TICK_RATE
    } else {
        0
    };
    second + leap + rate
}
