//! Reads clocks as they were at the last command.
ghost use Rattle.tk_c.specs.Read.{IsReadBy};

use crate::code::Code;
use crate::named::clock_named;
use crate::snapshots::get_known;
use crate::storage::TimeStorage;
use tk_clock::Snapshot;

/// Writes a clock's time at the last command to `out`, and 0 to its padding, with no reading of
/// the counter (`ktime_get_coarse_ts64`). `clock` is a number of `enum tkc_clock_id`.
///
/// # Errors
///
/// Leaves `out` and returns `Code::BadClock` if no clock has the number `clock`.
#[unsafe(no_mangle)]
pub extern "C" fn tkc_snapshot_coarse(out: &mut TimeStorage, snapshot: &Snapshot, clock: u32) -> u32
    ensures { IsReadBy snapshot.now.base clock snapshot.now.base.last out.old out.new result }
{
    match clock_named(clock) {
        Some(named) => get_known(out, snapshot, named, snapshot.last()),
        None => Code::BadClock.number(),
    }
}
