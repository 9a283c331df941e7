//! Returns single numbers of snapshots and clocks.
ghost use Rattle.std.specs.Prelude.{◌≡◌, pos, if◌then◌else◌};

use crate::counted::CountedClock;
use tk_clock::Snapshot;

/// Returns the front of a snapshot: the number of commands or calls that its clocks had accepted
/// (`Snapshot::front`).
#[unsafe(no_mangle)]
pub extern "C" fn tkc_snapshot_front(snapshot: &Snapshot) -> u64
    ensures { result ≡ snapshot.now.front }
{
    snapshot.front()
}

/// Returns TAI minus REALTIME, in seconds, 0 to 100,000 (`Snapshot::tai`).
#[unsafe(no_mangle)]
pub extern "C" fn tkc_snapshot_tai(snapshot: &Snapshot) -> u32
    ensures { pos result ≡ snapshot.now.base.tai }
{
    snapshot.tai()
}

/// Returns 1 while the clocks are asleep, otherwise 0 (`Snapshot::asleep`).
#[unsafe(no_mangle)]
pub extern "C" fn tkc_snapshot_asleep(snapshot: &Snapshot) -> u32
    ensures { result ≡ if snapshot.now.base.asleep then 1 else 0 }
{
    u32::from(snapshot.asleep())
}

/// Returns the frequency of the clocks as it was set, in `2^-16` ppm (`Clock::frequency`).
#[unsafe(no_mangle)]
pub extern "C" fn tkc_clock_frequency(clock: &CountedClock) -> i64
    ensures { result ≡ clock.now.clock.frequency }
{
    clock.clock.frequency()
}

/// Returns the tick of the clocks, in microseconds, 9,000 to 11,000 (`Clock::tick`).
#[unsafe(no_mangle)]
pub extern "C" fn tkc_clock_tick(clock: &CountedClock) -> i64
    ensures { result ≡ clock.now.clock.tick }
{
    clock.clock.tick()
}
