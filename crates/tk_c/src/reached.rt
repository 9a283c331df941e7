//! Finds the readings at which clocks reach given times.
ghost use Rattle.std.specs.Prelude.{◌≡◌, if◌then◌else◌};
ghost use Rattle.tk_clock.specs.Time.{nanoseconds};
ghost use Rattle.tk_clock.specs.declared.timespec.Timespec.{Timespec};
ghost use Rattle.tk_c.specs.Reached.{IsReachedBy, IsReachedAgain};
ghost use Rattle.tk_c.specs.declared.code.Code.TheVariants.{Further, Never};

use crate::code::Code;
use crate::named::clock_named;
use tk_clock::{Snapshot, Timespec};

/// Writes to `out` the first reading at which a clock has reached a time (`Snapshot::reading_at`).
/// At this reading `tkc_snapshot_get` writes `sec` s plus `nsec` ns or a later time. `clock` is a
/// number of `enum tkc_clock_id`.
///
/// It searches from the last command's reading to half the counter's range after it. `sec` and
/// `nsec` may be any numbers.
///
/// # Errors
///
/// Leaves `out` and returns, in this order:
///
/// - `Code::BadClock` if no clock has the number `clock`;
/// - `Code::Further` if the clock counts and the time is below its limit, but every such reading
///   gives an earlier time (`Snapshot::is_further`);
/// - `Code::Never` if no such reading gives the time or a later one for another reason: the clocks
///   are asleep, the clock is a coarse one, or the clock reaches its limit first.
#[unsafe(no_mangle)]
pub extern "C" fn tkc_snapshot_reading(
    out: &mut u64,
    snapshot: &Snapshot,
    clock: u32,
    sec: i64,
    nsec: u32,
) -> u32
    ensures first { let time : Timespec = record { sec = sec; nsec = nsec } in
        IsReachedBy snapshot.now.base clock (nanoseconds time) out.old out.new result }
    ensures again { let time : Timespec = record { sec = sec; nsec = nsec } in
        IsReachedAgain snapshot.now.base clock (nanoseconds time) out.new result }
{
    let Some(named) = clock_named(clock) else {
        return Code::BadClock.number();
    };
    let time = Timespec { sec, nsec };
    match snapshot.reading_at(named, time) {
        Some(reading) => {
            *out = reading;
            Code::Done.number()
        }
        None => unreached(snapshot.is_further(named, time)).number(),
    }
}

/// Returns the code of a time that the clock reaches at none of the searched readings.
pub(crate) fn unreached(is_further: bool) -> Code
    ensures { result ≡ if is_further then Further else Never }
{
    if is_further {
        Code::Further
    } else {
        Code::Never
    }
}
