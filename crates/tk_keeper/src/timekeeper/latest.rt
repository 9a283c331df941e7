//! Reads MONOTONIC at the reading to which the clocks were last brought forward.
ghost use Rattle.std.specs.Prelude.{◌≡◌, ◌*◌, ◌/◌, ◌^◌, ◌<◌, ◌≤◌, pos, unsigned_abs};
ghost use Rattle.tk_clock.specs.Clocks.{clock_value};
ghost use Rattle.tk_clock.specs.Journal.{last_reading};
ghost use Rattle.tk_clock.specs.Limits.{clock_end};
ghost use Rattle.tk_keeper.specs.Read.{IsTimeOf};

use super::Timekeeper;
use std::alloc::Allocator;
use tk_clock::{ClockId, Timespec};

impl<A: Allocator + Copy> Timekeeper<A> {
    /// Returns MONOTONIC at the last accepted command's reading, or at the opening: whole seconds
    /// since opening, and nanoseconds, rounded down.
    ///
    /// `get` gives the same time at that reading. This call takes less work, because the clocks
    /// were already brought forward to it, and it has no error, because every accepted command
    /// leaves MONOTONIC below its limit.
    pub fn monotonic(&self) -> Timespec
        ensures value { IsTimeOf (clock_value self.now.journal ClockId.Monotonic
            (last_reading self.now.journal)) result }
        ensures below { unsigned_abs result.sec < clock_end }
    {
        let now = self.snapshot();
        // BOOTTIME is below its limit, and MONOTONIC isn't ahead of it
        let _ = (self.clock.tick(), now.boot_offset());
        time_of(now.sec(), now.frac(), now.desc().shift())
    }
}

/// Returns the time of `sec` whole seconds and a part below a second, in units of `2^-shift` ns,
/// which is rounded down to ns.
#[inline(always)]
pub fn time_of(sec: u64, frac: u64, shift: u32) -> Timespec
    requires whole { sec < clock_end }
    requires part { frac < 10 ^ 9 * 2 ^ shift }
    requires shift { shift ≤ 32 }
    ensures value { result ≡ record { sec = pos sec; nsec = frac / 2 ^ shift } }
    ensures below { unsigned_abs result.sec < clock_end }
{
    Timespec {
        sec: sec as i64,
        nsec: (frac >> shift) as u32,
    }
}
