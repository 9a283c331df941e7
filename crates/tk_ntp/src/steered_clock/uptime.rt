//! Opens steered clocks with an uptime.
ghost use Rattle.std.specs.Prelude.{◌≡◌, ◌*◌, ◌^◌, ◌*ℤ◌, MatchResult, IfOk, Some, None, pos, unsigned_abs};
ghost use Rattle.tk_clock.specs.Time.{nanoseconds};
ghost use Rattle.tk_ntp.specs.Account.{owed, IsConsistent};
ghost use Rattle.tk_ntp.specs.Rate.{nominal};
ghost use Rattle.tk_ntp.specs.Uptime.{steered_running_refusal, steered_running};

use super::SteeredClock;
use crate::discipline::Discipline;
use tk_clock::{Clock, Refusal, Timespec};
use tk_counter::CounterDesc;

impl SteeredClock {
    /// Opens the clocks of the counter `desc` at `reading`, in cycles, as `open` does, but as
    /// clocks that have run for `uptime`: MONOTONIC, MONOTONIC_RAW and BOOTTIME are `uptime`.
    ///
    /// # Errors
    ///
    /// Returns the first of these that applies:
    ///
    /// - the errors of `Clock::open_at`;
    /// - `Invalid`: `hz` is not 1 to 1024.
    pub fn open_at(
        desc: CounterDesc,
        reading: u64,
        real: Timespec,
        uptime: Timespec,
        hz: u32,
    ) -> Result<SteeredClock, Refusal>
        ensures answer { MatchResult result
            (λ steered. (steered_running_refusal desc reading real uptime hz ≡ None)
            × (steered ≡ steered_running desc reading real uptime hz))
            (λ refusal. steered_running_refusal desc reading real uptime hz ≡ Some refusal) }
        ensures consistent { IfOk result IsConsistent }
        // nothing is owed for the time since the opening
        ensures counted { IfOk result (λ steered. owed steered
            ≡ pos (unsigned_abs (nanoseconds uptime) * 2 ^ desc.shift) *ℤ pos nominal) }
    {
        let clock = Clock::open_at(desc, reading, real, uptime)?;
        let Some(ntp) = Discipline::new(hz) else {
            return Err(Refusal::Invalid);
        };
        Ok(SteeredClock::fresh(clock, ntp, reading, real))
    }
}
