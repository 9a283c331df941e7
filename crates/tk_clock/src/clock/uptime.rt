//! Opens clocks with an uptime.
ghost use Rattle.std.specs.Prelude.{◌≡◌, ◌*◌, ◌^◌, ◌<◌, ⊤, MatchResult, Some, None, pos, ◌≤ℤ◌, ◌<ℤ◌, unsigned_abs};
ghost use Rattle.tk_counter.specs.Counter.{second};
ghost use Rattle.tk_clock.specs.Amount.{units_of};
ghost use Rattle.tk_clock.specs.Limits.{monotonic_end};
ghost use Rattle.tk_clock.specs.Time.{nanoseconds};
ghost use Rattle.tk_clock.specs.Uptime.{running_refusal, opened_running, HasRun};

use super::Clock;
use crate::amount::Amount;
use crate::limits::{MONOTONIC_END, is_uptime};
use crate::refusal::Refusal;
use crate::timespec::{Timespec, nanos_of};
use tk_counter::CounterDesc;

impl Clock {
    /// Opens the clocks of the counter `desc` at `reading`, in cycles, as `open` does, but as
    /// clocks that have run for `uptime`: MONOTONIC, MONOTONIC_RAW and BOOTTIME are `uptime`, and
    /// REALTIME is `real`.
    ///
    /// # Errors
    ///
    /// Returns the first of these that applies:
    ///
    /// - `Invalid`: `open` would refuse `reading` or `real`.
    /// - `Invalid`: `uptime` is before 0 s, or its `nsec` is not below 10^9.
    /// - `Range`: `uptime` is 946,080,000 s or more, the limit of MONOTONIC.
    /// - `Invalid`: `real` is before `uptime`, so that REALTIME would be below MONOTONIC.
    pub fn open_at(
        desc: CounterDesc,
        reading: u64,
        real: Timespec,
        uptime: Timespec,
    ) -> Result<Clock, Refusal>
        ensures answer { MatchResult result
            (λ clock. (running_refusal desc reading real uptime ≡ None)
            × (clock ≡ opened_running desc reading real uptime))
            (λ refusal. running_refusal desc reading real uptime ≡ Some refusal) }
        ensures times { MatchResult result
            (λ clock. HasRun clock.base reading real uptime)
            (λ _. ⊤) }
    {
        let fresh = Clock::open(desc, reading, real)?;
        if !is_uptime(uptime) {
            return Err(Refusal::Invalid);
        }
        if uptime.sec >= MONOTONIC_END as i64 {
            return Err(Refusal::Range);
        }
        let Some(offset) = nanos_of(real).checked_sub(nanos_of(uptime)) else {
            return Err(Refusal::Invalid);
        };
        let base = fresh.base.with_uptime(amount_of(&desc, uptime), offset);
        Ok(Clock { base, ..fresh })
    }
}

/// Returns a time of fewer than 946,080,000 s as an amount of a counter.
fn amount_of(desc: &CounterDesc, time: Timespec) -> Amount
    requires since { pos 0 ≤ℤ time.sec }
    requires until { time.sec <ℤ pos monotonic_end }
    requires rest { time.nsec < 10 ^ 9 }
    ensures units { units_of desc.now result
        ≡ unsigned_abs (nanoseconds time) * 2 ^ desc.now.shift }
    ensures low { result.sec < monotonic_end }
    ensures rest { result.frac < second desc.now }
{
    Amount {
        sec: time.sec as u64,
        frac: u64::from(time.nsec) << desc.shift(),
    }
}
