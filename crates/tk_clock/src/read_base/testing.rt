//! Tests the clocks' values at a reading, without a base there.
ghost use Rattle.std.specs.Prelude.{◌≡◌, ◌≤◌};
ghost use Rattle.tk_counter.specs.Counter.{mask};
ghost use Rattle.tk_clock.specs.Limits.{is_past_limit};
ghost use Rattle.tk_clock.specs.Running.{IsWithin};
ghost use Rattle.tk_clock.specs.State.{base_value};

use super::ReadBase;
use super::changes::is_at_limit;
use crate::clock_id::ClockId;
use crate::command::Command;

impl ReadBase {
    /// Returns whether a clock is at its limit at a reading, as `is_past_limit` does for an update
    /// at the last one.
    #[tactic(auto, unfolding(crate::specs::Limits::is_past_limit))]
    #[inline(always)]
    pub fn is_past_limit_at(&self, reading: u64) -> bool
        requires within { IsWithin self.now }
        requires reading { reading ≤ mask self.now.counter }
        ensures { result
            ≡ is_past_limit (λ clock. base_value self.now clock reading) Command.Update }
    {
        let Ok(now) = self.nanos(ClockId::Monotonic, reading) else {
            return true;
        };
        if is_at_limit(now, self.boot_offset) {
            return true;
        }
        // TAI is never below REALTIME
        is_at_limit(now + self.tai_nanos(), self.real_offset)
    }
}
