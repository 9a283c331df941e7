//! Tests updates without making them.
ghost use Rattle.std.specs.Prelude.{◌≡◌, MatchResult, Some, None};
ghost use Rattle.tk_clock.specs.Refusal.{state_refusal};

use super::Clock;
use crate::command::Command;
use crate::refusal::Refusal;

impl Clock {
    /// Tests an update at `reading`, in cycles: returns what `apply` would, and makes no copy of the
    /// clocks.
    ///
    /// # Errors
    ///
    /// Returns the errors of `apply` for an update.
    pub fn test_update(&self, reading: u64) -> Result<(), Refusal>
        ensures { MatchResult result
            (λ _. state_refusal self.now reading Command.Update ≡ None)
            (λ refusal. state_refusal self.now reading Command.Update ≡ Some refusal) }
    {
        self.check(reading, Command::Update)?;
        if self.base.is_past_limit_at(reading) {
            return Err(Refusal::Range);
        }
        Ok(())
    }
}
