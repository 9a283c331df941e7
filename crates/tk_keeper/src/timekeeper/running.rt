//! Applies many commands in one call.
ghost use Rattle.std.specs.Prelude.{◌≡◌, ◌+◌, ◌-◌, ◌<◌, ◌≤◌, length, max, min, IfOk, MatchResult};
ghost use Rattle.tk_clock.specs.Journal.{accepted_count};
ghost use Rattle.tk_clock.specs.Limits.{listed_most};
ghost use Rattle.tk_clock.specs.Run.{run};

use super::Timekeeper;
use std::alloc::Allocator;
use tk_clock::{Entry, Refusal};

impl<A: Allocator + Copy> Timekeeper<A> {
    /// Applies events in order, and returns the result of each. It continues after a refused event.
    ///
    /// The call reserves all memory before it applies any event, so no event's result is
    /// `Refusal::Memory`. An accepted event uses the capacity of one command; the rest stays.
    ///
    /// # Errors
    ///
    /// `Refusal::Memory` if the memory for the results or the entries can't be allocated. In this
    /// case no event was applied, but `spare()` may have grown.
    pub fn run(&mut self, events: &[Entry]) -> Result<Vec<Result<u64, Refusal>, A>, Refusal>
        ensures began { self.new.began ≡ self.old.began }
        ensures answer { MatchResult result
            (λ answers. (answers.items ≡ (run self.old.journal events.now).answers)
            × (self.new.journal ≡ (run self.old.journal events.now).journal))
            (λ refusal. (refusal ≡ Refusal.Memory) × (0 < length events.now)
            × (self.new.journal ≡ self.old.journal) × (self.old.spare ≤ self.new.spare)) }
        // the reserved capacity is left, or used by an accepted event
        ensures spare { let before = self.old.journal in
            let wanted = min (length events.now) (listed_most - length before.entries) in
            IfOk result (λ _. max self.old.spare wanted + accepted_count before
            ≤ self.new.spare + accepted_count self.new.journal) }
    {
        let Ok(mut answers) = Vec::with_capacity(*self.entries.allocator(), events.len()) else {
            return Err(Refusal::Memory);
        };
        self.reserve(events.len())?;
        'events: for event in events {
            answers.push_reserved(self.apply(event.who, event.reading, event.cmd));
        }
        Ok(answers)
    }
}
