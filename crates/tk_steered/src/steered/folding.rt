//! Folds the journal, and reserves memory for its entries.
ghost use Rattle.std.specs.Prelude.{◌≡◌, ◌-◌, ◌<◌, ◌≤◌, MatchResult, length, max, min};
ghost use Rattle.tk_clock.specs.Folding.{folded_by};
ghost use Rattle.tk_clock.specs.Journal.{accepted_count};
ghost use Rattle.tk_clock.specs.Limits.{listed_most};
ghost use Rattle.tk_clock.specs.declared.refusal.Refusal.TheVariants.{Memory};
ghost use Rattle.tk_keeper.specs.Past.{IsFolded};
ghost use Rattle.tk_steered.specs.Kept.{steered_of};

use super::Steered;
use std::alloc::Allocator;
use tk_clock::Refusal;

impl<A: Allocator + Copy> Steered<A> {
    /// Folds the oldest entries into the journal's opening, so that at most `keep` entries stay
    /// listed, and returns the number of commands folded so far (`Timekeeper::fold`). The clocks
    /// and their discipline stay.
    pub fn fold(&mut self, keep: u64) -> u64
        ensures answer { let before = self.old.keeper.journal in
            result ≡ max before.opening.count (accepted_count before - keep) }
        ensures journal { let before = self.old.keeper.journal in
            self.new.keeper.journal ≡ folded_by (result - before.opening.count) before }
        ensures same { IsFolded self.old.keeper.journal self.new.keeper.journal }
        ensures began { self.new.keeper.began ≡ self.old.keeper.began }
        ensures course { self.new.course ≡ self.old.course }
        ensures clocks { steered_of self.new ≡ steered_of self.old }
        ensures spare { self.old.keeper.spare ≤ self.new.keeper.spare }
    {
        self.early = 0;
        self.keeper.fold(keep)
    }

    /// Reserves memory for `extra` more entries, or for the number that the journal may still list
    /// if that is lower (`Timekeeper::reserve`).
    ///
    /// # Errors
    ///
    /// `Memory` if that memory can't be allocated.
    pub fn reserve(&mut self, extra: usize) -> Result<(), Refusal>
        ensures answer { let listed = length self.old.keeper.journal.entries in
            let wanted = min extra (listed_most - listed) in
            MatchResult result
            (λ _. wanted ≤ self.new.keeper.spare)
            (λ refusal. (refusal ≡ Memory) × (self.new.keeper.spare < wanted)) }
        ensures journal { self.new.keeper.journal ≡ self.old.keeper.journal }
        ensures began { self.new.keeper.began ≡ self.old.keeper.began }
        ensures course { self.new.course ≡ self.old.course }
        ensures clocks { steered_of self.new ≡ steered_of self.old }
        ensures spare { self.old.keeper.spare ≤ self.new.keeper.spare }
    {
        self.early = 0;
        self.keeper.reserve(extra)
    }
}
