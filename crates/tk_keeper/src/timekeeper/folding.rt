//! Folds the oldest entries into the opening.
ghost use Rattle.std.specs.Prelude.{◌≡◌, ◌-◌, ◌≤◌, length, max};
ghost use Rattle.tk_clock.specs.Journal.{accepted_count};
ghost use Rattle.tk_clock.specs.Legal.{IsLegal};
ghost use Rattle.tk_keeper.specs.Past.{IsFolded};
ghost use Rattle.tk_clock.specs.Folding.{folded_by};

use super::{KEPT_EVERY, Timekeeper};
use std::alloc::Allocator;

impl<A: Allocator + Copy> Timekeeper<A> {
    /// Folds the oldest entries into the opening, so that at most `keep` entries stay listed.
    /// Returns the number of commands folded so far.
    ///
    /// Entry numbers don't change, nor does any value at a front equal to or above the returned
    /// number. Earlier fronts no longer have a snapshot. The call moves no entry, so it takes the
    /// same time for any number of entries. It applies at most 255 of them again.
    pub fn fold(&mut self, keep: u64) -> u64
        ensures answer { let before = self.old.journal in
            result ≡ max before.opening.count (accepted_count before - keep) }
        ensures folded { self.new.journal.opening.count ≡ result }
        ensures journal { let before = self.old.journal in
            self.new.journal ≡ folded_by (result - before.opening.count) before }
        ensures same { IsFolded self.old.journal self.new.journal }
        ensures legal { IsLegal self.new.began self.new.journal }
        ensures began { self.new.began ≡ self.old.began }
        ensures spare { self.old.spare ≤ self.new.spare }
    {
        let places = self.entries.len().saturating_sub(keep as usize);
        self.fold_first(places);
        self.folded
    }

    /// Folds the first `places` of the listed entries.
    fn fold_first(&mut self, places: usize)
        requires { places ≤ length self.old.journal.entries }
        ensures journal { self.new.journal ≡ folded_by places self.old.journal }
        ensures began { self.new.began ≡ self.old.began }
        ensures spare { self.old.spare ≤ self.new.spare }
    {
        let start = self.clock_at(places);
        let folded = self.folded as usize;
        let kept = (folded + places) / KEPT_EVERY - folded / KEPT_EVERY;
        self.entries.discard(places);
        self.kept.discard(kept);
        self.start = start;
        self.folded += places as u64;
    }
}
