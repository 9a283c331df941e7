//! Changes the counter that the clocks run over.
ghost use Rattle.std.specs.Prelude.{◌≡◌, ◌+◌, ◌<◌, ◌≤◌, [], MatchResult, IfOk, Some, None};
ghost use Rattle.tk_counter.specs.Counter.{multiplier};
ghost use Rattle.tk_clock.specs.Folding.{journal_from};
ghost use Rattle.tk_clock.specs.Journal.{accepted_count};
ghost use Rattle.tk_clock.specs.Legal.{IsLegal, IsStart, folded_opening};
ghost use Rattle.tk_clock.specs.Limits.{counted_most};
ghost use Rattle.tk_keeper.specs.ChangeCounter.{changed_by, counter_refusal, AgreesOver, RisesOver};

use super::Timekeeper;
use std::alloc::Allocator;
use tk_clock::{COUNTED_LIMIT, Clock, Refusal};
use tk_counter::CounterDesc;

impl<A: Allocator + Copy> Timekeeper<A> {
    /// Changes the counter (`change_clocksource`): brings the clocks forward to `reading` of the
    /// present counter, as an update does, and lets them run over the counter `desc` starting at
    /// its reading `first`. Returns the number of this command, counted from 1 as an entry's.
    ///
    /// Every clock that isn't coarse has the same time, in ns, at `first` as at `reading`, and the
    /// coarse clocks show the time of the change. So both readings, in cycles, must be taken at the
    /// same moment. `Clock::change_counter` describes what stays.
    ///
    /// The journal is folded at the change. So `folded()` is the returned number, and earlier
    /// fronts no longer have a snapshot. The journal's opening has the new counter, and later
    /// commands are numbered onwards. The call allocates nothing, and takes the same time for any
    /// number of entries.
    ///
    /// # Errors
    ///
    /// Returns the first test that fails, in this order. A refused change changes nothing.
    ///
    /// - `Refusal::Full` if the journal counts `2^63 - 1` commands. It may list any number of
    ///   entries.
    /// - `Refusal::Invalid` if `reading` is above the mask of the present counter, or `first` above
    ///   the mask of `desc`.
    /// - `Refusal::Behind` if `reading` is behind the last accepted command's, and the clocks are
    ///   awake.
    /// - `Refusal::Range` if a clock would reach its limit, or MONOTONIC_RAW would be further ahead
    ///   of MONOTONIC than the slowest rate of `desc` allows.
    pub fn change_counter(
        &mut self,
        reading: u64,
        desc: CounterDesc,
        first: u64,
    ) -> Result<u64, Refusal>
        ensures answer { MatchResult result
            (λ number. (counter_refusal self.old.journal reading desc first ≡ None)
            × (self.new.journal ≡ changed_by self.old.journal reading desc first)
            × (number ≡ accepted_count self.new.journal))
            (λ refusal. (counter_refusal self.old.journal reading desc first ≡ Some refusal)
            × (self.new ≡ self.old)) }
        ensures folded { IfOk result (λ number. self.new.journal.opening.count ≡ number) }
        ensures began { self.new.began ≡ self.old.began }
        ensures spare { IfOk result (λ _. self.old.spare ≤ self.new.spare + 1) }
        // each clock at the change is the same before and after
        ensures agrees { IfOk result
            (λ _. AgreesOver self.old.journal reading self.new.journal first) }
        // no prefix, read in its life, returns more than the journal returns now at any reading
        ensures rises { IfOk result (λ _. RisesOver self.old.journal reading self.new.journal) }
        ensures legal { IsLegal self.new.began self.new.journal }
    {
        if self.len() as u64 >= COUNTED_LIMIT {
            return Err(Refusal::Full);
        }
        let mut clock = self.clock;
        clock.change_counter(reading, desc, first)?;
        self.begin_again(clock);
        Ok(self.folded)
    }

    /// Replaces the clocks, and folds all commands and one more into the opening.
    fn begin_again(&mut self, clock: Clock)
        requires counted { accepted_count self.old.journal < counted_most }
        requires starts { IsStart self.old.began
            (folded_opening (accepted_count self.old.journal + 1) clock) }
        requires steered { clock.base.mult
            ≡ multiplier clock.base.counter clock.frequency clock.tick }
        ensures journal { self.new.journal
            ≡ journal_from (accepted_count self.old.journal + 1) clock [] }
        ensures began { self.new.began ≡ self.old.began }
        ensures spare { self.old.spare ≤ self.new.spare + 1 }
    {
        let places = self.entries.len();
        let kept = self.kept.len();
        self.entries.discard(places);
        self.kept.discard(kept);
        self.folded += places as u64 + 1;
        self.start = clock;
        self.clock = clock;
    }
}
