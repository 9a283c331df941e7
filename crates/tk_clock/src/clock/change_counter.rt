//! Changes the counter that the clocks run over.
ghost use Rattle.std.specs.Prelude.{◌≡◌, ◌≤◌, MatchResult, IfOk, Some, None};
ghost use Rattle.tk_counter.specs.Counter.{IsCounter, mask};
ghost use Rattle.tk_clock.specs.State.{State};
ghost use Rattle.tk_clock.specs.ChangeCounter.{brought_forward, state_over, changed, forward_refusal, rate_refusal, change_refusal, KeepsTimes, NeverFallsOver, KeepsAmounts, KeepsSettings};

use super::Clock;
use crate::command::Command;
use crate::refusal::Refusal;
use tk_counter::CounterDesc;

impl Clock {
    /// Changes the counter (`change_clocksource`): brings the clocks forward to `reading` of the
    /// present counter, as an update does, and lets them run over the counter `desc` starting at
    /// its reading `first`. Both readings are in cycles.
    ///
    /// Every clock that isn't coarse has the same time, in ns, at `first` as at `reading`. The
    /// coarse clocks show the time of the change, as after any command. So both readings must be
    /// taken at the same moment: the time from one to the other isn't counted. If the shift of
    /// `desc` is smaller than the present one, MONOTONIC and MONOTONIC_RAW lose less than
    /// `2^-shift` ns of the part below a nanosecond; otherwise they lose nothing. The frequency as
    /// it was set, the tick, the offsets and the TAI offset stay, and the new multiplier follows
    /// from the frequency and the tick.
    ///
    /// Clocks that are asleep stay asleep, and aren't brought forward. The next `Resume` takes a
    /// reading of the counter `desc`.
    ///
    /// # Errors
    ///
    /// Returns the first test that fails, in this order. A refused change doesn't change the
    /// clocks.
    ///
    /// - `Invalid`: `reading` is above the mask of the present counter, or `first` is above the
    ///   mask of `desc`.
    /// - `Behind`: `reading` is behind the last command, and the clocks are awake.
    /// - `Range`: a clock would be at its limit or beyond it, or MONOTONIC_RAW would be further
    ///   ahead of MONOTONIC than the slowest rate of `desc` allows.
    pub fn change_counter(
        &mut self,
        reading: u64,
        desc: CounterDesc,
        first: u64,
    ) -> Result<(), Refusal>
        ensures answer { MatchResult result
            (λ _. (change_refusal self.old reading desc first ≡ None)
            × (self.new ≡ changed self.old reading desc first))
            (λ refusal. (change_refusal self.old reading desc first ≡ Some refusal)
            × (self.new ≡ self.old)) }
        ensures times { IfOk result
            (λ _. KeepsTimes self.old.base reading self.new.base first) }
        ensures rises { IfOk result (λ _. NeverFallsOver self.old.base reading self.new.base) }
        ensures amounts { IfOk result (λ _. KeepsAmounts self.old.base reading self.new.base) }
        ensures settings { IfOk result (λ _. KeepsSettings self.old self.new) }
        ensures counter { IsCounter desc }
    {
        *self = self.changed(reading, desc, first)?;
        Ok(())
    }

    /// Returns the clocks after a change of counter, or the first test that fails.
    fn changed(&self, reading: u64, desc: CounterDesc, first: u64) -> Result<Clock, Refusal>
        ensures answer { MatchResult result
            (λ clock. (change_refusal self.now reading desc first ≡ None)
            × (clock ≡ changed self.now reading desc first))
            (λ refusal. change_refusal self.now reading desc first ≡ Some refusal) }
        ensures counter { IsCounter desc }
    {
        if first > desc.mask() {
            return Err(Refusal::Invalid);
        }
        let now = self.brought_forward(reading)?;
        now.carried_over(desc, first)
    }

    /// Returns the clocks, brought forward to a reading of their counter unless they are asleep.
    fn brought_forward(&self, reading: u64) -> Result<Clock, Refusal>
        ensures { MatchResult result
            (λ clock. (forward_refusal self.now reading ≡ None)
            × (clock ≡ record self.now { base = brought_forward self.now.base reading }))
            (λ refusal. forward_refusal self.now reading ≡ Some refusal) }
    {
        if !self.base.asleep {
            self.check(reading, Command::Update)?;
            return self.update(self.forwarded(reading, Command::Update)?);
        }
        if reading > self.base.desc.mask() {
            return Err(Refusal::Invalid);
        }
        Ok(*self)
    }

    /// Returns the clocks over another counter, starting at its reading `first`. The error is
    /// `Range` if MONOTONIC_RAW is too far ahead of MONOTONIC for that counter.
    fn carried_over(&self, desc: CounterDesc, first: u64) -> Result<Clock, Refusal>
        requires counter { IsCounter desc }
        requires first { first ≤ mask desc }
        ensures { let after = state_over self.now desc first in
            MatchResult result
            (λ clock. (rate_refusal after.base ≡ None) × (clock ≡ after))
            (λ refusal. rate_refusal after.base ≡ Some refusal) }
    {
        let mult = desc.mult_at(self.frequency, self.tick);
        let base = self.base.carried_over(desc, first, mult);
        if !base.is_rated() {
            return Err(Refusal::Range);
        }
        Ok(Clock { base, ..*self })
    }
}
