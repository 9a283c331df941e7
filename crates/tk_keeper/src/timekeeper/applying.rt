//! Applies commands, and reserves the memory for their entries.
ghost use Rattle.std.specs.Prelude.{◌≡◌, ◌+◌, ◌-◌, ◌<◌, ◌≤◌, length, min, MatchResult, IfOk, IsErrOf, Some, None, false};
ghost use Rattle.tk_clock.specs.Journal.{followed_by, accepted_count};
ghost use Rattle.tk_clock.specs.Life.{NeverFalls};
ghost use Rattle.tk_clock.specs.Limits.{listed_most};
ghost use Rattle.tk_clock.specs.Monotonic.{monotonic};
ghost use Rattle.tk_clock.specs.Refusal.{first_refusal, is_full, IsRefusal};
ghost use Rattle.tk_clock.specs.declared.command.Entry.{Entry};

use super::{KEPT_EVERY, Kept, LISTED_LIMIT, Timekeeper};
use std::alloc::Allocator;
use tk_clock::{COUNTED_LIMIT, Command, Entry, Refusal};

impl<A: Allocator + Copy> Timekeeper<A> {
    /// Applies a command to the clocks, adds it to the journal, and returns the entry's number,
    /// counted from 1.
    ///
    /// `who` is the number of the caller, which the entry records; `reading` is in cycles. The call
    /// allocates only while `spare()` is 0. A refused command changes nothing.
    ///
    /// # Errors
    ///
    /// Returns the first test that fails, in this order:
    ///
    /// - `Refusal::Full` if the journal lists 1,048,576 entries or counts `2^63 - 1` commands.
    /// - `Refusal::Asleep` if the clocks are asleep and `cmd` isn't `Resume`; `Refusal::Awake` if
    ///   they are awake and it is.
    /// - `Refusal::Invalid` if `reading` is above the mask or a number of `cmd` is out of range.
    /// - `Refusal::Behind` if `reading` is behind the last accepted command's and `cmd` isn't
    ///   `Resume`.
    /// - `Refusal::Range` if a clock would reach its limit.
    /// - `Refusal::Invalid` if REALTIME would fall below MONOTONIC or beyond what may be set.
    /// - `Refusal::Memory` if `spare()` is 0 and the memory for the entry can't be allocated.
    #[inline(always)]
    pub fn apply(&mut self, who: u32, reading: u64, cmd: Command) -> Result<u64, Refusal>
        ensures answer { let entry : Entry = record { who = who; reading = reading; cmd = cmd } in
            MatchResult result
            (λ number. (first_refusal self.old.journal entry ≡ None)
            × (self.new.journal ≡ followed_by self.old.journal entry)
            × (number ≡ accepted_count self.new.journal))
            (λ refusal. IsRefusal self.old.journal entry refusal × (self.new ≡ self.old)) }
        ensures began { self.new.began ≡ self.old.began }
        ensures memory { IsErrOf result Refusal.Memory → self.old.spare ≡ 0 }
        ensures spare { IfOk result
            (λ _. 0 < self.old.spare → self.new.spare + 1 ≡ self.old.spare) }
        // MONOTONIC at the command's reading is the same before and after
        ensures agrees { IfOk result
            (λ _. monotonic self.old.journal reading ≡ monotonic self.new.journal reading) }
        // no prefix, read in its life, returns more than the journal returns now at any reading
        ensures rises { NeverFalls self.new.journal }
    {
        if self.is_full() {
            return Err(Refusal::Full);
        }
        let entry = Entry { who, reading, cmd };
        if self.spare() == 0 {
            return self.apply_growing(entry);
        }
        self.enter(entry)
    }

    /// Applies a command for which memory must be reserved first. It tests the command on a copy of
    /// the clocks, so that a refused one allocates nothing.
    fn apply_growing(&mut self, entry: Entry) -> Result<u64, Refusal>
        requires none { self.old.spare ≡ 0 }
        requires free { is_full self.old.journal ≡ false }
        ensures began { self.new.began ≡ self.old.began }
        ensures answer { MatchResult result
            (λ number. (first_refusal self.old.journal entry ≡ None)
            × (self.new.journal ≡ followed_by self.old.journal entry)
            × (number ≡ accepted_count self.new.journal))
            (λ refusal. IsRefusal self.old.journal entry refusal × (self.new ≡ self.old)) }
    {
        let mut next = self.clock;
        next.apply(entry.reading, entry.cmd)?;
        self.make_room()?;
        self.enter(entry)
    }

    /// Reserves memory for one more command, unless `spare()` is above 0.
    fn make_room(&mut self) -> Result<(), Refusal>
        requires { is_full self.old.journal ≡ false }
        ensures answer { MatchResult result
            (λ _. 0 < self.new.spare)
            (λ refusal. (refusal ≡ Refusal.Memory) × (self.old.spare ≡ 0) × (self.new ≡ self.old)) }
        ensures journal { self.new.journal ≡ self.old.journal }
        ensures began { self.new.began ≡ self.old.began }
        ensures spare { 0 < self.old.spare → self.new.spare ≡ self.old.spare }
    {
        if self.spare() == 0 {
            return self.reserve(1);
        }
        Ok(())
    }

    /// Applies a command as `apply` does, for a journal that isn't full and has the memory for its
    /// entry: `spare()` is above 0. It doesn't test them again.
    ///
    /// It changes the clocks in place. A refused command doesn't change them.
    ///
    /// # Errors
    ///
    /// The errors of `apply`, except `Full` and `Memory`.
    #[inline(always)]
    pub fn enter(&mut self, entry: Entry) -> Result<u64, Refusal>
        requires room { 0 < self.old.spare }
        requires free { is_full self.old.journal ≡ false }
        ensures answer { MatchResult result
            (λ number. (first_refusal self.old.journal entry ≡ None)
            × (self.new.journal ≡ followed_by self.old.journal entry)
            × (number ≡ accepted_count self.new.journal))
            (λ refusal. (first_refusal self.old.journal entry ≡ Some refusal)
            × (self.new ≡ self.old)) }
        ensures began { self.new.began ≡ self.old.began }
        ensures spare { IfOk result (λ _. self.new.spare + 1 ≡ self.old.spare) }
    {
        let after_run = self.is_after_run();
        self.clock.apply(entry.reading, entry.cmd)?;
        self.entries.push(entry);
        let number = self.folded + self.entries.len() as u64;
        if number % KEPT_EVERY as u64 == 0 {
            self.kept.push(Kept {
                clock: self.clock,
                after_run,
            });
        }
        Ok(number)
    }

    /// Reserves memory for `extra` more commands, or for the number that the journal may still list
    /// if that is lower. Changes nothing except `spare()`, which never falls.
    ///
    /// # Errors
    ///
    /// `Refusal::Memory` if that memory can't be allocated. `spare()` may have grown then, too.
    pub fn reserve(&mut self, extra: usize) -> Result<(), Refusal>
        ensures answer { let wanted = min extra (listed_most - length self.old.journal.entries) in
            MatchResult result
            (λ _. wanted ≤ self.new.spare)
            (λ refusal. (refusal ≡ Refusal.Memory) × (self.new.spare < wanted)) }
        ensures journal { self.new.journal ≡ self.old.journal }
        ensures began { self.new.began ≡ self.old.began }
        ensures spare { self.old.spare ≤ self.new.spare }
    {
        let places = extra.min(LISTED_LIMIT - self.entries.len());
        let kept = (self.len() % KEPT_EVERY + places) / KEPT_EVERY;
        let failed = self.entries.reserve(places).is_err() || self.kept.reserve(kept).is_err();
        if failed && self.spare() < places {
            return Err(Refusal::Memory);
        }
        Ok(())
    }

    /// Returns whether the journal is full.
    fn is_full(&self) -> bool
        ensures { result ≡ is_full self.now.journal }
    {
        self.entries.len() >= LISTED_LIMIT || self.len() as u64 >= COUNTED_LIMIT
    }
}
