use crate::clock::Clock;
use crate::command::Entry;
use crate::refusal::Refusal;

/// Keeps running clocks and takes commands for them: a `Clock` does, and so does a keeper that
/// records each command in a journal.
///
/// Whoever steers clocks gives each command here once, and need not know who records it.
pub trait Clocks {
    ghost use Rattle.std.specs.Prelude.{◌≡◌, ◌+◌, ◌≤◌, ℕ, List, [], ◌∷◌, ◌++◌, ◌↔◌, IsTrue, MatchResult, Some, None};
    ghost use Rattle.tk_clock.specs.declared.command.Entry.{Entry};
    ghost use Rattle.tk_clock.specs.declared.refusal.Refusal.{Refusal};
    ghost use Rattle.tk_clock.specs.Refusal.{state_refusal};
    ghost use Rattle.tk_clock.specs.State.{State, effect};

    // what the clocks are
    ghost state: { Self → State };

    // what keeps the clocks has all that it had, and then these accepted entries
    ghost is_after: { Self → List Entry → Self → Type 0 };

    // whether this many more entries can be made, apart from the clocks' own tests
    ghost has_room: { ℕ → Self → Type 0 };

    // why this many more entries can't be made
    ghost is_short: { ℕ → Self → Refusal → Type 0 };

    /// Returns the clocks.
    fn clock(&self) -> &Clock
        ensures { result.now ≡ state self.now };

    /// Returns whether there is room for `count` more entries, at most 6.
    fn is_ready(&self, count: usize) -> bool
        requires { count ≤ 6 }
        ensures { IsTrue result ↔ has_room count self.now };

    /// Makes room for `count` more entries, at most 6. The clocks and their entries stay.
    ///
    /// # Errors
    ///
    /// The reason why there is no room. Room may have grown then, too.
    fn ready(&mut self, count: usize) -> Result<(), Refusal>
        requires { count ≤ 6 }
        ensures answer { MatchResult result
            (λ _. has_room count self.new)
            (λ refusal. is_short count self.new refusal) }
        ensures state { state self.new ≡ state self.old }
        ensures kept { is_after self.old [] self.new };

    /// Gives the clocks a command, for which there is room.
    ///
    /// # Errors
    ///
    /// The errors of `Clock::apply`. Nothing changes then.
    fn give(&mut self, entry: Entry) -> Result<(), Refusal>
        requires { has_room 1 self.old }
        ensures answer { MatchResult result
            (λ _. (state_refusal (state self.old) entry.reading entry.cmd ≡ None)
            × (state self.new ≡ effect (state self.old) entry.reading entry.cmd))
            (λ refusal.
            (state_refusal (state self.old) entry.reading entry.cmd ≡ Some refusal)
            × (self.new ≡ self.old)) }
        ensures kept { MatchResult result
            (λ _. is_after self.old (entry ∷ []) self.new)
            (λ _. is_after self.old [] self.new) }
        ensures room { (count : ℕ) → has_room (count + 1) self.old → has_room count self.new };

    // with no entry all stays
    ghost stays: { (a : Self) → is_after a [] a };

    // fewer entries need less room
    ghost needs_less: { (count : ℕ) (a : Self) → has_room (count + 1) a → has_room count a };

    // entries come one after the other
    ghost joins: { (a b c : Self) (xs ys : List Entry) → is_after a xs b → is_after b ys c →
        is_after a (xs ++ ys) c };
}

impl Clocks for Clock {
    ghost state = { λ clock. clock };

    // clocks by themselves have no entries
    ghost is_after = { λ _ _ _. Unit {0} };

    ghost has_room = { λ _ _. Unit {0} };

    ghost is_short = { λ _ _ _. ⊥ };

    ghost stays = { λ _. tt };

    ghost needs_less = { λ _ _ _. tt };

    ghost joins = { λ _ _ _ _ _ _ _. tt };

    #[inline(always)]
    fn clock(&self) -> &Clock {
        self
    }

    #[inline(always)]
    fn is_ready(&self, _count: usize) -> bool {
        true
    }

    #[inline(always)]
    fn ready(&mut self, _count: usize) -> Result<(), Refusal> {
        Ok(())
    }

    #[inline(always)]
    fn give(&mut self, entry: Entry) -> Result<(), Refusal> {
        self.apply(entry.reading, entry.cmd)
    }
}
