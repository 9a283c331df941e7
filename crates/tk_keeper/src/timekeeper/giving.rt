//! Takes commands from whoever steers the clocks.
ghost use Rattle.std.specs.Prelude.{◌≡◌, ◌≤◌, MatchResult};
ghost use Rattle.tk_keeper.specs.Room.{HasRoom, IsShort, has_room};

use super::{LISTED_LIMIT, Timekeeper};
use std::alloc::Allocator;
use tk_clock::{COUNTED_LIMIT, Clock, Clocks, Entry, Refusal};

/// A keeper enters each command in its journal. There is room for entries if they fit the journal
/// and the memory that is reserved for them; `ready` reserves it.
impl<A: Allocator + Copy> Clocks for Timekeeper<A> {
    ghost use Rattle.tk_keeper.specs.Room.{HasAdded, HasRoom, IsShort, keeper_state};
    ghost use Rattle.tk_keeper.specs.Adding.{joins as joins_in, needs_less as needs_less_in, stays as stays_in};

    ghost state = { λ keeper. keeper_state keeper };

    ghost is_after = { HasAdded };

    ghost has_room = { HasRoom };

    ghost is_short = { IsShort };

    ghost stays = { stays_in };

    ghost needs_less = { needs_less_in };

    ghost joins = { joins_in };

    #[inline(always)]
    fn clock(&self) -> &Clock {
        Timekeeper::clock(self)
    }

    #[inline(always)]
    fn is_ready(&self, count: usize) -> bool {
        self.fits(count) && self.spare() >= count
    }

    #[inline(always)]
    fn ready(&mut self, count: usize) -> Result<(), Refusal> {
        if self.is_ready(count) {
            return Ok(());
        }
        self.make_ready(count)
    }

    #[inline(always)]
    fn give(&mut self, entry: Entry) -> Result<(), Refusal> {
        match self.enter(entry) {
            Ok(_) => Ok(()),
            Err(refusal) => Err(refusal),
        }
    }
}

impl<A: Allocator + Copy> Timekeeper<A> {
    /// Reserves memory for `count` more entries.
    ///
    /// # Errors
    ///
    /// - `Full`: they don't fit the journal.
    /// - `Memory`: that memory can't be allocated.
    fn make_ready(&mut self, count: usize) -> Result<(), Refusal>
        requires { count ≤ 6 }
        ensures answer { MatchResult result
            (λ _. HasRoom count self.new)
            (λ refusal. IsShort count self.new refusal) }
        ensures journal { self.new.journal ≡ self.old.journal }
        ensures began { self.new.began ≡ self.old.began }
        ensures spare { self.old.spare ≤ self.new.spare }
    {
        if !self.fits(count) {
            return Err(Refusal::Full);
        }
        self.reserve(count)
    }

    /// Returns whether this many more entries fit the journal.
    fn fits(&self, count: usize) -> bool
        requires { count ≤ 6 }
        ensures { result ≡ has_room count self.now.journal }
    {
        let listed = self.entries.len() + count;
        listed <= LISTED_LIMIT && (self.len() + count) as u64 <= COUNTED_LIMIT
    }
}
