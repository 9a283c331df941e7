//! Closes a shared keeper after all callers are back.
ghost use Rattle.std.specs.Prelude.{◌≡◌, ◌+◌, ◌<◌, ◌≤◌, All, MatchResult, Some, length, vec_len};
ghost use mathlib.Core.List.{IsPrefix};
ghost use Rattle.tk_clock.specs.Legal.{Opened};
ghost use Rattle.tk_now.specs.Moments.{AreInLife, AreInTurn};
ghost use Rattle.tk_shared.specs.Closing.{AreDifferent, HasFolded, HasListed, HasNoticed, HaveListed, IsClosed, IsPartOf, accepted_by};
ghost use Rattle.tk_shared.specs.Errors.{missing_debug, missing_text};
ghost use Rattle.tk_shared.specs.History.{AreSnapshots};
ghost use Rattle.tk_shared.specs.Opening.{AreNamed, AreWriters};

use crate::caller::Caller;
use crate::counter::Counter;
use crate::locked::Locked;
use crate::named::Named;
use crate::parts::{Shared, Writers};
use crate::shared_keeper::SharedKeeper;
use std::fmt;
use std::sync::Wait;
use std::sync::ledger::Share;
use thiserror::Error;
use tk_keeper::Timekeeper;

/// Contains the parts of a closed keeper.
#[derive(Drop)]
pub struct Closed<C: Counter> {
    /// The timekeeper. Its journal contains all accepted commands; the oldest may be folded.
    pub keeper: Timekeeper,
    /// The counter that the keeper was prepared with.
    pub counter: C,
}

/// Contains a keeper that stays open, because callers are missing, and the callers that were
/// passed.
#[derive(Drop, Error)]
pub struct Missing<L: Named, C: Counter> {
    /// The keeper, which can be used as before.
    pub keeper: SharedKeeper<L, C>,
    /// The callers that were passed to `close`.
    pub callers: Vec<Caller<L>>,
}

impl<L: Named, C: Counter> fmt::Debug for Missing<L, C> {
    ghost debug_output = { λ _. Some missing_debug };

    fn fmt<W: fmt::Write>(&self, f: &mut fmt::Formatter<W>) -> fmt::Result {
        f.write_str("Missing { .. }")
    }
}

impl<L: Named, C: Counter> fmt::Display for Missing<L, C> {
    ghost output = { λ _. Some missing_text };

    fn fmt<W: fmt::Write>(&self, f: &mut fmt::Formatter<W>) -> fmt::Result {
        f.write_str("callers are missing")
    }
}

impl<L: Named, C: Counter> SharedKeeper<L, C> {
    /// Closes the keeper, and returns its timekeeper and its counter. It must get all callers back.
    ///
    /// It may wait for a thread that holds the words of the page.
    ///
    /// # Errors
    ///
    /// `Missing` if there are fewer callers than the keeper was opened with. It contains the keeper
    /// and the callers, which can be used as before.
    pub fn close<R: Wait>(self, rt: &R, callers: Vec<Caller<L>>) -> Result<Closed<C>, Missing<L, C>>
        requires different { AreDifferent callers.items }
        ensures { MatchResult result
            (λ closed. (self ≤ vec_len callers) × IsClosed closed.keeper.journal callers.items
            × (closed.keeper.began ≡ Opened))
            (λ missing. (vec_len callers < self) × (missing.keeper ≡ self)
            × (missing.callers.items ≡ callers.items)) }
    {
        if callers.len() < self.callers {
            return Err(Missing {
                keeper: self,
                callers,
            });
        }
        let SharedKeeper {
            shared,
            locked,
            callers: _,
        } = self;
        let Locked {
            keeper,
            mut writers,
            counter,
            mask: _,
            mut book,
            rest: mut all,
        } = locked.into_inner();
        let folded = keeper.folded();
        take_all(rt, &shared, &mut writers, folded, &mut all, callers);
        book.audit(&mut all);
        Ok(Closed { keeper, counter })
    }
}

/// Gives all callers the knowledge of all publications, and joins their parts of the ledger.
fn take_all<L: Named, R: Wait>(
    rt: &R,
    shared: &Shared,
    writers: &mut Writers,
    folded: u64,
    all: &mut Share<L>,
    callers: Vec<Caller<L>>,
)
    requires named { AreNamed L.page L.latch L.notice shared.now }
    requires writers { AreWriters shared.now folded writers.old }
    requires snapshots { AreSnapshots writers.old.page.journal writers.old.latch.publications }
    requires within { all.old.parts ≤ L.parts }
    ensures parts { all.new.parts ≡ all.old.parts + length callers.items }
    ensures within { all.new.parts ≤ L.parts }
    ensures amount { all.new.amount ≡ all.old.amount + accepted_by callers.items }
    ensures seen { All (IsPartOf writers.old.page.journal) callers.items }
    ensures noticed { All (HasNoticed writers.old.notice.commands) callers.items }
    ensures listed { HaveListed writers.old.notice.commands callers.items }
    ensures folded { All (HasFolded folded) callers.items }
{
    for caller in callers {
        take_in(rt, shared, writers, folded, all, caller);
    }
}

/// Gives a caller the knowledge of all publications, and joins its part of the ledger to the
/// others.
fn take_in<L: Named, R: Wait>(
    rt: &R,
    shared: &Shared,
    writers: &mut Writers,
    folded: u64,
    all: &mut Share<L>,
    caller: Caller<L>,
)
    requires named { AreNamed L.page L.latch L.notice shared.now }
    requires writers { AreWriters shared.now folded writers.old }
    requires snapshots { AreSnapshots writers.old.page.journal writers.old.latch.publications }
    ensures same { (writers.new.page ≡ writers.old.page) × (writers.new.latch ≡ writers.old.latch)
        × (writers.new.notice.notice ≡ writers.old.notice.notice)
        × (writers.new.notice.commands ≡ writers.old.notice.commands)
        × (writers.new.notice.since ≡ writers.old.notice.since)
        × (writers.new.folds ≡ writers.old.folds) }
    ensures log { IsPrefix writers.old.notice.log writers.new.notice.log }
    ensures alive { AreInLife writers.old.notice.commands writers.new.notice.log }
    ensures turn { AreInTurn writers.new.notice.log }
    ensures parts { (all.new.parts ≡ all.old.parts + 1) × (all.new.parts ≤ L.parts) }
    ensures amount { all.new.amount ≡ all.old.amount + caller.accepted }
    ensures seen { IsPartOf writers.old.page.journal caller }
    ensures noticed { HasNoticed writers.old.notice.commands caller }
    ensures listed { HasListed writers.new.notice.log caller }
    ensures folded { HasFolded folded caller }
{
    let Caller {
        mut viewer,
        mut reader,
        notice_reader,
        mut folds,
        share,
        id: _,
        accepted: _,
    } = caller;
    shared.page.tell(rt, &mut writers.page, &mut viewer);
    writers.latch.tell(&shared.latch, &mut reader);
    writers.notice.take_in(&shared.notice, notice_reader);
    writers.folds.show(&shared.folds, &mut folds, folded);
    all.merge(share);
}
