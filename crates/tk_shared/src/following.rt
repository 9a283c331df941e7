//! Informs callers of everything while the keeper is open.
ghost use Rattle.std.specs.Prelude.{◌≡◌, ◌≤◌};
ghost use mathlib.Core.List.{IsPrefix};
ghost use Rattle.tk_page.specs.History.{Begins};
ghost use Rattle.tk_latch.specs.Latch.{told_reader};
ghost use Rattle.tk_now.specs.Moments.{IsTold};
ghost use Rattle.tk_shared.specs.Callers.{IsInformed, IsKnownBy, IsSameCaller};
ghost use Rattle.tk_shared.specs.Opening.{AreNamed, AreWriters};

use crate::caller::Caller;
use crate::counter::Counter;
use crate::lock::take;
use crate::locked::Locked;
use crate::named::Named;
use crate::parts::{Shared, Writers};
use crate::shared_keeper::SharedKeeper;
use std::sync::Wait;

impl<L: Named, C: Counter> SharedKeeper<L, C> {
    /// Informs a caller of everything that another one knows, and of the whole history with the
    /// readings of all commands and of all callers so far. The other one is informed of all this
    /// too.
    ///
    /// Under the conditions of `now`, no time of MONOTONIC that `now` or `now_fast` returns to the
    /// caller afterwards is below one that the other one got before the call: `now_never_falls`
    /// proves it from the clauses of this call. The conditions are that the keeper's commands read
    /// the same counter, that the counter is honest, and that enough commands are accepted.
    ///
    /// It waits for the lock, and then it may wait for readers of the page. It reads no counter,
    /// publishes nothing and allocates nothing.
    pub fn follow<R: Wait>(&self, rt: &R, caller: &mut Caller<L>, other: &mut Caller<L>)
        ensures informed { IsInformed caller.new × IsInformed other.new }
        ensures known { IsKnownBy caller.old caller.new × IsKnownBy other.old other.new }
        ensures follows { IsKnownBy other.new caller.new }
        ensures seen { caller.new.seen ≡ other.new.seen }
        ensures same { IsSameCaller caller.old caller.new × IsSameCaller other.old other.new }
        ensures accepted { (caller.new.accepted ≡ caller.old.accepted)
            × (other.new.accepted ≡ other.old.accepted) }
    {
        take(rt, &self.locked).follow(rt, &self.shared, caller, other)
    }
}

impl<L: Named, C: Counter> Locked<L, C> {
    /// Informs a caller of everything, after another one.
    ///
    /// It waits for readers of the page.
    pub(crate) fn follow<R: Wait>(
        &mut self,
        rt: &R,
        shared: &Shared,
        caller: &mut Caller<L>,
        other: &mut Caller<L>,
    )
        requires named { AreNamed L.page L.latch L.notice shared.now }
        ensures value { self.new ≡ self.old }
        ensures informed { IsInformed caller.new × IsInformed other.new }
        ensures known { IsKnownBy caller.old caller.new × IsKnownBy other.old other.new }
        ensures follows { IsKnownBy other.new caller.new }
        ensures seen { (caller.new.seen ≡ self.new.history) × (other.new.seen ≡ self.new.history) }
        ensures same { IsSameCaller caller.old caller.new × IsSameCaller other.old other.new }
        ensures accepted { (caller.new.accepted ≡ caller.old.accepted)
            × (other.new.accepted ≡ other.old.accepted) }
    {
        let folded = self.keeper.folded();
        inform(rt, shared, &mut self.writers, folded, other);
        inform(rt, shared, &mut self.writers, folded, caller);
    }
}

/// Gives a caller the knowledge of all publications, of all commands, of all readings so far, and of
/// the number of folded entries.
pub(crate) fn inform<L: Named, R: Wait>(
    rt: &R,
    shared: &Shared,
    writers: &mut Writers,
    folded: u64,
    caller: &mut Caller<L>,
)
    requires named { AreNamed L.page L.latch L.notice shared.now }
    requires writers { AreWriters shared.now folded writers.old }
    ensures same { (writers.new.page ≡ writers.old.page) × (writers.new.latch ≡ writers.old.latch)
        × (writers.new.folds ≡ writers.old.folds) }
    ensures notice { writers.new.notice
        ≡ record writers.old.notice { log = writers.new.notice.log } }
    ensures log { IsPrefix writers.old.notice.log writers.new.notice.log }
    ensures caller { caller.new ≡ record caller.old {
      seen = writers.old.page.journal;
      learnt = told_reader writers.old.latch;
      noticed = caller.new.noticed;
      folded = folded;
    } }
    ensures informed { IsTold writers.new.notice caller.old.noticed caller.new.noticed }
    ensures begins { Begins caller.old.seen writers.old.page.journal }
    ensures extends { IsPrefix caller.old.learnt.publications writers.old.latch.publications }
    ensures more { caller.old.folded ≤ folded }
{
    shared.page.tell(rt, &mut writers.page, &mut caller.viewer);
    writers.latch.tell(&shared.latch, &mut caller.reader);
    let reader = &mut caller.notice_reader;
    writers.notice.tell(&shared.notice, reader);
    writers.folds.show(&shared.folds, &mut caller.folds, folded);
}
