//! The value that the lock protects, and the calls on it.
ghost use Rattle.std.specs.Prelude.{◌≡◌, ◌-◌, ◌≤◌, max, MatchResult};
ghost use Rattle.tk_clock.specs.Folding.{folded_by};
ghost use Rattle.tk_clock.specs.Journal.{accepted_count};
ghost use Rattle.tk_clock.specs.Limits.{counted_most};
ghost use Rattle.tk_shared.specs.Callers.{IsAccepted, IsFolded, IsInformed, IsKnownBy, IsRefused, IsSameCaller};
ghost use Rattle.tk_shared.specs.Opening.{AreNamed};
ghost use Rattle.tk_shared.specs.Readings.{EndsAtReading, IsRefusedAtReading};

use crate::caller::Caller;
use crate::counter::Counter;
use crate::following::inform;
use crate::named::Named;
use crate::parts::{Shared, Writers};
use std::marker::Model;
use std::sync::Wait;
use std::sync::ledger::{Book, Share};
use tk_clock::{Command, Entry, Refusal};
use tk_keeper::Timekeeper;

/// Contains the value under the lock.
///
/// Contracts see it as the history of all accepted commands and the keeper's journal.
#[derive(Drop)]
pub struct Locked<L: Named, C: Counter> {
    pub(crate) keeper: Timekeeper,
    pub(crate) writers: Writers,
    pub(crate) counter: C,
    /// The greatest reading of the counter.
    pub(crate) mask: u64,
    /// Counts the accepted commands.
    pub(crate) book: Book<L>,
    /// The ledger's empty share, to which `close` joins the callers' shares.
    pub(crate) rest: Share<L>,
}

impl<L: Named, C: Counter> Model for Locked<L, C> {
    ghost use Rattle.std.specs.Prelude.{◌≡◌};
    ghost use Rattle.tk_clock.specs.Legal.{Opened};
    ghost use Rattle.tk_shared.specs.Folds.{IsCounting};
    ghost use Rattle.tk_shared.specs.Locked.{Guarded, held_of, IsAtRest, IsHeld};

    ghost Value = { Guarded };

    ghost view = { λ c. record { history = c.writers.page.journal; journal = c.keeper.journal } };

    ghost invariant = { λ c.
        IsHeld L.page L.latch
        (held_of c.keeper.journal c.writers.page c.writers.latch c.mask c.book.total)
        × (c.rest.parts ≡ 0) × (c.rest.amount ≡ 0)
        × IsAtRest L.notice.commands c.writers.page.journal c.writers.notice
        × IsCounting L.notice.folds c.keeper.journal.opening.count c.writers.folds
        × (c.keeper.began ≡ Opened) };
}

impl<L: Named, C: Counter> Locked<L, C> {
    /// Applies a caller's command at the counter's reading, and publishes it on the page and then
    /// on the latch, as `SnapshotWriter::publish` requires. No call between these two waits. The
    /// command is announced in the notice before its reading, and the announcement ends after both
    /// publications, as `CommandWriter::accept` requires.
    ///
    /// It reads the counter once, and waits for readers of the page. A refused command publishes
    /// nothing. It informs the caller of the number of folded entries too, so `Full` is never
    /// returned for entries that another caller has folded.
    pub(crate) fn command<R: Wait>(
        &mut self,
        rt: &R,
        shared: &Shared,
        caller: &mut Caller<L>,
        cmd: Command,
    ) -> Result<u64, Refusal>
        requires named { AreNamed L.page L.latch L.notice shared.now }
        ensures answer { MatchResult result
            (λ number. IsAccepted caller.old caller.new cmd number)
            (λ refusal. IsRefused caller.old caller.new cmd refusal × (self.new ≡ self.old)) }
        ensures reading { MatchResult result
            (λ _. EndsAtReading C.answers_after caller.new.seen caller.new.noticed.commands)
            (λ refusal. IsRefusedAtReading C.answers_after caller.old caller.new cmd refusal) }
        ensures seen { caller.new.seen ≡ self.new.history }
        ensures folds { caller.new.folded ≡ self.old.journal.opening.count }
        ensures folded { self.new.journal.opening ≡ self.old.journal.opening }
        ensures same { IsSameCaller caller.old caller.new }
    {
        let (page, latch, notice) = (&shared.page, &shared.latch, &shared.notice);
        let folded = self.keeper.folded();
        let (folds, fold_reader) = (&mut self.writers.folds, &mut caller.folds);
        folds.show(&shared.folds, fold_reader, folded);
        self.writers.notice.announce(notice);
        let reading = self.counter.read_after(self.writers.notice.look()) & self.mask;
        let who = caller.id;
        let number = match self.keeper.apply(who, reading, cmd) {
            Ok(number) => number,
            Err(refusal) => {
                self.writers.notice.withdraw(notice);
                page.tell(rt, &mut self.writers.page, &mut caller.viewer);
                return Err(refusal);
            }
        };
        self.writers.latch.tell(latch, &mut caller.reader);
        let entry = Entry { who, reading, cmd };
        let snapshot = self.keeper.snapshot();
        let (publisher, viewer) = (&mut self.writers.page, &mut caller.viewer);
        publisher.publish_for(rt, page, entry, &snapshot, viewer);
        self.writers
            .latch
            .publish(latch, snapshot, &self.writers.page);
        self.writers
            .notice
            .accept(notice, reading, &self.writers.page, &self.writers.latch);
        self.writers.latch.tell(latch, &mut caller.reader);
        self.writers.notice.tell(notice, &mut caller.notice_reader);
        self.book.add(&mut caller.share, 1);
        caller.accepted += 1;
        Ok(number)
    }

    /// Informs a caller of everything, folds the oldest entries of the keeper's journal so that at
    /// most `keep` are listed, and returns the number of folded entries. It publishes nothing.
    ///
    /// It waits for readers of the page.
    pub(crate) fn fold<R: Wait>(
        &mut self,
        rt: &R,
        shared: &Shared,
        caller: &mut Caller<L>,
        keep: u64,
    ) -> u64
        requires named { AreNamed L.page L.latch L.notice shared.now }
        ensures answer { let before = self.old.journal in
            result ≡ max before.opening.count (accepted_count before - keep) }
        ensures journal { let before = self.old.journal in
            self.new.journal ≡ folded_by (result - before.opening.count) before }
        ensures history { self.new.history ≡ self.old.history }
        ensures counted { result ≤ counted_most }
        ensures folded { IsFolded caller.old caller.new keep result }
        ensures informed { IsInformed caller.new }
        ensures known { IsKnownBy caller.old caller.new }
        ensures seen { caller.new.seen ≡ self.new.history }
        ensures same { IsSameCaller caller.old caller.new }
        ensures accepted { caller.new.accepted ≡ caller.old.accepted }
    {
        let before = self.keeper.folded();
        inform(rt, shared, &mut self.writers, before, caller);
        // so few commands were accepted
        let _ = self.keeper.len();
        let folded = self.keeper.fold(keep);
        let (fold_writer, fold_reader) = (&mut self.writers.folds, &mut caller.folds);
        fold_writer.list(&shared.folds, folded - before);
        fold_writer.show(&shared.folds, fold_reader, folded);
        folded
    }
}
