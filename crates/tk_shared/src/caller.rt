ghost use Rattle.std.specs.Prelude.{◌≡◌, length};
ghost use Rattle.tk_latch.specs.Latch.{mark_of};

use crate::folds::FoldReader;
use crate::named::Named;
use std::marker::Model;
use std::sync::ledger::Share;
use tk_latch::LatchReader;
use tk_now::NoticeReader;
use tk_page::Viewer;

/// Gives commands to a shared keeper and reads its clocks.
///
/// It belongs to one thread at a time. Contracts see it as its number, the number of its accepted
/// commands, the number of its reads of the page, and its knowledge of the page, the latch, the
/// notice and the folds.
#[derive(Drop)]
pub struct Caller<L: Named> {
    pub(crate) viewer: Viewer,
    pub(crate) reader: LatchReader,
    pub(crate) notice_reader: NoticeReader,
    pub(crate) folds: FoldReader,
    /// Its part of the ledger, which counts its accepted commands.
    pub(crate) share: Share<L>,
    pub(crate) id: u32,
    pub(crate) accepted: u64,
}

impl<L: Named> Model for Caller<L> {
    ghost use Rattle.std.specs.Prelude.{◌≡◌, ◌≤◌};
    ghost use Rattle.tk_shared.specs.Callers.{Known, known_of, made_by};

    ghost Value = { Known };

    ghost view = { λ c.
        known_of c.id c.accepted c.viewer c.reader c.notice_reader c.folds.folded };

    ghost invariant = { λ c.
        (c.viewer.page ≡ L.page) × (c.reader.latch ≡ L.latch) × (c.share.parts ≡ 1)
        × (c.share.amount ≡ c.accepted) × (c.accepted ≤ made_by c.id c.viewer.journal.entries)
        × (c.notice_reader.notice ≡ L.notice.commands) × (c.folds.notice ≡ L.notice.folds) };
}

impl<L: Named> Caller<L> {
    /// Returns the caller's number among the callers of its keeper, from 0.
    ///
    /// It never waits and allocates nothing.
    pub fn id(&self) -> u32
        ensures { result ≡ self.now.id }
    {
        self.id
    }

    /// Returns the number of accepted commands, of all callers, that this caller has seen through
    /// its commands and its reads of the page.
    ///
    /// It never waits and allocates nothing.
    pub fn front(&self) -> u64
        ensures { result ≡ length self.now.seen.entries }
    {
        self.viewer.front()
    }

    /// Returns the number of this caller's accepted commands.
    ///
    /// It never waits and allocates nothing.
    pub fn accepted(&self) -> u64
        ensures { result ≡ self.now.accepted }
    {
        self.accepted
    }

    /// Returns the number of the latest publication that this caller knows of through its commands
    /// and its fast reads.
    ///
    /// It never waits and allocates nothing.
    pub fn mark(&self) -> u64
        ensures { result ≡ mark_of self.now.learnt.publications }
    {
        self.reader.mark()
    }

    /// Returns the number of folded entries that this caller knows of through its commands, its
    /// folds and `follow`.
    ///
    /// It never waits and allocates nothing.
    pub fn folded(&self) -> u64
        ensures { result ≡ self.now.folded }
    {
        self.folds.folded()
    }
}
