ghost use Rattle.std.specs.Prelude.{◌≡◌, ◌+◌, length};
ghost use Rattle.tk_clock.specs.Snapshot.{snapshot_of};
ghost use Rattle.tk_page.specs.History.{Begins, longer};

use crate::cell::{Pass, join, load, split};
use crate::packing::unpack;
use crate::page::Page;
use crate::rule::{Copies, KeepsLonger, Leaves, Reads};
use std::marker::Model;
use std::sync::Wait;
use tk_clock::Snapshot;
use tk_counter::CounterDesc;

/// Reads the snapshots of a page.
///
/// Contracts see it as the page, the number of its reads, and the journal that it has seen.
#[derive(Drop)]
pub struct Viewer {
    pub(crate) pass: Pass,
    /// The counter of the snapshots.
    pub(crate) desc: CounterDesc,
    /// The number of entries that it has seen.
    pub(crate) front: u64,
}

impl Model for Viewer {
    ghost use Rattle.std.specs.Prelude.{◌≡◌, length};
    ghost use Rattle.crossbeam_utils.specs.Seq.{cell_view};
    ghost use Rattle.tk_page.specs.History.{Sight};
    ghost use Rattle.tk_page.specs.Views.{journal_of, reads_of, IsViewer};

    ghost Value = { Sight };

    ghost view = { λ p.
        record {
          page = p.pass.table_id;
          reads = reads_of (cell_view p.pass);
          journal = journal_of (cell_view p.pass);
        } };

    ghost invariant = { λ p. IsViewer (cell_view p.pass) p.desc p.front };
}

impl Viewer {
    /// Returns the latest published snapshot. Its journal is no shorter than any that this viewer
    /// saw.
    ///
    /// It reads the page once, as clause `reads` states. It waits for the thread that holds the
    /// words.
    #[inline(always)]
    pub fn read<R: Wait>(&mut self, rt: &R, page: &Page) -> Snapshot
        requires page { self.old.page ≡ page.now }
        ensures page { self.new.page ≡ self.old.page }
        ensures reads { self.new.reads ≡ self.old.reads + 1 }
        ensures begins { Begins self.old.journal self.new.journal }
        ensures answer { result ≡ snapshot_of self.new.journal }
    {
        // Step 3 or 4.
        let words = load::<Reads, R>(rt, &page.cell, &mut self.pass);
        self.front = words[0];
        Snapshot::from_known_words(self.desc, unpack(&words))
    }

    /// Returns the number of entries that this viewer has seen: the front of its latest snapshot.
    ///
    /// No entry was folded before the first one.
    pub fn front(&self) -> u64
        ensures value { result ≡ length self.now.journal.entries }
        ensures whole { self.now.journal.opening.count ≡ 0 }
    {
        self.front
    }

    /// Returns two viewers that have both seen what this one saw. The first keeps the count of
    /// reads, and the second starts at 0.
    pub fn split(self, page: &Page) -> (Viewer, Viewer)
        requires page { self.page ≡ page.now }
        ensures first { result.0 ≡ self }
        ensures second { result.1 ≡ record self { reads = 0 } }
    {
        let Viewer {
            mut pass,
            desc,
            front,
        } = self;
        // Step 5.
        let other = split::<Copies>(&page.cell, &mut pass);
        (
            Viewer { pass, desc, front },
            Viewer {
                pass: other,
                desc,
                front,
            },
        )
    }

    /// Joins two viewers of one page: the result has seen the longer of their journals, and counts
    /// the reads of both.
    pub fn join(self, other: Viewer, page: &Page) -> Viewer
        requires page { self.page ≡ page.now }
        requires other { other.page ≡ page.now }
        ensures { result ≡ record self {
          reads = self.reads + other.reads;
          journal = longer self.journal other.journal;
        } }
    {
        let Viewer {
            mut pass,
            desc,
            front,
        } = self;
        let mut left = other.pass;
        // Steps 5 and 6: a pass that has read can't itself be joined, so a new pass gets its
        // knowledge first.
        let whole = split::<Leaves>(&page.cell, &mut left);
        join::<KeepsLonger>(&page.cell, &mut pass, whole);
        Viewer {
            pass,
            desc,
            front: front.max(other.front),
        }
    }
}
