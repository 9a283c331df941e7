//! The page: eight 64-bit words that one publisher writes and any number of viewers read.
//!
//! A read returns the words of one publication, never a mixture of two. No later publication has
//! been made when the read takes effect. src/packing.rt says what the words are.
//!
//! A version word says who may use the words, as in the kernel's `seqcount_t`
//! (Documentation/locking/seqlock.rst) and crossbeam's `seq_lock.rs`:
//!
//! - Even: no thread holds the words. They are those of the latest publication.
//! - Odd: one thread holds the words. It is the publisher, which writes them, or a reader whose
//!   tries to read them all failed, which only reads them.
//!
//! Time goes down in this timeline. The two sides of one line may happen in either order. Each
//! number is a step, which the code cites. The mark `<-` is on the store or load at which the step
//! takes effect.
//!
//! ```text
//!      publisher                    version      viewer
//!   1. makes the page, version 0       0
//!      exchanges 0 for 1               1
//!      finds its words there           1
//!      stores version 2 <-             2
//!                                      2      3. loads version 2: even
//!                                      2         loads the words
//!                                      2         loads version 2 again: the same <-
//!                                      2      3. loads version 2: even
//!   2. exchanges 2 for 3               3         loads the words
//!      stores the words that differ    3         loads version 3: changed
//!                                      3         loads version 3: odd
//!      stores version 4 <-             4         and so on, until all tries have failed
//!                                      5      4. exchanges 4 for 5
//!   2. loads version 5: odd, waits     5         loads the words
//!                                      4         stores version 4 <-
//! ```
//!
//! Step 1 opens the page, step 2 is a publication, step 3 is a read, and step 4 is a read whose
//! tries failed. A publication loads each word, and stores it only if it differs: a store is an
//! exchange on x86-64. An update changes four of the eight words.
//!
//! Steps 5 and 6 touch no word. They exist for proofs. The publisher and every viewer hold a pass
//! to the cell of the words. A pass has no bytes. A viewer's pass records the journal that the
//! viewer has seen, and the number of its reads. The publisher's pass records the whole published
//! journal, to which a publication adds one entry.
//!
//! 5. Split: a new pass gets what a pass records. The old pass keeps it too, or gives it up.
//! 6. Join: a pass takes in what another one records. The other one is then spent.
//! 7. Tell: notes a viewer's journal in the publisher's pass (5 and 6), reads the words for the
//!    publisher (3 or 4), and gives the viewer the publisher's journal (5 and 6).
//! 8. Publish for a viewer: does the same with a publication (2) instead of the read.
//!
//! The read in step 7 and the publication in step 8 prove that the noted journal begins the
//! publisher's. A plain publication notes the publisher's own journal (5 and 6).
//!
//! Only a viewer's read (3 or 4) adds 1 to its count. The copy of a split starts at 0. A join adds
//! both counts and keeps the longer journal. So no step keeps the count of a read and drops the
//! journal that the read saw.
//!
//! Who waits for whom:
//!
//! - `publish` and `publish_for` wait for a viewer that holds the words in step 4.
//! - `read` waits for the thread that holds the words: it tries again, and then takes its turn.
//! - `tell` waits in the same way for a viewer that holds the words.
//! - `open`, `front`, `split` and `join` never wait.
//!
//! Only `open` allocates. No call takes the lock of a keeper. After n publications the version is
//! `2 * n + 2` while it is even. A thread can make it odd while it is below 2^64 - 2, so there can
//! be 2^63 - 2 publications. Then `publish` waits for ever, as does a read whose tries failed.
ghost use Rattle.std.specs.Prelude.{◌≡◌, IfOk, length};
ghost use Rattle.crossbeam_utils.specs.Seq.{cell_view};
ghost use Rattle.tk_page.specs.declared.view.View.TheVariants.{Comparing, Fresh, Publishing, Viewing};
ghost use Rattle.tk_page.specs.History.{Begins, IsOpening, opened_by};
ghost use Rattle.tk_page.specs.Views.{journal_of, reads_of};

use crate::cell::{Cell, Pass, join, load, made, split, store};
use crate::packing::pack;
use crate::page_error::PageError;
use crate::publisher::Publisher;
use crate::rule::{Compares, Copies, KeepsLonger, Leaves, NamesJournal, Notes, Opens};
use crate::viewer::Viewer;
use std::alloc::Global;
use std::marker::{Brand, Model};
use std::sync::Wait;
use tk_clock::Snapshot;

/// Holds the words of the latest published snapshot.
///
/// Contracts see a page as its identity, which its publisher and its viewers name.
#[derive(Drop)]
pub struct Page {
    pub(crate) cell: Cell,
}

impl Model for Page {
    ghost use Rattle.atomic_table.specs.Seated.{TableId};

    ghost Value = { TableId };

    ghost view = { λ p. p.cell.table.shared.table_id };
}

impl Page {
    /// Opens a page that shows `snapshot`, the snapshot of a journal without entries. Returns the
    /// page with its publisher and a first viewer.
    ///
    /// # Errors
    ///
    /// `PageError::Memory` if an allocation for the page fails.
    pub fn open<R: Wait>(
        alloc: Global,
        rt: &R,
        snapshot: Snapshot,
    ) -> Result<(Page, Publisher, Viewer), PageError>
        requires { IsOpening snapshot }
        ensures publisher { IfOk result (λ opened.
            opened.1 ≡ record { page = opened.0; journal = opened_by snapshot }) }
        ensures viewer { IfOk result (λ opened.
            opened.2 ≡ record { page = opened.0; reads = 0; journal = opened_by snapshot }) }
    {
        // Step 1.
        let Ok((cell, mut pass)) = made(alloc, &pack(&snapshot)) else {
            return Err(PageError::Memory);
        };
        take_opening::<Brand, R>(rt, &cell, &mut pass, snapshot);
        let viewer = Viewer {
            // Step 5.
            pass: split::<Copies>(&cell, &mut pass),
            desc: snapshot.desc(),
            front: 0,
        };
        Ok((Page { cell }, Publisher { pass }, viewer))
    }

    /// Gives a viewer the publisher's journal, which the viewer's former journal begins.
    ///
    /// It doesn't count as a read by the viewer. It waits for a viewer that holds the words.
    pub fn tell<R: Wait>(&self, rt: &R, publisher: &mut Publisher, viewer: &mut Viewer)
        requires publisher { publisher.old.page ≡ self.now }
        requires viewer { viewer.old.page ≡ self.now }
        ensures publisher { publisher.new ≡ publisher.old }
        ensures viewer { viewer.new ≡ record viewer.old { journal = publisher.old.journal } }
        ensures begins { Begins viewer.old.journal publisher.old.journal }
    {
        // Step 7.
        note(&self.cell, &mut publisher.pass, &mut viewer.pass);
        let words = load::<Compares, R>(rt, &self.cell, &mut publisher.pass);
        self.extend(publisher, viewer, words[0]);
    }

    /// Gives a viewer the publisher's journal, which the viewer's begins. `front` is the number of
    /// its entries. It loads and stores no word of the page.
    #[inline]
    pub(crate) fn extend(&self, publisher: &mut Publisher, viewer: &mut Viewer, front: u64)
        requires publisher { publisher.old.page ≡ self.now }
        requires viewer { viewer.old.page ≡ self.now }
        requires begins { Begins viewer.old.journal publisher.old.journal }
        requires front { front ≡ length publisher.old.journal.entries }
        ensures publisher { publisher.new ≡ publisher.old }
        ensures viewer { viewer.new ≡ record viewer.old { journal = publisher.old.journal } }
    {
        let known = split::<Leaves>(&self.cell, &mut viewer.pass);
        let mut whole = split::<Copies>(&self.cell, &mut publisher.pass);
        join::<KeepsLonger>(&self.cell, &mut whole, known);
        viewer.pass = whole;
        viewer.front = front;
    }
}

/// Notes a viewer's journal in the publisher's pass. It loads and stores no word of the page.
#[inline]
pub(crate) fn note(cell: &Cell, publisher: &mut Pass, viewer: &mut Pass)
    requires publisher { publisher.old.table_id ≡ cell.now.table.shared.table_id }
    requires viewer { viewer.old.table_id ≡ cell.now.table.shared.table_id }
    requires publishing { cell_view publisher.old ≡ Publishing (journal_of (cell_view publisher.old)) }
    requires viewing { let known = cell_view viewer.old in
        known ≡ Viewing (reads_of known) (journal_of known) }
    ensures publisher { publisher.new.table_id ≡ publisher.old.table_id }
    ensures viewer { viewer.new.table_id ≡ viewer.old.table_id }
    ensures noted { cell_view publisher.new
        ≡ Comparing (journal_of (cell_view publisher.old)) (journal_of (cell_view viewer.old)) }
    ensures same { cell_view viewer.new ≡ cell_view viewer.old }
{
    let noted = split::<Copies>(cell, viewer);
    join::<Notes>(cell, publisher, noted);
}

/// Makes the first pass the publisher's: publishes the words that the cell already contains.
fn take_opening<J: NamesJournal, R: Wait>(rt: &R, cell: &Cell, pass: &mut Pass, snapshot: Snapshot)
    requires cell { pass.old.table_id ≡ cell.now.table.shared.table_id }
    requires view { cell_view pass.old ≡ Fresh }
    requires journal { J.journal ≡ opened_by snapshot }
    requires snapshot { IsOpening snapshot }
    ensures cell { pass.new.table_id ≡ pass.old.table_id }
    ensures view { cell_view pass.new ≡ Publishing (opened_by snapshot) }
{
    store::<Opens<J>, R>(rt, cell, pass, pack(&snapshot));
}
