ghost use Rattle.std.specs.Prelude.{◌≡◌};
ghost use Rattle.crossbeam_utils.specs.Seq.{cell_view};
ghost use Rattle.tk_clock.specs.Journal.{followed_by};
ghost use Rattle.tk_clock.specs.Snapshot.{snapshot_of};
ghost use Rattle.tk_page.specs.declared.view.View.TheVariants.{Comparing, Publishing};
ghost use Rattle.tk_page.specs.History.{Begins};
ghost use Rattle.tk_page.specs.Views.{journal_of, noted_of};

use crate::cell::{Cell, Pass, join, split, store};
use crate::packing::pack;
use crate::page::{Page, note};
use crate::rule::{Copies, NamesEntry, Notes, Publishes};
use crate::viewer::Viewer;
use std::marker::{Brand, Model};
use std::sync::Wait;
use tk_clock::{Entry, Snapshot};

/// Adds entries to the journal of a page and publishes its snapshots. A page has one publisher.
///
/// Contracts see it as the page and the whole journal that was published on it.
#[derive(Drop)]
pub struct Publisher {
    pub(crate) pass: Pass,
}

impl Model for Publisher {
    ghost use Rattle.std.specs.Prelude.{◌≡◌};
    ghost use Rattle.crossbeam_utils.specs.Seq.{cell_view};
    ghost use Rattle.tk_page.specs.declared.view.View.TheVariants.{Publishing};
    ghost use Rattle.tk_page.specs.History.{History};
    ghost use Rattle.tk_page.specs.Views.{journal_of};

    ghost Value = { History };

    ghost view = { λ p.
        record { page = p.pass.table_id; journal = journal_of (cell_view p.pass) } };

    ghost invariant = { λ p.
        (cell_view p.pass ≡ Publishing (journal_of (cell_view p.pass)))
        × ((journal_of (cell_view p.pass)).opening.count ≡ 0) };
}

impl Publisher {
    /// Adds `entry` to the journal and publishes `snapshot`, the snapshot of the longer journal.
    ///
    /// It waits for a viewer that holds the words. After 2^63 - 2 publications it waits for ever.
    pub fn publish<R: Wait>(&mut self, rt: &R, page: &Page, entry: Entry, snapshot: Snapshot)
        requires page { self.old.page ≡ page.now }
        requires snapshot { snapshot ≡ snapshot_of (followed_by self.old.journal entry) }
        ensures { self.new ≡ record self.old { journal = followed_by self.old.journal entry } }
    {
        let own = split::<Copies>(&page.cell, &mut self.pass);
        join::<Notes>(&page.cell, &mut self.pass, own);
        publish_entry::<Brand, R>(rt, &page.cell, &mut self.pass, entry, &snapshot);
    }

    /// Publishes as `publish` does, and gives a viewer the longer journal. The viewer's former
    /// journal begins the publisher's. It doesn't count as a read by the viewer.
    ///
    /// It waits as `publish` does.
    pub fn publish_for<R: Wait>(
        &mut self,
        rt: &R,
        page: &Page,
        entry: Entry,
        snapshot: &Snapshot,
        viewer: &mut Viewer,
    )
        requires page { self.old.page ≡ page.now }
        requires viewer { viewer.old.page ≡ page.now }
        requires snapshot { snapshot.now ≡ snapshot_of (followed_by self.old.journal entry) }
        ensures journal { self.new ≡ record self.old { journal = followed_by self.old.journal entry } }
        ensures viewer { viewer.new
            ≡ record viewer.old { journal = followed_by self.old.journal entry } }
        ensures begins { Begins viewer.old.journal self.old.journal }
    {
        note(&page.cell, &mut self.pass, &mut viewer.pass);
        publish_entry::<Brand, R>(rt, &page.cell, &mut self.pass, entry, snapshot);
        page.extend(self, viewer, snapshot.front());
    }
}

/// Publishes an entry after a viewer's journal is noted. The type `E` names the entry, so that the
/// step's outcome can name it too.
fn publish_entry<E: NamesEntry, R: Wait>(
    rt: &R,
    cell: &Cell,
    pass: &mut Pass,
    entry: Entry,
    snapshot: &Snapshot,
)
    requires cell { pass.old.table_id ≡ cell.now.table.shared.table_id }
    requires view { cell_view pass.old
        ≡ Comparing (journal_of (cell_view pass.old)) (noted_of (cell_view pass.old)) }
    requires entry { E.entry ≡ entry }
    requires snapshot { snapshot.now
        ≡ snapshot_of (followed_by (journal_of (cell_view pass.old)) entry) }
    ensures cell { pass.new.table_id ≡ pass.old.table_id }
    ensures view { cell_view pass.new
        ≡ Publishing (followed_by (journal_of (cell_view pass.old)) entry) }
    ensures begins { Begins (noted_of (cell_view pass.old)) (journal_of (cell_view pass.old)) }
{
    // Step 2.
    store::<Publishes<E>, R>(rt, cell, pass, pack(snapshot));
}
