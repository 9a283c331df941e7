//! The rule of the page's cell, and the outcomes of the steps on it.
use crate::packing::Words;
use crate::view::View;
use atomic_table::{Join, Split};
use crossbeam_utils::rule::{Outcome, Protocol};
use std::marker::{Brand, PhantomData};

/// States the rule of the cell: the facts about its words and passes between any two steps.
pub struct Law;

impl Protocol<Words, View> for Law {
    ghost use Rattle.tk_page.specs.Views.{Kept};
    ghost use Rattle.tk_page.specs.declared.view.View.TheVariants.{Fresh};

    ghost holds = { λ words views. Kept words views };

    ghost first = { Fresh };
}

/// Names the journal with which a page is opened.
pub trait NamesJournal {
    ghost use Rattle.tk_clock.specs.Journal.{Journal};

    ghost journal: { Journal };
}

impl NamesJournal for Brand {
    ghost use Rattle.tk_page.specs.History.{no_journal};

    ghost journal = { no_journal };
}

/// Names the entry that a publication adds.
pub trait NamesEntry {
    ghost use Rattle.tk_clock.specs.declared.command.Entry.{Entry};

    ghost entry: { Entry };
}

impl NamesEntry for Brand {
    ghost use Rattle.tk_clock.specs.declared.command.Command.TheVariants.{Update};

    ghost entry = { record { who = 0; reading = 0; cmd = Update } };
}

/// The store that opens the page.
pub struct Opens<J> {
    journal: PhantomData<J>,
}

impl<J: NamesJournal> Outcome<Words, View> for Opens<J> {
    ghost use Rattle.tk_page.specs.Views.{Opened};

    ghost then = { Opened J.journal };
}

/// The store that is a publication.
pub struct Publishes<E> {
    entry: PhantomData<E>,
}

impl<E: NamesEntry> Outcome<Words, View> for Publishes<E> {
    ghost use Rattle.tk_page.specs.Views.{Published};

    ghost then = { Published E.entry };
}

/// The load that is a viewer's read.
pub struct Reads;

impl Outcome<Words, View> for Reads {
    ghost use Rattle.tk_page.specs.Views.{Seen};

    ghost then = { Seen };
}

/// The load that shows that the noted journal begins the publisher's.
pub struct Compares;

impl Outcome<Words, View> for Compares {
    ghost use Rattle.tk_page.specs.Views.{Compared};

    ghost then = { Compared };
}

/// Gives a second pass, a viewer's, the same knowledge.
pub struct Copies;

impl Split<View> for Copies {
    ghost use Rattle.tk_page.specs.Views.{copy_of};

    ghost left = { λ view. view };

    ghost right = { copy_of };
}

/// Moves the knowledge of a pass to a second one.
pub struct Leaves;

impl Split<View> for Leaves {
    ghost use Rattle.tk_page.specs.declared.view.View.TheVariants.{Spent};

    ghost left = { λ _. Spent };

    ghost right = { λ view. view };
}

/// Joins two viewers and keeps the longer journal.
pub struct KeepsLonger;

impl Join<View> for KeepsLonger {
    ghost use Rattle.tk_page.specs.Views.{longer_of};
    ghost use Rattle.tk_page.specs.declared.view.View.TheVariants.{Spent};

    ghost both = { longer_of };

    ghost spent = { Spent };
}

/// Joins a viewer to the publisher, which notes the viewer's journal.
pub struct Notes;

impl Join<View> for Notes {
    ghost use Rattle.tk_page.specs.Views.{with_note};
    ghost use Rattle.tk_page.specs.declared.view.View.TheVariants.{Spent};

    ghost both = { with_note };

    ghost spent = { Spent };
}
