//! The knowledge that the passes of a page's cell carry in proofs.
use std::marker::Model;

/// Represents a known journal. No value of this type exists.
pub struct Known;

impl Model for Known {
    ghost use Rattle.tk_clock.specs.Journal.{Journal};
    ghost use Rattle.tk_page.specs.History.{no_journal};

    ghost Value = { Journal };

    ghost view = { λ _. no_journal };
}

/// Describes the knowledge of a pass. No value of this type exists.
pub enum View {
    /// The pass knows nothing yet: the page is being opened.
    Fresh,
    /// The pass knows nothing: its knowledge went to another pass.
    Spent,
    /// The pass is a viewer's: the number of its reads, and the journal that it has seen.
    Viewing(u64, Known),
    /// The pass is the publisher's: the whole published journal.
    Publishing(Known),
    /// The pass is the publisher's: the whole published journal, and a journal that a viewer has
    /// seen.
    Comparing(Known, Known),
}
