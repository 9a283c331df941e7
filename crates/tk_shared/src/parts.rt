//! The parts of a shared keeper.

use crate::command_writer::CommandWriter;
use crate::folds::FoldWriter;
use crate::snapshot_writer::SnapshotWriter;
use tk_keeper::Timekeeper;
use tk_latch::{Latch, LatchReader};
use tk_now::Notice;
use tk_page::{Page, Publisher, Viewer};

/// Contains what is outside the lock.
#[derive(Drop)]
pub(crate) struct Shared {
    pub(crate) page: Page,
    pub(crate) latch: Latch,
    pub(crate) notice: Notice,
    /// Lists the folds.
    pub(crate) folds: Notice,
}

/// Contains what writes the page, the latch and the two notices, under the lock.
#[derive(Drop)]
pub(crate) struct Writers {
    /// Publishes accepted commands on the page.
    pub(crate) page: Publisher,
    /// Publishes accepted commands on the latch.
    pub(crate) latch: SnapshotWriter,
    /// Announces commands in the notice.
    pub(crate) notice: CommandWriter,
    /// Lists the folds.
    pub(crate) folds: FoldWriter,
}

/// Contains a keeper whose clocks were just opened, with what shows its snapshots.
#[derive(Drop)]
pub(crate) struct Parts {
    pub(crate) keeper: Timekeeper,
    pub(crate) shared: Shared,
    pub(crate) writers: Writers,
    pub(crate) viewer: Viewer,
    /// One for each caller.
    pub(crate) readers: Vec<LatchReader>,
}
