ghost use Rattle.std.specs.Prelude.{◌≡◌, ◌+◌, ◌<◌, ◌++◌, ◌∷◌, [], length};
ghost use mathlib.Core.List.{IsPrefix};
ghost use Rattle.tk_clock.specs.Limits.{counted_most};
ghost use Rattle.tk_latch.specs.Latch.{told_reader};

use std::marker::Model;
use tk_clock::Snapshot;
use tk_latch::{Latch, LatchReader, LatchWriter};
use tk_page::Publisher;

/// Publishes snapshots on the latch, each one after the page shows its command.
///
/// Its field is private, so nothing else in this crate publishes on the latch. Contracts see it as
/// its `LatchWriter`.
#[derive(Drop)]
pub(crate) struct SnapshotWriter {
    writer: LatchWriter,
}

impl Model for SnapshotWriter {
    ghost use Rattle.tk_latch.specs.Latch.{Published};

    ghost Value = { Published };

    ghost view = { λ a. a.writer };
}

impl SnapshotWriter {
    /// Takes over the writer of a latch.
    pub(crate) fn new(writer: LatchWriter) -> SnapshotWriter
        ensures { result ≡ writer }
    {
        SnapshotWriter { writer }
    }

    /// Publishes the next snapshot, after the page shows its command: then no publication that a
    /// fast read finds is missing on the page. The latch can count one publication for every
    /// command that a journal counts.
    pub(crate) fn publish(&mut self, latch: &Latch, snapshot: Snapshot, publisher: &Publisher)
        requires on_page { length publisher.now.journal.entries ≡ length self.old.publications }
        requires latch { self.old.latch ≡ latch.now }
        requires counter { snapshot.base.counter ≡ latch.now.counter }
        requires number { snapshot.front ≡ length self.old.publications }
        requires room { length self.old.publications < counted_most + 1 }
        ensures { self.new
            ≡ record self.old { publications = self.old.publications ++ snapshot ∷ [] } }
    {
        self.writer.publish(latch, snapshot).unwrap()
    }

    /// Gives a reader the knowledge of all publications.
    pub(crate) fn tell(&mut self, latch: &Latch, reader: &mut LatchReader)
        requires writer { self.old.latch ≡ latch.now }
        requires reader { reader.old.latch ≡ latch.now }
        ensures writer { self.new ≡ self.old }
        ensures reader { reader.new ≡ told_reader self.old }
        ensures extends { IsPrefix reader.old.publications self.old.publications }
    {
        latch.tell(&mut self.writer, reader)
    }
}
