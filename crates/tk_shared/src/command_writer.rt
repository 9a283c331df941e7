ghost use Rattle.std.specs.Prelude.{◌≡◌, ◌+◌, ◌^◌, ◌<◌, length, IsSome, None, Some};
ghost use mathlib.Core.List.{IsPrefix};
ghost use Rattle.tk_now.specs.Moments.{AreInLife, AreInOrder, AreInTurn, IsAcceptedAt, IsTold};
ghost use Rattle.tk_now.specs.Views.{moment_of, opened_notice_reader};

use crate::snapshot_writer::SnapshotWriter;
use std::marker::Model;
use tk_now::{Look, Notice, NoticeReader, NoticeWriter};
use tk_page::Publisher;

/// Announces commands in the notice, each one until page and latch show it.
///
/// Its field is private, so nothing else in this crate ends an accepted command. Contracts see it
/// as its `NoticeWriter`.
#[derive(Drop)]
pub(crate) struct CommandWriter {
    writer: NoticeWriter,
}

impl Model for CommandWriter {
    ghost use Rattle.tk_now.specs.Views.{Announcing};

    ghost Value = { Announcing };

    ghost view = { λ a. a.writer };
}

impl CommandWriter {
    /// Takes over the writer of a notice.
    pub(crate) fn new(writer: NoticeWriter) -> CommandWriter
        ensures { result ≡ writer }
    {
        CommandWriter { writer }
    }

    /// Returns one more reader.
    pub(crate) fn reader(&mut self, notice: &Notice) -> NoticeReader
        requires notice { self.old.notice ≡ notice.now }
        requires idle { self.old.since ≡ None }
        ensures writer { self.new ≡ self.old }
        ensures reader { result ≡ opened_notice_reader self.old }
    {
        notice.reader(&mut self.writer)
    }

    /// Announces a command, before the command takes its reading.
    pub(crate) fn announce(&mut self, notice: &Notice)
        requires notice { self.old.notice ≡ notice.now }
        requires idle { self.old.since ≡ None }
        ensures announced { IsSome self.new.since }
        ensures same { (self.new.notice ≡ self.old.notice)
            × (self.new.commands ≡ self.old.commands) × (self.new.log ≡ self.old.log) }
    {
        self.writer.announce(notice)
    }

    /// Returns the announcement of the command in progress.
    pub(crate) fn look(&self) -> &Look
        requires announced { IsSome self.now.since }
        ensures { self.now.since ≡ Some (moment_of result.now) }
    {
        self.writer.look()
    }

    /// Ends the announced command, which was accepted at `reading` and is published on the page and
    /// on the latch. Until then it is announced.
    pub(crate) fn accept(
        &mut self,
        notice: &Notice,
        reading: u64,
        publisher: &Publisher,
        snapshots: &SnapshotWriter,
    )
        requires notice { self.old.notice ≡ notice.now }
        requires announced { IsSome self.old.since }
        requires room { length self.old.commands < 2 ^ 63 }
        requires on_page { length publisher.now.journal.entries ≡ length self.old.commands }
        requires on_latch { length snapshots.now.publications ≡ length self.old.commands + 1 }
        ensures notice { self.new.notice ≡ self.old.notice }
        ensures idle { self.new.since ≡ None }
        ensures accepted { IsAcceptedAt self.old.since self.old.commands reading
            self.new.commands }
        ensures log { self.new.log ≡ self.old.log }
    {
        self.writer.accept(notice, reading)
    }

    /// Ends the announced command, which was refused.
    pub(crate) fn withdraw(&mut self, notice: &Notice)
        requires notice { self.old.notice ≡ notice.now }
        requires announced { IsSome self.old.since }
        ensures { self.new ≡ record self.old { since = None } }
    {
        self.writer.withdraw(notice)
    }

    /// Gives a reader the readings of all accepted commands and of all readers.
    pub(crate) fn tell(&mut self, notice: &Notice, reader: &mut NoticeReader)
        requires notice { self.old.notice ≡ notice.now }
        requires reader { reader.old.notice ≡ notice.now }
        requires idle { self.old.since ≡ None }
        ensures same { self.new ≡ record self.old { log = self.new.log } }
        ensures log { IsPrefix self.old.log self.new.log }
        ensures told { IsTold self.new reader.old reader.new }
    {
        self.writer.tell(notice, reader)
    }

    /// Takes in a reader, which is used up.
    pub(crate) fn take_in(&mut self, notice: &Notice, reader: NoticeReader)
        requires notice { self.old.notice ≡ notice.now }
        requires reader { reader.notice ≡ notice.now }
        requires idle { self.old.since ≡ None }
        ensures same { self.new ≡ record self.old { log = self.new.log } }
        ensures begins { IsPrefix reader.commands self.old.commands }
        ensures order { AreInOrder self.old.commands }
        ensures log { IsPrefix self.old.log self.new.log × IsPrefix reader.log self.new.log }
        ensures life { AreInLife self.old.commands self.new.log }
        ensures turn { AreInTurn self.new.log }
    {
        self.writer.take_in(notice, reader)
    }
}
