//! The notice that lists the folds.
//!
//! It is a notice whose commands are folds: each is listed with the number of entries that it
//! folded. Under the lock, callers learn from it how many entries are folded.
ghost use Rattle.std.specs.Prelude.{◌≡◌, ◌+◌, ◌≤◌, IfOk};
ghost use Rattle.tk_clock.specs.Limits.{counted_most};
ghost use Rattle.tk_shared.specs.Folds.{IsCounting};

use std::alloc::{AllocError, Global};
use std::marker::Model;
use tk_now::{Notice, NoticeReader, NoticeWriter};

/// Lists folds in a notice.
///
/// Contracts see it as its notice and the number of folded entries.
#[derive(Drop)]
pub(crate) struct FoldWriter {
    writer: NoticeWriter,
}

impl Model for FoldWriter {
    ghost use Rattle.std.specs.Prelude.{◌≡◌, ◌+◌, ◌≤◌, length, None};
    ghost use Rattle.tk_shared.specs.Folds.{Counting, folded_in};

    ghost Value = { Counting };

    ghost view = { λ a. record {
      notice = a.writer.notice;
      folded = folded_in a.writer.commands;
    } };

    ghost invariant = { λ a.
        (a.writer.since ≡ None)
        × (length a.writer.commands ≤ folded_in a.writer.commands + 1) };
}

/// Knows how many entries are folded.
///
/// Contracts see it as its notice and that number.
#[derive(Drop)]
pub(crate) struct FoldReader {
    reader: NoticeReader,
    /// The number of folded entries that it knows of.
    folded: u64,
}

impl Model for FoldReader {
    ghost use Rattle.std.specs.Prelude.{◌≡◌};
    ghost use Rattle.tk_shared.specs.Folds.{Counting, folded_in};

    ghost Value = { Counting };

    ghost view = { λ a. record { notice = a.reader.notice; folded = a.folded } };

    ghost invariant = { λ a. a.folded ≡ folded_in a.reader.commands };
}

impl FoldReader {
    /// Returns the number of folded entries that it knows of.
    pub(crate) fn folded(&self) -> u64
        ensures { result ≡ self.now.folded }
    {
        self.folded
    }
}

impl FoldWriter {
    /// Opens a notice without a fold, and returns it with its writer.
    pub(crate) fn open(alloc: Global) -> Result<(Notice, FoldWriter), AllocError>
        ensures { IfOk result (λ opened. IsCounting opened.0 0 opened.1) }
    {
        let (folds, writer) = Notice::open(alloc, 0)?;
        Ok((folds, FoldWriter { writer }))
    }

    /// Returns one more reader, before the first fold.
    pub(crate) fn reader(&mut self, folds: &Notice) -> FoldReader
        requires none { IsCounting folds.now 0 self.old }
        ensures same { self.new ≡ self.old }
        ensures reader { IsCounting folds.now 0 result }
    {
        FoldReader {
            reader: folds.reader(&mut self.writer),
            folded: 0,
        }
    }

    /// Lists a fold of this number of entries. A fold of none isn't listed, so there are no more
    /// folds than folded entries.
    pub(crate) fn list(&mut self, folds: &Notice, entries: u64)
        requires folds { self.old.notice ≡ folds.now }
        requires few { self.old.folded + entries ≤ counted_most }
        ensures notice { self.new.notice ≡ self.old.notice }
        ensures folded { self.new.folded ≡ self.old.folded + entries }
    {
        if entries == 0 {
            return;
        }
        self.writer.announce(folds);
        self.writer.accept(folds, entries);
    }

    /// Shows a reader how many entries are folded. The reader knew of no more.
    pub(crate) fn show(&mut self, folds: &Notice, reader: &mut FoldReader, folded: u64)
        requires writer { IsCounting folds.now folded self.old }
        requires reader { reader.old.notice ≡ folds.now }
        ensures same { self.new ≡ self.old }
        ensures reader { IsCounting folds.now folded reader.new }
        ensures more { reader.old.folded ≤ folded }
    {
        self.writer.tell(folds, &mut reader.reader);
        reader.folded = folded;
    }
}
