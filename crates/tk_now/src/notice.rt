//! The notice: a word that says whether a command is in progress.
//!
//! The word is twice the number of the accepted commands, plus 1 while a command is in progress.
//! All loads and stores are single atomic steps.
//!
//! A command, under the caller's lock:
//!
//! 1. It makes the word odd: the announcement. No reading is listed until step 3.
//! 2. It reads the counter.
//! 3. Once its effect is published, it makes the word even. An accepted command counts, and a
//!    refused one doesn't.
//!
//! A reader:
//!
//! 4. It loads the word.
//! 5. It reads the counter.
//! 6. It loads the word again. If the number is the same and even, no accepted command was in
//!    progress at any moment between the two loads, and the reading is listed. It is no later than
//!    the reading of any command that is accepted afterwards. If the number differs or is odd, the
//!    call returns `Busy`.
//!
//! No call waits. Only `open` and `Look::first` allocate.
ghost use Rattle.std.specs.Prelude.{◌≡◌, IfOk, None};
ghost use Rattle.tk_now.specs.Views.{opened_notice_reader, opened_notice_writer};

use crate::counter::Look;
use crate::reader::NoticeReader;
use crate::rule::{Hands, Words};
use crate::writer::NoticeWriter;
use std::alloc::{AllocError, Allocator, Global};
use std::marker::Model;

/// The position of the only word.
pub(crate) const WORD: usize = 0;

/// Contains the number of accepted commands, and whether a command is in progress.
#[derive(Drop)]
pub struct Notice<A: Allocator = Global> {
    pub(crate) words: Words<A>,
}

impl<A: Allocator> Model for Notice<A> {
    ghost use Rattle.std.specs.Prelude.{◌≡◌};
    ghost use Rattle.atomic_table.specs.Seated.{TableId};

    ghost Value = { TableId };

    ghost view = { λ a. a.words.shared.table_id };

    ghost invariant = { λ a.
        (a.words.shared.table_id.words ≡ 1) × (a.words.shared.table_id.slots ≡ 0) };
}

impl<A: Allocator> Notice<A> {
    /// Opens a notice with no command in progress, and returns it with its writer. `reading` is
    /// the reading of the opening, which is command 0.
    ///
    /// It allocates the word.
    ///
    /// # Errors
    ///
    /// `AllocError` if the allocation fails.
    pub fn open(alloc: A, reading: u64) -> Result<(Notice<A>, NoticeWriter), AllocError>
        ensures { IfOk result (λ opened. opened.1 ≡ opened_notice_writer opened.0 reading) }
    {
        let (words, seat) = Words::of_words(alloc, &[0], &reading)?;
        let look = Look { seat };
        Ok((Notice { words }, NoticeWriter { look, number: 0 }))
    }

    /// Returns one more reader, which knows the accepted commands and no reading.
    pub fn reader(&self, writer: &mut NoticeWriter) -> NoticeReader
        requires notice { writer.old.notice ≡ self.now }
        requires idle { writer.old.since ≡ None }
        ensures writer { writer.new ≡ writer.old }
        ensures reader { result ≡ opened_notice_reader writer.old }
    {
        let seat = self.words.shared.split_seat::<Hands>(&mut writer.look.seat);
        NoticeReader {
            look: Look { seat },
        }
    }
}
