//! The latch: a snapshot in two copies, one of which is always whole.
//!
//! The words are the sequence, copy 0 and copy 1. The sequence is twice the number of the latest
//! publication, plus 1 while the next one is being made. A copy contains words 1 to 9 of a
//! snapshot. Word 0, the front, isn't stored, because it is half the sequence, rounded down.
//!
//! - Even: at rest. Copy 0 is whole and is the latest publication. Copy 1 may still contain words
//!   of the publication before it.
//! - Odd: copy 0 is being written. Copy 1 is whole and is the latest publication.
//!
//! So the copy to read is always `sequence & 1`. All loads and stores are single atomic steps.
//!
//! The writer publishes:
//!
//! 1. It makes the sequence odd: readers now take copy 1.
//! 2. It loads the words of copy 0, and replaces the words that differ from the new ones.
//! 3. It makes the sequence even. This is the publication: readers now take copy 0.
//! 4. It loads the words of copy 1, and replaces the words that differ from the new ones.
//!
//! A reader reads:
//!
//! 5. It loads the sequence.
//! 6. It loads the words of the copy that the sequence names.
//! 7. It loads the sequence again. If the number is the same, the words are one whole publication.
//!    Otherwise the words may be a mixture of two, and the call returns `Moved`.
//!
//! A reader learns of all publications (`tell`):
//!
//! 8. The reader gets the writer's history, and the writer gets the reader's former history as a
//!    note.
//! 9. The writer loads the sequence, which shows that the note is a beginning of its history.
//!
//! No call waits, and only `open` allocates. `try_read` takes 11 loads, whatever the writer does,
//! so an interrupt handler may call it. It may return `Moved` again and again while others publish.
//! `publish` takes 18 loads and 2 to 20 stores: the sequence twice, and in both copies all words
//! that changed. A load costs less than a store, which is an exchange on x86-64.
//!
//! This is the kernel's `seqcount_latch_t` (Documentation/locking/seqlock.rst,
//! include/linux/seqlock.h).
ghost use Rattle.std.specs.Prelude.{◌≡◌, ◌↔◌, replicate, IfOk, MatchResult};
ghost use mathlib.Core.List.{IsPrefix};

use crate::errors::LatchError;
use crate::reader::LatchReader;
use crate::rule::{Compares, Hands, KeepsNote, Words};
use crate::writer::LatchWriter;
use std::alloc::{AllocError, Allocator, Global};
use std::marker::Model;
use std::mem;
use tk_clock::{SNAPSHOT_WORDS, Snapshot};
use tk_counter::CounterDesc;

/// The position of the sequence among the words.
pub(crate) const SEQUENCE: usize = 0;

/// The positions of the copies: words 1 to 9 of a snapshot are at `COPY_0 + 1` to `COPY_0 + 9`, and
/// at `COPY_1 + 1` to `COPY_1 + 9`. So the sequence is in the place of copy 0's word 0.
pub(crate) const COPY_0: usize = 0;

pub(crate) const COPY_1: usize = COPY_0 + SNAPSHOT_WORDS - 1;

const WORDS: usize = COPY_1 + SNAPSHOT_WORDS;

/// The greatest number of readers of a latch.
pub const READERS_LIMIT: usize = 64;

/// Holds a sequence word and two copies of a snapshot's words.
///
/// The words are allocated from the allocator that `open` got. Contracts see a latch as its
/// identity and the counter of its snapshots.
#[derive(Drop)]
pub struct Latch<A: Allocator = Global> {
    pub(crate) words: Words<A>,
    /// The counter of all its snapshots.
    pub(crate) desc: CounterDesc,
}

impl<A: Allocator> Model for Latch<A> {
    ghost use Rattle.std.specs.Prelude.{◌≡◌};
    ghost use Rattle.tk_latch.specs.Latch.{LatchId};

    ghost Value = { LatchId };

    ghost view = { λ a. record { table = a.words.shared.table_id; counter = a.desc } };

    ghost invariant = { λ a.
        (a.words.shared.table_id.words ≡ 19) × (a.words.shared.table_id.slots ≡ 0) };
}

impl<A: Allocator + Copy> Latch<A> {
    ghost use Rattle.tk_latch.specs.Latch.{IsReaderCount, opened_writer, opened_reader};

    /// Opens a latch whose publication 0 is `snapshot`, which has front 0. Returns it with its
    /// writer and `readers` readers, all with mark 0.
    ///
    /// It allocates the words and the list of readers.
    ///
    /// # Errors
    ///
    /// - `LatchError::Count` if `readers` is below 1 or above 64.
    /// - `LatchError::Memory` if an allocation fails.
    pub fn open(
        alloc: A,
        snapshot: Snapshot,
        readers: usize,
    ) -> Result<(Latch<A>, LatchWriter, Vec<LatchReader, A>), LatchError>
        requires opening { snapshot.front ≡ 0 }
        ensures { MatchResult result
            (λ opened. IsReaderCount readers × (opened.0.counter ≡ snapshot.base.counter)
            × (opened.1 ≡ opened_writer opened.0 snapshot)
            × (opened.2.items ≡ replicate readers (opened_reader opened.0 snapshot)))
            (λ error. (error ≡ LatchError.Count) ↔ (¬ IsReaderCount readers)) }
    {
        if readers < 1 || readers > READERS_LIMIT {
            return Err(LatchError::Count);
        }
        let Ok(mut seats) = Vec::with_capacity(alloc, readers) else {
            return Err(LatchError::Memory);
        };
        let Ok((latch, mut writer)) = Latch::with_writer(alloc, snapshot) else {
            return Err(LatchError::Memory);
        };
        for _ in 0..readers {
            seats.push_reserved(latch.reader(&mut writer));
        }
        Ok((latch, writer, seats))
    }

    /// Makes the words of a latch, with this snapshot in both copies, and the latch's writer.
    fn with_writer(alloc: A, snapshot: Snapshot) -> Result<(Latch<A>, LatchWriter), AllocError>
        requires opening { snapshot.front ≡ 0 }
        ensures { IfOk result (λ opened. (opened.0.counter ≡ snapshot.base.counter)
            × (opened.1 ≡ opened_writer opened.0 snapshot)) }
    {
        let shown = snapshot.words();
        let mut words = [0; WORDS];
        // Word 0 is the front and the sequence, which are both 0.
        words[..SNAPSHOT_WORDS].copy_from_slice(&shown);
        words[SNAPSHOT_WORDS..].copy_from_slice(&shown[1..]);
        let (words, seat) = Words::of_words(alloc, &words, &snapshot)?;
        let latch = Latch {
            words,
            desc: snapshot.desc(),
        };
        Ok((latch, LatchWriter { seat, sequence: 0 }))
    }
}

impl<A: Allocator> Latch<A> {
    ghost use Rattle.tk_latch.specs.Latch.{told_reader};

    /// Returns one more reader, which knows all publications.
    fn reader(&self, writer: &mut LatchWriter) -> LatchReader
        requires latch { writer.old.latch ≡ self.now }
        ensures writer { writer.new ≡ writer.old }
        ensures reader { result ≡ told_reader writer.old }
    {
        LatchReader {
            seat: self.words.shared.split_seat::<Hands>(&mut writer.seat),
            mark: writer.sequence / 2,
        }
    }

    /// Gives a reader the knowledge of all publications: its mark becomes the number of the latest
    /// publication, which is at least its former mark.
    ///
    /// Writer and reader must belong to this latch.
    pub fn tell(&self, writer: &mut LatchWriter, reader: &mut LatchReader)
        requires writer { writer.old.latch ≡ self.now }
        requires reader { reader.old.latch ≡ self.now }
        ensures writer { writer.new ≡ writer.old }
        ensures reader { reader.new ≡ told_reader writer.old }
        ensures extends { IsPrefix reader.old.publications writer.old.publications }
    {
        // 8. The reader gets the writer's history, and the writer a note of the reader's.
        let shared = &self.words.shared;
        let given = shared.split_seat::<Hands>(&mut writer.seat);
        let former = mem::replace(&mut reader.seat, given);
        shared.join_seat::<KeepsNote>(&mut writer.seat, former);
        // 9. The note is a beginning of the history.
        shared.load::<Compares>(&mut writer.seat, SEQUENCE);
        reader.mark = writer.sequence / 2;
    }
}
