ghost use Rattle.std.specs.Prelude.{◌≡◌, ◌+◌, ◌*◌, ◌<◌, length, slice_index, []};
ghost use Rattle.tk_latch.specs.Publications.{IsNext, pushed_words};
ghost use Rattle.tk_latch.specs.Views.{making, copying};

use crate::errors::PageFull;
use crate::latch::{COPY_0, COPY_1, Latch, SEQUENCE};
use crate::rule::{ChecksWord, Commits, CopiesWord, FindsWord, Opens, ReplacesWord, View};
use atomic_table::Seat;
use std::alloc::Allocator;
use std::marker::Model;
use tk_clock::{SNAPSHOT_WORDS, Snapshot};

/// The greatest even sequence: the sequence of the last publication.
const SEQUENCE_LIMIT: u64 = u64::MAX - 1;

/// Publishes snapshots in a latch. A latch has one writer, which knows every publication.
#[derive(Drop)]
pub struct LatchWriter {
    pub(crate) seat: Seat<(), View>,
    /// The sequence, which is even while the writer is at rest.
    pub(crate) sequence: u64,
}

impl Model for LatchWriter {
    ghost use Rattle.std.specs.Prelude.{◌≡◌, ◌+◌, ◌*◌, length};
    ghost use Rattle.tk_latch.specs.Latch.{Published};
    ghost use Rattle.tk_latch.specs.Views.{copying};

    ghost Value = { Published };

    ghost view = { λ a. record {
      latch = record { table = a.seat.table_id; counter = a.seat.me.0.history.counter };
      publications = a.seat.me.0.history.list;
    } };

    ghost invariant = { λ a.
        (a.seat.me.0 ≡ copying a.seat.me.0.history 10)
        × (a.sequence + 2 ≡ 2 * length a.seat.me.0.history.list) };
}

impl LatchWriter {
    ghost use Rattle.std.specs.Prelude.{◌++◌, ◌∷◌, MatchResult};
    ghost use Rattle.tk_latch.specs.Latch.{mark_of, most_publications};

    /// Publishes a snapshot of the latch's counter, whose front is the number of this publication,
    /// from 1.
    ///
    /// # Errors
    ///
    /// `PageFull` if 2^63 - 1 snapshots were published. In this case the call changes nothing.
    pub fn publish<A: Allocator>(
        &mut self,
        latch: &Latch<A>,
        snapshot: Snapshot,
    ) -> Result<(), PageFull>
        requires latch { self.old.latch ≡ latch.now }
        requires counter { snapshot.base.counter ≡ latch.now.counter }
        requires number { snapshot.front ≡ length self.old.publications }
        ensures { MatchResult result
            (λ _. (mark_of self.old.publications < most_publications)
            × (self.new ≡ record self.old {
              publications = self.old.publications ++ snapshot ∷ [];
            }))
            (λ _. (mark_of self.old.publications ≡ most_publications) × (self.new ≡ self.old)) }
    {
        if self.sequence >= SEQUENCE_LIMIT {
            return Err(PageFull);
        }
        let words = snapshot.words();
        make(latch, &mut self.seat, self.sequence + 1, &words);
        commit(latch, &mut self.seat, self.sequence + 2, &words);
        self.sequence += 2;
        Ok(())
    }
}

/// Writes copy 0, while readers take copy 1.
fn make<A: Allocator>(
    latch: &Latch<A>,
    seat: &mut Seat<(), View>,
    odd: u64,
    words: &[u64; SNAPSHOT_WORDS],
)
    requires latch { seat.old.table_id ≡ latch.now.table }
    requires writer { seat.old.me.0 ≡ copying seat.old.me.0.history 10 }
    requires odd { odd + 1 ≡ 2 * length seat.old.me.0.history.list }
    requires number { slice_index words.now 0 ≡ length seat.old.me.0.history.list }
    ensures latch { seat.new.table_id ≡ seat.old.table_id }
    ensures writer { seat.new.me.0 ≡ making seat.old.me.0.history words.now }
{
    let shared = &latch.words.shared;
    // 1. Readers now take copy 1.
    shared.store::<Opens>(seat, SEQUENCE, odd);
    for i in 1..SNAPSHOT_WORDS {
        // 2. A word of copy 0 is replaced if it differs.
        let found = shared.load::<FindsWord>(seat, COPY_0 + i);
        if found != words[i] {
            shared.store::<ReplacesWord>(seat, COPY_0 + i, words[i]);
        }
    }
}

/// Publishes copy 0, and writes copy 1, while readers take copy 0.
fn commit<A: Allocator>(
    latch: &Latch<A>,
    seat: &mut Seat<(), View>,
    even: u64,
    words: &[u64; SNAPSHOT_WORDS],
)
    requires latch { seat.old.table_id ≡ latch.now.table }
    requires next { IsNext seat.old.me.0.history words.now }
    requires writer { seat.old.me.0 ≡ making seat.old.me.0.history words.now }
    requires even { even ≡ 2 * length seat.old.me.0.history.list }
    ensures latch { seat.new.table_id ≡ seat.old.table_id }
    ensures writer { seat.new.me.0 ≡ copying (pushed_words seat.old.me.0.history words.now) 10 }
{
    let shared = &latch.words.shared;
    // 3. The publication: readers now take copy 0.
    shared.store::<Commits>(seat, SEQUENCE, even);
    for i in 1..SNAPSHOT_WORDS {
        // 4. A word of copy 1 is replaced if it differs.
        let found = shared.load::<ChecksWord>(seat, COPY_1 + i);
        if found != words[i] {
            shared.store::<CopiesWord>(seat, COPY_1 + i, words[i]);
        }
    }
}
