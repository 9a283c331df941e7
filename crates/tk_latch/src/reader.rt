ghost use Rattle.std.specs.Prelude.{◌≡◌, ◌+◌, ◌*◌, ◌%◌, length, MatchResult};
ghost use mathlib.Core.List.{IsPrefix};
ghost use Rattle.tk_latch.specs.Attempt.{IsAttempt, Gathered};
ghost use Rattle.tk_latch.specs.Views.{resting, reading, found_by};

use crate::errors::Moved;
use crate::latch::{COPY_0, COPY_1, Latch, SEQUENCE};
use crate::rule::{Begins, Ends, Loads, View};
use atomic_table::Seat;
use std::alloc::Allocator;
use std::marker::Model;
use tk_clock::{SNAPSHOT_WORDS, Snapshot};

/// Reads a latch, and stores a mark: the number of the latest publication that it knows of.
///
/// It belongs to one thread at a time. Contracts see it as the publications that it knows of and
/// the sequence numbers that its loads have found.
#[derive(Drop)]
pub struct LatchReader {
    pub(crate) seat: Seat<(), View>,
    pub(crate) mark: u64,
}

impl Model for LatchReader {
    ghost use Rattle.std.specs.Prelude.{◌≡◌, ◌+◌, [], length};
    ghost use Rattle.tk_latch.specs.Latch.{Learnt};
    ghost use Rattle.tk_latch.specs.Views.{resting, found_by};

    ghost Value = { Learnt };

    ghost view = { λ a. record {
      latch = record { table = a.seat.table_id; counter = a.seat.me.0.history.counter };
      publications = a.seat.me.0.history.list;
      found = found_by a.seat.me.0.role;
    } };

    ghost invariant = { λ a.
        (a.seat.me.0 ≡ resting a.seat.me.0.history (found_by a.seat.me.0.role))
        × (a.seat.me.1 ≡ []) × (a.mark + 1 ≡ length a.seat.me.0.history.list) };
}

impl LatchReader {
    ghost use Rattle.tk_latch.specs.Latch.{IsRead, IsMoved};

    /// Returns the number of the latest publication that this reader knows of. It is 0 at first.
    pub fn mark(&self) -> u64
        ensures { result + 1 ≡ length self.now.publications }
    {
        self.mark
    }

    /// Returns the latest publication, whole. Its number becomes the mark.
    ///
    /// The contract relates the result to the sequence numbers that this call loaded.
    ///
    /// # Errors
    ///
    /// `Moved` if the sequence changed during the call, with the two sequence numbers that it
    /// found. In this case the mark becomes half the second one, rounded down.
    #[inline(always)]
    pub fn try_read<A: Allocator>(&mut self, latch: &Latch<A>) -> Result<Snapshot, Moved>
        requires latch { self.old.latch ≡ latch.now }
        ensures latch { self.new.latch ≡ self.old.latch }
        ensures extends { IsPrefix self.old.publications self.new.publications }
        ensures answer { MatchResult result
            (λ snapshot. IsRead self.old self.new snapshot)
            (λ moved. IsMoved self.old self.new moved.first moved.last) }
    {
        let Attempt { first, words, last } = read_once(latch, &mut self.seat);
        self.mark = last / 2;
        if first != last {
            return Err(Moved { first, last });
        }
        Ok(Snapshot::from_known_words(latch.desc, words))
    }
}

/// Contains what one read found: the words, and the sequence before and after.
struct Attempt {
    first: u64,
    words: [u64; SNAPSHOT_WORDS],
    last: u64,
}

/// Loads the words of the copy that the sequence names, and the sequence before and after.
fn read_once<A: Allocator>(latch: &Latch<A>, seat: &mut Seat<(), View>) -> Attempt
    requires latch { seat.old.table_id ≡ latch.now.table }
    requires reader { seat.old.me.0 ≡ resting seat.old.me.0.history (found_by seat.old.me.0.role) }
    ensures latch { seat.new.table_id ≡ seat.old.table_id }
    ensures carried { seat.new.me.1 ≡ seat.old.me.1 }
    ensures attempt { IsAttempt seat.old.me.0 seat.new.me.0 result.first result.words result.last }
{
    let shared = &latch.words.shared;
    // 5. The first load of the sequence.
    let first = shared.load::<Begins>(seat, SEQUENCE);
    let words = gather(latch, seat, first);
    // 7. The second load of the sequence.
    let last = shared.load::<Ends>(seat, SEQUENCE);
    Attempt { first, words, last }
}

/// Loads the words of the copy that the sequence `first` names. Half of `first` is the front.
///
/// Each copy has its own machine code, since the processor predicts a branch. It would compute the
/// address of a copy only after the load of the sequence.
fn gather<A: Allocator>(
    latch: &Latch<A>,
    seat: &mut Seat<(), View>,
    first: u64,
) -> [u64; SNAPSHOT_WORDS]
    requires latch { seat.old.table_id ≡ latch.now.table }
    requires reader { seat.old.me.0
        ≡ reading seat.old.me.0.history (found_by seat.old.me.0.role) first first }
    ensures latch { seat.new.table_id ≡ seat.old.table_id }
    ensures carried { seat.new.me.1 ≡ seat.old.me.1 }
    ensures words { Gathered seat.old.me.0 first result seat.new.me.0 10 }
{
    if first % 2 == 0 {
        gather_copy(latch, seat, first, COPY_0)
    } else {
        gather_copy(latch, seat, first, COPY_1)
    }
}

/// Loads the words of the copy at `copy`, which the sequence `first` names.
#[inline(always)]
fn gather_copy<A: Allocator>(
    latch: &Latch<A>,
    seat: &mut Seat<(), View>,
    first: u64,
    copy: usize,
) -> [u64; SNAPSHOT_WORDS]
    requires latch { seat.old.table_id ≡ latch.now.table }
    requires reader { seat.old.me.0
        ≡ reading seat.old.me.0.history (found_by seat.old.me.0.role) first first }
    requires copy { copy ≡ 9 * (first % 2) }
    ensures latch { seat.new.table_id ≡ seat.old.table_id }
    ensures carried { seat.new.me.1 ≡ seat.old.me.1 }
    ensures words { Gathered seat.old.me.0 first result seat.new.me.0 10 }
{
    let shared = &latch.words.shared;
    let mut words = [0; SNAPSHOT_WORDS];
    words[0] = first / 2;
    for i in 1..SNAPSHOT_WORDS {
        // 6. A word of the copy.
        words[i] = shared.load::<Loads>(seat, copy + i);
    }
    words
}
