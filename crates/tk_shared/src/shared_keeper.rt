//! The lock, the page, the latch and the notices, and the calls on them.
ghost use Rattle.std.specs.Prelude.{◌≡◌, ◌+◌, ◌≤◌, length, replicate, IfOk, MatchResult};
ghost use mathlib.Core.List.{IsPrefix};
ghost use Rattle.tk_clock.specs.Limits.{counted_most};
ghost use Rattle.tk_clock.specs.Snapshot.{snapshot_of};
ghost use Rattle.tk_latch.specs.Latch.{IsRead, IsMoved, opened_reader};
ghost use Rattle.tk_now.specs.Views.{opened_notice_writer};
ghost use Rattle.tk_shared.specs.Callers.{HasRead, IsAccepted, IsFolded, IsInformed, IsKnownBy, IsRefused, IsSameCaller, newcomers};
ghost use Rattle.tk_shared.specs.Folds.{IsCounting};
ghost use Rattle.tk_shared.specs.Opening.{AreNamed, IsNamed, most_callers};
ghost use Rattle.tk_shared.specs.Readings.{EndsAtReading, IsRefusedAtReading};

use crate::caller::Caller;
use crate::command_writer::CommandWriter;
use crate::counter::Counter;
use crate::fault::{OpenError, OpenFault};
use crate::folds::FoldWriter;
use crate::lock::take;
use crate::locked::Locked;
use crate::named::Named;
use crate::parts::{Parts, Shared};
use crate::prepared::Prepared;
use std::alloc::{AllocError, Global};
use std::marker::Model;
use std::sync::ledger::Share;
use std::sync::{Mutex, Wait};
use tk_clock::{Command, Refusal, Snapshot};
use tk_latch::{LatchReader, Moved};
use tk_page::Viewer;

/// Shares a timekeeper among callers in many threads.
///
/// Commands and folds take its lock; reads don't. Contracts see it as the number of its callers.
#[derive(Drop)]
pub struct SharedKeeper<L: Named, C: Counter> {
    pub(crate) shared: Shared,
    pub(crate) locked: Mutex<Locked<L, C>>,
    pub(crate) callers: usize,
}

impl<L: Named, C: Counter> Model for SharedKeeper<L, C> {
    ghost use Rattle.std.specs.Prelude.{◌≡◌, ℕ};
    ghost use Rattle.tk_shared.specs.Opening.{AreNamed};

    ghost Value = { ℕ };

    ghost view = { λ k. k.callers };

    ghost invariant = { λ k.
        AreNamed L.page L.latch L.notice k.shared
        × (k.callers ≡ L.callers) × (L.callers ≡ L.parts) };
}

impl<L: Named, C: Counter> SharedKeeper<L, C> {
    /// Opens a prepared keeper. Returns it with its callers, numbered from 0. Their number is the
    /// one that `prepare` got.
    ///
    /// The type `L` must name the prepared parts.
    ///
    /// # Errors
    ///
    /// Returns an `OpenFault` with `Memory` if an allocation fails. It contains the counter.
    pub fn open(
        alloc: Global,
        prepared: Prepared<C>,
    ) -> Result<(SharedKeeper<L, C>, Vec<Caller<L>>), OpenFault<C>>
        requires named { IsNamed prepared L.page L.latch L.notice L.name L.parts L.callers }
        ensures { MatchResult result
            (λ opened. (opened.0 ≡ prepared.callers)
            × (opened.1.items ≡ newcomers prepared.latch prepared.notice prepared.journal prepared.callers))
            (λ fault. fault.error ≡ OpenError.Memory) }
    {
        let Parts {
            keeper,
            shared,
            mut writers,
            viewer,
            readers,
        } = prepared.parts;
        let callers = readers.len();
        let (book, mut rest) = prepared.blank.open::<L>();
        let (writer, folds) = (&mut writers.notice, &mut writers.folds);
        let Ok(made) = make_callers(alloc, &shared, viewer, readers, writer, folds, &mut rest)
        else {
            return Err(OpenFault::new(OpenError::Memory, prepared.counter));
        };
        let locked = Locked {
            keeper,
            writers,
            counter: prepared.counter,
            mask: prepared.mask,
            book,
            rest,
        };
        let keeper = SharedKeeper {
            shared,
            locked: Mutex::new(locked),
            callers,
        };
        Ok((keeper, made))
    }

    /// Applies a caller's command at the counter's reading, adds it to the journal with the
    /// caller's number, and publishes it on the page and then on the latch. Returns the number of
    /// the entry.
    ///
    /// It does all this under the lock. It waits for the lock, and then it may wait for readers of
    /// the page. It allocates if no capacity is left, and reads the counter once. The page can
    /// count 2^63 - 2 accepted commands; the next one waits for ever.
    ///
    /// # Errors
    ///
    /// Returns the `Refusal` of `Timekeeper::apply`: the first test that fails, in the order of
    /// `Refusal`. A refused command changes nothing, except that the caller may have seen more
    /// entries and knows how many of them are folded, and that the counter was read.
    pub fn command<R: Wait>(
        &self,
        rt: &R,
        caller: &mut Caller<L>,
        cmd: Command,
    ) -> Result<u64, Refusal>
        ensures answer { MatchResult result
            (λ number. IsAccepted caller.old caller.new cmd number)
            (λ refusal. IsRefused caller.old caller.new cmd refusal) }
        ensures reading { MatchResult result
            (λ _. EndsAtReading C.answers_after caller.new.seen caller.new.noticed.commands)
            (λ refusal. IsRefusedAtReading C.answers_after caller.old caller.new cmd refusal) }
        ensures same { IsSameCaller caller.old caller.new }
    {
        take(rt, &self.locked).command(rt, &self.shared, caller, cmd)
    }

    /// Returns the latest snapshot on the page, which is no older than any that this caller has
    /// seen.
    ///
    /// It reads the page once, as `reads` of `HasRead` states, and doesn't take the lock. It waits
    /// for the thread that holds the words of the page.
    #[inline(always)]
    pub fn read<R: Wait>(&self, rt: &R, caller: &mut Caller<L>) -> Snapshot
        ensures read { HasRead caller.old caller.new result }
    {
        caller.viewer.read(rt, &self.shared.page)
    }

    /// Returns the latest publication of the latch, which is no earlier than any that this caller
    /// knows of.
    ///
    /// It doesn't change the history that the caller has seen through commands and `read`. The
    /// contract relates the result to the sequence numbers that this call loaded.
    ///
    /// # Errors
    ///
    /// `Moved` if a publication was begun or made during the call. In this case the caller's mark
    /// may rise.
    #[inline(always)]
    pub fn fast_read(&self, caller: &mut Caller<L>) -> Result<Snapshot, Moved>
        ensures extends { IsPrefix caller.old.learnt.publications caller.new.learnt.publications }
        ensures answer { MatchResult result
            (λ snapshot. IsRead caller.old.learnt caller.new.learnt snapshot)
            (λ moved. IsMoved caller.old.learnt caller.new.learnt moved.first moved.last) }
        ensures same { (caller.new.id ≡ caller.old.id)
            × (caller.new.accepted ≡ caller.old.accepted)
            × (caller.new.reads ≡ caller.old.reads)
            × (caller.new.seen ≡ caller.old.seen)
            × (caller.new.noticed ≡ caller.old.noticed)
            × (caller.new.folded ≡ caller.old.folded) }
    {
        caller.reader.try_read(&self.shared.latch)
    }

    /// Folds the oldest entries of the journal so that at most `keep` are listed, and returns the
    /// number of folded entries, which the caller then knows.
    ///
    /// It waits for the lock, and then it may wait for readers of the page, because it informs the
    /// caller as `follow` does. It publishes nothing, and no reader's answers change.
    pub fn fold<R: Wait>(&self, rt: &R, caller: &mut Caller<L>, keep: u64) -> u64
        ensures folded { IsFolded caller.old caller.new keep result }
        ensures counted { result ≤ counted_most }
        ensures informed { IsInformed caller.new }
        ensures known { IsKnownBy caller.old caller.new }
        ensures same { IsSameCaller caller.old caller.new }
        ensures accepted { caller.new.accepted ≡ caller.old.accepted }
    {
        take(rt, &self.locked).fold(rt, &self.shared, caller, keep)
    }
}

/// Makes the callers, numbered from 0: one for each reader, with a part of the ledger.
fn make_callers<L: Named>(
    alloc: Global,
    shared: &Shared,
    viewer: Viewer,
    readers: Vec<LatchReader>,
    writer: &mut CommandWriter,
    folds: &mut FoldWriter,
    shares: &mut Share<L>,
) -> Result<Vec<Caller<L>>, AllocError>
    requires named { AreNamed L.page L.latch L.notice shared.now }
    requires page { viewer.page ≡ L.page }
    requires reads { viewer.reads ≡ 0 }
    requires readers { readers.items
        ≡ replicate (length readers.items) (opened_reader L.latch (snapshot_of viewer.journal)) }
    requires few { length readers.items ≤ most_callers }
    requires writer { writer.old
        ≡ opened_notice_writer L.notice.commands viewer.journal.opening.reading }
    requires folds { IsCounting L.notice.folds 0 folds.old }
    requires shares { (shares.old.parts ≡ length readers.items) × (shares.old.amount ≡ 0) }
    ensures callers { IfOk result (λ callers.
        callers.items ≡ newcomers L.latch L.notice viewer.journal (length readers.items)) }
    ensures writer { (writer.new ≡ writer.old) × (folds.new ≡ folds.old) }
    ensures shares { IfOk result (λ _. (shares.new.parts ≡ 0) × (shares.new.amount ≡ 0)) }
{
    let mut viewer = viewer;
    let mut callers = Vec::with_capacity(alloc, readers.len())?;
    let mut id = 0;
    for reader in readers {
        let (mine, others) = viewer.split(&shared.page);
        viewer = others;
        callers.push_reserved(Caller {
            viewer: mine,
            reader,
            notice_reader: writer.reader(&shared.notice),
            folds: folds.reader(&shared.folds),
            share: shares.split_off(1, 0),
            id,
            accepted: 0,
        });
        id += 1;
    }
    Ok(callers)
}
