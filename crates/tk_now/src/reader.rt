ghost use Rattle.std.specs.Prelude.{◌≡◌, MatchResult};
ghost use mathlib.Core.List.{IsPrefix};
ghost use Rattle.tk_now.specs.Moments.{AreBefore, AreInLife, AreInOrder, AreInTurn};
ghost use Rattle.tk_now.specs.Steps.{IsBegun, IsEnd};
ghost use Rattle.tk_now.specs.Views.{IsResting, IsTiming, from_by};

use crate::busy::Busy;
use crate::counter::{Look, SharedCounter};
use crate::notice::{Notice, WORD};
use crate::rule::{Begins, Ends, NamesReading};
use std::alloc::Allocator;
use std::marker::{Brand, Model};

/// Takes readings of a shared counter while no command is in progress.
///
/// It belongs to one thread at a time. Contracts see it as the readings of commands and of readers
/// that it knows of, and the words that its loads of the notice have found.
#[derive(Drop)]
pub struct NoticeReader {
    pub(crate) look: Look,
}

impl Model for NoticeReader {
    ghost use Rattle.std.specs.Prelude.{◌≡◌, []};
    ghost use Rattle.tk_now.specs.Views.{IsResting, Noticed, found_by};

    ghost Value = { Noticed };

    ghost view = { λ a. record {
      notice = a.look.seat.table_id;
      commands = a.look.seat.me.0.commands;
      log = a.look.seat.me.0.log;
      found = found_by a.look.seat.me.0.role;
    } };

    ghost invariant = { λ a. IsResting a.look.seat.me.0 × (a.look.seat.me.1 ≡ []) };
}

/// Contains a reading, and the latest accepted command before it.
#[derive(Clone, Copy, Debug, PartialEq, Eq)]
pub struct Timed {
    /// The number of that command; the opening is number 0.
    pub place: u64,
    /// The reading, in cycles.
    pub reading: u64,
}

impl NoticeReader {
    ghost use Rattle.tk_now.specs.Moments.{IsTimed, IsBusy};

    /// Reads the counter while no command is in progress.
    ///
    /// The reading is no later than the reading of any command that is accepted after it. No
    /// reading that any thread had when the call began was taken after it.
    ///
    /// # Errors
    ///
    /// `Busy` if a command was in progress at one of the two loads of the notice, or was accepted
    /// between them.
    #[inline(always)]
    pub fn time<C: SharedCounter, A: Allocator>(
        &mut self,
        notice: &Notice<A>,
        counter: &C,
    ) -> Result<Timed, Busy>
        requires notice { self.old.notice ≡ notice.now }
        ensures notice { self.new.notice ≡ self.old.notice }
        ensures extends { IsPrefix self.old.commands self.new.commands
            × IsPrefix self.old.log self.new.log }
        ensures life { AreInOrder self.new.commands × AreInLife self.new.commands self.new.log }
        ensures turn { AreInTurn self.new.log }
        ensures answer { MatchResult result
            (λ timed. IsTimed C.answers counter.now self.old self.new timed.place timed.reading)
            (λ busy. IsBusy self.old self.new busy.first busy.last) }
    {
        let first = begin(notice, &mut self.look);
        // 5. The reading follows the first load.
        let reading = counter.read(&self.look);
        let last = end::<Brand, A>(notice, &mut self.look, reading);
        if first != last || first % 2 != 0 {
            return Err(Busy { first, last });
        }
        Ok(Timed {
            place: first / 2,
            reading,
        })
    }
}

/// Loads the notice's word.
fn begin<A: Allocator>(notice: &Notice<A>, look: &mut Look) -> u64
    requires notice { look.old.seat.table_id ≡ notice.now }
    requires resting { IsResting look.old.seat.me.0 }
    ensures notice { look.new.seat.table_id ≡ look.old.seat.table_id }
    ensures carried { look.new.seat.me.1 ≡ look.old.seat.me.1 }
    ensures begun { IsBegun look.old.seat.me.0 result look.new.seat.me.0 }
{
    // 4. The first load.
    notice.words.shared.load::<Begins>(&mut look.seat, WORD)
}

/// Loads the notice's word again, and lists a reading that the type `R` names.
fn end<R: NamesReading, A: Allocator>(notice: &Notice<A>, look: &mut Look, reading: u64) -> u64
    requires notice { look.old.seat.table_id ≡ notice.now }
    requires named { R.reading ≡ reading }
    requires timing { IsTiming look.old.seat.me.0 }
    requires before { AreBefore (from_by look.old.seat.me.0.role) look.old.seat.me.0.commands }
    ensures notice { look.new.seat.table_id ≡ look.old.seat.table_id }
    ensures carried { look.new.seat.me.1 ≡ look.old.seat.me.1 }
    ensures ended { IsEnd reading look.old.seat.me.0 result look.new.seat.me.0 }
{
    // 6. The second load.
    notice.words.shared.load::<Ends<R>>(&mut look.seat, WORD)
}
