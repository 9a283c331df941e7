ghost use Rattle.std.specs.Prelude.{◌≡◌, ◌+◌, ◌*◌, ◌<◌, ◌^◌, length, None, Some};
ghost use Rattle.tk_now.specs.Moments.{IsAcceptedAt};
ghost use Rattle.tk_now.specs.Views.{IsAnnounced, IsIdle, from_by, moment_of};

use crate::counter::{Look, SharedCounter};
use crate::notice::{Notice, WORD};
use crate::reader::NoticeReader;
use crate::rule::{
    Accepts, Announces, Compares, Hands, KeepsNote, NamesReading, Recounts, Returns, Withdraws,
};
use std::alloc::Allocator;
use std::marker::{Brand, Model};
use std::mem;

/// Announces commands in a notice. A notice has one writer.
///
/// Contracts see it as the readings of the accepted commands, and the moment of the announcement
/// if a command is in progress.
#[derive(Drop)]
pub struct NoticeWriter {
    pub(crate) look: Look,
    /// The number of accepted commands.
    pub(crate) number: u64,
}

impl Model for NoticeWriter {
    ghost use Rattle.std.specs.Prelude.{◌≡◌, ◌+◌, ◌≤◌, ◌^◌, length};
    ghost use Rattle.tk_now.specs.Views.{Announcing, announcing, since_by};

    ghost Value = { Announcing };

    ghost view = { λ a. record {
      notice = a.look.seat.table_id;
      commands = a.look.seat.me.0.commands;
      log = a.look.seat.me.0.log;
      since = since_by a.look.seat.me.0.role;
    } };

    ghost invariant = { λ a.
        (a.look.seat.me.0.role ≡ announcing (since_by a.look.seat.me.0.role))
        × (a.number + 1 ≡ length a.look.seat.me.0.commands)
        × (length a.look.seat.me.0.commands ≤ 2 ^ 63) };
}

impl NoticeWriter {
    ghost use Rattle.std.specs.Prelude.{IsSome};
    ghost use mathlib.Core.List.{IsPrefix};
    ghost use Rattle.tk_now.specs.Moments.{AreInLife, AreInOrder, AreInTurn, IsReadAt, IsTold};

    /// Announces a command, before the command takes its reading.
    ///
    /// It waits for nobody and allocates nothing.
    pub fn announce<A: Allocator>(&mut self, notice: &Notice<A>)
        requires notice { self.old.notice ≡ notice.now }
        requires idle { self.old.since ≡ None }
        ensures announced { IsSome self.new.since }
        ensures same { (self.new.notice ≡ self.old.notice)
            × (self.new.commands ≡ self.old.commands) × (self.new.log ≡ self.old.log) }
    {
        // 1. No reading is listed until the command ends.
        let odd = 2 * self.number + 1;
        notice
            .words
            .shared
            .store::<Announces>(&mut self.look.seat, WORD, odd);
    }

    /// Returns the announcement of the command in progress, which the command's read of its counter
    /// follows.
    ///
    /// It never waits and allocates nothing.
    #[inline]
    pub fn look(&self) -> &Look
        requires announced { IsSome self.now.since }
        ensures { self.now.since ≡ Some (moment_of result.now) }
    {
        &self.look
    }

    /// Reads the counter for the announced command.
    pub fn read<C: SharedCounter>(&self, counter: &C) -> u64
        requires announced { IsSome self.now.since }
        ensures { IsReadAt C.answers counter.now self.now.since result }
    {
        // 2. The reading follows the announcement.
        counter.read(&self.look)
    }

    /// Ends the announced command, which was accepted at `reading`. Call it after the command's
    /// effect is published.
    ///
    /// It waits for nobody and allocates nothing.
    pub fn accept<A: Allocator>(&mut self, notice: &Notice<A>, reading: u64)
        requires notice { self.old.notice ≡ notice.now }
        requires announced { IsSome self.old.since }
        requires room { length self.old.commands < 2 ^ 63 }
        ensures notice { self.new.notice ≡ self.old.notice }
        ensures idle { self.new.since ≡ None }
        ensures accepted { IsAcceptedAt self.old.since self.old.commands reading self.new.commands }
        ensures log { self.new.log ≡ self.old.log }
    {
        // 3. It counts.
        self.number += 1;
        accept_reading::<Brand, A>(notice, &mut self.look, 2 * self.number, reading);
    }

    /// Gives a reader the readings of all accepted commands and of all readers. The writer learns
    /// the readers' readings too.
    ///
    /// It waits for nobody and allocates nothing.
    pub fn tell<A: Allocator>(&mut self, notice: &Notice<A>, reader: &mut NoticeReader)
        requires notice { self.old.notice ≡ notice.now }
        requires reader { reader.old.notice ≡ notice.now }
        requires idle { self.old.since ≡ None }
        ensures same { self.new ≡ record self.old { log = self.new.log } }
        ensures log { IsPrefix self.old.log self.new.log }
        ensures told { IsTold self.new reader.old reader.new }
    {
        let shared = &notice.words.shared;
        let seat = &mut self.look.seat;
        let vacant = shared.split_seat::<Hands>(seat);
        let former = mem::replace(&mut reader.look.seat, vacant);
        shared.join_seat::<KeepsNote>(seat, former);
        shared.load::<Recounts>(seat, WORD);
        reader.look.seat = shared.split_seat::<Returns>(seat);
    }

    /// Takes in a reader, which is used up. The commands that it knew are the first of this
    /// writer's. The writer learns all answers so far, of which the reader knew the first; each is
    /// in its life among all commands, and they are listed in turn.
    ///
    /// It waits for nobody and allocates nothing.
    pub fn take_in<A: Allocator>(&mut self, notice: &Notice<A>, reader: NoticeReader)
        requires notice { self.old.notice ≡ notice.now }
        requires reader { reader.notice ≡ notice.now }
        requires idle { self.old.since ≡ None }
        ensures same { self.new ≡ record self.old { log = self.new.log } }
        ensures begins { IsPrefix reader.commands self.old.commands }
        ensures order { AreInOrder self.old.commands }
        ensures log { IsPrefix self.old.log self.new.log × IsPrefix reader.log self.new.log }
        ensures life { AreInLife self.old.commands self.new.log }
        ensures turn { AreInTurn self.new.log }
    {
        let NoticeReader { look } = reader;
        let Look { seat: former } = look;
        let shared = &notice.words.shared;
        let seat = &mut self.look.seat;
        shared.join_seat::<KeepsNote>(seat, former);
        shared.load::<Compares>(seat, WORD);
    }

    /// Ends the announced command, which was refused.
    ///
    /// It waits for nobody and allocates nothing.
    pub fn withdraw<A: Allocator>(&mut self, notice: &Notice<A>)
        requires notice { self.old.notice ≡ notice.now }
        requires announced { IsSome self.old.since }
        ensures { self.new ≡ record self.old { since = None } }
    {
        // 3. It doesn't count.
        let even = 2 * self.number;
        notice
            .words
            .shared
            .store::<Withdraws>(&mut self.look.seat, WORD, even);
    }
}

/// Lists a reading that the type `R` names, so that the step can name it too.
fn accept_reading<R: NamesReading, A: Allocator>(
    notice: &Notice<A>,
    look: &mut Look,
    even: u64,
    reading: u64,
)
    requires notice { look.old.seat.table_id ≡ notice.now }
    requires named { R.reading ≡ reading }
    requires announced { IsAnnounced look.old.seat.me.0 }
    requires even { even ≡ 2 * length look.old.seat.me.0.commands }
    ensures notice { look.new.seat.table_id ≡ look.old.seat.table_id }
    ensures accepted { IsAcceptedAt (Some (from_by look.old.seat.me.0.role))
        look.old.seat.me.0.commands reading look.new.seat.me.0.commands }
    ensures log { look.new.seat.me.0.log ≡ look.old.seat.me.0.log }
    ensures idle { IsIdle look.new.seat.me.0 }
{
    notice
        .words
        .shared
        .store::<Accepts<R>>(&mut look.seat, WORD, even);
}
