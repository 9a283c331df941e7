//! The time now.
ghost use Rattle.std.specs.Prelude.{◌≡◌, ◌<◌, MatchResult};
ghost use mathlib.Core.List.{IsPrefix};
ghost use Rattle.tk_clock.specs.State.{base_of};
ghost use Rattle.tk_keeper.specs.Keeper.{ReadsAs};
ghost use Rattle.tk_page.specs.History.{Begins};
ghost use Rattle.tk_shared.specs.Now.{IsNow, IsNowBy, IsNoTime, IsNoTimeBy, IsSeenBy, KnowsMore, NoticesMore};

use crate::caller::Caller;
use crate::counter::Counter;
use crate::named::Named;
use crate::now_fault::{Late, NowFault};
use crate::parts::Shared;
use crate::shared_keeper::SharedKeeper;
use std::sync::Wait;
use std::thread;
use tk_clock::{ClockId, ReadError, Timespec};
use tk_latch::LatchReader;
use tk_now::{NoticeReader, SharedCounter};
use tk_page::Viewer;

impl<L: Named, C: Counter> SharedKeeper<L, C> {
    /// Returns a clock's time now, at a reading of `counter` taken by this call (`ktime_get`).
    ///
    /// It reads the page, and then the counter between two loads of the notice. It tries again if a
    /// command was accepted in between, or was in progress: then it first yields its processor. It
    /// may wait for a thread that holds the words of the page.
    ///
    /// MONOTONIC never goes back, neither for one caller nor between callers, under three
    /// conditions (`now_never_falls`). The keeper's commands read the same counter, as with
    /// `SharedReader`. The counter is honest: its readings come from a count that never falls.
    /// While the clocks are awake, at least one command is accepted in each half of the counter's
    /// range.
    ///
    /// # Errors
    ///
    /// `ReadError::Range` if the clock is at its limit or beyond it.
    #[inline]
    pub fn now<R: Wait, S: SharedCounter>(
        &self,
        rt: &R,
        caller: &mut Caller<L>,
        counter: &S,
        clock: ClockId,
    ) -> Result<Timespec, ReadError>
        ensures reads { caller.old.reads < caller.new.reads }
        ensures extends { Begins caller.old.seen caller.new.seen }
        ensures noticed { KnowsMore caller.old caller.new }
        ensures answer { IsSeenBy S.answers counter.now clock caller.new.seen caller.old.noticed
            caller.new.noticed result }
        ensures clocks { ReadsAs caller.new.seen (base_of caller.new.seen) }
        ensures same { (caller.new.id ≡ caller.old.id)
            × (caller.new.accepted ≡ caller.old.accepted)
            × (caller.new.learnt ≡ caller.old.learnt)
            × (caller.new.folded ≡ caller.old.folded) }
    {
        let (viewer, notice_reader) = (&mut caller.viewer, &mut caller.notice_reader);
        time_seen(rt, &self.shared, viewer, notice_reader, counter, clock)
    }

    /// Returns a clock's time now without waiting, at a reading of `counter` taken by this call
    /// (`ktime_get_mono_fast_ns`).
    ///
    /// It reads the latch, and then the counter between two loads of the notice. It compares the
    /// two numbers of commands, so that no command was accepted between the snapshot and the
    /// reading.
    ///
    /// MONOTONIC never goes back under the conditions of `now`.
    ///
    /// # Errors
    ///
    /// The first of these that applies:
    ///
    /// - `Moved` if a publication was begun or made while the latch was read.
    /// - `Busy` if a command was in progress while the counter was read.
    /// - `Late` if a command was accepted after the latch was read and before the counter was.
    /// - `Ahead` if the latch gave a publication whose command wasn't accepted yet. No run gives it.
    /// - `Refused` if the clock refuses the reading: `ReadError::Range`.
    ///
    /// After each fault except for `Refused`, call it again.
    #[inline]
    pub fn now_fast<S: SharedCounter>(
        &self,
        caller: &mut Caller<L>,
        counter: &S,
        clock: ClockId,
    ) -> Result<Timespec, NowFault>
        ensures extends { KnowsMore caller.old caller.new }
        ensures answer { MatchResult result
            (λ time. IsNow S.answers counter.now clock caller.old caller.new time)
            (λ fault. IsNoTime S.answers counter.now clock caller.old caller.new fault) }
        ensures same { (caller.new.id ≡ caller.old.id)
            × (caller.new.accepted ≡ caller.old.accepted)
            × (caller.new.reads ≡ caller.old.reads)
            × (caller.new.seen ≡ caller.old.seen)
            × (caller.new.folded ≡ caller.old.folded) }
    {
        let (reader, notice_reader) = (&mut caller.reader, &mut caller.notice_reader);
        time_by(&self.shared, reader, notice_reader, counter, clock)
    }
}

/// Returns a clock's time by the page, at a reading taken after the last entry that the viewer has
/// seen and before the next one. It tries again until no command is accepted in between.
#[inline]
fn time_seen<R: Wait, S: SharedCounter>(
    rt: &R,
    shared: &Shared,
    viewer: &mut Viewer,
    notice_reader: &mut NoticeReader,
    counter: &S,
    clock: ClockId,
) -> Result<Timespec, ReadError>
    requires named { (viewer.old.page ≡ shared.now.page)
        × (notice_reader.old.notice ≡ shared.now.notice) }
    ensures same { (viewer.new.page ≡ viewer.old.page)
        × (notice_reader.new.notice ≡ notice_reader.old.notice) }
    ensures reads { viewer.old.reads < viewer.new.reads }
    ensures begins { Begins viewer.old.journal viewer.new.journal }
    ensures noticed { NoticesMore notice_reader.old notice_reader.new }
    ensures answer { IsSeenBy S.answers counter.now clock viewer.new.journal notice_reader.old
        notice_reader.new result }
{
    for _ in rt.forever() {
        let snapshot = viewer.read(rt, &shared.page);
        let Ok(timed) = notice_reader.time(&shared.notice, counter) else {
            // whoever gives the command may need this processor
            thread::yield_now();
            continue;
        };
        if viewer.front() == timed.place {
            return snapshot.get(clock, timed.reading & snapshot.desc().mask());
        }
    }
    unreachable!()
}

/// Returns a clock's time by the latch's latest publication, at a reading taken after the last
/// command of that publication and before the next one.
#[inline(always)]
fn time_by<S: SharedCounter>(
    shared: &Shared,
    reader: &mut LatchReader,
    notice_reader: &mut NoticeReader,
    counter: &S,
    clock: ClockId,
) -> Result<Timespec, NowFault>
    requires named { (reader.old.latch ≡ shared.now.latch)
        × (notice_reader.old.notice ≡ shared.now.notice) }
    ensures same { (reader.new.latch ≡ reader.old.latch)
        × (notice_reader.new.notice ≡ notice_reader.old.notice) }
    ensures learnt { IsPrefix reader.old.publications reader.new.publications }
    ensures noticed { NoticesMore notice_reader.old notice_reader.new }
    ensures answer { MatchResult result
        (λ time. IsNowBy S.answers counter.now reader.old reader.new notice_reader.old
        notice_reader.new clock time)
        (λ fault. IsNoTimeBy S.answers counter.now reader.old reader.new notice_reader.old
        notice_reader.new clock fault) }
{
    let snapshot = match reader.try_read(&shared.latch) {
        Ok(snapshot) => snapshot,
        Err(moved) => return Err(NowFault::Moved(moved)),
    };
    let timed = match notice_reader.time(&shared.notice, counter) {
        Ok(timed) => timed,
        Err(busy) => return Err(NowFault::Busy(busy)),
    };
    let (front, place) = (snapshot.front(), timed.place);
    if front < place {
        return Err(NowFault::Late(Late { front, place }));
    }
    if place < front {
        return Err(NowFault::Ahead(Late { front, place }));
    }
    let reading = timed.reading & snapshot.desc().mask();
    match snapshot.get(clock, reading) {
        Ok(time) => Ok(time),
        Err(refusal) => Err(NowFault::Refused(refusal)),
    }
}
