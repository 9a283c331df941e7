//! Applies listed entries again. It skips updates before an entry, because the entry leads to the
//! same clocks without them: it adds the cycles of all of them at the same multiplier.
ghost use Rattle.std.specs.Prelude.{◌≡◌, ◌+◌, ◌-◌, ◌<◌, ◌≤◌, ◌↔◌, length, slice_get, IsTrue, Some};
ghost use Rattle.tk_clock.specs.Journal.{prefix};
ghost use Rattle.tk_clock.specs.State.{state_of};
ghost use Rattle.tk_keeper.specs.Runs.{AreRuns};

use super::{KEPT_EVERY, Timekeeper};
use std::alloc::Allocator;
use tk_clock::{Clock, Command, Entry, Snapshot};

impl<A: Allocator + Copy> Timekeeper<A> {
    /// Advances the clocks at a place `from` to a later place: applies the entries between the two
    /// again.
    pub(super) fn replay(&self, clock: &mut Clock, from: usize, place: usize)
        requires state { clock.old ≡ state_of (prefix from self.now.journal) }
        requires before { from ≤ place }
        requires near { place < from + 256 }
        requires listed { place ≤ length self.now.journal.entries }
        ensures { clock.new ≡ state_of (prefix place self.now.journal) }
    {
        let mut next = from;
        'later: while next < place {
            next = self.apply_again(clock, next, place);
        }
    }

    /// Applies a run of the entries after the first `from` ones again, by applying only its last
    /// entry. Returns the end of the run, at most `place`.
    fn apply_again(&self, clock: &mut Clock, from: usize, place: usize) -> usize
        requires state { clock.old ≡ state_of (prefix from self.now.journal) }
        requires before { from < place }
        requires listed { place ≤ length self.now.journal.entries }
        ensures state { clock.new ≡ state_of (prefix result self.now.journal) }
        ensures further { from < result }
        ensures inside { result ≤ place }
    {
        let end = self.run_end(&clock.snapshot(0), from, place);
        let entry = self.last_before(end);
        clock.apply(entry.reading, entry.cmd).unwrap();
        end
    }

    /// Returns the last entry before a place.
    fn last_before(&self, place: usize) -> Entry
        requires some { 0 < place }
        requires listed { place ≤ length self.now.journal.entries }
        ensures { slice_get self.now.journal.entries (place - 1) ≡ Some result }
    {
        *self.entries.row(place - 1)
    }

    /// Returns the end, at most `place`, of the run that begins after the first `from` entries, at
    /// the clocks `now`. A run is a sequence of updates and one entry of any kind after them. It
    /// ends before an entry that is behind the clocks: the cycles up to that entry exceed half the
    /// mask. The entries of a marked run aren't examined.
    fn run_end(&self, now: &Snapshot, from: usize, place: usize) -> usize
        requires base { now.now.base ≡ (state_of (prefix from self.now.journal)).base }
        requires before { from < place }
        requires listed { place ≤ length self.now.journal.entries }
        ensures further { from < result }
        ensures inside { result ≤ place }
        ensures runs { AreRuns self.now.journal from result }
    {
        if self.is_marked_run(from, place) {
            return place;
        }
        let (desc, last) = (now.desc(), now.last());
        let half = desc.half();
        let mut entry = self.entries.row(from);
        'run: for next in from + 1..place {
            let later = self.entries.row(next);
            if !is_update(entry.cmd) || desc.gap(last, later.reading) > half {
                return next;
            }
            entry = later;
        }
        place
    }

    /// Returns whether a run from one place to another is marked: the clocks at the first place are
    /// kept, and the next kept ones have the mark.
    fn is_marked_run(&self, from: usize, place: usize) -> bool
        requires before { from < place }
        requires listed { place ≤ length self.now.journal.entries }
        ensures { IsTrue result → AreRuns self.now.journal from place }
    {
        let folded = self.folded as usize;
        let next = (folded + from) / KEPT_EVERY - folded / KEPT_EVERY;
        if (folded + from) % KEPT_EVERY != 0 || next >= self.kept.len() {
            return false;
        }
        place - from < KEPT_EVERY && self.kept.row(next).after_run
    }

    /// Returns whether the clocks after the next entry must be kept, and the 255 entries before it
    /// are a run.
    #[inline(always)]
    pub(super) fn is_after_run(&self) -> bool
        ensures { let count = length self.now.journal.entries in
            IsTrue result → (255 ≤ count) × AreRuns self.now.journal (count - 255) count }
    {
        (self.len() + 1) % KEPT_EVERY == 0 && self.ends_with_run()
    }

    /// Returns whether the last 255 entries are a run.
    #[cold]
    #[inline(never)]
    fn ends_with_run(&self) -> bool
        ensures { let count = length self.now.journal.entries in
            IsTrue result → (255 ≤ count) × AreRuns self.now.journal (count - 255) count }
    {
        let count = self.entries.len();
        if count < KEPT_EVERY - 1 {
            return false;
        }
        let from = count + 1 - KEPT_EVERY;
        self.run_end(&self.clock_at(from).snapshot(0), from, count) == count
    }
}

/// Returns whether a command is an update.
fn is_update(cmd: Command) -> bool
    ensures { IsTrue result ↔ (cmd ≡ Command.Update) }
{
    matches!(cmd, Command::Update)
}
