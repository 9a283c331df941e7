//! Opens keepers.
ghost use Rattle.std.specs.Prelude.{◌≡◌, ◌<◌, ◌≤◌, [], MatchResult, IfOk, Some, None};
ghost use Rattle.tk_counter.specs.Counter.{IsCounter};
ghost use Rattle.tk_clock.specs.Folding.{journal_from};
ghost use Rattle.tk_clock.specs.Journal.{opened};
ghost use Rattle.tk_clock.specs.Legal.{IsStart, Opened, Given, folded_opening};
ghost use Rattle.tk_clock.specs.Limits.{counted_most};
ghost use Rattle.tk_clock.specs.Refusal.{opening_refusal};
ghost use Rattle.tk_clock.specs.Running.{AreClocks};
ghost use Rattle.tk_clock.specs.State.{state_of};
ghost use Rattle.tk_keeper.specs.Keeper.{began_with};
ghost use Rattle.tk_clock.specs.declared.refusal.Refusal.TheVariants.{Invalid};

use super::{GivenClocks, Timekeeper};
use crate::ring::Ring;
use std::alloc::Allocator;
use tk_clock::{COUNTED_LIMIT, Clock, Refusal, Timespec};
use tk_counter::CounterDesc;

impl<A: Allocator + Copy> Timekeeper<A> {
    /// Opens the clocks at a reading, with an empty journal. At `reading` (in cycles) MONOTONIC is
    /// 0, and REALTIME is `real`, counted from 1970. Later calls allocate from `alloc`.
    ///
    /// # Errors
    ///
    /// `Refusal::Invalid` if `reading` is above the mask, or if REALTIME can't be set to `real`.
    pub fn open(
        alloc: A,
        desc: CounterDesc,
        reading: u64,
        real: Timespec,
    ) -> Result<Timekeeper<A>, Refusal>
        ensures answer { MatchResult result
            (λ keeper. (opening_refusal desc reading real ≡ None)
            × (keeper.journal ≡ opened desc reading real) × (keeper.began ≡ Opened)
            × (keeper.spare ≡ 0))
            (λ refusal. opening_refusal desc reading real ≡ Some refusal) }
        ensures counter { IsCounter desc }
    {
        let clock = Clock::open(desc, reading, real)?;
        Ok(Timekeeper::begun(alloc, clock, 0, None))
    }

    /// Opens a keeper for clocks that run already, with an empty journal. `front` is the number of
    /// commands that are counted as accepted before: the journal begins as if they were folded, and
    /// the next command has the number `front + 1`. The clocks stay as they are, awake or asleep.
    /// Later calls allocate from `alloc`.
    ///
    /// The clocks may come from `Clock::from_snapshot`, for example, with the front of that
    /// snapshot; or from `Clock::open_at`, with 0.
    ///
    /// # Errors
    ///
    /// `Refusal::Invalid` if `front` is above `2^63 - 1`.
    pub fn open_from(alloc: A, clock: Clock, front: u64) -> Result<Timekeeper<A>, Refusal>
        ensures answer { MatchResult result
            (λ keeper. (front ≤ counted_most) × (keeper.journal ≡ journal_from front clock [])
            × (keeper.began ≡ Given front clock) × (keeper.spare ≡ 0))
            (λ refusal. (counted_most < front) × (refusal ≡ Invalid)) }
        ensures clocks { IfOk result (λ keeper. state_of keeper.journal ≡ clock) }
    {
        if front > COUNTED_LIMIT {
            return Err(Refusal::Invalid);
        }
        let given = GivenClocks { clock, front };
        Ok(Timekeeper::begun(alloc, clock, front, Some(given)))
    }

    /// Returns the keeper of clocks that run already, after `folded` commands.
    fn begun(alloc: A, clock: Clock, folded: u64, given: Option<GivenClocks>) -> Timekeeper<A>
        requires counted { folded ≤ counted_most }
        requires starts { AreClocks clock → IsStart (began_with given) (folded_opening folded clock) }
        ensures began { result.began ≡ began_with given }
        ensures journal { result.journal ≡ journal_from folded clock [] }
        ensures spare { result.spare ≡ 0 }
        ensures clocks { state_of result.journal ≡ clock }
    {
        // the contract of `frequency` says that the clocks run
        let _ = clock.frequency();
        Timekeeper {
            start: clock,
            folded,
            entries: Ring::new(alloc),
            kept: Ring::new(alloc),
            clock,
            given,
        }
    }
}
