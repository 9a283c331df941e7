ghost use Rattle.std.specs.Prelude.{◌≡◌};
ghost use Rattle.tk_clock.specs.Journal.{accepted_count};
ghost use Rattle.tk_clock.specs.State.{state_of};
ghost use Rattle.tk_report.specs.Began.{began_by};
ghost use Rattle.tk_report.specs.Beginnings.{start_of};
ghost use Rattle.tk_script.specs.Start.{IsOpenable, journal_at};

use std::alloc::Allocator;
use tk_clock::Clock;
use tk_keeper::Timekeeper;
use tk_script::Opening;

/// Says how clocks begin that no discipline steers.
#[derive(Clone, Copy)]
pub enum PlainStart {
    Opened(Opening),
    Running { clock: Clock, front: u64 },
}

impl PlainStart {
    /// Returns the clocks, and the number of commands that they have accepted.
    pub(crate) fn clocks(self) -> (Clock, u64)
        requires { IsOpenable (start_of self) }
        ensures clock { result.0 ≡ state_of (journal_at (start_of self)) }
        ensures count { result.1 ≡ accepted_count (journal_at (start_of self)) }
    {
        match self {
            PlainStart::Opened(opening) => {
                let clock = Clock::open(opening.desc, opening.reading, opening.real).unwrap();
                (clock, 0)
            }
            PlainStart::Running { clock, front } => {
                // the contract of `tick` says that the clocks run
                let _ = clock.tick();
                (clock, front)
            }
        }
    }

    /// Returns the clocks with a journal that has no entries.
    pub(crate) fn keeper<A: Allocator + Copy>(self, alloc: A) -> Timekeeper<A>
        requires { IsOpenable (start_of self) }
        ensures journal { result.journal ≡ journal_at (start_of self) }
        ensures began { result.began ≡ began_by (start_of self) }
    {
        match self {
            PlainStart::Opened(opening) => {
                Timekeeper::open(alloc, opening.desc, opening.reading, opening.real).unwrap()
            }
            PlainStart::Running { clock, front } => {
                Timekeeper::open_from(alloc, clock, front).unwrap()
            }
        }
    }
}
