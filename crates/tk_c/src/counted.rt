ghost use Rattle.std.specs.Prelude.{◌≡◌, ◌<◌};
ghost use Rattle.tk_clock.specs.Limits.{counted_most};
ghost use Rattle.tk_c.specs.Codes.{number_of};
ghost use Rattle.tk_c.specs.CallResults.{code_of_call, counted_after};

use crate::code::Code;
use tk_clock::{COUNTED_LIMIT, Clock, Clocks, Entry, Refusal};

/// Holds running clocks and the number of commands that they accepted: `struct tkc_clock` in C.
#[repr(C)]
#[derive(Clone, Copy)]
pub struct CountedClock {
    /// The clocks.
    pub clock: Clock,
    /// The number of accepted commands, at most 2^63 - 1 in clocks that these calls change.
    pub front: u64,
}

/// The front counts each accepted command. There is room for commands if it stays at most
/// 2^63 - 1, and otherwise `ready` returns `Refusal::Full`.
impl Clocks for CountedClock {
    ghost use Rattle.tk_c.specs.Room.{HasCounted, HasRoom, IsShort, clocks_of};
    ghost use Rattle.tk_c.specs.Counting.{joins as joins_in, needs_less as needs_less_in, stays as stays_in};

    ghost state = { clocks_of };

    ghost is_after = { HasCounted };

    ghost has_room = { HasRoom };

    ghost is_short = { IsShort };

    ghost stays = { stays_in };

    ghost needs_less = { needs_less_in };

    ghost joins = { joins_in };

    #[inline(always)]
    fn clock(&self) -> &Clock {
        &self.clock
    }

    #[inline(always)]
    fn is_ready(&self, count: usize) -> bool {
        self.front <= COUNTED_LIMIT - count as u64
    }

    #[inline(always)]
    fn ready(&mut self, count: usize) -> Result<(), Refusal> {
        if self.is_ready(count) {
            return Ok(());
        }
        Err(Refusal::Full)
    }

    #[inline(always)]
    fn give(&mut self, entry: Entry) -> Result<(), Refusal> {
        self.clock.apply(entry.reading, entry.cmd)?;
        self.front += 1;
        Ok(())
    }
}

/// Counts a call if it was accepted, and returns its code.
#[inline(always)]
pub(crate) fn count(front: &mut u64, called: Result<(), Refusal>) -> u32
    requires { front.old < counted_most }
    ensures code { result ≡ number_of (code_of_call called) }
    ensures count { front.new ≡ counted_after called front.old }
{
    match called {
        Ok(()) => {
            *front += 1;
            Code::Done.number()
        }
        Err(refusal) => Code::from(refusal).number(),
    }
}
