ghost use Rattle.std.specs.Prelude.{◌≡◌, ◌<◌, ◌≤◌};
ghost use Rattle.tk_counter.specs.Counter.{second};
ghost use Rattle.tk_clock.specs.Amount.{IsNanos};
ghost use Rattle.tk_clock.specs.Limits.{raw_end};
ghost use Rattle.tk_clock.specs.Origin.{line_after};

use crate::amount::Amount;
use tk_counter::CounterDesc;

/// Describes a clock between two commands, as a straight line over the cycles after the first one.
///
/// `cycles` cycles after the command the clock is at `sec * 10^9 + offset` ns, plus
/// `frac + cycles * mult` in units of `2^-shift` ns, rounded down.
#[derive(Clone, Copy, Debug)]
pub struct Origin {
    /// The time that the clock counts up to the command, without its offset: whole seconds.
    pub sec: u64,
    /// The part of this time below a second, in `2^-shift` ns.
    pub frac: u64,
    /// The amount that a cycle adds, in `2^-shift` ns: 0 for a coarse clock, and while asleep.
    pub mult: u32,
    /// The clock minus the time that it counts, in ns.
    pub offset: u64,
    /// The clock's limit, in ns: a read returns only times below it.
    pub limit: u64,
}

impl Origin {
    /// Returns the line with another offset, in ns.
    #[inline(always)]
    pub(crate) fn with_offset(self, offset: u64) -> Origin
        ensures { result ≡ record self { offset = offset } }
    {
        Origin { offset, ..self }
    }

    /// Returns the line of a clock that keeps its value until the next command.
    #[inline(always)]
    pub(crate) fn held(self) -> Origin
        ensures { result ≡ record self { mult = 0 } }
    {
        Origin { mult: 0, ..self }
    }

    /// Returns the time that the clock counts up to the command.
    #[inline(always)]
    pub(crate) fn amount(self) -> Amount
        ensures { result ≡ record { sec = self.sec; frac = self.frac } }
    {
        Amount {
            sec: self.sec,
            frac: self.frac,
        }
    }

    /// Returns the clock after a number of cycles, in ns. If that is 2^63 ns or more, which is
    /// beyond every clock's limit, the result may be a different number of at least 2^63.
    #[inline(always)]
    pub(crate) fn nanos_after(self, desc: &CounterDesc, cycles: u64) -> u64
        requires rest { self.frac < second desc.now }
        requires few { self.sec ≤ raw_end }
        ensures { IsNanos result (line_after desc.now self cycles) }
    {
        self.amount()
            .nanos_after(desc, cycles, self.mult)
            .saturating_add(self.offset)
    }
}
