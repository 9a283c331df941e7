//! Converts an amount to the units of another counter.
ghost use Rattle.std.specs.Prelude.{◌≡◌, ◌*◌, ◌/◌, ◌^◌, ◌<◌, ◌≤◌};
ghost use Rattle.tk_counter.specs.Counter.{second};
ghost use Rattle.tk_clock.specs.Amount.{units_of};
ghost use Rattle.tk_clock.specs.ChangeCounter.{rescaled};

use super::Amount;
use tk_counter::CounterDesc;

impl Amount {
    /// Converts an amount in units of the counter `from` to units of the counter `to`.
    ///
    /// It is exact if the shift of `to` is not smaller. Otherwise it is rounded down, by less than
    /// one new unit, which is at most a nanosecond.
    pub fn rescaled(self, from: &CounterDesc, to: &CounterDesc) -> Amount
        requires { self.frac < second from.now }
        ensures sec { result.sec ≡ self.sec }
        ensures frac { result.frac < second to.now }
        ensures units { units_of to.now result
            ≡ rescaled from.now.shift to.now.shift (units_of from.now self) }
    {
        Amount {
            sec: self.sec,
            frac: rescaled_units(self.frac, from.shift(), to.shift()),
        }
    }
}

/// Converts an amount below a second from units of `2^-from` ns to units of `2^-to` ns, rounded
/// down.
fn rescaled_units(frac: u64, from: u32, to: u32) -> u64
    requires rest { frac < 10 ^ 9 * 2 ^ from }
    requires from { from ≤ 32 }
    requires to { to ≤ 32 }
    ensures value { result ≡ rescaled from to frac }
    ensures low { result < 10 ^ 9 * 2 ^ to }
{
    if from <= to {
        frac << (to - from)
    } else {
        frac >> (from - to)
    }
}
