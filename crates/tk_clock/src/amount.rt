ghost use Rattle.std.specs.Prelude.{◌≡◌, ℕ, ◌+◌, ◌*◌, ◌/◌, ◌^◌, ◌<◌, ◌≤◌, MatchOption};
ghost use Rattle.tk_counter.specs.Counter.{second};
ghost use Rattle.tk_clock.specs.Amount.{IsNanos};
ghost use Rattle.tk_clock.specs.Limits.{clock_end, raw_end};

mod rescaling;

use tk_counter::{CounterDesc, NANOS_PER_SECOND};

/// Replaces an amount of ns that doesn't fit in 63 bits. All such amounts are beyond every clock's
/// limit. It is not 2^63, because LLVM would keep that in a register and compute the limits from
/// it.
const TOO_MANY_NANOS: u64 = 3 << 62;

/// Bounds the cycles whose units fit in 64 bits at any multiplier: fewer cycles add less than 2^63
/// units.
pub(crate) const NARROW_CYCLES: u64 = 1 << 31;

/// Represents an amount of time: whole seconds, and the part below a second in units of `2^-shift`
/// ns.
#[repr(C)]
#[derive(Clone, Copy, Debug, PartialEq, Eq)]
pub(crate) struct Amount {
    /// Whole seconds.
    pub sec: u64,
    /// The part below a second, in units of `2^-shift` ns.
    pub frac: u64,
}

impl Amount {
    ghost use Rattle.tk_clock.specs.Amount.{units_of};

    /// Returns the amount 0.
    pub fn zero() -> Amount
        ensures { result ≡ record { sec = 0; frac = 0 } }
    {
        Amount { sec: 0, frac: 0 }
    }

    /// Returns the amount plus `cycles` at `mult`. Nothing below a nanosecond is lost. Returns
    /// `None` if `frac` and the cycles last 9,223,372,036 s or longer, which is beyond every
    /// clock's limit.
    pub fn grown(self, desc: &CounterDesc, cycles: u64, mult: u32) -> Option<Amount>
        requires rest { self.frac < second desc.now }
        requires few { self.sec ≤ raw_end }
        ensures { let units = units_of desc.now self + cycles * mult in
            MatchOption result
            (clock_end * second desc.now ≤ units)
            (λ amount. (units_of desc.now amount ≡ units) × (amount.frac < second desc.now)
            × (amount.sec < self.sec + clock_end)) }
    {
        let (seconds, frac) = desc.advance(self.frac, cycles, mult)?;
        Some(Amount {
            sec: self.sec + seconds,
            frac,
        })
    }

    /// Returns the result of `grown` for fewer than 2^31 cycles. Returns `None` if `frac` and the
    /// cycles last two seconds or longer.
    pub fn grown_soon(self, desc: &CounterDesc, cycles: u64, mult: u32) -> Option<Amount>
        requires rest { self.frac < second desc.now }
        requires few { self.sec ≤ raw_end }
        requires narrow { cycles < 2 ^ 31 }
        ensures { let units = units_of desc.now self + cycles * mult in
            MatchOption result
            (2 * second desc.now ≤ self.frac + cycles * mult)
            (λ amount. (units_of desc.now amount ≡ units) × (amount.frac < second desc.now)
            × (amount.sec < self.sec + clock_end)) }
    {
        let second = desc.second();
        let units = few_units(self.frac, cycles, mult);
        if units < second {
            return Some(Amount {
                sec: self.sec,
                frac: units,
            });
        }
        if units - second < second {
            return Some(Amount {
                sec: self.sec + 1,
                frac: units - second,
            });
        }
        None
    }

    /// Returns the amount in units of `2^-shift` ns.
    pub fn units(self, desc: &CounterDesc) -> u128
        requires rest { self.frac < second desc.now }
        requires few { self.sec ≤ raw_end }
        ensures value { result ≡ units_of desc.now self }
        ensures low { result < 2 ^ 93 }
    {
        u128::from(self.sec) * u128::from(desc.second()) + u128::from(self.frac)
    }

    /// Returns the amount in whole nanoseconds, rounded down.
    pub fn nanos(self, desc: &CounterDesc) -> u64
        requires rest { self.frac < second desc.now }
        requires few { self.sec ≤ 2 * clock_end }
        ensures { result ≡ units_of desc.now self / 2 ^ desc.now.shift }
    {
        self.sec * NANOS_PER_SECOND + (self.frac >> desc.shift())
    }

    /// Returns the amount plus `cycles` at `mult`, in whole nanoseconds. If that is 2^63 ns or
    /// more, which is beyond every clock's limit, the result may be a different number of at least
    /// 2^63.
    pub fn nanos_after(self, desc: &CounterDesc, cycles: u64, mult: u32) -> u64
        requires rest { self.frac < second desc.now }
        requires few { self.sec ≤ raw_end }
        ensures { IsNanos result
            ((units_of desc.now self + cycles * mult) / 2 ^ desc.now.shift) }
    {
        self.sec * NANOS_PER_SECOND + gained_nanos(self.frac, cycles, mult, desc.shift())
    }
}

/// Returns `frac` plus `cycles` at `mult`, in whole ns. If that doesn't fit in 63 bits, the result
/// may be a different number that doesn't either.
fn gained_nanos(frac: u64, cycles: u64, mult: u32, shift: u32) -> u64
    requires rest { frac < 2 ^ 62 }
    requires shift { shift ≤ 32 }
    ensures stated { IsNanos result ((frac + cycles * mult) / 2 ^ shift) }
    ensures most { result ≤ 139 * 10 ^ 17 }
{
    if cycles < NARROW_CYCLES {
        return few_units(frac, cycles, mult) >> shift;
    }
    // one product of 128 bits takes fewer instructions than two of 64 bits
    let units = u128::from(cycles) * u128::from(mult) + u128::from(frac);
    if ((units >> 63) as u64) >> shift != 0 {
        return TOO_MANY_NANOS;
    }
    // `% 64` lets LLVM leave out the test for greater shifts
    (units >> (shift % 64)) as u64
}

/// Returns `frac` plus `cycles` at `mult`, in units. For fewer than 2^31 cycles the result fits in
/// 64 bits.
fn few_units(frac: u64, cycles: u64, mult: u32) -> u64
    requires rest { frac < 2 ^ 62 }
    requires narrow { cycles < 2 ^ 31 }
    ensures value { result ≡ frac + cycles * mult }
    ensures low { result < 2 ^ 62 + 2 ^ 63 }
{
    frac + cycles * u64::from(mult)
}
