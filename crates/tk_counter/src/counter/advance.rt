ghost use Rattle.std.specs.Prelude.{◌≡◌, ℕ, ◌+◌, ◌*◌, ◌/◌, ◌%◌, ◌^◌, ◌<◌, ◌≤◌, MatchOption, SomeIff};

use super::{CounterDesc, NANOS_PER_SECOND};

/// The number of seconds at which `advance` returns `None`: the most that 63 bits of nanoseconds
/// can represent (`KTIME_SEC_MAX`). No clock reaches it.
pub const SECONDS_END: u64 = 9_223_372_036;

impl CounterDesc {
    ghost use Rattle.tk_counter.specs.Counter.{second, seconds_end};

    /// Splits `frac` plus `delta` cycles at `mult` into whole seconds and the rest, which is below
    /// a second, in units of `2^-shift` ns. `frac` must be below a second in these units.
    ///
    /// The result is exact for every `delta`. It is `None` exactly if there would be 9,223,372,036
    /// seconds or more. If the product fits in 64 bits, at most one division is needed, and none
    /// below two seconds.
    pub fn advance(&self, frac: u64, delta: u64, mult: u32) -> Option<(u64, u64)>
        requires { frac < second self.now }
        ensures { let units = frac + delta * mult in
            SomeIff result (units / second self.now < seconds_end)
            (units / second self.now, units % second self.now) }
    {
        let (seconds, rest) = match narrow_units(frac, delta, mult) {
            Some(units) => self.split(units),
            None => self.split_long(frac, delta, mult)?,
        };
        if seconds >= SECONDS_END {
            return None;
        }
        Some((seconds, rest))
    }

    /// Splits an amount into whole seconds and the rest.
    fn split(&self, units: u64) -> (u64, u64)
        ensures value { result ≡ (units / second self.now, units % second self.now) }
        ensures few { result.0 ≤ 18446744073 }
    {
        let second = self.second();
        if units < second {
            return (0, units);
        }
        if units - second < second {
            return (1, units - second);
        }
        let seconds = self.seconds_of(units);
        (seconds, units - seconds * second)
    }

    /// Returns the whole seconds of an amount.
    fn seconds_of(&self, units: u64) -> u64
        ensures { result ≡ units / second self.now }
    {
        (units >> self.shift) / NANOS_PER_SECOND
    }

    /// Computes `advance` for units that don't fit in 64 bits. It divides the upper half of
    /// `delta`, its lower half, and then the sum of both remainders.
    ///
    /// A second is `10^9 * 2^shift` units, and `2^32` units of the upper half are `2^(32 - shift)`
    /// seconds per nanosecond:
    ///
    /// ```text
    /// upper * 2^32 = (upper / 10^9) * 2^(32 - shift) * second + (upper % 10^9) * 2^32
    /// ```
    #[inline(never)]
    fn split_long(&self, frac: u64, delta: u64, mult: u32) -> Option<(u64, u64)>
        requires { frac < second self.now }
        ensures { let units = frac + delta * mult in
            MatchOption result
            (seconds_end ≤ units / second self.now)
            (λ parts. parts ≡ (units / second self.now, units % second self.now)) }
    {
        let cycle = u64::from(mult);
        let upper = (delta >> 32) * cycle;
        let lower = (delta & 0xffff_ffff) * cycle;
        let upper_seconds = upper / NANOS_PER_SECOND;
        let upper_rest = upper % NANOS_PER_SECOND;
        if upper_seconds >> self.shift >= 4 {
            return None;
        }
        let (lower_seconds, lower_rest) = self.split(lower);
        let (more_seconds, rest) = self.split((upper_rest << 32) + lower_rest + frac);
        let seconds = (upper_seconds << (32 - self.shift)) + lower_seconds + more_seconds;
        Some((seconds, rest))
    }
}

/// Returns `frac` plus `delta` cycles at `mult`, if the sum fits in 64 bits.
fn narrow_units(frac: u64, delta: u64, mult: u32) -> Option<u64>
    ensures { SomeIff result (frac + delta * mult < 2 ^ 64) (frac + delta * mult) }
{
    delta.checked_mul(u64::from(mult))?.checked_add(frac)
}
