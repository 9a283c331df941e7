ghost use Rattle.std.specs.Prelude.{◌≡◌, ℕ, ◌+◌, ◌*◌, ◌/◌, ◌≤◌, pos, ◌+ℤ◌, ◌*ℤ◌, ◌≤ℤ◌, unsigned_abs};
ghost use Rattle.tk_counter.specs.Counter.{clamped, least_tick, greatest_tick};

use super::CounterDesc;

/// The usual tick, in microseconds: a hundredth of a second (`USER_TICK_USEC`).
pub const USUAL_TICK: i64 = 10_000;

/// The greatest frequency that takes effect, in `2^-16` ppm: 500 ppm (adjtimex(2),
/// `MAXFREQ_SCALED`).
pub const FREQUENCY_LIMIT: i64 = 32_768_000;

impl CounterDesc {
    ghost use Rattle.tk_counter.specs.Counter.{fastest, multiplier, usual_tick};

    /// Returns the multiplier at a frequency, in `2^-16` ppm, and the usual tick of 10,000
    /// microseconds.
    ///
    /// A frequency above 32,768,000 or below -32,768,000 counts as that limit, as in adjtimex(2).
    /// The call is for programs that steer only by the frequency; the clocks call `mult_at`.
    pub fn mult_for(&self, freq: i64) -> u32
        ensures value { result ≡ multiplier self.now freq usual_tick }
        ensures most { result ≤ fastest self.now }
    {
        self.mult_at(freq, USUAL_TICK)
    }

    /// Returns the multiplier at a frequency, in `2^-16` ppm, and a tick, in microseconds, 9,000 to
    /// 11,000.
    ///
    /// The multiplier is rounded down. A frequency above 32,768,000 or below -32,768,000 counts as
    /// that limit, as in adjtimex(2).
    pub fn mult_at(&self, freq: i64, tick: i64) -> u32
        requires slowest { least_tick ≤ℤ tick }
        requires fastest { tick ≤ℤ greatest_tick }
        ensures value { result ≡ multiplier self.now freq tick }
        ensures most { result ≤ fastest self.now }
    {
        let mult = u64::from(self.mult);
        let rate = rate(freq, tick);
        // the product by 2^-16, of the rate's upper part and of its lower 16 bits
        let scaled = mult * (rate >> 16) + (mult * (rate & 0xffff) >> 16);
        (scaled / 1_000_000) as u32
    }
}

/// Returns the rate at a frequency and a tick. The usual rate is 65,536,000,000.
fn rate(freq: i64, tick: i64) -> u64
    requires slowest { least_tick ≤ℤ tick }
    requires fastest { tick ≤ℤ greatest_tick }
    ensures value { result ≡ unsigned_abs (tick *ℤ pos 6553600 +ℤ clamped freq) }
    ensures most { result ≤ 72122368000 }
{
    (rate_of_tick(tick) + freq.clamp(-FREQUENCY_LIMIT, FREQUENCY_LIMIT)) as u64
}

/// Returns the rate at a tick, with the frequency 0.
fn rate_of_tick(tick: i64) -> i64
    requires slowest { least_tick ≤ℤ tick }
    requires fastest { tick ≤ℤ greatest_tick }
    ensures value { result ≡ tick *ℤ pos 6553600 }
    ensures least { pos 58982400000 ≤ℤ result }
    ensures most { result ≤ℤ pos 72089600000 }
{
    tick * 6_553_600
}
