//! Finds the frequency and the tick that make a second as long as it is asked for.
ghost use Rattle.std.specs.Prelude.{◌≡◌, ◌+◌, ◌*◌, ◌/◌, ◌≤◌, pos, ◌-ℤ◌, ◌≤ℤ◌};
ghost use Rattle.tk_counter.specs.Counter.{Counter, multiplier, least_tick, greatest_tick};
ghost use Rattle.tk_ntp.specs.Rate.{tick_rate, frequency_limit, least_rate, greatest_rate, rate_of, is_reached, tick_for, rate_for, IsInRange, IsGiven, IsNearUsual};

use crate::request::FREQUENCY_UNIT;
use tk_counter::FREQUENCY_LIMIT;

/// Says how fast a clock runs: by a frequency and a tick, as the commands of the clocks take them.
#[derive(Clone, Copy, Debug, PartialEq, Eq)]
pub struct Rate {
    /// Contains the frequency, in `2^-16` ppm, within ±32,768,000.
    pub frequency: i64,
    /// Contains the tick, in microseconds, 9,000 to 11,000.
    pub tick: i64,
}

/// The rate of a tick of one microsecond, in `2^-16` ppm.
const TICK_RATE: u64 = 6_553_600;

/// The most that a frequency adds to a rate or takes from it, in `2^-16` ppm.
const FREQUENCY_RANGE: u64 = FREQUENCY_LIMIT as u64;

/// The shortest and the longest tick, in microseconds.
const SHORTEST_TICK: u64 = 9_000;

const LONGEST_TICK: u64 = 11_000;

/// The least and the greatest rate that a tick and a frequency give, in `2^-16` ppm.
const LEAST_RATE: i64 = 58_949_632_000;

const GREATEST_RATE: i64 = 72_122_368_000;

impl Rate {
    /// Returns the rate that makes a second so long, in `2^-32` ns, by a tick that was asked for,
    /// in microseconds, 9,000 to 11,000.
    ///
    /// The rate is rounded down to `2^-16` ppm, and clamped to 10.05 percent of the usual one. The
    /// tick is the one that was asked for if a frequency brings it there, otherwise the nearest.
    pub fn of_length(length: i64, tick: u32) -> Rate
        requires slowest { 9000 ≤ tick }
        requires fastest { tick ≤ 11000 }
        ensures value { result ≡ rate_for length tick }
        ensures slowest { least_tick ≤ℤ result.tick }
        ensures fastest { result.tick ≤ℤ greatest_tick }
        ensures multiplier { (counter : Counter) →
            multiplier counter result.frequency result.tick
            ≡ counter.mult * rate_of length / 65536000000 }
        ensures given { (counter : Counter) → IsInRange length →
            IsGiven counter length (multiplier counter result.frequency result.tick) }
        ensures near { (counter : Counter) →
            IsNearUsual counter (multiplier counter result.frequency result.tick) }
    {
        let rate = rate_of(length);
        let tick = tick_for(rate, tick);
        Rate {
            frequency: frequency_for(rate, tick),
            tick: i64::from(tick),
        }
    }
}

/// Returns the rate, in `2^-16` ppm, that makes a second so long. The usual one is 65,536,000,000.
fn rate_of(length: i64) -> u64
    ensures value { result ≡ rate_of length }
    ensures least { least_rate ≤ result }
    ensures most { result ≤ greatest_rate }
{
    length
        .div_euclid(FREQUENCY_UNIT)
        .clamp(LEAST_RATE, GREATEST_RATE) as u64
}

/// Returns the tick for a rate, in microseconds.
fn tick_for(rate: u64, tick: u32) -> u32
    requires least { least_rate ≤ rate }
    requires most { rate ≤ greatest_rate }
    requires slowest { 9000 ≤ tick }
    requires fastest { tick ≤ 11000 }
    ensures value { result ≡ tick_for rate tick }
    ensures slowest { 9000 ≤ result }
    ensures fastest { result ≤ 11000 }
    ensures above { rate ≤ result * tick_rate + frequency_limit }
    ensures below { result * tick_rate ≤ rate + frequency_limit }
{
    if is_reached(rate, tick) {
        tick
    } else {
        ((rate + TICK_RATE / 2) / TICK_RATE).clamp(SHORTEST_TICK, LONGEST_TICK) as u32
    }
}

/// Returns whether a frequency brings a tick, in microseconds, to a rate.
fn is_reached(rate: u64, tick: u32) -> bool
    requires rate { rate ≤ greatest_rate }
    requires tick { tick ≤ 11000 }
    ensures { result ≡ is_reached rate tick }
{
    let usual = u64::from(tick) * TICK_RATE;
    rate <= usual + FREQUENCY_RANGE && usual <= rate + FREQUENCY_RANGE
}

/// Returns the frequency that brings a tick to a rate, in `2^-16` ppm.
fn frequency_for(rate: u64, tick: u32) -> i64
    requires rate { rate ≤ greatest_rate }
    requires tick { tick ≤ 11000 }
    ensures { result ≡ pos rate -ℤ pos (tick * tick_rate) }
{
    rate as i64 - (u64::from(tick) * TICK_RATE) as i64
}
