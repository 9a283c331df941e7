//! Makes clocks from a snapshot and a rate, and returns the parts of clocks.
ghost use Rattle.std.specs.Prelude.{◌≡◌, SomeIff};
ghost use Rattle.tk_clock.specs.Running.{IsRunning, AreClocks};

use super::Clock;
use crate::limits::{LONGEST_TICK, SHORTEST_TICK};
use crate::snapshot::Snapshot;

impl Clock {
    /// Makes clocks from a snapshot, a `frequency` in `2^-16` ppm and a `tick` in microseconds. The
    /// front is not kept.
    ///
    /// Returns `None` if running clocks can't be in this state (`IsRunning`, specs/Running.antt):
    ///
    /// - `tick` is below 9,000 or above 11,000;
    /// - the snapshot's multiplier doesn't follow from `frequency` and `tick`;
    /// - MONOTONIC_RAW is further ahead of MONOTONIC than the slowest rate allows.
    pub fn from_snapshot(snapshot: Snapshot, frequency: i64, tick: i64) -> Option<Clock>
        ensures { SomeIff result (IsRunning snapshot.base frequency tick)
            (record { base = snapshot.base; frequency = frequency; tick = tick }) }
    {
        let base = snapshot.base;
        if !(SHORTEST_TICK..=LONGEST_TICK).contains(&tick) {
            return None;
        }
        if base.mult != base.desc.mult_at(frequency, tick) || !base.is_rated() {
            return None;
        }
        Some(Clock {
            base,
            frequency,
            tick,
        })
    }

    /// Returns the frequency in force, in `2^-16` ppm, as it was set. Above 500 ppm or below -500
    /// ppm the clocks run at that limit.
    pub fn frequency(&self) -> i64
        ensures value { result ≡ self.now.frequency }
        ensures clocks { AreClocks self.now }
    {
        self.base.prove_ranges();
        self.frequency
    }

    /// Returns the tick in force, in microseconds, 9,000 to 11,000.
    pub fn tick(&self) -> i64
        ensures value { result ≡ self.now.tick }
        ensures running { IsRunning self.now.base self.now.frequency self.now.tick }
    {
        self.tick
    }
}
