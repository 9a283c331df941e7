use crate::timespec::Timespec;

/// Changes the clocks at a reading. Every command except `Resume` first advances them to its
/// reading.
#[derive(Clone, Copy, Debug, PartialEq, Eq)]
pub enum Command {
    /// Makes no other change (`update_wall_time`).
    Update,
    /// Sets REALTIME at the reading to exactly this time (`do_settimeofday64`). The time is
    /// from 0 s to below 8,277,292,036 s, `nsec` is below 10^9, and it may not be below MONOTONIC.
    SetTime(Timespec),
    /// Moves REALTIME by this amount (`timekeeping_inject_offset`). `sec` may be negative, and
    /// `nsec` is below 10^9. REALTIME must stay at or above MONOTONIC and below 8,277,292,036 s.
    Step(Timespec),
    /// Sets the frequency, in `2^-16` ppm, starting at the reading, and keeps the tick
    /// (adjtimex(2), ADJ_FREQUENCY). A frequency above 500 ppm or below -500 ppm has the effect of
    /// that limit.
    Freq(i64),
    /// Sets the tick, in microseconds, 9,000 to 11,000, starting at the reading, and keeps the
    /// frequency (adjtimex(2), ADJ_TICK).
    Tick(i64),
    /// Sets TAI minus REALTIME, in seconds, 0 to 100,000 (adjtimex(2), ADJ_TAI).
    Tai(i64),
    /// Makes a leap second: moves REALTIME by a second and sets the TAI offset, both at the reading
    /// (`accumulate_nsecs_to_secs`). TAI runs on if `tai` is the offset in force minus `by`.
    /// REALTIME must stay at or above MONOTONIC and below 8,277,292,036 s.
    Leap {
        /// The seconds by which REALTIME moves: -1 inserts a second, 1 deletes one.
        by: i64,
        /// TAI minus REALTIME after the leap, in seconds, 0 to 100,000.
        tai: i64,
    },
    /// Puts the clocks to sleep: no clock advances until `Resume` (`timekeeping_suspend`).
    Suspend,
    /// Wakes the clocks, which count starting at the reading (`timekeeping_resume`). REALTIME and
    /// BOOTTIME, and so TAI, advance by this suspension. It is from 0 s to below 9,223,372,036 s,
    /// and `nsec` is below 10^9.
    Resume(Timespec),
}

/// Records an accepted command in a journal.
#[derive(Clone, Copy, Debug, PartialEq, Eq)]
pub struct Entry {
    /// Identifies the caller that gave the command.
    pub who: u32,
    /// Contains the counter's reading at the command, in cycles.
    pub reading: u64,
    /// Contains the command itself.
    pub cmd: Command,
}
