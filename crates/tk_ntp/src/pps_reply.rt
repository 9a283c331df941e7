use crate::reply::TimeState;

/// Represents the part of a reply that shows a signal of a pulse per second.
#[derive(Clone, Copy, Debug, PartialEq, Eq)]
pub struct PpsReply {
    /// Says what the leap second is doing, or that the clock can't be relied on: because of the
    /// signal too.
    pub state: TimeState,
    /// Contains the signal's frequency, in `2^-16` ppm.
    pub ppsfreq: i64,
    /// Contains the mean jitter, in nanoseconds or microseconds.
    pub jitter: i64,
    /// Contains the length of an interval: `2^shift` seconds.
    pub shift: u32,
    /// Contains the mean change of the frequency, in `2^-16` ppm.
    pub stabil: i64,
    /// Counts the pulses whose jitter was above its limit.
    pub jitcnt: i64,
    /// Counts the intervals.
    pub calcnt: i64,
    /// Counts the intervals that were too long.
    pub errcnt: i64,
    /// Counts the intervals after which the frequency changed by more than its limit.
    pub stbcnt: i64,
}
