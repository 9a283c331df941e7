/// Names a clock, as clock_gettime(2) does.
///
/// A coarse clock keeps its value at the last accepted command until the next one.
#[derive(Clone, Copy, Debug, PartialEq, Eq)]
pub enum ClockId {
    /// Counts the time since 1970. It may be set and stepped.
    Realtime,
    /// Counts the time since opening. No accepted command moves it back, and it doesn't advance
    /// while the clocks are asleep.
    Monotonic,
    /// Counts MONOTONIC plus all suspensions.
    Boottime,
    /// Counts REALTIME plus the TAI offset.
    Tai,
    /// Keeps REALTIME at the last command.
    RealtimeCoarse,
    /// Keeps MONOTONIC at the last command.
    MonotonicCoarse,
    /// Counts the awake cycles at the counter's own rate, which no frequency or tick changes.
    MonotonicRaw,
}
