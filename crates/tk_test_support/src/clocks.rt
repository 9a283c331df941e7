//! Describes the clocks that most tests and benchmarks open.
use tk_clock::{ClockId, Timespec};
use tk_counter::{CounterDesc, DescError};

/// REALTIME at the opening.
pub const OPENED_TIME: Timespec = Timespec {
    sec: 1_700_000_000,
    nsec: 0,
};

/// The same time in nanoseconds.
pub const OPENED_REAL: u64 = 1_700_000_000_000_000_000;

/// The words of the snapshot at the opening, of `nanosecond_counter` at the reading 0.
pub const OPENED_WORDS: [u64; 10] = [0, 0, 16_777_216, 0, 0, OPENED_REAL, 0, 0, 0, 0];

/// All clocks.
pub const CLOCKS: [ClockId; 7] = [
    ClockId::Realtime,
    ClockId::Monotonic,
    ClockId::Boottime,
    ClockId::Tai,
    ClockId::RealtimeCoarse,
    ClockId::MonotonicCoarse,
    ClockId::MonotonicRaw,
];

/// Returns the description of a 32-bit counter of one nanosecond a cycle.
///
/// # Errors
///
/// Returns the fault of these numbers, which never happens.
pub fn nanosecond_counter() -> Result<CounterDesc, DescError> {
    CounterDesc::new(32, 16_777_216, 24)
}
