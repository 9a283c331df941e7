//! Describes clocks that are updated in equal steps, and numbers of their snapshots.
use tk_clock::Snapshot;

/// The cycles between two commands, each a nanosecond.
pub const STEP: u64 = 1_000;

/// Returns the reading of the command with a number, in cycles: `number * STEP`. It isn't reduced
/// to the 32 bits of the counter.
pub fn reading_of(number: u64) -> u64 {
    number.wrapping_mul(STEP)
}

/// Returns a number computed from all ten words of a snapshot. It is the same after every update,
/// because an update is one step later than the update before it. Words mixed from two snapshots
/// usually give another number.
///
/// Neighbouring words get different operations. Otherwise the compiler would load two of them at
/// once, which waits until both have left the processor's store buffer.
#[inline(always)]
pub fn weight(snapshot: &Snapshot) -> u64 {
    let steps = snapshot.last().wrapping_sub(reading_of(snapshot.front()));
    let parts = snapshot.frac() ^ snapshot.raw_frac();
    let seconds = snapshot.sec().wrapping_sub(snapshot.raw_sec());
    let offsets = snapshot.real_offset() ^ snapshot.boot_offset();
    steps
        .wrapping_add(parts)
        .wrapping_add(seconds)
        .wrapping_add(u64::from(snapshot.mult()))
        .wrapping_add(offsets)
        .wrapping_add(u64::from(snapshot.tai()))
}

/// Returns a number computed from the ten words of a snapshot and their places.
pub fn weighed(snapshot: &Snapshot) -> u64 {
    let mut sum = 0u64;
    for word in snapshot.words() {
        sum = sum.wrapping_mul(31).wrapping_add(word);
    }
    sum
}
