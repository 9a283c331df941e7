//! Computes checks from lists. A check depends on all items and their places.

use tk_clock::Snapshot;

const FACTOR: u64 = 0x0000_0100_0000_01b3;

/// Returns the check of numbers.
pub(crate) fn of_numbers(numbers: &[u64]) -> u64 {
    let mut digest = 0u64;
    for number in numbers {
        digest = (digest ^ *number).wrapping_mul(FACTOR);
    }
    digest
}

/// Returns the check of bytes.
pub(crate) fn of_bytes(bytes: &[u8]) -> u64 {
    let mut digest = 0u64;
    for byte in bytes {
        digest = (digest ^ u64::from(*byte)).wrapping_mul(FACTOR);
    }
    digest
}

/// Returns the check of a snapshot's words.
pub(crate) fn of_snapshot(snapshot: &Snapshot) -> u64 {
    of_numbers(&snapshot.words())
}
