use std::sync::atomic::{AtomicU64, Ordering};
use tk_clock::Timespec;

/// Returns a clock's time in nanoseconds.
pub fn nanoseconds(time: Timespec) -> u64 {
    let seconds = time.sec.unsigned_abs().wrapping_mul(1_000_000_000);
    seconds.wrapping_add(u64::from(time.nsec))
}

/// Counts the answers of threads that ask for the same clock and are below an earlier answer of any
/// thread.
#[derive(Drop)]
pub struct RisingTimes {
    /// The greatest answer of any thread, in nanoseconds.
    greatest: AtomicU64,
    /// The number of answers below an earlier one, plus the number of other faults.
    faults: AtomicU64,
}

impl RisingTimes {
    /// Starts with no answer and no fault.
    pub fn new() -> RisingTimes {
        RisingTimes {
            greatest: AtomicU64::new(0),
            faults: AtomicU64::new(0),
        }
    }

    /// Returns the greatest answer so far, in nanoseconds. A thread calls it before it asks.
    pub fn greatest(&self) -> u64 {
        self.greatest.load(Ordering::SeqCst)
    }

    /// Records an answer. It is a fault if it is below `before`, the greatest answer when the
    /// thread asked.
    pub fn note(&self, before: u64, time: Timespec) {
        let answer = nanoseconds(time);
        if answer < before {
            self.fail();
        }
        self.greatest.fetch_max(answer, Ordering::SeqCst);
    }

    /// Records another fault.
    pub fn fail(&self) {
        self.faults.fetch_add(1, Ordering::SeqCst);
    }

    /// Returns the number of faults.
    pub fn faults(&self) -> u64 {
        self.faults.load(Ordering::SeqCst)
    }
}
