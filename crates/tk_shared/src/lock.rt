//! How a caller takes the lock.

use std::hint::spin_loop;
use std::sync::{Mutex, MutexGuard, Wait};

/// The number of tries before a thread waits by the lock's own rule, which begins with another try.
const TRIES: u32 = 2;

/// The number of pauses after each of these tries.
const PAUSES: u32 = 1_280;

/// Takes a lock that is held for a shorter time than it takes to sleep and to be woken.
///
/// If the lock is held, it waits for several commands before it tries again. Meanwhile the holder
/// may give more commands with all words of the keeper in its processor's cache. The next holder
/// takes them from there.
pub(crate) fn take<'a, T, R: Wait>(rt: &R, lock: &'a Mutex<T>) -> MutexGuard<'a, T> {
    for _ in 0..TRIES {
        if let Some(guard) = lock.try_lock() {
            return guard;
        }
        for _ in 0..PAUSES {
            spin_loop();
        }
    }
    lock.lock(rt)
}
