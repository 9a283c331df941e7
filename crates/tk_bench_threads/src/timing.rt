//! Times calls, and runs them while another thread changes what they read.
use std::sync::atomic::{AtomicBool, Ordering};
use std::thread::{self, Threads};
use std::time::{Clock as Hours, Instant};
use tk_test_support::Turn;

/// Times calls that do `count` operations and return their check. Returns `None` if the host's
/// clock fails.
pub fn timed<T, R>(rt: &R, count: u64, calls: T) -> Option<Turn>
where
    T: FnOnce() -> u64,
    R: Hours,
    requires { T.IsAlwaysCallable calls }
{
    let start = Instant::now(rt).ok()?;
    let check = calls();
    let time = start.elapsed(rt).ok()?;
    Some(Turn { time, count, check })
}

/// Does `calls` in one thread, and `changes` in another. The word that `changes` gets is set once
/// the calls are done.
pub fn at_once<A, C, T, R>(rt: &R, changes: C, calls: T) -> A
where
    C: FnOnce(&AtomicBool) + Send,
    T: FnOnce() -> A,
    R: Threads,
    requires changes { C.IsAlwaysCallable changes }
    requires calls { T.IsAlwaysCallable calls }
{
    let enough = AtomicBool::new(false);
    let stop = &enough;
    let (_, answer) = thread::join(
        rt,
        move || changes(stop),
        move || {
            let answer = calls();
            stop.store(true, Ordering::SeqCst);
            answer
        },
    );
    answer
}
