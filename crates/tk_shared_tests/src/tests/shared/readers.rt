//! Tests one thread that gives commands while another reads the latch, and then the page.
use super::deeds::{Deed, does};
use super::{assert_same, commanded, glanced, read_by};
use std::process::Abort;
use std::sync::Wait;
use std::sync::atomic::{AtomicU64, Ordering};
use std::thread::{self, Threads, join};
use tk_clock::{Command, Snapshot};
use tk_shared::{Caller, Named, SharedKeeper, Ticker};

/// The number of commands, and the cycles from one to the next.
const COMMANDS: u64 = 100_000;

const STEP: u64 = 1_000;

/// Returns whether this is the snapshot after this number of Updates.
fn is_whole(seen: &Snapshot) -> bool {
    seen.last() == seen.front().wrapping_mul(STEP) & 0xffff_ffff
}

/// Gives all commands. Returns whether all were accepted in order.
fn commands<L: Named, R: Wait>(
    rt: &R,
    keeper: &SharedKeeper<L, Ticker>,
    caller: &mut Caller<L>,
) -> bool {
    let mut is_good = true;
    for number in 1..=COMMANDS {
        is_good = commanded(rt, keeper, caller, Command::Update) == Ok(number) && is_good;
    }
    is_good
}

/// Reads until all commands are given. Returns whether all snapshots were whole, and none was older
/// than one before it, or later than the snapshot that the page showed after it.
fn glances<L: Named, R: Wait>(
    rt: &R,
    keeper: &SharedKeeper<L, Ticker>,
    caller: &mut Caller<L>,
    ended: &AtomicU64,
) -> bool {
    let (mut is_good, mut front) = (true, 0);
    for _ in 0..u64::MAX {
        if ended.load(Ordering::SeqCst) == 1 {
            break;
        }
        match glanced(keeper, caller) {
            Ok(seen) => {
                is_good = is_good && is_whole(&seen) && front <= seen.front();
                front = seen.front();
                is_good = is_good && front <= read_by(rt, keeper, caller).front();
            }
            Err(moved) => is_good = is_good && moved.first < moved.last,
        }
        thread::yield_now();
    }
    is_good && sees_all(rt, keeper, caller)
}

/// Returns whether both reads find the last command after all are given.
fn sees_all<L: Named, R: Wait>(
    rt: &R,
    keeper: &SharedKeeper<L, Ticker>,
    caller: &mut Caller<L>,
) -> bool {
    let Ok(fast) = glanced(keeper, caller) else {
        return false;
    };
    let seen = read_by(rt, keeper, caller);
    let all = (COMMANDS, 100_000_000);
    (fast.front(), fast.last()) == all && (seen.front(), seen.last()) == all
}

#[test]
fn fast_reads_are_whole_while_commands_are_given(rt: HostRuntime) {
    does(&rt, rt.alloc(), Ticker::new(0, STEP), Deed::Glance);
}

pub(super) fn glances_beside<L: Named + Send + Sync, R: Threads + Wait + Abort + Sync>(
    rt: &R,
    keeper: &SharedKeeper<L, Ticker>,
    one: &mut Caller<L>,
    other: &mut Caller<L>,
) {
    let ended = AtomicU64::new(0);
    let flag = &ended;
    let (commanded, read) = join(
        rt,
        move || {
            let is_good = commands(rt, keeper, one);
            flag.store(1, Ordering::SeqCst);
            is_good
        },
        move || glances(rt, keeper, other, flag),
    );
    assert_same(rt, &(commanded, read), &(true, true));
}
