//! Times commands of a shared keeper by one thread and by four, and concurrent reads.
ghost use Rattle.tk_shared.specs.Opening.{IsNamed};

use crate::keeper::prepared;
use std::alloc::Global;
use std::marker::Brand;
use std::sync::Wait;
use std::sync::atomic::{AtomicU64, Ordering};
use std::thread::{self, Threads};
use std::time::{Clock as Hours, Instant};
use tk_clock::{Command, Snapshot};
use tk_shared::{Caller, Named, Prepared, SharedKeeper, Ticker};
use tk_test_support::{Effort, STEP, Turn, weighed, weight};

/// The number of commands of a full turn, in all threads together.
const COMMANDS: u64 = 300_000;

/// Names the timed work.
#[derive(Clone, Copy)]
pub enum Work {
    OneThread,
    FourThreads,
    ReadsBeside,
    FastReadsBeside,
}

/// Times the work, on a keeper that it opens for five callers. Returns `None` if a call fails.
pub fn turn<R: Threads + Wait + Hours + Sync>(
    rt: &R,
    alloc: Global,
    work: Work,
    effort: Effort,
) -> Option<Turn> {
    let prepared = prepared(rt, alloc, Ticker::new(0, STEP), 5)?;
    worked::<Brand, R>(rt, alloc, prepared, work, effort.of(COMMANDS))
}

/// Opens the prepared keeper, and times the work.
fn worked<L: Named + Send + Sync, R: Threads + Wait + Hours + Sync>(
    rt: &R,
    alloc: Global,
    prepared: Prepared<Ticker>,
    work: Work,
    commands: u64,
) -> Option<Turn>
    requires named { IsNamed prepared L.page L.latch L.notice L.name L.parts L.callers }
{
    match SharedKeeper::<L, Ticker>::open(alloc, prepared) {
        Ok((keeper, mut callers)) => { timed(rt, &keeper, callers.as_mut_slice(), work, commands) }
        Err(_) => None,
    }
}

/// Times the work of the last caller, and of the others.
fn timed<L: Named + Send + Sync, R: Threads + Wait + Hours + Sync>(
    rt: &R,
    keeper: &SharedKeeper<L, Ticker>,
    callers: &mut [Caller<L>],
    work: Work,
    commands: u64,
) -> Option<Turn> {
    let (caller, others) = callers.split_last_mut()?;
    let start = Instant::now(rt).ok()?;
    let done = done_by(rt, keeper, caller, others, work, commands);
    let time = start.elapsed(rt).ok()?;
    let last = read_by(rt, keeper, caller);
    Some(Turn {
        time,
        count: done.count,
        check: weighed(&last).wrapping_add(done.off(weight(&last))),
    })
}

/// Does the work.
fn done_by<L: Named + Send + Sync, R: Threads + Wait + Sync>(
    rt: &R,
    keeper: &SharedKeeper<L, Ticker>,
    caller: &mut Caller<L>,
    others: &mut [Caller<L>],
    work: Work,
    commands: u64,
) -> Done {
    match work {
        Work::OneThread => {
            gives(rt, keeper, caller, commands);
            Done::commands(commands)
        }
        Work::FourThreads => {
            quarters(rt, keeper, others, commands, &AtomicU64::new(0));
            Done::commands(commands)
        }
        Work::ReadsBeside => beside(rt, keeper, caller, others, commands, false),
        Work::FastReadsBeside => beside(rt, keeper, caller, others, commands, true),
    }
}

/// Counts the work that was done.
#[derive(Clone, Copy)]
struct Done {
    /// The number of timed operations.
    count: u64,
    /// The sum of the weights of the snapshots that were read.
    sum: u64,
    /// The number of these snapshots.
    read: u64,
}

impl Done {
    /// Returns the counts of `count` commands and no read.
    fn commands(count: u64) -> Done {
        Done {
            count,
            sum: 0,
            read: 0,
        }
    }

    /// Returns the difference between the sum and the sum of the same number of snapshots of the
    /// usual weight: 0 if all snapshots were whole.
    fn off(&self, usual: u64) -> u64 {
        self.sum.wrapping_sub(self.read.wrapping_mul(usual))
    }
}

/// Gives `count` commands.
fn gives<L: Named, R: Wait>(
    rt: &R,
    keeper: &SharedKeeper<L, Ticker>,
    caller: &mut Caller<L>,
    count: u64,
) {
    for _ in 0..count {
        let _ = keeper.command(rt, caller, Command::Update);
    }
}

/// Gives `count` commands by the first caller of a list, and then adds 1 to `ended`.
fn part<L: Named, R: Wait>(
    rt: &R,
    keeper: &SharedKeeper<L, Ticker>,
    callers: &mut [Caller<L>],
    count: u64,
    ended: &AtomicU64,
) {
    if let Some(caller) = callers.first_mut() {
        gives(rt, keeper, caller, count);
    }
    ended.fetch_add(1, Ordering::SeqCst);
}

/// Gives a quarter of the commands in each of two threads.
fn half<L: Named + Send + Sync, R: Threads + Wait + Sync>(
    rt: &R,
    keeper: &SharedKeeper<L, Ticker>,
    callers: &mut [Caller<L>],
    commands: u64,
    ended: &AtomicU64,
) {
    let middle = callers.len() / 2;
    let (one, two) = callers.split_at_mut(middle);
    let _ = thread::join(
        rt,
        move || part(rt, keeper, one, commands / 4, ended),
        move || part(rt, keeper, two, commands / 4, ended),
    );
}

/// Gives a quarter of the commands in a thread for each of four callers.
fn quarters<L: Named + Send + Sync, R: Threads + Wait + Sync>(
    rt: &R,
    keeper: &SharedKeeper<L, Ticker>,
    callers: &mut [Caller<L>],
    commands: u64,
    ended: &AtomicU64,
) {
    let middle = callers.len() / 2;
    let (two, others) = callers.split_at_mut(middle);
    let _ = thread::join(
        rt,
        move || half(rt, keeper, two, commands, ended),
        move || half(rt, keeper, others, commands, ended),
    );
}

/// Reads while four threads give the commands, until these have ended. Returns the counts of the
/// reads.
fn beside<L: Named + Send + Sync, R: Threads + Wait + Sync>(
    rt: &R,
    keeper: &SharedKeeper<L, Ticker>,
    caller: &mut Caller<L>,
    others: &mut [Caller<L>],
    commands: u64,
    is_fast: bool,
) -> Done {
    let ended = AtomicU64::new(0);
    let ended = &ended;
    let (_, done) = thread::join(
        rt,
        move || quarters(rt, keeper, others, commands, ended),
        move || {
            if is_fast {
                reads(rt, keeper, caller, ended, true)
            } else {
                reads(rt, keeper, caller, ended, false)
            }
        },
    );
    done
}

/// The number of reads between two tests of whether the other threads have ended.
const READS_BETWEEN: u64 = 64;

/// Reads by one of the two calls until all four have ended. Only successful reads count.
#[inline(always)]
fn reads<L: Named, R: Wait>(
    rt: &R,
    keeper: &SharedKeeper<L, Ticker>,
    caller: &mut Caller<L>,
    ended: &AtomicU64,
    is_fast: bool,
) -> Done {
    let (mut count, mut sum) = (0u64, 0u64);
    for _ in 0..u64::MAX {
        if ended.load(Ordering::SeqCst) >= 4 {
            break;
        }
        for _ in 0..READS_BETWEEN {
            if let Some(snapshot) = read_once(rt, keeper, caller, is_fast) {
                sum = sum.wrapping_add(weight(&snapshot));
                count = count.wrapping_add(1);
            }
        }
    }
    Done {
        count,
        sum,
        read: count,
    }
}

/// Reads once. Returns `None` if a publication was made during a fast read.
#[inline(always)]
fn read_once<L: Named, R: Wait>(
    rt: &R,
    keeper: &SharedKeeper<L, Ticker>,
    caller: &mut Caller<L>,
    is_fast: bool,
) -> Option<Snapshot> {
    if is_fast {
        keeper.fast_read(caller).ok()
    } else {
        Some(read_by(rt, keeper, caller))
    }
}

/// Reads the page. Its callers need nothing of the read's contract.
#[inline(always)]
fn read_by<L: Named, R: Wait>(
    rt: &R,
    keeper: &SharedKeeper<L, Ticker>,
    caller: &mut Caller<L>,
) -> Snapshot {
    keeper.read(rt, caller)
}
