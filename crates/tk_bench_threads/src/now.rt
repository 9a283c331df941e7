//! Times the time now of a shared keeper: by the page, by the latch, and by the parts of such a
//! call; without commands, and with a thousand commands a second in another thread.
ghost use Rattle.tk_shared.specs.Opening.{IsNamed};

use crate::keeper::prepared;
use crate::timing::at_once;
use std::alloc::Global;
use std::marker::Brand;
use std::sync::Wait;
use std::sync::atomic::{AtomicBool, Ordering};
use std::thread::{self, Threads};
use std::time::{Clock as Hours, Duration, Instant};
use tk_clock::{ClockId, Command, Timespec};
use tk_now::{HostCounter, Look, SharedCounter, SharedTicker};
use tk_shared::{Caller, Counter, Named, Prepared, SharedKeeper, SharedReader};
use tk_test_support::{Effort, Turn, nanoseconds};

/// The number of calls of a full turn.
const CALLS: u64 = 3_000_000;

/// The cycles from one reading of the counter to the next.
const CYCLES: u64 = 10;

/// Names a kind of call.
#[derive(Clone, Copy)]
pub enum Asked {
    /// The time now, by the page.
    Now,
    /// The time now without waiting, by the latch.
    NowFast,
    /// A read of the page, a reading of the counter, and the time at that reading.
    Parts,
}

/// Names the commands that are given during the calls.
#[derive(Clone, Copy)]
pub enum Beside {
    Nothing,
    /// A thousand updates a second, in another thread.
    Updates,
}

/// The calls that are timed.
#[derive(Clone, Copy)]
struct Calls {
    asked: Asked,
    beside: Beside,
    count: u64,
}

/// Adds up answers.
#[derive(Clone, Copy)]
struct Tally {
    sum: u64,
    last: u64,
    /// The number of answers that aren't below the one before.
    kept: u64,
}

impl Tally {
    fn new() -> Tally {
        Tally {
            sum: 0,
            last: 0,
            kept: 0,
        }
    }

    fn add(&mut self, time: Timespec) {
        let nanos = nanoseconds(time);
        if nanos >= self.last {
            self.kept = self.kept.wrapping_add(1);
        }
        self.sum = self.sum.wrapping_add(nanos);
        self.last = nanos;
    }
}

/// Returns the time now without waiting. Calls again after a command in between.
#[inline(always)]
fn fast<L: Named, C: Counter, S: SharedCounter>(
    keeper: &SharedKeeper<L, C>,
    caller: &mut Caller<L>,
    counter: &S,
) -> Option<Timespec> {
    for _ in 0..u64::MAX {
        if let Ok(time) = keeper.now_fast(caller, counter, ClockId::Monotonic) {
            return Some(time);
        }
    }
    None
}

/// Asks for MONOTONIC `count` times, and returns the tally of the answers. `look` is one from
/// before the notice, because the parts announce nothing.
fn asks<L: Named, C: Counter, S: SharedCounter, R: Wait>(
    rt: &R,
    keeper: &SharedKeeper<L, C>,
    caller: &mut Caller<L>,
    counter: &S,
    look: &Look,
    asked: Asked,
    count: u64,
) -> Tally {
    let mut tally = Tally::new();
    for _ in 0..count {
        let time = match asked {
            Asked::Now => now_by(rt, keeper, caller, counter),
            Asked::NowFast => fast(keeper, caller, counter),
            Asked::Parts => by_parts(rt, keeper, caller, counter, look),
        };
        if let Some(time) = time {
            tally.add(time);
        }
    }
    tally
}

/// Returns the time now. Its caller needs nothing of the call's contract.
#[inline(always)]
fn now_by<L: Named, C: Counter, S: SharedCounter, R: Wait>(
    rt: &R,
    keeper: &SharedKeeper<L, C>,
    caller: &mut Caller<L>,
    counter: &S,
) -> Option<Timespec> {
    keeper.now(rt, caller, counter, ClockId::Monotonic).ok()
}

/// Reads the page and then the counter, and returns the time at this reading.
#[inline(always)]
fn by_parts<L: Named, C: Counter, S: SharedCounter, R: Wait>(
    rt: &R,
    keeper: &SharedKeeper<L, C>,
    caller: &mut Caller<L>,
    counter: &S,
    look: &Look,
) -> Option<Timespec> {
    let snapshot = keeper.read(rt, caller);
    let reading = counter.read(look) & snapshot.desc().mask();
    snapshot.get(ClockId::Monotonic, reading).ok()
}

/// Gives an update a thousand times a second until `enough` is set.
fn updates_slowly<L: Named, C: Counter, R: Wait + Hours>(
    rt: &R,
    keeper: &SharedKeeper<L, C>,
    caller: &mut Caller<L>,
    enough: &AtomicBool,
) {
    for _ in rt.forever() {
        let _ = keeper.command(rt, caller, Command::Update);
        if enough.load(Ordering::SeqCst) {
            return;
        }
        thread::sleep(rt, Duration::from_millis(1));
    }
}

/// Opens the keeper, and times the calls.
fn timed<L: Named + Send + Sync, S: SharedCounter + Sync, R: Threads + Wait + Hours + Sync>(
    rt: &R,
    alloc: Global,
    prepared: Prepared<SharedReader<'_, S>>,
    counter: &S,
    look: &Look,
    calls: Calls,
) -> Option<(Duration, Tally)>
    requires named { IsNamed prepared L.page L.latch L.notice L.name L.parts L.callers }
{
    match SharedKeeper::<L, SharedReader<'_, S>>::open(alloc, prepared) {
        Ok((keeper, mut callers)) => {
            timed_by(rt, &keeper, callers.as_mut_slice(), counter, look, calls)
        }
        Err(_) => None,
    }
}

/// Times the calls of the last caller. Another one gives the commands.
fn timed_by<
    L: Named + Send + Sync,
    C: Counter,
    S: SharedCounter + Sync,
    R: Threads + Wait + Hours + Sync,
>(
    rt: &R,
    keeper: &SharedKeeper<L, C>,
    callers: &mut [Caller<L>],
    counter: &S,
    look: &Look,
    calls: Calls,
) -> Option<(Duration, Tally)> {
    let (caller, others) = callers.split_last_mut()?;
    let other = others.first_mut()?;
    let start = Instant::now(rt).ok()?;
    let tally = answered(rt, keeper, caller, other, counter, look, calls);
    Some((start.elapsed(rt).ok()?, tally))
}

/// Lets a caller ask, while the other one gives commands if there are any, and returns the tally of
/// the answers.
fn answered<
    L: Named + Send + Sync,
    C: Counter,
    S: SharedCounter + Sync,
    R: Threads + Wait + Hours + Sync,
>(
    rt: &R,
    keeper: &SharedKeeper<L, C>,
    caller: &mut Caller<L>,
    other: &mut Caller<L>,
    counter: &S,
    look: &Look,
    calls: Calls,
) -> Tally {
    let Calls {
        asked,
        beside,
        count,
    } = calls;
    match beside {
        Beside::Nothing => asks(rt, keeper, caller, counter, look, asked, count),
        Beside::Updates => at_once(
            rt,
            move |enough: &AtomicBool| updates_slowly(rt, keeper, other, enough),
            move || asks(rt, keeper, caller, counter, look, asked, count),
        ),
    }
}

/// Prepares a keeper with the counter, opens it and times the calls.
fn tallied<S: SharedCounter + Sync, R: Threads + Wait + Hours + Sync>(
    rt: &R,
    alloc: Global,
    counter: &S,
    calls: Calls,
) -> Option<(Duration, Tally)> {
    let look = Look::first(alloc).ok()?;
    let reader = SharedReader::new(alloc, counter).ok()?;
    let prepared = prepared(rt, alloc, reader, 2)?;
    timed::<Brand, S, R>(rt, alloc, prepared, counter, &look, calls)
}

/// Times calls with a counter that every read advances. The check is the sum of the answers or,
/// with updates, the number of those that aren't below the one before. Returns `None` if a call
/// fails.
pub fn turn<R: Threads + Wait + Hours + Sync>(
    rt: &R,
    alloc: Global,
    asked: Asked,
    beside: Beside,
    effort: Effort,
) -> Option<Turn> {
    let counter = SharedTicker::new(0, CYCLES);
    let count = effort.of(CALLS);
    let calls = Calls {
        asked,
        beside,
        count,
    };
    let (time, tally) = tallied(rt, alloc, &counter, calls)?;
    let check = match beside {
        Beside::Nothing => tally.sum,
        Beside::Updates => tally.kept,
    };
    Some(Turn { time, count, check })
}

/// Times calls with the host's monotonic clock. The check is the number of answers that aren't
/// below the one before. Returns `None` if a call fails.
pub fn by_host<R: Threads + Wait + Hours + Sync>(
    rt: &R,
    alloc: Global,
    effort: Effort,
) -> Option<Turn> {
    let counter = HostCounter::new(rt, Instant::now(rt).ok()?);
    let count = effort.of(CALLS);
    let calls = Calls {
        asked: Asked::Now,
        beside: Beside::Nothing,
        count,
    };
    let (time, tally) = tallied(rt, alloc, &counter, calls)?;
    let check = tally.kept;
    Some(Turn { time, count, check })
}
