//! Readers in other threads, by the page, by the latch and by `now`, while the owner of a
//! discipline lets seconds begin, and inserts one. MONOTONIC never falls for them, and TAI never
//! leaps.
ghost use Rattle.std.specs.Prelude.{◌≡◌};
ghost use Rattle.tk_shared.specs.Opening.{IsNamed};

use super::{announce, assert_same, begins, opened, ready, steered};
use std::alloc::Global;
use std::marker::Brand;
use std::process::Abort;
use std::sync::Wait;
use std::sync::atomic::{AtomicU64, Ordering};
use std::thread::{self, Threads};
use tk_clock::{ClockId, Snapshot};
use tk_now::SharedTicker;
use tk_shared::{Caller, Counter, Named, NowFault, Prepared, SharedKeeper, SharedReader};
use tk_shared_steered::SharedSteering;
use tk_test_support::RisingTimes;

/// The cycles from one reading to the next. A cycle is a nanosecond.
const STEP: u64 = 50_000;

/// The seconds that the owner lets begin: the second one is inserted.
const SECONDS: u64 = 8;

/// TAI minus MONOTONIC, in nanoseconds: the clocks are opened at this time, with the TAI offset 0.
const TAI_OFFSET: u64 = 1_483_228_798_000_000_000;

/// The shared state of the threads, in addition to the keeper.
#[derive(Drop)]
struct Board {
    counter: SharedTicker,
    /// The answers of all threads. A snapshot in which TAI has leapt is a fault, and a call that
    /// failed.
    times: RisingTimes,
    /// 0 while the owner works.
    ended: AtomicU64,
}

impl Board {
    /// Records whether TAI has leapt in a snapshot.
    fn tests(&self, snapshot: Snapshot) {
        let seconds = u64::from(snapshot.tai()).wrapping_mul(1_000_000_000);
        if snapshot.real_offset().wrapping_add(seconds) != TAI_OFFSET {
            self.times.fail();
        }
    }
}

/// Lets all seconds begin, and returns the number of calls that did so.
fn owns<L: Named, C: Counter, R: Wait>(
    rt: &R,
    keeper: &SharedKeeper<L, C>,
    steering: &mut SharedSteering<L>,
    board: &Board,
) -> u64 {
    let mut seconds = 0u64;
    for _ in rt.forever() {
        match begins(rt, keeper, steering) {
            Ok(true) => seconds = seconds.wrapping_add(1),
            Ok(false) => thread::yield_now(),
            Err(_) => {
                board.times.fail();
                break;
            }
        }
        if seconds == SECONDS {
            break;
        }
    }
    board.ended.store(1, Ordering::SeqCst);
    seconds
}

/// Reads in each way until the owner has ended.
fn reads<L: Named, C: Counter, R: Wait>(
    rt: &R,
    keeper: &SharedKeeper<L, C>,
    caller: &mut Caller<L>,
    board: &Board,
) {
    for _ in rt.forever() {
        if board.ended.load(Ordering::SeqCst) != 0 {
            break;
        }
        asks(rt, keeper, caller, board);
        board.tests(keeper.read(rt, caller));
        if let Ok(snapshot) = keeper.fast_read(caller) {
            board.tests(snapshot);
        }
    }
}

/// Asks for the time now by the page and by the latch.
fn asks<L: Named, C: Counter, R: Wait>(
    rt: &R,
    keeper: &SharedKeeper<L, C>,
    caller: &mut Caller<L>,
    board: &Board,
) {
    let clock = ClockId::Monotonic;
    let before = board.times.greatest();
    match keeper.now(rt, caller, &board.counter, clock) {
        Ok(time) => board.times.note(before, time),
        Err(_) => board.times.fail(),
    }
    let before = board.times.greatest();
    match keeper.now_fast(caller, &board.counter, clock) {
        Ok(time) => board.times.note(before, time),
        Err(NowFault::Refused(_)) => board.times.fail(),
        Err(_) => {}
    }
}

#[test]
fn readers_see_no_time_fall_and_no_tai_leap(rt: HostRuntime) {
    let board = Board {
        counter: SharedTicker::new(0, STEP),
        times: RisingTimes::new(),
        ended: AtomicU64::new(0),
    };
    let counter = SharedReader::new(rt.alloc(), &board.counter);
    let counter = counter.expect(&rt, "memory");
    let prepared = ready(&rt, rt.alloc(), counter, 3);
    all_act::<Brand, _, _>(&rt, rt.alloc(), &board, prepared);
}

fn all_act<L: Named + Send + Sync, C: Counter, R: Threads + Wait + Abort + Sync>(
    rt: &R,
    alloc: Global,
    board: &Board,
    prepared: Prepared<C>,
)
    requires named { IsNamed prepared L.page L.latch L.notice L.name L.parts L.callers }
{
    let (keeper, mut callers) = opened::<L, C>(rt, alloc, prepared);
    three_act(rt, &keeper, &mut callers, board);
}

/// Lets the owner act while the other two callers read.
fn three_act<L: Named + Send + Sync, C: Counter, R: Threads + Wait + Abort + Sync>(
    rt: &R,
    keeper: &SharedKeeper<L, C>,
    callers: &mut Vec<Caller<L>>,
    board: &Board,
) {
    let mut steering = steered(rt, keeper, callers);
    assert_same(rt, &announce(&mut steering), &true);
    let owner = &mut steering;
    let (seconds, _) = thread::join(
        rt,
        move || owns(rt, keeper, owner, board),
        move || both_read(rt, keeper, callers, board),
    );
    assert_same(rt, &(seconds, board.times.faults()), &(SECONDS, 0));
}

/// Lets two callers read at once.
fn both_read<L: Named + Send + Sync, C: Counter, R: Threads + Wait + Sync>(
    rt: &R,
    keeper: &SharedKeeper<L, C>,
    callers: &mut Vec<Caller<L>>,
    board: &Board,
) {
    let (Some(mut one), Some(mut two)) = (callers.pop(), callers.pop()) else {
        board.times.fail();
        return;
    };
    let _ = thread::join(
        rt,
        move || reads(rt, keeper, &mut one, board),
        move || reads(rt, keeper, &mut two, board),
    );
}
