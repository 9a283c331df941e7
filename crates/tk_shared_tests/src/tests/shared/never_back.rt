//! Tests that MONOTONIC never goes back: four threads ask for the time now while two give commands.
//! No answer is below an earlier answer of any thread.
ghost use Rattle.tk_shared.specs.Opening.{IsNamed};

use super::{
    assert_same, commanded, fold_by, last_two, now_by, now_glanced, opened, ready_on, time,
};
use std::alloc::Global;
use std::marker::Brand;
use std::process::Abort;
use std::sync::Wait;
use std::sync::atomic::{AtomicU64, Ordering};
use std::thread::{self, Threads};
use tk_clock::{ClockId, Command, ReadError, Refusal, Timespec};
use tk_counter::CounterDesc;
use tk_now::SharedTicker;
use tk_shared::{Caller, Counter, Named, NowFault, Prepared, SharedKeeper, SharedReader};
use tk_test_support::RisingTimes;

/// The number of answers of each of the four threads: 10,000,000 in all.
const ANSWERS: u64 = 2_500_000;

/// The fewest commands of each of the two threads. They continue until no thread asks any more.
const COMMANDS: u64 = 10_000;

/// The cycles from one reading to the next. A cycle is a nanosecond.
const STEP: u64 = 1_000;

/// The first reading: the counter wraps in the middle.
const START: u64 = (1 << 48) - 5_000_000 * STEP;

/// The shared state of the threads, in addition to the keeper.
#[derive(Drop)]
struct Board {
    counter: SharedTicker,
    /// The answers of all threads. A refusal that no thread may get is a fault.
    times: RisingTimes,
    /// The number of threads that still ask.
    asking: AtomicU64,
}

/// The callers 0 and 1 ask by the page, 2 and 3 by the latch, and 4 and 5 give commands.
fn plays<L: Named, C: Counter, R: Wait>(
    rt: &R,
    keeper: &SharedKeeper<L, C>,
    caller: &mut Caller<L>,
    board: &Board,
) {
    if caller.id() < 4 {
        asks(rt, keeper, caller, board);
    } else {
        gives_commands(rt, keeper, caller, board);
    }
}

/// Asks until it has all its answers, and then subtracts itself from the threads that ask.
fn asks<L: Named, C: Counter, R: Wait>(
    rt: &R,
    keeper: &SharedKeeper<L, C>,
    caller: &mut Caller<L>,
    board: &Board,
) {
    let mut answers = 0u64;
    for _ in rt.forever() {
        let before = board.times.greatest();
        match asked(rt, keeper, caller, &board.counter) {
            Ok(Some(time)) => board.times.note(before, time),
            Ok(None) => continue,
            Err(_) => board.times.fail(),
        }
        answers = answers.wrapping_add(1);
        if answers == ANSWERS {
            break;
        }
    }
    board.asking.fetch_sub(1, Ordering::SeqCst);
}

/// Returns MONOTONIC now. `None` means that a command came in between.
fn asked<L: Named, C: Counter, R: Wait>(
    rt: &R,
    keeper: &SharedKeeper<L, C>,
    caller: &mut Caller<L>,
    counter: &SharedTicker,
) -> Result<Option<Timespec>, ReadError> {
    let clock = ClockId::Monotonic;
    if caller.id() < 2 {
        return Ok(Some(now_by(rt, keeper, caller, counter, clock)?));
    }
    match now_glanced(keeper, caller, counter, clock) {
        Ok(time) => Ok(Some(time)),
        Err(NowFault::Refused(refusal)) => Err(refusal),
        Err(_) => Ok(None),
    }
}

/// Gives commands until no thread asks any more, and folds from time to time.
fn gives_commands<L: Named, C: Counter, R: Wait>(
    rt: &R,
    keeper: &SharedKeeper<L, C>,
    caller: &mut Caller<L>,
    board: &Board,
) {
    for turn in 0..u64::MAX {
        if turn >= COMMANDS && board.asking.load(Ordering::SeqCst) == 0 {
            return;
        }
        let cmd = command_of(turn);
        if let Err(refusal) = commanded(rt, keeper, caller, cmd) {
            if !matches!(refusal, Refusal::Asleep | Refusal::Awake) {
                board.times.fail();
            }
        }
        if turn % 1_024 == 0 {
            fold_by(rt, keeper, caller, 16);
        }
        thread::yield_now();
    }
}

/// The commands: the fastest and the slowest rate in turn, a sleep, and steps that move only
/// REALTIME.
fn command_of(turn: u64) -> Command {
    match turn % 8 {
        0 => Command::Freq(500 << 16),
        1 => Command::Tick(11_000),
        2 => Command::Step(time(-1, 999_999_990)),
        3 => Command::Suspend,
        4 => Command::Resume(time(0, 10)),
        5 => Command::Tick(9_000),
        6 => Command::Freq(-(500 << 16)),
        _ => Command::Update,
    }
}

#[test]
fn no_answer_is_below_an_earlier_one(rt: HostRuntime) {
    let board = Board {
        counter: SharedTicker::new(START, STEP),
        times: RisingTimes::new(),
        asking: AtomicU64::new(4),
    };
    let desc = CounterDesc::new(48, 16_777_216, 24).expect(&rt, "a counter");
    let counter = SharedReader::new(rt.alloc(), &board.counter).expect(&rt, "memory");
    let prepared = ready_on(&rt, rt.alloc(), desc, counter, 6);
    all_play::<Brand, _, _>(&rt, rt.alloc(), prepared, &board);
}

/// Lets two callers play at once.
fn two_play<L: Named + Send + Sync, C: Counter, R: Threads + Wait + Sync>(
    rt: &R,
    keeper: &SharedKeeper<L, C>,
    mut one: Caller<L>,
    mut other: Caller<L>,
    board: &Board,
) {
    let _ = thread::join(
        rt,
        move || plays(rt, keeper, &mut one, board),
        move || plays(rt, keeper, &mut other, board),
    );
}

/// Lets the last four callers play at once.
fn four_play<L: Named + Send + Sync, C: Counter, R: Threads + Wait + Abort + Sync>(
    rt: &R,
    keeper: &SharedKeeper<L, C>,
    mut callers: Vec<Caller<L>>,
    board: &Board,
) {
    let (one, two) = last_two(rt, &mut callers);
    let (three, four) = last_two(rt, &mut callers);
    let _ = thread::join(
        rt,
        move || two_play(rt, keeper, one, two, board),
        move || two_play(rt, keeper, three, four, board),
    );
}

fn all_play<L: Named + Send + Sync, C: Counter, R: Threads + Wait + Abort + Sync>(
    rt: &R,
    alloc: Global,
    prepared: Prepared<C>,
    board: &Board,
)
    requires named { IsNamed prepared L.page L.latch L.notice L.name L.parts L.callers }
{
    let (keeper, callers) = opened::<L, C>(rt, alloc, prepared);
    six_play(rt, &keeper, callers, board);
    assert_same(rt, &board.times.faults(), &0);
}

/// Lets six callers play at once.
fn six_play<L: Named + Send + Sync, C: Counter, R: Threads + Wait + Abort + Sync>(
    rt: &R,
    keeper: &SharedKeeper<L, C>,
    mut callers: Vec<Caller<L>>,
    board: &Board,
) {
    let (one, two) = last_two(rt, &mut callers);
    let _ = thread::join(
        rt,
        move || two_play(rt, keeper, one, two, board),
        move || four_play(rt, keeper, callers, board),
    );
}
