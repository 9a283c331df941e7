//! Tests the time now in one thread, with a counter whose readings are known.
ghost use Rattle.tk_shared.specs.Opening.{IsNamed};

use super::{assert_same, commanded, now_by, now_glanced, open_two, ready_on, time};
use std::alloc::Global;
use std::marker::Brand;
use std::process::Abort;
use std::sync::Wait;
use std::time::Instant;
use tk_clock::{ClockId, Command, ReadError, Refusal, Timespec};
use tk_counter::CounterDesc;
use tk_now::{HostCounter, SharedCounter, SharedTicker};
use tk_shared::{Caller, Counter, Named, NowFault, Prepared, SharedKeeper, SharedReader};
use tk_test_support::nanoseconds;

/// The action at a reading, and its result.
#[derive(Clone, Copy)]
enum Turn {
    /// The first caller gives a command.
    Gives(Command, Result<u64, Refusal>),
    /// The second caller asks by the page.
    Asks(ClockId, Result<Timespec, ReadError>),
    /// The second caller asks by the latch.
    AsksFast(ClockId, Result<Timespec, NowFault>),
}

/// A time in seconds and microseconds.
fn micros(sec: i64, micros: u32) -> Timespec {
    time(sec, micros.wrapping_mul(1_000))
}

/// One turn per second of a counter of 1 MHz: the first one is at 1 s. A cycle is 1,000 ns, and
/// 1,000.5 ns at 500 ppm. The counter wraps before the second turn.
fn seconds() -> [Turn; 17] {
    [
        // 1 s
        Turn::Asks(ClockId::Monotonic, Ok(micros(1, 0))),
        Turn::AsksFast(ClockId::Realtime, Ok(micros(1_700_000_002, 0))),
        Turn::Gives(Command::Freq(500 << 16), Ok(1)),
        // 4 s: 3 + 1.0005 * 1
        Turn::Asks(ClockId::Monotonic, Ok(micros(4, 500))),
        Turn::AsksFast(ClockId::Monotonic, Ok(micros(5, 1_000))),
        Turn::Gives(Command::Step(time(-2, 750_000_000)), Ok(2)),
        // 7 s: 3 + 1.0005 * 4 - 1.25
        Turn::Asks(ClockId::Realtime, Ok(micros(1_700_000_005, 752_000))),
        Turn::Gives(Command::Suspend, Ok(3)),
        // 9 s: MONOTONIC as at 8 s, 3 + 1.0005 * 5
        Turn::Asks(ClockId::Monotonic, Ok(micros(8, 2_500))),
        Turn::AsksFast(ClockId::Monotonic, Ok(micros(8, 2_500))),
        Turn::Gives(Command::Update, Err(Refusal::Asleep)),
        Turn::Gives(Command::Resume(time(60, 250_000_000)), Ok(4)),
        // 13 s: 8.0025 + 1.0005 * 1
        Turn::Asks(ClockId::Monotonic, Ok(micros(9, 3_000))),
        // 14 s: 8.0025 + 1.0005 * 2 + 60.25
        Turn::AsksFast(ClockId::Boottime, Ok(micros(70, 253_500))),
        // 15 s: 8.0025 + 1.0005 * 3 + 60.25 - 1.25
        Turn::Asks(ClockId::Realtime, Ok(micros(1_700_000_070, 4_000))),
        Turn::Gives(Command::Resume(micros(0, 0)), Err(Refusal::Awake)),
        // 17 s: 8.0025 + 1.0005 * 5
        Turn::AsksFast(ClockId::Monotonic, Ok(micros(13, 5_000))),
    ]
}

#[test]
fn the_time_now_is_exact(rt: HostRuntime) {
    // 32 bits: the greatest reading is 4,294,967,295
    let desc = CounterDesc::from_hz(32, 1_000_000, 600).expect(&rt, "a counter");
    let readings = (4_293_500_000, 1_000_000);
    all_turns(&rt, rt.alloc(), desc, readings, &seconds());
}

/// One turn per 500,000,000 s. MONOTONIC ends at 946,080,000 s, and BOOTTIME at 9,223,372,036 s.
fn long_turns() -> [Turn; 5] {
    [
        Turn::Asks(ClockId::Monotonic, Ok(micros(500_000_000, 0))),
        Turn::Asks(ClockId::Monotonic, Err(ReadError::Range)),
        Turn::Asks(ClockId::Boottime, Ok(micros(1_500_000_000, 0))),
        Turn::AsksFast(ClockId::Monotonic, Err(NowFault::Refused(ReadError::Range))),
        Turn::AsksFast(ClockId::Boottime, Ok(micros(2_500_000_000, 0))),
    ]
}

#[test]
fn a_clock_at_its_limit_has_no_time_now(rt: HostRuntime) {
    let desc = CounterDesc::new(64, 16_777_216, 24).expect(&rt, "a counter");
    let readings = (0, 500_000_000_000_000_000);
    all_turns(&rt, rt.alloc(), desc, readings, &long_turns());
}

/// Takes these turns on a counter that begins with the first of `readings`, and adds the second to
/// every reading.
fn all_turns<R: Wait + Abort>(
    rt: &R,
    alloc: Global,
    desc: CounterDesc,
    readings: (u64, u64),
    turns: &[Turn],
) {
    let (first, step) = readings;
    let ticker = SharedTicker::new(first, step);
    let counter = SharedReader::new(alloc, &ticker).expect(rt, "memory");
    let prepared = ready_on(rt, alloc, desc, counter, 2);
    all_turns_named::<Brand, _, _, R>(rt, alloc, prepared, &ticker, turns);
}

fn all_turns_named<L: Named, C: Counter, S: SharedCounter, R: Wait + Abort>(
    rt: &R,
    alloc: Global,
    prepared: Prepared<C>,
    counter: &S,
    turns: &[Turn],
)
    requires named { IsNamed prepared L.page L.latch L.notice L.name L.parts L.callers }
{
    let (keeper, mut one, mut two) = open_two::<L, C>(rt, alloc, prepared);
    takes_turns(rt, &keeper, &mut one, &mut two, counter, turns);
}

fn takes_turns<L: Named, C: Counter, S: SharedCounter, R: Wait + Abort>(
    rt: &R,
    keeper: &SharedKeeper<L, C>,
    one: &mut Caller<L>,
    two: &mut Caller<L>,
    counter: &S,
    turns: &[Turn],
) {
    for turn in turns {
        takes_turn(rt, keeper, one, two, counter, turn);
    }
}

fn takes_turn<L: Named, C: Counter, S: SharedCounter, R: Wait + Abort>(
    rt: &R,
    keeper: &SharedKeeper<L, C>,
    one: &mut Caller<L>,
    two: &mut Caller<L>,
    counter: &S,
    turn: &Turn,
) {
    match turn {
        Turn::Gives(cmd, result) => assert_same(rt, &commanded(rt, keeper, one, *cmd), result),
        Turn::Asks(clock, result) => {
            assert_same(rt, &now_by(rt, keeper, two, counter, *clock), result);
        }
        Turn::AsksFast(clock, result) => {
            assert_same(rt, &now_glanced(keeper, two, counter, *clock), result);
        }
    }
}

#[test]
fn the_time_now_rises_with_the_hosts_clock(rt: HostRuntime) {
    let start = Instant::now(&rt).expect(&rt, "a time");
    let host = HostCounter::new(&rt, start);
    let desc = CounterDesc::from_hz(64, 1_000_000_000, 600).expect(&rt, "a counter");
    let counter = SharedReader::new(rt.alloc(), &host).expect(&rt, "memory");
    let prepared = ready_on(&rt, rt.alloc(), desc, counter, 2);
    rises::<Brand, _, _, _>(&rt, prepared, &host);
}

fn rises<L: Named, C: Counter, S: SharedCounter, R: Wait + Abort + AllocGlobal>(
    rt: &R,
    prepared: Prepared<C>,
    counter: &S,
)
    requires named { IsNamed prepared L.page L.latch L.notice L.name L.parts L.callers }
{
    let (keeper, mut one, mut two) = open_two::<L, C>(rt, rt.alloc(), prepared);
    rises_by(rt, &keeper, &mut one, &mut two, counter);
}

/// Asks by the page and by the latch in turn, with a command between.
fn rises_by<L: Named, C: Counter, S: SharedCounter, R: Wait + Abort>(
    rt: &R,
    keeper: &SharedKeeper<L, C>,
    one: &mut Caller<L>,
    two: &mut Caller<L>,
    counter: &S,
) {
    let mut before = 0;
    for _ in 0..1000 {
        let by_page = now_by(rt, keeper, two, counter, ClockId::Monotonic);
        let done = commanded(rt, keeper, one, Command::Update);
        assert_same(rt, &done.is_ok(), &true);
        let by_latch = now_glanced(keeper, two, counter, ClockId::Monotonic);
        let by_page = nanoseconds(by_page.expect(rt, "a time by the page"));
        let by_latch = nanoseconds(by_latch.expect(rt, "a time by the latch"));
        assert_same(rt, &(before <= by_page, by_page <= by_latch), &(true, true));
        before = by_latch;
    }
    assert!(rt; 0 < before && before < 60_000_000_000);
}
