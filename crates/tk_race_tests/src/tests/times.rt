//! Tests the time now in races.

use super::{UPDATE, assert_same, counter, first_gets, raced, raced_alone};
use std::alloc::{AllocError, Global};
use std::process::Abort;
use tk_clock::{ClockId, Command, ReadError, Timespec};
use tk_counter::CounterDesc;
use tk_keeper::Timekeeper;
use tk_race::{Action, NoGate, RaceReply};

/// A reply with this front and this time.
fn timed(front: u64, sec: i64, nsec: u32) -> RaceReply {
    RaceReply::Timed {
        front,
        time: Timespec { sec, nsec },
    }
}

/// The clocks open at reading 5, and every action reads 10 ns more. MONOTONIC is 40 ns at the
/// suspension, which lasts a second by the resume.
#[test]
fn times_are_those_of_the_counters_readings(rt: HostRuntime) {
    let actions = [
        Action::Now(ClockId::Monotonic),
        Action::Order(Command::Update),
        Action::Now(ClockId::Realtime),
        Action::Order(Command::Suspend),
        Action::Now(ClockId::Monotonic),
        Action::Now(ClockId::Boottime),
        Action::Order(Command::Resume(Timespec { sec: 1, nsec: 0 })),
        Action::Now(ClockId::Boottime),
        Action::Glance,
    ];
    let report = raced_alone(&rt, rt.alloc(), counter(&rt), (5, 10), &actions);
    let expected = [
        timed(0, 0, 10),
        RaceReply::Done(1),
        timed(1, 1_700_000_000, 30),
        RaceReply::Done(2),
        timed(2, 0, 40),
        timed(2, 0, 40),
        RaceReply::Done(3),
        timed(3, 1, 50),
        RaceReply::Glanced(3),
    ];
    first_gets(&rt, &report, &expected);
}

/// The number of orders of each actor. It asks for the time between them.
const ORDERS: u64 = 300;

/// Returns an order, and then this many times a time and an order.
fn times_among_orders(alloc: Global, times: u64) -> Result<Vec<Action>, AllocError> {
    let mut actions = vec![in alloc; UPDATE; 1]?;
    for _ in 0..times {
        actions.push(Action::Now(ClockId::Monotonic))?;
        actions.push(UPDATE)?;
    }
    Ok(actions)
}

/// Returns 64 actors with these orders and times.
fn asking_and_ordering(alloc: Global) -> Result<Vec<Vec<Action>>, AllocError> {
    let mut actors = Vec::new(alloc);
    for _ in 0..64 {
        actors.push(times_among_orders(alloc, ORDERS - 1)?)?;
    }
    Ok(actors)
}

/// Each of 64 actors ends with an order, so the last entry has the last of all readings. A time that
/// tried again has moved the counter once, as every other action.
#[test]
fn each_order_and_each_time_adds_one_step(rt: HostRuntime) {
    let actors = asking_and_ordering(rt.alloc()).expect(&rt, "memory");
    let report = raced(&rt, rt.alloc(), counter(&rt), (0, 1_009), actors, &NoGate);
    ends_at(&rt, &report.keeper, 64 * (2 * ORDERS - 1) * 1_009);
}

/// Checks that the keeper has all orders, the last of them at this reading.
fn ends_at(rt: &impl Abort, keeper: &Timekeeper, reading: u64) {
    assert_same(rt, &(keeper.len() as u64), &(64 * ORDERS));
    let last = keeper.entry(64 * ORDERS).expect(rt, "an entry");
    assert_same(rt, &last.reading, &reading);
}

/// 2^62 ns after the opening no clock has a value.
#[test]
fn a_reading_beyond_the_clocks_is_refused(rt: HostRuntime) {
    let actions = [Action::Now(ClockId::Monotonic)];
    let desc = CounterDesc::new(64, 16_777_216, 24).expect(&rt, "a counter");
    let report = raced_alone(&rt, rt.alloc(), desc, (0, 1 << 62), &actions);
    let refused = RaceReply::Untimed {
        front: 0,
        refusal: ReadError::Range,
    };
    first_gets(&rt, &report, &[refused]);
}
