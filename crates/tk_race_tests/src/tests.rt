//! Tests values that contracts don't fix, and threads.

mod gates;
mod lives;
mod memory;
mod replies;
mod times;

use std::alloc::{AllocError, Global};
use std::fmt::Debug;
use std::process::Abort;
use std::sync::Wait;
use std::thread::Threads;
use tk_clock::{Command, Timespec};
use tk_counter::CounterDesc;
use tk_race::{Action, Gate, NoGate, RaceError, RaceReply, RaceReport, race};
use tk_test_support::{OPENED_TIME, nanosecond_counter};

/// An order that only advances the clocks to the reading.
const UPDATE: Action = Action::Order(Command::Update);

/// Returns `actors` actors with `actions` copies of one action each.
fn alike(
    alloc: Global,
    actors: usize,
    action: Action,
    actions: usize,
) -> Result<Vec<Vec<Action>>, AllocError> {
    let mut all = Vec::new(alloc);
    for _ in 0..actors {
        all.push(vec![in alloc; action; actions]?)?;
    }
    Ok(all)
}

/// Returns actors with these actions.
fn listed(alloc: Global, actors: &[&[Action]]) -> Result<Vec<Vec<Action>>, AllocError> {
    let mut all = Vec::new(alloc);
    for actions in actors {
        all.push(Vec::from_slice(alloc, actions)?)?;
    }
    Ok(all)
}

/// Returns a counter of one nanosecond a cycle.
fn counter(rt: &impl Abort) -> CounterDesc {
    nanosecond_counter().expect(rt, "a counter")
}

/// Returns the result of a race whose counter begins with the first of `readings`, and adds the
/// second to every reading. It states nothing of the result, to keep the proof of each test short.
fn result_of<G: Gate + Sync, R: Threads + Wait + Sync>(
    rt: &R,
    alloc: Global,
    desc: CounterDesc,
    (first, step): (u64, u64),
    real: Timespec,
    actors: &[Vec<Action>],
    gate: &G,
) -> Result<RaceReport, RaceError> {
    race(alloc, rt, desc, first, real, step, actors, gate)
}

/// Returns the report of such a race, whose clocks are opened at the usual time.
fn raced<G: Gate + Sync, R: Abort + Threads + Wait + Sync>(
    rt: &R,
    alloc: Global,
    desc: CounterDesc,
    readings: (u64, u64),
    actors: Vec<Vec<Action>>,
    gate: &G,
) -> RaceReport {
    let list = actors.as_slice();
    let report = result_of(rt, alloc, desc, readings, OPENED_TIME, list, gate);
    report.expect(rt, "a report")
}

/// Returns the report of a race of one actor, without a gate.
fn raced_alone<R: Abort + Threads + Wait + Sync>(
    rt: &R,
    alloc: Global,
    desc: CounterDesc,
    readings: (u64, u64),
    actions: &[Action],
) -> RaceReport {
    let actors = listed(alloc, &[actions]).expect(rt, "memory");
    raced(rt, alloc, desc, readings, actors, &NoGate)
}

/// Checks the replies to the first actor.
fn first_gets(rt: &impl Abort, report: &RaceReport, expected: &[RaceReply]) {
    let replies = report.replies.first().expect(rt, "replies");
    assert!(rt; replies.as_slice() == expected);
}

/// Returns the number of an order that was done, and 0 for other replies.
fn number_of(reply: &RaceReply) -> u64 {
    match *reply {
        RaceReply::Done(number) => number,
        _ => 0,
    }
}

/// Returns whether all these orders were done, with numbers that rise from above `last`.
fn rise(mut last: u64, replies: &[RaceReply]) -> bool {
    for reply in replies {
        let number = number_of(reply);
        if number <= last {
            return false;
        }
        last = number;
    }
    true
}

/// Stops the test if `found` is not equal to `wanted`. It is a separate call to keep the proof of
/// each test short.
fn assert_same<T: PartialEq + Debug>(rt: &impl Abort, found: &T, wanted: &T) {
    assert_eq!(rt; found, wanted);
}
