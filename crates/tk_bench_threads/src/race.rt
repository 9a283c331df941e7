//! Times a race of four actors.
use std::alloc::{AllocError, Global};
use std::sync::Wait;
use std::thread::Threads;
use std::time::{Clock as Hours, Instant};
use tk_clock::Command;
use tk_counter::CounterDesc;
use tk_race::{Action, NoGate, race};
use tk_test_support::{Effort, OPENED_TIME, STEP, Turn, nanosecond_counter, weighed};

const ACTORS: usize = 4;

/// The number of orders of each actor in a full turn.
const ORDERS: u64 = 100_000;

/// Returns `orders` orders of an update for each actor.
fn updates(alloc: Global, orders: u64) -> Result<Vec<Vec<Action>>, AllocError> {
    let mut all = Vec::new(alloc);
    for _ in 0..ACTORS {
        all.push(vec![in alloc; Action::Order(Command::Update); orders as usize]?)?;
    }
    Ok(all)
}

/// Times a race, from the opening of its keeper to its closing. Returns `None` if a call fails.
pub fn turn<R: Threads + Wait + Hours + Sync>(
    rt: &R,
    alloc: Global,
    effort: Effort,
) -> Option<Turn> {
    let desc = nanosecond_counter().ok()?;
    match updates(alloc, effort.of(ORDERS)) {
        Ok(actors) => timed(rt, alloc, desc, actors.as_slice()),
        Err(_) => None,
    }
}

/// Times a race of these actors.
fn timed<R: Threads + Wait + Hours + Sync>(
    rt: &R,
    alloc: Global,
    desc: CounterDesc,
    actors: &[Vec<Action>],
) -> Option<Turn> {
    let start = Instant::now(rt).ok()?;
    let report = race(alloc, rt, desc, 0, OPENED_TIME, STEP, actors, &NoGate).ok()?;
    let time = start.elapsed(rt).ok()?;
    let count = report.keeper.len() as u64;
    let check = weighed(&report.keeper.snapshot());
    Some(Turn { time, count, check })
}
