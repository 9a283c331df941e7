//! The readings of the times now, between those of the commands.

use super::{UPDATE, assert_same, raced};
use std::alloc::{AllocError, Global};
use std::process::Abort;
use tk_clock::{ClockId, Command, Snapshot, Timespec};
use tk_counter::CounterDesc;
use tk_keeper::Timekeeper;
use tk_race::{Action, NoGate, RaceReply, RaceReport};

/// A time now of MONOTONIC.
const NOW: Action = Action::Now(ClockId::Monotonic);

/// Orders of every kind that moves or steers MONOTONIC, with times between them.
const ROUND: [Action; 9] = [
    NOW,
    Action::Order(Command::Freq(500 << 16)),
    NOW,
    Action::Order(Command::Suspend),
    NOW,
    Action::Order(Command::Resume(Timespec { sec: 0, nsec: 9 })),
    Action::Order(Command::Freq(-(500 << 16))),
    NOW,
    UPDATE,
];

/// Returns this many rounds.
fn asks_and_orders(alloc: Global, rounds: usize) -> Result<Vec<Action>, AllocError> {
    let mut actions = Vec::new(alloc);
    for _ in 0..rounds {
        for action in ROUND {
            actions.push(action)?;
        }
    }
    Ok(actions)
}

fn is_above(time: Timespec, other: Timespec) -> bool {
    (time.sec, time.nsec) > (other.sec, other.nsec)
}

/// Returns whether MONOTONIC by the first `front` entries had this time between their last reading
/// and that of the next entry.
fn is_in_life(rt: &impl Abort, keeper: &Timekeeper, front: u64, time: Timespec) -> bool {
    let snapshot = keeper.snapshot_at(front).expect(rt, "a snapshot");
    if is_above(monotonic(rt, &snapshot, snapshot.last()), time) {
        return false;
    }
    let Ok(next) = keeper.snapshot_at(front.saturating_add(1)) else {
        return true;
    };
    !is_above(time, monotonic(rt, &snapshot, next.last()))
}

/// Returns MONOTONIC of a snapshot at a reading.
fn monotonic(rt: &impl Abort, snapshot: &Snapshot, reading: u64) -> Timespec {
    let time = snapshot.get(ClockId::Monotonic, reading);
    time.expect(rt, "a time")
}

/// Returns the number of times among these replies that are out of the life of their front, or below
/// the time before.
fn faults_of(rt: &impl Abort, keeper: &Timekeeper, replies: &[RaceReply]) -> u64 {
    let mut last = Timespec { sec: 0, nsec: 0 };
    let mut faults = 0u64;
    for reply in replies {
        if let RaceReply::Timed { front, time } = *reply {
            if is_above(last, time) || !is_in_life(rt, keeper, front, time) {
                faults = faults.saturating_add(1);
            }
            last = time;
        }
    }
    faults
}

/// Returns the number of such times among all replies.
fn all_faults(rt: &impl Abort, report: &RaceReport) -> u64 {
    let mut faults = 0u64;
    for replies in report.replies.as_slice() {
        faults = faults.saturating_add(faults_of(rt, &report.keeper, replies.as_slice()));
    }
    faults
}

/// Four actors race. Each time lies between the commands before and after its reading, and no time
/// of an actor is below the one before.
#[test]
fn times_lie_in_the_life_of_their_fronts(rt: HostRuntime) {
    let actions = asks_and_orders(rt.alloc(), 100).expect(&rt, "memory");
    let actors = vec![in rt.alloc(); actions; 4].expect(&rt, "memory");
    let desc = CounterDesc::new(48, 16_777_216, 24).expect(&rt, "a counter");
    let report = raced(&rt, rt.alloc(), desc, (5, 10), actors, &NoGate);
    assert_same(
        &rt,
        &(all_faults(&rt, &report), report.replies.len()),
        &(0, 4),
    );
}
