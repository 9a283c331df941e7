//! Tests when the gate is called, and that actors act at the same time.

use super::{UPDATE, alike, assert_same, counter, first_gets, listed, raced, rise};
use std::alloc::Global;
use std::process::Abort;
use std::sync::Wait;
use std::sync::atomic::{AtomicBool, AtomicU64, Ordering};
use std::thread::{self, Threads};
use tk_race::{Action, Gate, RaceReply, RaceReport};

/// The number of times that a held piece checks a flag before it gives up.
const TURNS: u32 = 50_000_000;

/// A flag that one thread sets and others wait for.
#[derive(Drop)]
struct Flag(AtomicBool);

impl Flag {
    fn new() -> Flag {
        Flag(AtomicBool::new(false))
    }

    fn set(&self) {
        self.0.store(true, Ordering::SeqCst);
    }

    /// Returns whether the flag was set in time.
    fn is_seen(&self) -> bool {
        for _ in 0..TURNS {
            if self.0.load(Ordering::SeqCst) {
                return true;
            }
            thread::yield_now();
        }
        false
    }
}

/// Holds all pieces until the expected number has arrived, and counts the pieces that have ended.
#[derive(Drop)]
struct Meeting {
    expected: u64,
    came: AtomicU64,
    ended: AtomicU64,
    late: Flag,
}

impl Gate for Meeting {
    fn before(&self, _piece: usize) {
        self.came.fetch_add(1, Ordering::SeqCst);
        for _ in 0..TURNS {
            if self.came.load(Ordering::SeqCst) >= self.expected {
                return;
            }
            thread::yield_now();
        }
        self.late.set();
    }

    fn after(&self, _piece: usize) {
        self.ended.fetch_add(1, Ordering::SeqCst);
    }
}

#[test]
fn actors_act_at_once(rt: HostRuntime) {
    for actors in [2, 3, 64] {
        all_meet(&rt, rt.alloc(), actors);
    }
}

/// Races this number of actors with three orders each. None of them begins before all have arrived.
fn all_meet<R: Abort + Threads + Wait + Sync>(rt: &R, alloc: Global, count: u32) {
    let actors = alike(alloc, count as usize, UPDATE, 3).expect(rt, "memory");
    let gate = Meeting {
        expected: u64::from(count),
        came: AtomicU64::new(0),
        ended: AtomicU64::new(0),
        late: Flag::new(),
    };
    let report = raced(rt, alloc, counter(rt), (0, 1_000), actors, &gate);
    all_rise(rt, &report, &gate, u64::from(count));
}

/// Checks that all of these actors met, and that their orders are numbered as they were done.
fn all_rise(rt: &impl Abort, report: &RaceReport, gate: &Meeting, count: u64) {
    assert!(rt; !gate.late.0.load(Ordering::SeqCst));
    let ended = gate.ended.load(Ordering::SeqCst);
    assert_same(rt, &ended, &count);
    assert_same(rt, &(report.keeper.len() as u64), &ended.wrapping_mul(3));
    for replies in report.replies.as_slice() {
        assert!(rt; rise(0, replies.as_slice()));
    }
}

/// Counts the beginnings and ends of three pieces.
#[derive(Drop)]
struct Tally {
    begun: [AtomicU64; 3],
    ended: [AtomicU64; 3],
}

/// Counts one more for this piece.
fn count(pieces: &[AtomicU64], piece: usize) {
    if let Some(count) = pieces.get(piece) {
        count.fetch_add(1, Ordering::SeqCst);
    }
}

impl Gate for Tally {
    fn before(&self, piece: usize) {
        count(&self.begun, piece);
    }

    fn after(&self, piece: usize) {
        count(&self.ended, piece);
    }
}

#[test]
fn each_piece_begins_and_ends_once_even_without_actions(rt: HostRuntime) {
    let (orders, looks) = ([UPDATE; 2], [Action::Look]);
    let actors = listed(rt.alloc(), &[&orders, &[], &looks]).expect(&rt, "memory");
    let gate = Tally {
        begun: [AtomicU64::new(0), AtomicU64::new(0), AtomicU64::new(0)],
        ended: [AtomicU64::new(0), AtomicU64::new(0), AtomicU64::new(0)],
    };
    assert_same(&rt, &entries_of(&rt, rt.alloc(), actors, &gate), &2);
    all_once(&rt, &gate.begun);
    all_once(&rt, &gate.ended);
}

/// Races these actors, and returns the number of entries.
fn entries_of<R: Abort + Threads + Wait + Sync>(
    rt: &R,
    alloc: Global,
    actors: Vec<Vec<Action>>,
    gate: &Tally,
) -> usize {
    let report = raced(rt, alloc, counter(rt), (0, 1), actors, gate);
    report.keeper.len()
}

/// Checks that each of these counts is 1.
fn all_once(rt: &impl Abort, pieces: &[AtomicU64]) {
    for times in pieces {
        assert_same(rt, &times.load(Ordering::SeqCst), &1);
    }
}

/// Holds the second of two pieces in `before` until the first arrives in `after`, and holds the
/// first in `after` until the second arrives.
#[derive(Drop)]
struct InTurn {
    /// The piece that is second.
    held: usize,
    first: Flag,
    second: Flag,
    late: Flag,
}

impl InTurn {
    fn holding(piece: usize) -> InTurn {
        InTurn {
            held: piece,
            first: Flag::new(),
            second: Flag::new(),
            late: Flag::new(),
        }
    }
}

impl Gate for InTurn {
    fn before(&self, piece: usize) {
        if piece == self.held && !self.first.is_seen() {
            self.late.set();
        }
    }

    fn after(&self, piece: usize) {
        if piece == self.held {
            return self.second.set();
        }
        self.first.set();
        if !self.second.is_seen() {
            self.late.set();
        }
    }
}

#[test]
fn a_gate_is_called_round_all_actions_of_an_actor(rt: HostRuntime) {
    let actors = alike(rt.alloc(), 2, UPDATE, 20_000).expect(&rt, "memory");
    let report = held(&rt, rt.alloc(), actors, 1);
    // all entries of actor 0 precede all entries of actor 1
    let mut number = 0;
    for replies in report.replies.as_slice() {
        number = all_follow(&rt, number, replies.as_slice());
    }
    assert_same(&rt, &number, &40_000);
}

/// Returns the report of a race of two actors. The actor `second` begins after the other has ended.
fn held<R: Abort + Threads + Wait + Sync>(
    rt: &R,
    alloc: Global,
    actors: Vec<Vec<Action>>,
    second: usize,
) -> RaceReport {
    let gate = InTurn::holding(second);
    let report = raced(rt, alloc, counter(rt), (0, 1), actors, &gate);
    assert!(rt; !gate.late.0.load(Ordering::SeqCst));
    report
}

/// Checks that these orders have the numbers after `number`, and returns the last one.
fn all_follow(rt: &impl Abort, mut number: u64, replies: &[RaceReply]) -> u64 {
    for reply in replies {
        number = number.wrapping_add(1);
        assert_same(rt, reply, &RaceReply::Done(number));
    }
    number
}

#[test]
fn an_actor_reads_what_another_did_before_it_began(rt: HostRuntime) {
    let (reads, orders) = ([Action::Glance, Action::Look], [UPDATE; 4]);
    let actors = listed(rt.alloc(), &[&reads, &orders]).expect(&rt, "memory");
    let report = held(&rt, rt.alloc(), actors, 0);
    first_gets(&rt, &report, &[RaceReply::Glanced(4), RaceReply::Saw(4)]);
}
