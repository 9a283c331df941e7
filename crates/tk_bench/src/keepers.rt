//! Times commands of a keeper, with folds, and snapshots of its past.

use crate::bench::{Bench, Job, Unit};
use crate::digest::of_snapshot;
use crate::inputs::OPENED_TIME;
use std::alloc::Global;
use std::thread::Threads;
use std::time::{Clock as Hours, Instant};
use tk_clock::Command;
use tk_counter::CounterDesc;
use tk_keeper::{LISTED_LIMIT, Timekeeper};

const COMMANDS: u64 = 10_000_000;

/// The most entries that a journal lists.
const LISTED: u64 = LISTED_LIMIT as u64;

/// The entries that a full journal keeps in a fold.
const KEPT: u64 = LISTED / 4 * 3;

const READS: u64 = 100_000;

/// Applies updates a microsecond apart to a keeper that it opens.
#[derive(Drop)]
struct Commands {
    alloc: Global,
    desc: CounterDesc,
    count: u64,
    keeper: Timekeeper,
}

impl Commands {
    /// Applies the command of this number, after a fold if the journal is full. Returns whether it
    /// is accepted.
    fn command(&mut self, step: u64) -> bool {
        let reading = step.wrapping_mul(1_000) & 0xffff_ffff;
        if self.keeper.apply(0, reading, Command::Update).is_ok() {
            return true;
        }
        let _ = self.keeper.fold(KEPT);
        self.keeper.apply(0, reading, Command::Update).is_ok()
    }
}

impl Job for Commands {
    fn turn<R: Threads + Hours + Sync>(&mut self, _rt: &R) -> bool {
        let Some(keeper) = opened(self.alloc, self.desc) else {
            return false;
        };
        self.keeper = keeper;
        for step in 0..self.count {
            if !self.command(step) {
                return false;
            }
        }
        true
    }

    fn check(&self) -> u64 {
        of_snapshot(&self.keeper.snapshot()).wrapping_add(self.keeper.folded())
    }
}

/// Applies the same commands with memory reserved first, and times every command together with its
/// fold.
#[derive(Drop)]
struct LongestCommand {
    commands: Commands,
    /// The longest time of one command in ns.
    longest: u128,
}

impl Job for LongestCommand {
    fn turn<R: Threads + Hours + Sync>(&mut self, rt: &R) -> bool {
        let Some(keeper) = reserved(self.commands.alloc, self.commands.desc) else {
            return false;
        };
        self.commands.keeper = keeper;
        self.longest = 0;
        for step in 0..self.commands.count {
            let Ok(start) = Instant::now(rt) else {
                return false;
            };
            if !self.commands.command(step) {
                return false;
            }
            let Ok(time) = start.elapsed(rt) else {
                return false;
            };
            self.longest = self.longest.max(time.as_nanos());
        }
        true
    }

    fn counted(&self, _whole: u128) -> u128 {
        self.longest
    }

    fn check(&self) -> u64 {
        self.commands.check()
    }
}

/// Makes snapshots at fronts in no order in a full journal.
#[derive(Drop)]
struct Past {
    keeper: Timekeeper,
    sum: u64,
}

impl Job for Past {
    fn turn<R: Threads + Hours + Sync>(&mut self, _rt: &R) -> bool {
        self.sum = 0;
        for step in 0..READS {
            let front = step.wrapping_mul(0x9e37_79b9_7f4a_7c15) >> 44;
            if let Ok(snapshot) = self.keeper.snapshot_at(front) {
                self.sum = self.sum.wrapping_add(snapshot.last() ^ snapshot.frac());
            }
        }
        true
    }

    fn check(&self) -> u64 {
        self.sum
    }
}

/// Times ten million updates with folds, the longest of them, and snapshots of a full journal.
/// Returns `false` if a call fails.
pub(crate) fn run_keepers(rt: &(impl Threads + Hours + Sync), bench: &Bench<'_>) -> bool {
    if !bench.wants_any("keeper_") {
        return true;
    }
    match updates_of(bench.alloc(), bench.unknown()) {
        Some(job) => run_commands(rt, bench, job),
        None => false,
    }
}

/// Times the updates, and what follows them.
fn run_commands(rt: &(impl Threads + Hours + Sync), bench: &Bench<'_>, mut job: Commands) -> bool {
    let unit = Unit::Each(COMMANDS, "command");
    bench.run(rt, "keeper_commands_10000000", unit, 1, &mut job) && run_longest(rt, bench, job)
}

/// Times the longest update, and the snapshots.
fn run_longest(rt: &(impl Threads + Hours + Sync), bench: &Bench<'_>, commands: Commands) -> bool {
    let mut job = LongestCommand {
        commands,
        longest: 0,
    };
    bench.run(rt, "keeper_longest_command", Unit::One, 3, &mut job)
        && run_past(rt, bench, job.commands)
}

/// Times the snapshots, of a keeper that it fills.
fn run_past(rt: &(impl Threads + Hours + Sync), bench: &Bench<'_>, mut job: Commands) -> bool {
    job.count = LISTED;
    if !job.turn(rt) {
        return false;
    }
    let mut job = Past {
        keeper: job.keeper,
        sum: 0,
    };
    bench.run(
        rt,
        "keeper_snapshot_at",
        Unit::Each(READS, "read"),
        2,
        &mut job,
    )
}

/// Returns the updates of a counter whose numbers the compiler can't know.
fn updates_of(alloc: Global, unknown: u32) -> Option<Commands> {
    let desc = CounterDesc::new(32, unknown.wrapping_add(16_777_216), 24).ok()?;
    let keeper = opened(alloc, desc)?;
    Some(Commands {
        alloc,
        desc,
        count: COMMANDS,
        keeper,
    })
}

fn opened(alloc: Global, desc: CounterDesc) -> Option<Timekeeper> {
    Timekeeper::open(alloc, desc, 0, OPENED_TIME).ok()
}

/// Opens a keeper with memory for a full journal.
fn reserved(alloc: Global, desc: CounterDesc) -> Option<Timekeeper> {
    let mut keeper = opened(alloc, desc)?;
    match keeper.reserve(LISTED as usize) {
        Ok(()) => Some(keeper),
        Err(_) => None,
    }
}
