//! Times commands of keepers in the same second: of a plain one, and of one that is steered.

use crate::bench::{Bench, Job, Unit};
use crate::digest::of_snapshot;
use crate::inputs::OPENED_TIME;
use std::alloc::Global;
use std::thread::Threads;
use std::time::Clock as Hours;
use tk_clock::{Command, Snapshot};
use tk_counter::CounterDesc;
use tk_keeper::Timekeeper;
use tk_ntp::SECOND_ENTRIES_LIMIT;
use tk_steered::Steered;

/// The number of updates in a turn, 1 microsecond apart: all are in the first second.
const UPDATES: usize = 100_000;

/// The number of entries that memory is reserved for: more than those of the updates, since a
/// steered keeper wants room for a whole second's entries before each update.
const RESERVED: usize = UPDATES + SECOND_ENTRIES_LIMIT;

/// The cycles of a microsecond.
const STEP: u64 = 1_000;

/// The number of parts of a second that phases are divided into.
const HZ: u32 = 1_000;

const TURNS: u32 = 100;

/// Keeps the journal of its commands.
trait Keeper: Drop {
    /// Opens a keeper with memory for a turn's commands. Returns `None` if a call fails.
    fn reserved(alloc: Global, desc: CounterDesc) -> Option<Self>;

    /// Applies an update. Returns `None` if it is refused.
    fn update(&mut self, reading: u64) -> Option<u64>;

    /// Returns the snapshot of the last command.
    fn last(&self) -> Snapshot;
}

impl Keeper for Timekeeper {
    fn reserved(alloc: Global, desc: CounterDesc) -> Option<Timekeeper> {
        let mut keeper = Timekeeper::open(alloc, desc, 0, OPENED_TIME).ok()?;
        keeper.reserve(RESERVED).ok()?;
        Some(keeper)
    }

    fn update(&mut self, reading: u64) -> Option<u64> {
        self.apply(0, reading, Command::Update).ok()
    }

    fn last(&self) -> Snapshot {
        self.snapshot()
    }
}

impl Keeper for Steered {
    fn reserved(alloc: Global, desc: CounterDesc) -> Option<Steered> {
        let mut steered = Steered::open(alloc, desc, 0, OPENED_TIME, HZ).ok()?;
        steered.reserve(RESERVED).ok()?;
        Some(steered)
    }

    fn update(&mut self, reading: u64) -> Option<u64> {
        self.apply(0, reading, Command::Update).ok()
    }

    fn last(&self) -> Snapshot {
        self.keeper().snapshot()
    }
}

/// Applies updates to a keeper.
#[derive(Drop)]
struct Updates<K> {
    alloc: Global,
    desc: CounterDesc,
    keeper: K,
}

impl<K: Keeper> Job for Updates<K> {
    fn ready(&mut self) {
        if let Some(keeper) = K::reserved(self.alloc, self.desc) {
            self.keeper = keeper;
        }
    }

    fn turn<R: Threads + Hours + Sync>(&mut self, _rt: &R) -> bool {
        let mut reading = 0u64;
        for _ in 0..UPDATES {
            reading = reading.wrapping_add(STEP);
            if self.keeper.update(reading).is_none() {
                return false;
            }
        }
        true
    }

    fn check(&self) -> u64 {
        of_snapshot(&self.keeper.last())
    }
}

/// Times updates of a keeper, and of a steered one. Returns `false` if a call fails.
pub(crate) fn run_applied(rt: &(impl Threads + Hours + Sync), bench: &Bench<'_>) -> bool {
    if !bench.wants_any("keeper_apply_") && !bench.wants_any("ntp_keeper_") {
        return true;
    }
    run_updates::<Timekeeper, _>(rt, bench, "keeper_apply_1us")
        && run_updates::<Steered, _>(rt, bench, "ntp_keeper_apply_1us")
}

fn run_updates<K: Keeper, R: Threads + Hours + Sync>(
    rt: &R,
    bench: &Bench<'_>,
    name: &str,
) -> bool {
    let alloc = bench.alloc();
    let Ok(desc) = CounterDesc::new(64, bench.unknown().wrapping_add(16_777_216), 24) else {
        return false;
    };
    let Some(keeper) = K::reserved(alloc, desc) else {
        return false;
    };
    let mut job = Updates {
        alloc,
        desc,
        keeper,
    };
    let unit = Unit::Each(UPDATES as u64, "command");
    bench.run(rt, name, unit, TURNS, &mut job)
}
