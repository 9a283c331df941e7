//! Times reads of a snapshot, and updates of running clocks.

use crate::bench::{Bench, Job, TURNS, Unit};
use crate::digest::of_snapshot;
use crate::inputs::OPENED_TIME;
use std::thread::Threads;
use std::time::Clock as Hours;
use tk_clock::{Clock, ClockId, Command, Snapshot};
use tk_counter::CounterDesc;

/// The number of calls in a turn.
const CALLS: u64 = 1_000_000;

/// Reads a clock at readings in no order, up to a mask.
#[derive(Drop)]
struct Gets {
    snapshot: Snapshot,
    clock: ClockId,
    mask: u64,
    sum: u64,
}

impl Job for Gets {
    fn turn<R: Threads + Hours + Sync>(&mut self, _rt: &R) -> bool {
        let mut sum: u64 = 0;
        for turn in 0..CALLS {
            let reading = turn.wrapping_mul(0x9e37_79b9_7f4a_7c15) & self.mask;
            if let Ok(time) = self.snapshot.get(self.clock, reading) {
                sum = sum.wrapping_add(u64::from(time.nsec) ^ time.sec.unsigned_abs());
            }
        }
        self.sum = sum;
        true
    }

    fn check(&self) -> u64 {
        self.sum
    }
}

/// Updates clocks, `step` cycles apart.
#[derive(Drop)]
struct Updates {
    opened: Clock,
    step: u64,
    mask: u64,
    updated: Snapshot,
}

impl Job for Updates {
    fn turn<R: Threads + Hours + Sync>(&mut self, _rt: &R) -> bool {
        let mut clock = self.opened;
        let mut reading: u64 = 0;
        let mut accepted: u64 = 0;
        for _ in 0..CALLS {
            reading = reading.wrapping_add(self.step) & self.mask;
            if clock.apply(reading, Command::Update).is_ok() {
                accepted = accepted.wrapping_add(1);
            }
        }
        self.updated = clock.snapshot(accepted);
        true
    }

    fn check(&self) -> u64 {
        of_snapshot(&self.updated)
    }
}

/// Times reads near the last command and far from it, and updates 1 microsecond and 0.7 s apart.
/// Returns `false` if a call fails.
pub(crate) fn run_clocks(rt: &(impl Threads + Hours + Sync), bench: &Bench<'_>) -> bool {
    let unknown = bench.unknown();
    let Some(fine) = opened(unknown, 32, 16_777_216) else {
        return false;
    };
    let Some(wide) = opened(unknown, 64, 699_050_667) else {
        return false;
    };
    run_gets(rt, bench, "clock_get_1ms", fine, 0xf_ffff)
        && run_gets(rt, bench, "clock_get_2s", fine, 0x7fff_ffff)
        && run_gets(rt, bench, "clock_get_12h", wide, 0xff_ffff_ffff)
        && run_updates(rt, bench, "clock_apply_1us", fine, 1_000, 0xffff_ffff)
        && run_updates(rt, bench, "clock_apply_700ms", wide, 16_777_216, u64::MAX)
}

/// Times reads of REALTIME, which the compiler can't know.
fn run_gets(
    rt: &(impl Threads + Hours + Sync),
    bench: &Bench<'_>,
    name: &str,
    opened: Clock,
    mask: u64,
) -> bool {
    let clock = if bench.unknown() == 0 {
        ClockId::Realtime
    } else {
        ClockId::Tai
    };
    let mut job = Gets {
        snapshot: opened.snapshot(0),
        clock,
        mask,
        sum: 0,
    };
    bench.run(rt, name, Unit::Each(CALLS, "read"), TURNS, &mut job)
}

/// Times updates.
fn run_updates(
    rt: &(impl Threads + Hours + Sync),
    bench: &Bench<'_>,
    name: &str,
    opened: Clock,
    step: u64,
    mask: u64,
) -> bool {
    let mut job = Updates {
        opened,
        step,
        mask,
        updated: opened.snapshot(0),
    };
    bench.run(rt, name, Unit::Each(CALLS, "command"), TURNS, &mut job)
}

/// Opens clocks of a counter whose numbers the compiler can't know.
fn opened(unknown: u32, bits: u32, mult: u32) -> Option<Clock> {
    let desc = CounterDesc::new(
        unknown.wrapping_add(bits),
        unknown.wrapping_add(mult),
        unknown.wrapping_add(24),
    )
    .ok()?;
    Clock::open(desc, 0, OPENED_TIME).ok()
}
