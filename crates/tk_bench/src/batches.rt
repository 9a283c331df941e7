//! Times lists of stamps by one snapshot, in the cache and beyond it, near the last command and far
//! from it.

use crate::bench::{Bench, Job, Unit};
use crate::digest::of_numbers;
use crate::inputs::{OPENED_TIME, OPENING, far_stamps, repeated, stamps};
use std::alloc::{AllocError, Global};
use std::thread::Threads;
use std::time::Clock as Hours;
use tk_clock::{Clock, ClockId, Command, Snapshot};
use tk_counter::CounterDesc;
use tk_lanes::{lane_batch, plain_batch};

/// Names the call that converts.
#[derive(Clone, Copy)]
enum Form {
    Lanes,
    Plain,
}

/// Names a list of stamps.
#[derive(Clone, Copy)]
enum List {
    /// 4,096 stamps, converted fifty times in a turn.
    Cached,
    /// The same number of stamps, up to 12 hours after the last command.
    Far,
    /// Ten million stamps.
    Large,
}

/// The jobs with each list.
const CACHED: [(&str, Form); 4] = [
    ("batch_lanes_4096", Form::Lanes),
    ("batch_lanes_4096_untested", Form::Lanes),
    ("batch_lanes_4096_memcpy", Form::Lanes),
    ("batch_plain_4096", Form::Plain),
];

const FAR: [(&str, Form); 1] = [("batch_lanes_12h", Form::Lanes)];

const LARGE: [(&str, Form); 4] = [
    ("batch_lanes_10000000", Form::Lanes),
    ("batch_lanes_10000000_untested", Form::Lanes),
    ("batch_lanes_10000000_memcpy", Form::Lanes),
    ("batch_plain_10000000", Form::Plain),
];

/// Converts one list, `times` times in a turn.
#[derive(Drop)]
struct Batch {
    form: Form,
    snapshot: Snapshot,
    times: u32,
    stamps: Vec<u64>,
    out: Vec<u64>,
}

impl Job for Batch {
    fn turn<R: Threads + Hours + Sync>(&mut self, _rt: &R) -> bool {
        let snapshot = self.snapshot;
        let (stamps, out) = (self.stamps.as_slice(), self.out.as_mut_slice());
        if stamps.len() != out.len() {
            return false;
        }
        for _ in 0..self.times {
            let converted = match self.form {
                Form::Lanes => lane_batch(&snapshot, ClockId::Realtime, stamps, out),
                Form::Plain => plain_batch(&snapshot, ClockId::Realtime, stamps, out),
            };
            if converted.is_err() {
                return false;
            }
        }
        true
    }

    fn check(&self) -> u64 {
        of_numbers(self.out.as_slice())
    }
}

/// Times lists of 4,096 stamps, fifty times in a turn, and of ten million. One list of 4,096 stamps
/// goes up to 12 hours. Returns `false` if a call fails.
pub(crate) fn run_batches(rt: &(impl Threads + Hours + Sync), bench: &Bench<'_>) -> bool {
    if !bench.wants_any("batch_") {
        return true;
    }
    let Some(snapshot) = updated(bench.unknown()) else {
        return false;
    };
    run_list(rt, bench, snapshot, List::Cached, &CACHED)
        && run_list(rt, bench, snapshot, List::Far, &FAR)
        && run_list(rt, bench, snapshot, List::Large, &LARGE)
}

/// Times the jobs of these names with this list.
fn run_list(
    rt: &(impl Threads + Hours + Sync),
    bench: &Bench<'_>,
    snapshot: Snapshot,
    list: List,
    names: &[(&str, Form)],
) -> bool {
    match batch_of(bench.alloc(), snapshot, list) {
        Ok(mut job) => run_forms(rt, bench, &mut job, names),
        Err(_) => false,
    }
}

/// Makes a list, and the memory for its times.
fn batch_of(alloc: Global, snapshot: Snapshot, list: List) -> Result<Batch, AllocError> {
    let (stamps, times) = match list {
        List::Cached => (stamps(alloc, 4_096)?, 50),
        List::Far => (far_stamps(alloc, 4_096)?, 50),
        List::Large => (stamps(alloc, 10_000_000)?, 1),
    };
    let out = repeated(alloc, stamps.len(), 0)?;
    Ok(Batch {
        form: Form::Lanes,
        snapshot,
        times,
        stamps,
        out,
    })
}

/// Times the jobs of these names.
fn run_forms(
    rt: &(impl Threads + Hours + Sync),
    bench: &Bench<'_>,
    job: &mut Batch,
    names: &[(&str, Form)],
) -> bool {
    let (count, times) = (job.stamps.len() as u64, job.times);
    let turns = if times > 1 { 200 } else { 5 };
    let unit = Unit::Each(count.wrapping_mul(u64::from(times)), "stamp");
    for &(name, form) in names {
        job.form = form;
        job.out.fill(0);
        if !bench.run(rt, name, unit, turns, job) {
            return false;
        }
    }
    true
}

/// Returns a snapshot of clocks with one command, of a counter of one nanosecond a cycle.
fn updated(unknown: u32) -> Option<Snapshot> {
    let desc = CounterDesc::new(
        unknown.wrapping_add(48),
        unknown.wrapping_add(16_777_216),
        unknown.wrapping_add(24),
    )
    .ok()?;
    let mut clock = Clock::open(desc, OPENING, OPENED_TIME).ok()?;
    clock.apply(OPENING, Command::Update).ok()?;
    Some(clock.snapshot(1))
}
