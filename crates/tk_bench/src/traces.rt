//! Times lists of stamps by a journal: into a new list and into existing memory, in one thread and
//! in all.

use crate::bench::{Bench, Job, Unit};
use crate::digest::of_numbers;
use crate::inputs::{OPENED_TIME, OPENING, far_stamps, repeated, stamps};
use std::alloc::Global;
use std::thread::Threads;
use std::time::Clock as Hours;
use tk_clock::{ClockId, Command};
use tk_counter::CounterDesc;
use tk_keeper::Timekeeper;
use tk_pieces::{trace_all, trace_all_into};

/// Names the call that converts.
#[derive(Clone, Copy)]
enum Form {
    Trace,
    TraceInto,
    TraceAll,
    TraceAllInto,
}

/// All forms, with the beginnings of their jobs' names.
const FORMS: [(&str, Form); 4] = [
    ("trace_new", Form::Trace),
    ("trace_into", Form::TraceInto),
    ("pieces_new", Form::TraceAll),
    ("pieces_into", Form::TraceAllInto),
];

/// The size of the list of stamps that go up to 12 hours.
const FAR: &str = "12h";

/// Converts one list.
#[derive(Drop)]
struct Trace {
    form: Form,
    alloc: Global,
    keeper: Timekeeper,
    fronts: Vec<u64>,
    stamps: Vec<u64>,
    /// The list of the last turn.
    made: Vec<u64>,
    /// The existing memory.
    out: Vec<u64>,
}

impl Job for Trace {
    /// Frees the list of the last turn, which isn't part of the call.
    fn ready(&mut self) {
        self.made = Vec::new(self.alloc);
    }

    fn turn<R: Threads + Hours + Sync>(&mut self, rt: &R) -> bool {
        let (fronts, stamps) = (self.fronts.as_slice(), self.stamps.as_slice());
        let (keeper, clock) = (&self.keeper, ClockId::Realtime);
        let out = self.out.as_mut_slice();
        if fronts.len() != stamps.len() || stamps.len() != out.len() {
            return false;
        }
        let made = match self.form {
            Form::Trace => keeper.trace(fronts, stamps, clock),
            Form::TraceAll => trace_all(self.alloc, rt, keeper, fronts, stamps, clock),
            Form::TraceInto => return keeper.trace_into(fronts, stamps, clock, out).is_ok(),
            Form::TraceAllInto => {
                return trace_all_into(rt, keeper, fronts, stamps, clock, out).is_ok();
            }
        };
        match made {
            Ok(made) => {
                self.made = made;
                true
            }
            Err(_) => false,
        }
    }

    fn check(&self) -> u64 {
        match self.form {
            Form::Trace | Form::TraceAll => of_numbers(self.made.as_slice()),
            Form::TraceInto | Form::TraceAllInto => of_numbers(self.out.as_slice()),
        }
    }
}

/// Times all forms at 100,000, a million and ten million stamps, and the forms of one thread at
/// 100,000 stamps that go up to 12 hours. Returns `false` if a call fails.
pub(crate) fn run_traces(rt: &(impl Threads + Hours + Sync), bench: &Bench<'_>) -> bool {
    if !bench.wants_any("trace_") && !bench.wants_any("pieces_") {
        return true;
    }
    run_list(rt, bench, 100_000, "100000", 50, &FORMS)
        && run_list(rt, bench, 100_000, FAR, 50, &FORMS[..2])
        && run_list(rt, bench, 1_000_000, "1000000", 20, &FORMS)
        && run_list(rt, bench, 10_000_000, "10000000", 5, &FORMS)
}

/// Times these forms with a list of `count` stamps, whose size ends the names of the jobs.
fn run_list(
    rt: &(impl Threads + Hours + Sync),
    bench: &Bench<'_>,
    count: usize,
    size: &str,
    turns: u32,
    forms: &[(&str, Form)],
) -> bool {
    let stamps = if size == FAR {
        far_stamps(bench.alloc(), count)
    } else {
        stamps(bench.alloc(), count)
    };
    let Ok(stamps) = stamps else {
        return false;
    };
    match traced(bench.alloc(), bench.unknown(), stamps) {
        Some(mut job) => run_forms(rt, bench, &mut job, size, turns, forms),
        None => false,
    }
}

/// Makes the memory of a list's times, and a keeper.
fn traced(alloc: Global, unknown: u32, stamps: Vec<u64>) -> Option<Trace> {
    let keeper = opened(alloc, unknown)?;
    let fronts = repeated(alloc, stamps.len(), 1).ok()?;
    let out = repeated(alloc, stamps.len(), 0).ok()?;
    Some(Trace {
        form: Form::Trace,
        alloc,
        keeper,
        fronts,
        stamps,
        made: Vec::new(alloc),
        out,
    })
}

/// Times these forms.
fn run_forms(
    rt: &(impl Threads + Hours + Sync),
    bench: &Bench<'_>,
    job: &mut Trace,
    size: &str,
    turns: u32,
    forms: &[(&str, Form)],
) -> bool {
    let unit = Unit::Each(job.stamps.len() as u64, "stamp");
    for &(form_name, form) in forms {
        job.form = form;
        job.out.fill(0);
        let Ok(name) = format!(in bench.alloc(); "{form_name}_{size}") else {
            return false;
        };
        if !bench.run(rt, name.as_str(), unit, turns, job) {
            return false;
        }
    }
    true
}

/// Opens a keeper with one command, of a counter of one nanosecond a cycle.
fn opened(alloc: Global, unknown: u32) -> Option<Timekeeper> {
    let desc = CounterDesc::new(48, unknown.wrapping_add(16_777_216), 24).ok()?;
    let mut keeper = Timekeeper::open(alloc, desc, OPENING, OPENED_TIME).ok()?;
    match keeper.apply(0, OPENING, Command::Update) {
        Ok(_) => Some(keeper),
        Err(_) => None,
    }
}
