//! Times reports of scripts and traces by stamp files, from bytes to text.

use crate::bench::{Bench, Job, Unit};
use crate::digest::of_bytes;
use crate::inputs::{COMMANDS, Fronts, script, stamp_file};
use std::alloc::{AllocError, Global};
use std::thread::Threads;
use std::time::Clock as Hours;
use tk_clock::ClockId;
use tk_replay::{report, trace};

/// Makes the report of a script.
#[derive(Drop)]
struct Report {
    alloc: Global,
    script: Vec<u8>,
    text: Vec<u8>,
}

impl Job for Report {
    fn turn<R: Threads + Hours + Sync>(&mut self, _rt: &R) -> bool {
        self.text = Vec::new(self.alloc);
        match report(self.alloc, self.script.as_slice()) {
            Ok(text) => {
                self.text = text;
                true
            }
            Err(_) => false,
        }
    }

    fn check(&self) -> u64 {
        of_bytes(self.text.as_slice())
    }
}

/// Converts the stamps of a file into TAI.
#[derive(Drop)]
struct Trace {
    alloc: Global,
    script: Vec<u8>,
    stamps: Vec<u8>,
    text: Vec<u8>,
}

impl Job for Trace {
    fn turn<R: Threads + Hours + Sync>(&mut self, rt: &R) -> bool {
        self.text = Vec::new(self.alloc);
        let (mut script, mut stamps) = (self.script.as_slice(), self.stamps.as_slice());
        let traced = trace(
            self.alloc,
            rt,
            &mut script,
            &mut stamps,
            ClockId::Tai,
            &mut self.text,
        );
        traced.is_ok()
    }

    fn check(&self) -> u64 {
        of_bytes(self.text.as_slice())
    }
}

/// Times reports of 100,000 and a million records, and traces of a million and 100,000 stamps, with
/// all kinds of fronts. Returns `false` if a call fails.
pub(crate) fn run_texts(rt: &(impl Threads + Hours + Sync), bench: &Bench<'_>) -> bool {
    if !bench.wants_any("text_") {
        return true;
    }
    run_report(rt, bench, "text_report_100000", 50_000, "tai")
        && run_report(rt, bench, "text_report_utc_100000", 50_000, "realtime")
        && run_report(rt, bench, "text_report_1000000", 500_000, "tai")
        && run_trace(rt, bench, "text_trace_equal_1000000", Fronts::Equal)
        && run_trace(rt, bench, "text_trace_thousands_1000000", Fronts::Thousands)
        && run_trace(rt, bench, "text_trace_tens_100000", Fronts::Tens)
        && run_trace(rt, bench, "text_trace_ones_100000", Fronts::Ones)
        && run_trace(rt, bench, "text_trace_random_100000", Fronts::Random)
}

/// Times the reports of a script of `pairs` updates, each followed by a read of this clock.
fn run_report(
    rt: &(impl Threads + Hours + Sync),
    bench: &Bench<'_>,
    name: &str,
    pairs: u64,
    clock: &str,
) -> bool {
    let alloc = bench.alloc();
    let Ok(script) = script(alloc, pairs, Some(clock)) else {
        return false;
    };
    let mut job = Report {
        alloc,
        script,
        text: Vec::new(alloc),
    };
    let turns = if pairs > 100_000 { 4 } else { 20 };
    bench.run(rt, name, Unit::Whole, turns, &mut job)
}

/// Times the traces of a stamp file with these fronts.
fn run_trace(
    rt: &(impl Threads + Hours + Sync),
    bench: &Bench<'_>,
    name: &str,
    fronts: Fronts,
) -> bool {
    match traced(bench.alloc(), fronts) {
        Ok(mut job) => bench.run(rt, name, Unit::Whole, 4, &mut job),
        Err(_) => false,
    }
}

/// Makes the texts of a trace: a million stamps if their fronts change seldom, otherwise 100,000.
fn traced(alloc: Global, fronts: Fronts) -> Result<Trace, AllocError> {
    let count = match fronts {
        Fronts::Equal | Fronts::Thousands => 1_000_000,
        Fronts::Tens | Fronts::Ones | Fronts::Random => 100_000,
    };
    let script = script(alloc, COMMANDS, None)?;
    let stamps = stamp_file(alloc, count, fronts)?;
    Ok(Trace {
        alloc,
        script,
        stamps,
        text: Vec::new(alloc),
    })
}
