//! Makes the outputs of examples, and compares them with the stored ones.
//!
//! Standard input lists the examples, one per line:
//!
//! - `NAME` is the script `NAME.csv`, with the expected report in `NAME.report`.
//! - `CLOCK NAME` is a trace of that clock: the script `NAME.csv` and the stamps `NAME.stamps`,
//!   with the expected values in `NAME.trace`.
//!
//! If the program refuses an example, `NAME.fault` contains the expected message instead. Status 0
//! means that all outputs are as expected. Status 1 means that one differs, that a file can't be
//! read, or that a result can't be written.
#![tactic(auto)]

use std::alloc::{AllocError, Global};
use std::process::ExitCode;
use std::thread::Threads;
use std::{fs, io};
use tk_clock::ClockId;
use tk_replay::{Fault, report, report_bounded, trace};
use tk_script::{ScriptError, clock_word};

/// The result of comparing an example's output with the expected one.
#[derive(Clone, Copy, PartialEq, Eq)]
enum Verdict {
    AsExpected,
    Differs,
}

fn main(rt: HostRuntime) -> ExitCode {
    match check_all(&rt, &rt) {
        Ok(Verdict::AsExpected) => ExitCode::from(0),
        Ok(Verdict::Differs) | Err(_) => ExitCode::from(1),
    }
}

/// Checks the examples that standard input lists, and prints the result of each.
fn check_all(rt: &HostRuntime, threads: &(impl Threads + Sync)) -> io::Result<Verdict> {
    let mut all = Verdict::AsExpected;
    for line in rt.lines(rt.alloc()) {
        let example = line?;
        match check(rt, threads, example.as_str())? {
            Verdict::AsExpected => println!(rt; "{example}: as expected")?,
            Verdict::Differs => {
                println!(rt; "{example}: differs")?;
                all = Verdict::Differs;
            }
        }
    }
    Ok(all)
}

/// Checks the script or the trace that a line names.
fn check(rt: &HostRuntime, threads: &(impl Threads + Sync), example: &str) -> io::Result<Verdict> {
    match example.split_once(' ') {
        None => check_report(rt, example),
        Some((word, name)) => match clock_word(word.as_bytes()) {
            Some(clock) => check_trace(rt, threads, clock, name),
            None => Ok(Verdict::Differs),
        },
    }
}

/// Compares the report of an example with the expected one. No example fills a journal, so
/// `report_bounded` must give the same report.
fn check_report(rt: &HostRuntime, name: &str) -> io::Result<Verdict> {
    let alloc = rt.alloc();
    let script = fs::read(rt, format!(in alloc; "{name}.csv")?)?;
    let expected = expected_of(rt, name, "report")?;
    let text = text_of(alloc, report(alloc, script.as_slice()))?;
    let folded = text_of(alloc, report_bounded(alloc, script.as_slice(), 1))?;
    Ok(verdict_if(
        text.as_slice() == expected.as_slice() && folded.as_slice() == expected.as_slice(),
    ))
}

/// Compares the trace of an example with the expected one.
fn check_trace(
    rt: &HostRuntime,
    threads: &(impl Threads + Sync),
    clock: ClockId,
    name: &str,
) -> io::Result<Verdict> {
    let alloc = rt.alloc();
    let mut script = fs::open(rt, format!(in alloc; "{name}.csv")?)?;
    let mut stamps = fs::open(rt, format!(in alloc; "{name}.stamps")?)?;
    let expected = expected_of(rt, name, "trace")?;
    let mut text = Vec::new(alloc);
    if let Err(fault) = trace(alloc, threads, &mut script, &mut stamps, clock, &mut text) {
        text = fault_text(alloc, fault)?;
    }
    Ok(verdict_if(text.as_slice() == expected.as_slice()))
}

fn verdict_if(is_as_expected: bool) -> Verdict {
    if is_as_expected {
        Verdict::AsExpected
    } else {
        Verdict::Differs
    }
}

/// Reads the expected output of an example, or its expected fault.
fn expected_of(rt: &HostRuntime, name: &str, ending: &str) -> io::Result<Vec<u8>> {
    let alloc = rt.alloc();
    match fs::read(rt, format!(in alloc; "{name}.{ending}")?) {
        Ok(text) => Ok(text),
        Err(_) => fs::read(rt, format!(in alloc; "{name}.fault")?),
    }
}

/// Returns a report, or its fault as the program prints it.
fn text_of(alloc: Global, outcome: Result<Vec<u8>, ScriptError>) -> Result<Vec<u8>, AllocError> {
    match outcome {
        Ok(text) => Ok(text),
        Err(error) => fault_text(alloc, Fault::from(error)),
    }
}

/// Returns a fault as the program prints it.
fn fault_text(alloc: Global, fault: Fault) -> Result<Vec<u8>, AllocError> {
    Ok(format!(in alloc; "tkcore: {fault}\n")?.into_bytes())
}
