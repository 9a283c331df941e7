//! Times the calls of one thread, lists of stamps and whole texts: the least time of some turns.
//!
//! | Arguments | Output |
//! |---|---|
//! | none | for each job a line `JOB<tab>CHECK`, after few turns |
//! | `time` | for each job a line `JOB<tab>NUMBER<tab>UNIT<tab>CHECK` |
//! | `time JOB..` | the lines of `time` only for these jobs |
//!
//! NUMBER is the least figure of some turns. A turn's figure is its time, in ns for each item that
//! UNIT names or in ms for the whole, or the time of its longest item, in us.
//! CHECK is computed from all results of the last turn. The peer in `bench/peer` has jobs of the
//! same names. `bench/run` runs it and this program alternately and compares the checks.
//!
//! The status is 1 if a job failed or its line couldn't be printed, and 2 for other arguments.
#![tactic(auto)]

mod applied;
mod batches;
mod bench;
mod clocks;
mod digest;
mod inputs;
mod keepers;
mod steered;
mod texts;
mod traces;

use applied::run_applied;
use batches::run_batches;
use bench::Bench;
use clocks::run_clocks;
use keepers::run_keepers;
use std::process::ExitCode;
use std::rt::Env;
use std::thread::Threads;
use std::time::Clock as Hours;
use std::{env, io};
use steered::run_steered;
use texts::run_texts;
use traces::run_traces;

fn main(rt: HostRuntime) -> ExitCode {
    let Ok(words) = words_of(&rt) else {
        return ExitCode::from(2);
    };
    let Some(bench) = Bench::of_words(&rt, words.as_slice()) else {
        return ExitCode::from(2);
    };
    ExitCode::from(u8::from(!run_all(&rt, &bench)))
}

/// Returns the process's arguments. The first one is the program's name.
fn words_of(rt: &(impl Env + AllocGlobal)) -> io::Result<Vec<String>> {
    Ok(env::args(rt)?.collect(rt.alloc())?)
}

/// Runs the jobs that the arguments name. Returns `false` after the first one that failed.
fn run_all(rt: &(impl Threads + Hours + Sync), bench: &Bench<'_>) -> bool {
    run_clocks(rt, bench)
        && run_keepers(rt, bench)
        && run_batches(rt, bench)
        && run_traces(rt, bench)
        && run_texts(rt, bench)
        && run_steered(rt, bench)
        && run_applied(rt, bench)
}
