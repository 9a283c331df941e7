//! Times reports of many scripts, by one worker and by four.
use std::alloc::{AllocError, Global};
use std::fmt::Write;
use std::sync::Wait;
use std::thread::Threads;
use std::time::{Clock as Hours, Instant};
use tk_race::NoGate;
use tk_replay::{CheckedReport, replay_all};
use tk_test_support::{Effort, IN_MILLISECONDS, Turn};

const SCRIPTS: usize = 8;

/// The number of updates of a script in a full turn. A read follows each.
const PAIRS: u64 = 50_000;

/// Returns a script of an opening, and of updates that alternate with reads of TAI.
fn script(alloc: Global, pairs: u64) -> Result<Vec<u8>, std::fmt::Error> {
    let mut text = String::new(alloc);
    text.push_str("open,32,16777216,24,0,1700000000,0\n")?;
    for place in 0..pairs {
        write!(text, "update,{place}\nget,{place},tai\n")?;
    }
    Ok(text.into_bytes())
}

fn scripts(alloc: Global, pairs: u64) -> Result<Vec<Vec<u8>>, AllocError> {
    let mut scripts = Vec::new(alloc);
    for _ in 0..SCRIPTS {
        scripts.push(script(alloc, pairs).map_err(|_| AllocError)?)?;
    }
    Ok(scripts)
}

/// Returns a number computed from an earlier one, and from a text's bytes and their places.
fn weighed(before: u64, text: &[u8]) -> u64 {
    let mut sum = before;
    for byte in text {
        sum = sum.wrapping_mul(31).wrapping_add(u64::from(*byte));
    }
    sum
}

/// Times the reports of all scripts by `workers` workers. Returns `None` if a call or a report
/// fails.
pub fn turn<R: Threads + Wait + Hours + Sync>(
    rt: &R,
    alloc: Global,
    workers: usize,
    effort: Effort,
) -> Option<Turn> {
    match scripts(alloc, effort.of(PAIRS)) {
        Ok(scripts) => timed(rt, alloc, scripts.as_slice(), workers),
        Err(_) => None,
    }
}

/// Times the reports of these scripts.
fn timed<R: Threads + Wait + Hours + Sync>(
    rt: &R,
    alloc: Global,
    scripts: &[Vec<u8>],
    workers: usize,
) -> Option<Turn> {
    let start = Instant::now(rt).ok()?;
    let outcomes = replay_all(alloc, rt, scripts, workers, &NoGate).ok()?;
    let time = start.elapsed(rt).ok()?;
    let check = check_of(outcomes.as_slice())?;
    Some(Turn {
        time,
        count: IN_MILLISECONDS,
        check,
    })
}

/// Returns a number computed from all reports, or `None` if one of them is missing.
fn check_of<E>(outcomes: &[Result<CheckedReport, E>]) -> Option<u64> {
    let mut check = 0u64;
    for outcome in outcomes {
        let Ok(report) = outcome else {
            return None;
        };
        check = weighed(check, report.text.as_slice());
    }
    Some(check)
}
