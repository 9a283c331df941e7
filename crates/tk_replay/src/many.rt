//! Makes the reports of many scripts on several threads.
ghost use Rattle.std.specs.Prelude.{◌≡◌, ◌↔◌, ◌≤◌, IfOk, Err, MatchResult, length};
ghost use Rattle.tk_clock.specs.Refusal.{first_refusal};
ghost use Rattle.tk_report.specs.Reports.{IsReportBy};
ghost use Rattle.tk_script.specs.Grammar.{Fails, parse_of};
ghost use Rattle.tk_pieces.specs.Workers.{most_workers};
ghost use Rattle.tk_replay.specs.Many.{AreOutcomes, IsCountRefused};

use crate::many_error::ManyError;
use crate::worklist::{NamesScripts, Outcome, Worklist};
use std::alloc::Global;
use std::marker::Brand;
use std::sync::{Mutex, Wait};
use std::thread;
use std::thread::{Scope, Threads};
use tk_pieces::{Gate, WORKERS_LIMIT};
use tk_report::{CheckedReport, report_rows};
use tk_script::{RowReader, ScriptError};

/// Makes the reports of all scripts, as `report` does, on at most `workers` threads, counts the reads
/// that do not give the value that their record states, and returns the results in the scripts'
/// order.
///
/// It starts one thread for each worker, but no more than there are scripts. A worker repeatedly
/// takes the next free script, until none remains, so a long script delays only its own worker. The
/// worker calls `gate.before` with the script's index, from 0, before it makes the report, and
/// `gate.after` afterwards. The call waits for its threads.
///
/// # Errors
///
/// Returns the first of these:
/// - `Count`: `workers` is 0 or more than 64
/// - `Memory`: the list of results could not be allocated; no thread was started
/// - `Threads`: a thread could not be started; the others take no further script, and have ended
///   when the call returns
pub fn replay_all<G: Gate + Sync, R: Threads + Wait + Sync>(
    alloc: Global,
    rt: &R,
    scripts: &[Vec<u8>],
    workers: usize,
    gate: &G,
) -> Result<Vec<Result<CheckedReport, ScriptError>>, ManyError>
    ensures each { IfOk result (λ outcomes. AreOutcomes scripts.now outcomes.items) }
    ensures count { (result ≡ Err ManyError.Count) ↔ IsCountRefused workers }
{
    if workers == 0 || workers > WORKERS_LIMIT {
        return Err(ManyError::Count);
    }
    replay_shared::<Brand, G, R>(alloc, rt, scripts, workers, gate)
}

/// Makes the reports of the scripts that the type `S` names.
fn replay_shared<S: NamesScripts + Send + Sync, G: Gate + Sync, R: Threads + Wait + Sync>(
    alloc: Global,
    rt: &R,
    scripts: &[Vec<u8>],
    workers: usize,
    gate: &G,
) -> Result<Vec<Outcome>, ManyError>
    requires { scripts.now ≡ S.scripts }
    ensures each { IfOk result (λ outcomes. AreOutcomes scripts.now outcomes.items) }
    ensures count { result ≡ Err ManyError.Count → ⊥ }
{
    let Ok(worklist) = Worklist::<S>::new(alloc, scripts.len()) else {
        return Err(ManyError::Memory);
    };
    let shared = Mutex::new(worklist);
    let threads = workers.min(scripts.len());
    if !work_all(alloc, rt, scripts, threads, &shared, gate) {
        return Err(ManyError::Threads);
    }
    Ok(shared.into_inner().into_outcomes())
}

/// Lets `threads` threads work until all scripts are done. Returns whether all could be started.
fn work_all<S: NamesScripts + Send + Sync, G: Gate + Sync, R: Threads + Wait + Sync>(
    alloc: Global,
    rt: &R,
    scripts: &[Vec<u8>],
    threads: usize,
    shared: &Mutex<Worklist<S>>,
    gate: &G,
) -> bool
    requires { scripts.now ≡ S.scripts }
{
    thread::scope(
        thread::scope_env(),
        rt,
        move |scope| -> bool
            requires { scripts.now ≡ S.scripts }
        { start_all(alloc, scope, rt, scripts, threads, shared, gate) },
    )
}

/// Starts `threads` threads, and stops at the first one that can't be started.
fn start_all<'s, 'e, S: NamesScripts + Send + Sync + 'e, G: Gate + Sync, R: Threads + Wait + Sync>(
    alloc: Global,
    scope: &'s Scope<'s, &'e ()>,
    rt: &'e R,
    scripts: &'e [Vec<u8>],
    threads: usize,
    shared: &'e Mutex<Worklist<S>>,
    gate: &'e G,
) -> bool
    requires { scripts.now ≡ S.scripts }
{
    for _ in 0..threads {
        let run = move || -> ()
            requires { scripts.now ≡ S.scripts }
        { work(alloc, rt, scripts, shared, gate) };
        if scope.spawn(run).is_err() {
            shared.lock(rt).close();
            return false;
        }
    }
    true
}

/// Takes scripts and makes their reports until none remains.
fn work<S: NamesScripts, G: Gate, R: Wait>(
    alloc: Global,
    rt: &R,
    scripts: &[Vec<u8>],
    shared: &Mutex<Worklist<S>>,
    gate: &G,
)
    requires { scripts.now ≡ S.scripts }
{
    for _ in rt.forever() {
        let Some(job) = shared.lock(rt).take() else {
            return;
        };
        let piece = job.piece();
        let script = &scripts[piece];
        gate.before(piece);
        let outcome = outcome_of(alloc, script.as_slice());
        let finished = job.finish(gate, script, outcome);
        shared.lock(rt).hand_in(finished);
    }
}

/// Makes the report of a script, and counts its differences.
fn outcome_of(alloc: Global, script: &[u8]) -> Outcome
    ensures { MatchResult result
        (λ report. IsReportBy first_refusal script.now report.text.items report.differences)
        (λ error. Fails error (parse_of script.now)) }
{
    let (start, mut rows) = RowReader::open(alloc, script)?;
    report_rows(alloc, start, &mut rows, None)
}
