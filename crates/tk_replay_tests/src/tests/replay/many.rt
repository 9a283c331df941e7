//! Tests many scripts at once: order, counts, threads and gates.

use super::notes::{Notes, assert_called_once};
use super::{REPORT, SCRIPT, assert_lines, assert_same, reported};
use std::alloc::{AllocError, Global};
use std::process::Abort;
use std::sync::Wait;
use std::sync::atomic::{AtomicU64, Ordering};
use std::thread;
use std::thread::Threads;
use tk_replay::{CheckedReport, Gate, ManyError, NoGate, replay_all};
use tk_script::ScriptError;

/// The result for one script.
type Outcome = Result<CheckedReport, ScriptError>;

/// The result of `replay_all`.
pub(super) type Outcomes = Result<Vec<Outcome>, ManyError>;

/// Stops the test unless this many workers give these outcomes.
pub(super) fn assert_outcomes<G: Gate + Sync>(
    rt: &(impl Abort + AllocGlobal + Threads + Wait + Sync),
    scripts: &[Vec<u8>],
    workers: usize,
    gate: &G,
    wanted: &Outcomes,
) {
    assert_same(rt, &all_of(rt, scripts, workers, gate), wanted);
}

/// Returns the reports of all scripts. It states nothing of them.
fn all_of<G: Gate + Sync>(
    rt: &(impl AllocGlobal + Threads + Wait + Sync),
    scripts: &[Vec<u8>],
    workers: usize,
    gate: &G,
) -> Outcomes {
    replay_all(rt.alloc(), rt, scripts, workers, gate)
}

/// Returns a report without differences.
pub(super) fn agreeing(text: Vec<u8>) -> CheckedReport {
    CheckedReport {
        text,
        differences: 0,
    }
}

/// Returns the reports of all scripts, made one by one.
pub(super) fn reports_of(rt: &(impl Abort + AllocGlobal), scripts: &[Vec<u8>]) -> Outcomes {
    let mut reports = Vec::new(rt.alloc());
    for script in scripts {
        let text = reported(rt.alloc(), false, script.as_slice()).expect(rt, "a report");
        reports.push(Ok(agreeing(text))).expect(rt, "memory");
    }
    Ok(reports)
}

/// Returns a list of these bytes.
pub(super) fn owned(rt: &(impl Abort + AllocGlobal), bytes: &[u8]) -> Vec<u8> {
    Vec::from_slice(rt.alloc(), bytes).expect(rt, "memory")
}

/// Returns this many copies of the script.
pub(super) fn copies(rt: &(impl Abort + AllocGlobal), count: usize) -> Vec<Vec<u8>> {
    let mut scripts = Vec::new(rt.alloc());
    for _ in 0..count {
        scripts.push(owned(rt, SCRIPT)).expect(rt, "memory");
    }
    scripts
}

/// A script whose second record has too few fields.
const SHORT: &[u8] = b"open,32,16777216,24,0,1700000000,0\nset,5,7\n";

/// One valid script, and one that isn't valid.
fn two(alloc: Global) -> Result<Vec<Vec<u8>>, AllocError> {
    let whole = Vec::from_slice(alloc, SCRIPT)?;
    let short = Vec::from_slice(alloc, SHORT)?;
    Ok(vec![in alloc; whole, short]?)
}

/// The outcomes of both.
fn two_outcomes(alloc: Global) -> Result<Vec<Outcome>, AllocError> {
    let whole = Ok(agreeing(Vec::from_slice(alloc, REPORT)?));
    let short = Err(ScriptError::Fields { row: 2 });
    Ok(vec![in alloc; whole, short]?)
}

/// Returns a script with this number of updates.
fn updates(rt: &(impl Abort + AllocGlobal), count: usize) -> Vec<u8> {
    let mut script = owned(rt, b"open,32,16777216,24,0,1700000000,0\n");
    for _ in 0..count {
        script.extend_from_slice(b"update,0\n").expect(rt, "memory");
    }
    script
}

/// Returns scripts of different lengths: the one at place n has n updates, and every third one has
/// the most.
fn uneven(rt: &(impl Abort + AllocGlobal), count: usize) -> Vec<Vec<u8>> {
    let mut scripts = Vec::new(rt.alloc());
    for place in 0..count {
        let many = if place % 3 == 0 { 2_000 } else { place };
        scripts.push(updates(rt, many)).expect(rt, "memory");
    }
    scripts
}

/// Holds all pieces until the wanted number has arrived.
#[derive(Drop)]
struct Meeting {
    wanted: u64,
    came: AtomicU64,
    late: AtomicU64,
}

impl Meeting {
    /// Counts one more, and waits for the others for at most 50,000,000 turns. Returns whether all
    /// have arrived.
    fn meet(&self) -> bool {
        self.came.fetch_add(1, Ordering::SeqCst);
        for _ in 0..50_000_000u32 {
            if self.came.load(Ordering::SeqCst) >= self.wanted {
                return true;
            }
            thread::yield_now();
        }
        false
    }
}

impl Gate for Meeting {
    fn before(&self, _piece: usize) {
        if !self.meet() {
            self.late.store(1, Ordering::SeqCst);
        }
    }

    fn after(&self, _piece: usize) {}
}

#[test]
fn all_workers_are_at_work_at_once(rt: HostRuntime) {
    for workers in [1, 2, 3, 64] {
        let scripts = copies(&rt, workers);
        let wanted = reports_of(&rt, scripts.as_slice());
        let gate = Meeting {
            wanted: workers as u64,
            came: AtomicU64::new(0),
            late: AtomicU64::new(0),
        };
        assert_outcomes(&rt, scripts.as_slice(), workers, &gate, &wanted);
        assert_same(&rt, &gate.late.load(Ordering::SeqCst), &0);
    }
}

/// Stops the test unless 1 to 64 workers give this result, and any other number is refused.
fn assert_for_1_to_64(
    rt: &(impl Abort + AllocGlobal + Threads + Wait + Sync),
    scripts: &[Vec<u8>],
    wanted: &Outcomes,
) {
    for workers in [1, 2, 64] {
        assert_outcomes(rt, scripts, workers, &NoGate, wanted);
    }
    for workers in [0, 65, usize::MAX] {
        assert_outcomes(rt, scripts, workers, &NoGate, &Err(ManyError::Count));
    }
}

#[test]
fn as_many_workers_as_are_asked_for(rt: HostRuntime) {
    let scripts = two(rt.alloc()).expect(&rt, "memory");
    let wanted = two_outcomes(rt.alloc()).expect(&rt, "memory");
    assert_for_1_to_64(&rt, scripts.as_slice(), &Ok(wanted));
}

#[test]
fn no_scripts_have_no_reports(rt: HostRuntime) {
    assert_for_1_to_64(&rt, &[], &Ok(Vec::new(rt.alloc())));
}

#[test]
fn reports_stand_in_the_order_of_their_scripts(rt: HostRuntime) {
    for (count, workers) in [
        (0, 4),
        (1, 4),
        (3, 64),
        (40, 1),
        (40, 2),
        (40, 3),
        (40, 4),
        (40, 64),
    ] {
        let scripts = uneven(&rt, count);
        let wanted = reports_of(&rt, scripts.as_slice());
        let gate = Notes::new();
        assert_outcomes(&rt, scripts.as_slice(), workers, &gate, &wanted);
        assert_called_once(&rt, &gate, count, workers);
    }
}

/// Stops the test unless the outcome is this one or `Memory`.
fn assert_or_memory(rt: &impl Abort, outcome: &Outcome, wanted: &Outcome) {
    if *outcome != Err(ScriptError::Memory) {
        assert_same(rt, outcome, wanted);
    }
}

/// Stops the test unless these are the outcomes of `two`, or `Memory` instead of some of them.
fn assert_two(rt: &impl Abort, outcomes: &[Outcome], wanted: &[Outcome]) {
    assert_same(rt, &outcomes.len(), &2);
    if let ([whole, short], [whole_wanted, short_wanted]) = (outcomes, wanted) {
        assert_or_memory(rt, whole, whole_wanted);
        assert_or_memory(rt, short, short_wanted);
    }
}

/// Stops the test unless two workers give these outcomes of `two`, or the allocation of the results
/// or a thread fails.
fn assert_two_or_none(
    rt: &(impl Abort + AllocGlobal + Threads + Wait + Sync),
    scripts: &[Vec<u8>],
    wanted: &[Outcome],
) {
    let gate = Notes::new();
    match all_of(rt, scripts, 2, &gate) {
        Ok(outcomes) => assert_two(rt, outcomes.as_slice(), wanted),
        Err(ManyError::Memory) => assert_called_once(rt, &gate, 0, 0),
        Err(error) => assert_same(rt, &error, &ManyError::Threads),
    }
}

#[test]
fn many_reports_or_want_of_them(rt: HostRuntime) {
    let alloc = rt.alloc();
    if let (Ok(scripts), Ok(wanted)) = (two(alloc), two_outcomes(alloc)) {
        assert_two_or_none(&rt, scripts.as_slice(), wanted.as_slice());
    }
}

/// `tests/harness/refuse_tests` runs it with each thread refused in turn, while the threads that
/// were started are held.
#[test]
fn no_script_is_taken_after_a_thread_is_missing(rt: HostRuntime) {
    let scripts = copies(&rt, 8);
    let gate = Notes::new();
    let taken = match all_of(&rt, scripts.as_slice(), 3, &gate) {
        Ok(_) => 8,
        Err(error) => {
            assert_same(&rt, &error, &ManyError::Threads);
            0
        }
    };
    assert_called_once(&rt, &gate, taken, 3);
}

#[test]
fn states_why_there_are_no_reports(rt: HostRuntime) {
    let errors = [ManyError::Count, ManyError::Memory, ManyError::Threads];
    let texts = "count out of range\nout of memory\ncannot start a thread\n";
    assert_lines(&rt, errors.as_slice(), texts);
}
