//! Contains the shared state of the workers: the scripts that no worker has taken, and the outcomes
//! so far.
ghost use Rattle.std.specs.Prelude.{◌≡◌, ◌+◌, ◌<◌, ◌≤◌, length, set, IfOk, IfNone, IfSome, Ok, Err, get_or};
ghost use Rattle.tk_replay.specs.Many.{AreOutcomes, IsOutcome};

use std::alloc::{AllocError, Global};
use std::marker::{Brand, Model, PhantomData};
use tk_pieces::Gate;
use tk_report::CheckedReport;
use tk_script::ScriptError;

/// The report of a script, or its first fault.
pub(crate) type Outcome = Result<CheckedReport, ScriptError>;

/// Names the scripts that workers share. It has no function, and no value of this type exists.
///
/// A contract knows only the type of the value under a lock, so the type names the scripts.
pub(crate) trait NamesScripts {
    ghost use Rattle.std.specs.Prelude.{ℕ, List};
    ghost use Rattle.std.specs.Global.{Vec};

    ghost scripts: { List (Vec ℕ) };
}

impl NamesScripts for Brand {
    ghost use Rattle.std.specs.Prelude.{[]};

    ghost scripts = { [] };
}

/// A script that one worker has taken.
///
/// `Worklist::take` makes it, and `Job::finish` consumes it. It can't be copied or dropped.
pub(crate) struct Job<S: NamesScripts> {
    piece: usize,
    of: PhantomData<S>,
}

impl<S: NamesScripts> Model for Job<S> {
    ghost use Rattle.std.specs.Prelude.{ℕ, ◌<◌, length};

    ghost Value = { ℕ };

    ghost view = { λ j. j.piece };

    ghost invariant = { λ j. j.piece < length S.scripts };
}

impl<S: NamesScripts> Job<S> {
    /// Returns the script's index, from 0.
    pub(crate) fn piece(&self) -> usize
        ensures value { result ≡ self.now }
        ensures within { result < length S.scripts }
    {
        self.piece
    }

    /// Calls `gate.after`, and returns the script's outcome as finished.
    ///
    /// `Worklist::hand_in` takes only a `Finished`, and no other call makes one. So the outcome of
    /// a script exists before its call of `gate.after`.
    pub(crate) fn finish<G: Gate>(self, gate: &G, script: &Vec<u8>, outcome: Outcome) -> Finished<S>
        requires script { script.now ≡ get_or S.scripts self script.now }
        requires outcome { IsOutcome script.now outcome }
        ensures piece { result.piece ≡ self }
        ensures outcome { result.outcome ≡ outcome }
    {
        let Job { piece, of } = self;
        gate.after(piece);
        Finished { piece, outcome, of }
    }
}

/// The outcome of a script that one worker took, after `gate.after` was called.
///
/// `Job::finish` makes it, and `Worklist::hand_in` consumes it.
pub(crate) struct Finished<S: NamesScripts> {
    piece: usize,
    outcome: Outcome,
    of: PhantomData<S>,
}

impl<S: NamesScripts> Model for Finished<S> {
    ghost use Rattle.std.specs.Prelude.{◌<◌, length};
    ghost use Rattle.tk_replay.specs.Many.{Done, IsOutcomeAt};

    ghost Value = { Done };

    ghost view = { λ f. record { piece = f.piece; outcome = f.outcome } };

    ghost invariant = { λ f.
        (f.piece < length S.scripts) × IsOutcomeAt S.scripts f.piece f.outcome };
}

/// The scripts that no worker has taken, and an outcome for each script.
#[derive(Drop)]
pub(crate) struct Worklist<S: NamesScripts> {
    taken: usize,
    /// Contains `Memory` for each script without an outcome so far.
    outcomes: Vec<Outcome>,
    of: PhantomData<S>,
}

impl<S: NamesScripts> Model for Worklist<S> {
    ghost use Rattle.std.specs.Prelude.{◌≤◌, length};
    ghost use Rattle.tk_replay.specs.Many.{Shared, AreOutcomes};

    ghost Value = { Shared };

    ghost view = { λ w. record { taken = w.taken; outcomes = w.outcomes.items } };

    ghost invariant = { λ w.
        (w.taken ≤ length w.outcomes.items) × AreOutcomes S.scripts w.outcomes.items };
}

impl<S: NamesScripts> Worklist<S> {
    /// Makes a list in which no script is taken, and allocates the capacity for all outcomes.
    pub(crate) fn new(alloc: Global, count: usize) -> Result<Worklist<S>, AllocError>
        requires { count ≡ length S.scripts }
        ensures { IfOk result (λ w. w.taken ≡ 0) }
    {
        let mut outcomes = Vec::with_capacity(alloc, count)?;
        for _ in 0..count {
            outcomes.push_reserved(Err(ScriptError::Memory));
        }
        Ok(Worklist {
            taken: 0,
            outcomes,
            of: PhantomData,
        })
    }

    /// Takes the next script. `None` means that all are taken.
    pub(crate) fn take(&mut self) -> Option<Job<S>>
        ensures some { IfSome result (λ job. (job ≡ self.old.taken)
            × (self.new.taken ≡ self.old.taken + 1)) }
        ensures none { IfNone result ((self.old.taken ≡ length S.scripts)
            × (self.new.taken ≡ self.old.taken)) }
        ensures outcomes { self.new.outcomes ≡ self.old.outcomes }
    {
        if self.taken == self.outcomes.len() {
            return None;
        }
        let piece = self.taken;
        self.taken += 1;
        Some(Job {
            piece,
            of: PhantomData,
        })
    }

    /// Stores the outcome of a script.
    pub(crate) fn hand_in(&mut self, finished: Finished<S>)
        ensures outcomes { self.new.outcomes
            ≡ set self.old.outcomes finished.piece finished.outcome }
        ensures taken { self.new.taken ≡ self.old.taken }
    {
        let Finished {
            piece,
            outcome,
            of: _,
        } = finished;
        self.outcomes[piece] = outcome;
    }

    /// Marks all scripts as taken.
    pub(crate) fn close(&mut self)
        ensures taken { self.new.taken ≡ length S.scripts }
        ensures outcomes { self.new.outcomes ≡ self.old.outcomes }
    {
        self.taken = self.outcomes.len();
    }

    /// Returns the outcomes, in the scripts' order.
    pub(crate) fn into_outcomes(self) -> Vec<Outcome>
        ensures value { result.items ≡ self.outcomes }
        ensures each { AreOutcomes S.scripts result.items }
    {
        let Worklist {
            taken: _,
            outcomes,
            of: _,
        } = self;
        outcomes
    }
}
