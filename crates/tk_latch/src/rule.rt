//! The knowledge of a latch's seats, and the rule that every step keeps.
//!
//! The types are for proofs: no value of them ever exists.

mod steps;

use atomic_table::{Table, TableRule};
use std::alloc::Global;
use std::collections::LinkedList;
pub(crate) use steps::{
    Begins, ChecksWord, Commits, Compares, CopiesWord, Ends, FindsWord, Hands, KeepsNote, Loads,
    Opens, ReplacesWord,
};
use tk_clock::Snapshot;
use tk_counter::CounterDesc;

/// Describes the known publications of a latch, the opening first.
pub struct History {
    /// The counter of all of them.
    pub counter: CounterDesc,
    /// The snapshots, by number.
    pub list: LinkedList<Snapshot>,
}

/// Describes the activity of a seat.
pub enum Role {
    /// No activity: the seat was joined to another one.
    Spent,
    /// A reader at rest, with the sequence numbers that its loads have found.
    Resting(LinkedList<u64>),
    /// A reader between its two loads of the sequence: the sequence numbers found so far, the first
    /// one of this read, and the latest one that it knows of.
    Reading(LinkedList<u64>, u64, u64),
    /// The writer while the sequence is odd, with the words of the new publication that are in
    /// copy 0.
    Making(LinkedList<u64>),
    /// The writer while the sequence is even, with the number of words of the latest publication
    /// that are in copy 1.
    Copying(u64),
    /// The writer at rest, with a note of the publications that a reader knew.
    Noting(History),
}

/// Describes the knowledge of a seat.
pub struct View {
    /// The publications that it knows of.
    pub history: History,
    /// Its activity.
    pub role: Role,
}

/// States the rule of a latch's words.
pub struct Law;

impl TableRule<(), View, Snapshot> for Law {
    ghost use Rattle.tk_latch.specs.Rule.{Latched, started};

    ghost holds = { λ _ state. Latched state };

    ghost first = { started };
}

/// The words of a latch, under its rule.
pub(crate) type Words<A = Global> = Table<(), View, Snapshot, Law, A>;
