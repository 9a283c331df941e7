//! The knowledge of a notice's seats, and the rule that every step keeps.
//!
//! The types are for proofs: no value of them ever exists.

mod steps;

use atomic_table::{Table, TableRule};
use std::alloc::Global;
use std::collections::LinkedList;
pub(crate) use steps::{
    Accepts, Announces, Begins, Compares, Ends, Hands, KeepsNote, NamesReading, Recounts, Returns,
    Withdraws,
};

/// Describes a reading of the counter.
pub struct Taken {
    /// The moment before it was taken.
    pub from: u64,
    /// The moment after it was taken.
    pub to: u64,
    /// The reading, in cycles.
    pub reading: u64,
}

/// Describes a reading that a reader took.
pub struct Answer {
    /// The number of the latest command that was accepted before it; the opening is number 0.
    pub place: u64,
    /// The reading.
    pub taken: Taken,
}

/// Describes the activity of a seat.
pub enum Role {
    /// No activity: the seat was joined to the writer's.
    Spent,
    /// A reader at rest, with the words that its loads have found.
    Resting(LinkedList<u64>),
    /// A reader between its two loads: the words found so far, the word that the first load found,
    /// and the moment of that load.
    Timing(LinkedList<u64>, u64, u64),
    /// The writer while no command is in progress.
    Idle,
    /// The writer while a command is in progress, and the moment of the announcement.
    Announced(u64),
    /// The writer while no command is in progress, with a note of the commands and answers that
    /// a reader knew.
    Noting(LinkedList<Taken>, LinkedList<Answer>),
}

/// Describes the knowledge of a seat.
pub struct View {
    /// The readings of the accepted commands, the opening's first.
    pub commands: LinkedList<Taken>,
    /// The readings that readers took, of all threads.
    pub log: LinkedList<Answer>,
    /// Its activity.
    pub role: Role,
}

/// States the rule of a notice's word.
pub struct Law;

impl TableRule<(), View, u64> for Law {
    ghost use Rattle.tk_now.specs.Rule.{Kept, started};

    ghost holds = { λ _ state. Kept state };

    ghost first = { started };
}

/// The word of a notice, under its rule.
pub(crate) type Words<A = Global> = Table<(), View, u64, Law, A>;
