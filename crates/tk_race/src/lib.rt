//! Runs races: actors in separate threads, on one shared keeper.
//!
//! | Item | Its meaning |
//! |---|---|
//! | `race` | runs the actions of every actor in a separate thread |
//! | `Action` | a command, a read of the page or of the latch, or a clock's time now |
//! | `RaceReply` | the result of an action |
//! | `RaceReport` | the keeper at the end, and all replies |
//! | `RaceError` | why a race gives no report |
//! | `Gate`, `NoGate` | called before and after the actions of an actor; from `tk_pieces` |
//!
//! `race` allocates before it starts the first thread, and waits until all actors are done. Actors
//! are numbered from 0. An actor's number is also the number of its caller and of the piece that a
//! `Gate` gets. Commands, readings and times are the types of `tk_clock`.
#![tactic(auto)]

mod action;
mod actor;
mod one_step;
mod race_error;
mod racing;
mod report;
mod starting;

pub use action::{Action, RaceReply};
pub use race_error::RaceError;
pub use racing::race;
pub use report::RaceReport;
pub use tk_pieces::{Gate, NoGate};
