//! Takes readings of a counter that many threads share, while no command is in progress.
//!
//! | Item | Its meaning |
//! |---|---|
//! | `Notice` | a word: the number of accepted commands, and whether one is in progress |
//! | `NoticeWriter` | announces commands; a notice has one writer |
//! | `NoticeReader` | reads the counter between two loads of the notice |
//! | `Timed` | a reading with the number of the command before it |
//! | `Busy` | why a call returned no reading |
//! | `SharedCounter` | a counter that many threads read |
//! | `Look` | the load or store of the notice before a read of the counter |
//! | `counts_are_in_order`, `answers_are_in_life` | laws about honest counters |
//! | `SharedTicker` | a counter of its own reads, for tests |
//! | `HostCounter` | the host's monotonic clock |
//!
//! No call waits. Only `Notice::open` and `Look::first` allocate. A moment is the number of steps
//! on the notice so far. Readings are in cycles of the counter.
#![tactic(auto)]

mod busy;
mod counter;
mod honest;
mod notice;
mod reader;
mod rule;
mod writer;

pub use busy::Busy;
pub use counter::{HostCounter, Look, SharedCounter, SharedTicker};
pub use honest::{answers_are_in_life, counts_are_in_order};
pub use notice::Notice;
pub use reader::{NoticeReader, Timed};
pub use writer::NoticeWriter;
