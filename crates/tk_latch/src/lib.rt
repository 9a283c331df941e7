//! Publishes clock snapshots to readers that never wait, as the kernel's `seqcount_latch_t`.
//!
//! | Item | Its meaning |
//! |---|---|
//! | `Latch` | a sequence word and two copies of a snapshot's words |
//! | `READERS_LIMIT` | the greatest number of readers of a latch |
//! | `LatchWriter` | publishes snapshots; a latch has one writer |
//! | `LatchReader` | reads the latest snapshot, and knows the number of publications |
//! | `LatchError` | why a latch can't be opened |
//! | `PageFull`, `Moved` | why a snapshot isn't published, and why a read returned none |
//!
//! No call waits, neither a reader's nor the writer's. Only `Latch::open` allocates. Publications
//! are numbered: the opening is number 0, and publication k is the snapshot with front k. Units are
//! the same as in `tk_clock`.
#![tactic(auto)]

mod errors;
mod latch;
mod reader;
mod rule;
mod writer;

pub use errors::{LatchError, Moved, PageFull};
pub use latch::{Latch, READERS_LIMIT};
pub use reader::LatchReader;
pub use writer::LatchWriter;
