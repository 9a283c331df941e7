//! Keeps the clocks of a free-running counter: commands, the journal's definitions, the running
//! state and its snapshots.
//!
//! | Item | Its meaning |
//! |---|---|
//! | `Clock` | the running clocks: opened at a reading, changed by commands |
//! | `Snapshot` | a reader's copy of the clocks: converts readings to times |
//! | `Clocks` | keeps clocks and takes commands for them: a `Clock` does, and a keeper of a journal |
//! | `Command`, `Entry` | a change to the clocks; an accepted one with its caller and its reading |
//! | `Refusal` | the first test that a command fails |
//! | `ClockId`, `ReadError` | the clock that is read; why it can't be read |
//! | `Origin` | a clock between two commands: its amount, its slope, its offset, its limit |
//! | `Timespec` | seconds and nanoseconds |
//! | `time_moved` | a time in ns, moved by an amount |
//! | `COUNTED_LIMIT` | the most commands that are counted |
//! | `SNAPSHOT_WORDS` | the number of words of a snapshot |
//!
//! Units: readings in cycles; amounts of time inside in `2^-shift` ns; offsets in ns; frequencies
//! in `2^-16` ppm; ticks in microseconds; the TAI offset in seconds. No call allocates or waits.
#![tactic(auto)]

mod amount;
mod clock;
mod clock_id;
mod clocks;
mod command;
mod limits;
mod origin;
mod read_base;
mod refusal;
mod snapshot;
mod timespec;

pub use clock::{Clock, time_moved};
pub use clock_id::ClockId;
pub use clocks::Clocks;
pub use command::{Command, Entry};
pub use limits::COUNTED_LIMIT;
pub use origin::Origin;
pub use refusal::{ReadError, Refusal};
pub use snapshot::{SNAPSHOT_WORDS, Snapshot};
pub use timespec::Timespec;
