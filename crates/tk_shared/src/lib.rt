//! Shares a timekeeper under one lock among callers in many threads.
//!
//! | Item | Its meaning |
//! |---|---|
//! | `prepare`, `Prepared` | makes all parts of a shared keeper |
//! | `CALLERS_LIMIT` | the greatest number of callers |
//! | `SharedKeeper` | the lock, the page and the latch: commands, reads, folds, closing |
//! | `Caller` | gives commands and reads the clocks |
//! | `Closed`, `Missing` | the result of closing, and what a failed closing returns |
//! | `OpenError`, `OpenFault` | why a keeper can't be opened, and the counter |
//! | `now_never_falls` | a law: MONOTONIC never goes back; its comment lists the conditions |
//! | `NowFault`, `Late` | why there is no time now |
//! | `Counter`, `Ticker` | returns readings; a counter with even steps |
//! | `SharedReader` | reads a counter that many threads share |
//! | `Named` | names the parts of one keeper by a type, to show that they belong together |
//! | `Locked` | the value under the lock, whose invariant all proofs use |
//!
//! `command`, `follow` and `fold` wait for the lock. `command`, `follow`, `read`, `now` and `close`
//! may wait for threads that hold the words of the page, as does `prepare` by its contract; `now`
//! also waits for commands. No other call waits. Only `prepare`, `open` and `SharedReader::new`
//! allocate, and `command` when the prepared capacity is used up. Units are the same as in
//! `tk_clock`. A front is the number of accepted commands that a caller has seen on the page. A
//! mark is the number of the latest publication that it knows of on the latch.
#![tactic(auto)]

mod caller;
mod closing;
mod command_writer;
mod counter;
mod fault;
mod folds;
mod following;
mod lock;
mod locked;
mod named;
mod never_back;
mod now;
mod now_fault;
mod parts;
mod prepared;
mod shared_keeper;
mod shared_reader;
mod snapshot_writer;

pub use caller::Caller;
pub use closing::{Closed, Missing};
pub use counter::{Counter, Ticker};
pub use fault::{OpenError, OpenFault};
pub use locked::Locked;
pub use named::Named;
pub use never_back::now_never_falls;
pub use now_fault::{Late, NowFault};
pub use prepared::{CALLERS_LIMIT, Prepared, prepare};
pub use shared_keeper::SharedKeeper;
pub use shared_reader::SharedReader;
