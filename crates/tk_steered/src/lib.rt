//! Steers clocks as adjtimex(2) does, and keeps the journal of all commands that they are given.
//!
//! | Item | Its meaning |
//! |---|---|
//! | `Steered` | a `Timekeeper` that a discipline steers |
//!
//! A second of REALTIME and a command make at most `SECOND_ENTRIES_LIMIT` entries, a request at most
//! `REQUEST_ENTRIES_LIMIT` (tk_ntp).
//!
//! Units: readings in cycles. Entries are numbered from 1. Only `advance`, `advance_late`, `adjtimex`,
//! `apply` and `reserve` allocate, while the memory that was reserved isn't enough. No call waits.
#![tactic(auto)]

mod steered;

pub use steered::Steered;
