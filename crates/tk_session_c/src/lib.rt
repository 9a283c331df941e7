//! Offers sessions to C: the functions of include/tkcore_session.h, a thin layer over tk_session and
//! tk_script.
//!
//! | Item | Its meaning |
//! |---|---|
//! | `tkc_session_*` | begin a session, take records of a script, return their number, store a snapshot or the words of its clocks |
//! | `tkc_row_parse` | parses a record without carrying it out |
//! | `TextStorage`, `SnapshotStorage`, `RowStorage` | memory that a text, a snapshot or a row is written to |
//! | `Code` | the codes that calls return |
//!
//! Units are the same as in tk_session; include/tkcore_session.h states them for C. No call
//! allocates or waits.
#![tactic(auto)]

mod code;
mod fault_text;
mod number_words;
mod request_storage;
mod row_storage;
mod rows;
mod saved;
mod sessions;
mod storage;

pub use code::Code;
pub use request_storage::RequestStorage;
pub use row_storage::RowStorage;
pub use rows::tkc_row_parse;
pub use saved::{SAVED_WORDS, tkc_session_save};
pub use sessions::{
    tkc_session_begin, tkc_session_differences, tkc_session_record, tkc_session_records,
    tkc_session_snapshot,
};
pub use storage::{BaseStorage, CounterStorage, SnapshotStorage, TextStorage};
