//! Publishes clock snapshots on a page of eight 64-bit words: one publisher writes, and any number
//! of viewers read the latest snapshot.
//!
//! | Item | Its meaning |
//! |---|---|
//! | `Page` | the words; opened with the snapshot of a journal without entries |
//! | `Publisher` | adds entries to the page's journal and publishes its snapshots |
//! | `Viewer` | reads the latest snapshot; the journal that it sees never gets shorter |
//! | `PageError` | why a page can't be opened |
//!
//! Only `Page::open` allocates: the journal exists only in proofs. `publish`, `publish_for`, `read`
//! and `tell` may wait; the head of src/page.rt says for whom. No other call waits. Units are the
//! same as in `tk_clock`. A front is the number of entries of a journal.
#![tactic(auto)]

mod cell;
mod packing;
mod page;
mod page_error;
mod plays;
mod publisher;
mod rule;
mod view;
mod viewer;

pub use page::Page;
pub use page_error::PageError;
pub use publisher::Publisher;
pub use viewer::Viewer;
