//! Provides the common parts of the tests and benchmarks of several crates.
//!
//! | Item | Its meaning |
//! |---|---|
//! | `Heap` | an allocator that forwards requests to another one, and refuses chosen ones |
//! | `nanosecond_counter`, `OPENED_TIME`, `OPENED_REAL` | the clocks that most tests open |
//! | `OPENED_WORDS` | the words of their first snapshot |
//! | `CLOCKS` | the names of all clocks |
//! | `nanoseconds` | the nanoseconds of a clock's time |
//! | `RisingTimes` | counts the times of several threads that are below an earlier one |
//! | `next_random` | the next number of a random generator |
//! | `mixed_up` | finds two values of a list whose comparison is wrong |
//! | `PageDesk`, `opened_page` | clocks with the publisher of their journal, on a page |
//! | `STEP`, `reading_of` | clocks that are updated in equal steps |
//! | `weight`, `weighed` | numbers computed from the words of a snapshot |
//! | `Job`, `run_jobs` | a job of a timing program; runs the jobs that its arguments name |
//! | `Effort` | the length of a turn |
//! | `Turn`, `IN_MILLISECONDS` | the result of a turn |
//!
//! Times are measured with the system's clock. Readings are in cycles of a nanosecond. Requests are
//! counted from 1. A `&Heap` is an allocator that is `Copy`.
#![tactic(auto)]

mod clocks;
mod copies;
mod heap;
mod page_desk;
mod random;
mod running;
mod steps;
mod times;
mod turn;

pub use clocks::{CLOCKS, OPENED_REAL, OPENED_TIME, OPENED_WORDS, nanosecond_counter};
pub use copies::mixed_up;
pub use heap::Heap;
pub use page_desk::{PageDesk, opened_page};
pub use random::next_random;
pub use running::{Job, run_jobs};
pub use steps::{STEP, reading_of, weighed, weight};
pub use times::{RisingTimes, nanoseconds};
pub use turn::{Effort, IN_MILLISECONDS, Turn};
