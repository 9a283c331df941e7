//! Returns a clock between two commands as plain numbers, by which a program computes it without a
//! call, as the kernel's vDSO does (lib/vdso/gettimeofday.c).
//!
//! | Item | Its meaning |
//! |---|---|
//! | `line_of` | the line of a snapshot's clock |
//! | `Line` | its numbers: a reading, a time, a slope, and how many cycles they are good for |
//!
//! Units: readings and spans in cycles; amounts of time in `2^-shift` ns. No call allocates or
//! waits.
#![tactic(auto)]

mod line;
mod numbers;

pub use line::{Line, line_of};
