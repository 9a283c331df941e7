//! Tests what no clause states: the texts of the endings, the calls that write a line, the
//! allocations of a text, and a full writer. The programs of `tests/program` run the built program
//! with arguments, files and scripts.

mod endings;
mod lines;
mod memory;
mod writers;

use std::fmt::Debug;
use std::process::Abort;

/// Stops the test if `found` is not equal to `wanted`. It is a separate call to keep the proof of
/// each test short.
fn assert_same<T: PartialEq + Debug>(rt: &impl Abort, found: &T, wanted: &T) {
    assert_eq!(rt; found, wanted);
}
