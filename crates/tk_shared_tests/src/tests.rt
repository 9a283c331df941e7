//! Tests values that contracts do not fix, the edges of each range, and threads.

mod shared;

use std::fmt::Debug;
use std::process::Abort;

/// Stops the test if `found` is not equal to `wanted`. It is a separate call to keep the proof of
/// each test short.
fn assert_same<T: PartialEq + Debug>(rt: &impl Abort, found: &T, wanted: &T) {
    assert_eq!(rt; found, wanted);
}
