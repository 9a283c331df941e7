//! Tests what no clause states: printed lines, texts of faults, and outside values.

mod replay;
mod script;

use std::fmt::{Debug, Display};
use std::process::Abort;

/// Stops the test if `found` is not equal to `wanted`. It is a separate call to keep the proof of
/// each test short.
fn assert_same<T: PartialEq + Debug>(rt: &impl Abort, found: &T, wanted: &T) {
    assert_eq!(rt; found, wanted);
}

/// Stops the test if the texts of the items, each in its own line, are not equal to `wanted`.
fn assert_lines<T: Display>(rt: &(impl Abort + AllocGlobal), items: &[T], wanted: &str) {
    let mut lines = String::new(rt.alloc());
    for item in items {
        let line = format!(in rt.alloc(); "{item}\n").expect(rt, "memory");
        lines.push_str(line.as_str()).expect(rt, "memory");
    }
    assert_same(rt, &lines.as_str(), &wanted);
}
