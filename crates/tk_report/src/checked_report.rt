use std::alloc::{Allocator, Global};

/// Contains the report of a script, and the number of its reads that do not give the value that
/// their record states.
#[derive(Debug, Drop, PartialEq, Eq)]
pub struct CheckedReport<A: Allocator = Global> {
    /// The lines.
    pub text: Vec<u8, A>,
    /// The number of lines `differs,RECORD,VALUE`.
    pub differences: u64,
}
