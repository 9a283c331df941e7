use super::assert_same;
use std::process::Abort;
use tk_keeper::{FrontError, TraceError};
use tk_test_support::mixed_up;

/// Checks that every value is equal to its clone, and to no other value of the list.
fn are_distinct<T: Copy + PartialEq>(rt: &impl Abort, values: &[T]) {
    let found = mixed_up(values).expect(rt, "a copy");
    assert_same(rt, &found, &None);
}

#[test]
fn no_fault_of_a_front_is_another(rt: HostRuntime) {
    are_distinct(&rt, &[FrontError::Unknown, FrontError::Folded])
}

#[test]
fn a_fault_of_a_trace_is_its_kind_and_its_item(rt: HostRuntime) {
    are_distinct(
        &rt,
        &[
            TraceError::Unknown { index: 1 },
            TraceError::Unknown { index: 2 },
            TraceError::Folded { index: 1 },
            TraceError::Folded { index: 2 },
            TraceError::Invalid { index: 1 },
            TraceError::Invalid { index: 2 },
            TraceError::Range { index: 1 },
            TraceError::Range { index: 2 },
            TraceError::Memory,
        ],
    )
}
