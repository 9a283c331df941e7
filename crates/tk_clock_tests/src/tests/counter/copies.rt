use super::{are_distinct, desc_of};
use tk_counter::{CounterDesc, DescError};

#[test]
fn a_description_is_its_three_numbers(rt: HostRuntime) {
    are_distinct(
        &rt,
        &[
            desc_of(&rt, 32, 16_777_216, 24),
            desc_of(&rt, 33, 16_777_216, 24),
            desc_of(&rt, 32, 16_777_217, 24),
            desc_of(&rt, 32, 16_777_216, 23),
        ],
    )
}

#[test]
fn no_fault_is_another(rt: HostRuntime) {
    are_distinct(
        &rt,
        &[
            DescError::Bits,
            DescError::Shift,
            DescError::Mult,
            DescError::Adjust,
            DescError::Rate,
        ],
    )
}
