//! Tests lists whose result is longer than 32 MB, and grows in three stages.

use super::{
    ABOVE, agrees_with_one_thread, counted, faulty_at, first_faults, numbers, put, steered,
};
use tk_keeper::TraceError;

/// Items whose answer is longer than 32 MB by one 64-bit word.
pub(crate) const LONG: usize = 4_194_305;

#[test]
fn a_long_list_is_converted_as_by_one_thread(rt: HostRuntime) {
    let alloc = rt.alloc();
    let keeper = steered(&rt, alloc);
    let mut lists = counted(&rt, alloc, LONG);
    for place in 0..LONG {
        let number = place as u64;
        put(lists.fronts.as_mut_slice(), place, number / 10_000 % 3);
        put(
            lists.stamps.as_mut_slice(),
            place,
            number.wrapping_mul(1_021) % ABOVE,
        );
    }
    agrees_with_one_thread(&rt, alloc, &keeper, &mut lists, LONG);
}

#[test]
fn the_first_fault_of_a_long_list_decides(rt: HostRuntime) {
    let alloc = rt.alloc();
    let keeper = steered(&rt, alloc);
    let mut lists = counted(&rt, alloc, LONG);
    let values = numbers(&rt, alloc, LONG);
    let items = faulty_at([4_194_304, 3_000_000, 8_192, 8_191]);
    first_faults(&rt, alloc, &keeper, &mut lists, values.as_slice(), &items);
    let items = [(0, 0, ABOVE, TraceError::Invalid { index: 0 })];
    first_faults(&rt, alloc, &keeper, &mut lists, values.as_slice(), &items);
}
