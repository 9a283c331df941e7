use super::{assert_same, converts, desc_of, opened, opened_at, time};
use std::process::Abort;
use tk_clock::{Clock, ClockId};
use tk_lanes::BatchError;

/// The first reading above a 48-bit mask.
const ABOVE: u64 = 281_474_976_710_656;

/// Returns a counter of 4,194,304 nanoseconds a cycle, with 64-bit readings.
fn wide(rt: &impl Abort) -> Clock {
    let desc = desc_of(rt, 64, 4_194_304, 0);
    opened_at(rt, desc, 0, time(1_700_000_000, 0))
}

#[test]
fn a_stamp_above_the_mask_ends_a_list(rt: HostRuntime) {
    let alloc = rt.alloc();
    let snapshot = opened(&rt).snapshot(0);
    let answer = Err(BatchError::Invalid { index: 1 });
    let stamps = [1_001, ABOVE, 1_002];
    // a coarse clock refuses too
    for (clock, first) in [
        (ClockId::Monotonic, 1),
        (ClockId::MonotonicRaw, 1),
        (ClockId::MonotonicCoarse, 0),
    ] {
        let values = [first, 7, 7];
        converts(&rt, alloc, &snapshot, clock, &stamps, answer, &values);
    }
}

#[test]
fn a_value_at_the_limit_ends_a_list(rt: HostRuntime) {
    let alloc = rt.alloc();
    let snapshot = wide(&rt).snapshot(0);
    let clock = ClockId::Monotonic;
    let (stamps, values) = ([1, 9_223_372_036_854_775_807], [4_194_304, 7]);
    let answer = Err(BatchError::Range { index: 1 });
    converts(&rt, alloc, &snapshot, clock, &stamps, answer, &values);
    // 225563049316 cycles are 946079999.998296064 seconds, and one more is past the limit
    let (last, past) = (225_563_049_316, 225_563_049_317);
    let stamps = [last, 1, 1, 1, 1, 1, 1, 1, last, past];
    let (most, one) = (946_079_999_998_296_064, 4_194_304);
    let values = [most, one, one, one, one, one, one, one, most, 7];
    let answer = Err(BatchError::Range { index: 9 });
    converts(&rt, alloc, &snapshot, clock, &stamps, answer, &values);
}

#[test]
fn the_place_of_a_refused_stamp_is_that_in_the_list(rt: HostRuntime) {
    let alloc = rt.alloc();
    let clock = ClockId::Monotonic;
    let snapshot = opened(&rt).snapshot(0);
    for place in 0..24usize {
        let mut stamps = [1_005; 24];
        let mut values = [7; 24];
        stamps[place] = ABOVE;
        for value in values[..place].iter_mut() {
            *value = 5;
        }
        let answer = Err(BatchError::Invalid { index: place });
        converts(&rt, alloc, &snapshot, clock, &stamps, answer, &values);
    }
}

#[test]
fn a_fault_is_stated_in_words(rt: HostRuntime) {
    let alloc = rt.alloc();
    for (fault, text) in [
        (
            BatchError::Invalid { index: 12 },
            "item 12: stamp above the mask",
        ),
        (BatchError::Range { index: 0 }, "item 0: value out of range"),
    ] {
        let found = format!(in alloc; "{fault}").expect(&rt, "memory");
        assert_same(&rt, &found.as_str(), &text);
    }
}
