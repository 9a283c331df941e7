//! Tests reads that state the value that they expect.

use super::many::{agreeing, assert_outcomes, owned};
use super::{BOTH, assert_same, replayed, reported};
use tk_replay::{CheckedReport, NoGate};

/// Reads of a counter of one nanosecond a cycle. The records 3, 5, 7 and 8 expect another value than
/// the clock has, or one where the read is refused.
const SCRIPT: &[u8] = b"open,32,16777216,24,0,1700000000,0\n\
get,1000000000,monotonic,1000000000\nget,1000000000,monotonic,1000000001\n\
get,1000000000,realtime,1700000001000000000\nget,1000000000,realtime,1000000000\n\
get,1000000000,tai\nget,4294967296,tai,0\n\"get\",0,boottime,18446744073709551615\n\
get,0,monotonic_raw,00\n";

const REPORT: &[u8] = b"open,32,16777216,24\n\
at,monotonic,1.000000000\nat,monotonic,1.000000000\ndiffers,3,1000000001\n\
at,realtime,1700000001.000000000,2023-11-14T22:13:21.000000000Z\n\
at,realtime,1700000001.000000000,2023-11-14T22:13:21.000000000Z\ndiffers,5,1000000000\n\
at,tai,1700000001.000000000\nno,invalid\ndiffers,7,0\n\
at,boottime,0.000000000\ndiffers,8,18446744073709551615\nat,monotonic_raw,0.000000000\n";

#[test]
fn states_each_value_that_a_read_does_not_give(rt: HostRuntime) {
    let text = reported(rt.alloc(), false, SCRIPT).expect(&rt, "a report");
    assert_same(&rt, &text.as_slice(), &REPORT);
}

#[test]
fn counts_the_differences_of_a_replay(rt: HostRuntime) {
    for is_bounded in BOTH {
        let mut text = Vec::new(rt.alloc());
        let mut script = SCRIPT;
        let outcome = replayed(rt.alloc(), is_bounded, &mut script, &mut text);
        assert_same(&rt, &outcome, &Ok(4));
        assert_same(&rt, &text.as_slice(), &REPORT);
    }
}

#[test]
fn counts_the_differences_of_many_scripts(rt: HostRuntime) {
    let opening = b"open,8,256,0,0,0,0\nget,0,tai,0\n";
    let scripts = [owned(&rt, SCRIPT), owned(&rt, opening)];
    let first = CheckedReport {
        text: owned(&rt, REPORT),
        differences: 4,
    };
    let second = agreeing(owned(&rt, b"open,8,256,0\nat,tai,0.000000000\n"));
    let wanted = vec![in rt.alloc(); Ok(first), Ok(second)].expect(&rt, "memory");
    assert_outcomes(&rt, scripts.as_slice(), 2, &NoGate, &Ok(wanted));
}
