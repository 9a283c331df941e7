//! Counts several seconds of a signal at once. The model is one call of `second` for each of them.
use super::assert_same;
use tk_ntp::{Pps, Reply, TimeState, Timex};

/// A signal with an interval that has ended, and with a frequency.
fn pulsed() -> Pps {
    let mut pps = Pps::new();
    let _ = pps.pulse(3, 1_000_000_000);
    let _ = pps.pulse(7, 5_000_000_400);
    pps
}

/// Returns whether the signal counts as lost at one of some seconds.
fn one_by_one(pps: &mut Pps, count: u64) -> bool {
    let mut is_lost = false;
    for _ in 0..count.min(100) {
        if pps.second() {
            is_lost = true;
        }
    }
    is_lost
}

/// What a signal is like: the fields that it shows, and whether it counts as lost at each of the
/// next seconds.
fn seen(pps: &Pps) -> (i64, i64, [bool; 12]) {
    let reply = pps.reply(&Reply {
        state: TimeState::Ok,
        tai: 0,
        timex: Timex::default(),
    });
    let (mut later, mut lost) = (*pps, [false; 12]);
    for is_lost in &mut lost {
        *is_lost = later.second();
    }
    (reply.ppsfreq, reply.calcnt, lost)
}

#[test]
fn seconds_are_counted_as_one_by_one(rt: HostRuntime) {
    for count in [0, 1, 2, 9, 10, 11, 12, 1 << 32, u64::MAX] {
        let (mut at_once, mut each) = (pulsed(), pulsed());
        let is_lost = at_once.seconds(count);
        assert_same(&rt, &is_lost, &(count > 10));
        assert_same(&rt, &is_lost, &one_by_one(&mut each, count));
        assert_same(&rt, &seen(&at_once), &seen(&each));
    }
}

#[test]
fn a_lost_signal_is_lost_at_each_second(rt: HostRuntime) {
    let mut pps = Pps::new();
    assert_same(&rt, &pps.seconds(0), &false);
    assert_same(&rt, &pps.seconds(1), &true);
    assert_same(&rt, &pps.seconds(u64::MAX), &true);
}
