//! Many updates in each second, which the steered clocks take over later.
use super::both::Both;
use super::orders::give;
use super::{CALLER, assert_replays, assert_same, offset};
use tk_clock::{Command, Refusal};
use tk_counter::CounterDesc;
use tk_ntp::{SteeredClock, Timex};
use tk_test_support::{OPENED_TIME, next_random};

#[test]
fn updates_are_taken_over_before_other_orders(rt: HostRuntime) {
    let mut both = Both::opened(&rt, rt.alloc());
    for place in 0..20_000 {
        let reading = both.draw(10_000_000);
        if place % 50 == 49 {
            give(&rt, &mut both, reading);
        } else {
            both.update(&rt, reading);
        }
        // the clocks are compared seldom, so that many updates are taken over at once
        if place % 7 == 6 {
            both.assert_alike(&rt);
        }
    }
    assert_replays(&rt, &both.steered);
}

#[test]
fn updates_with_a_lag_go_through_seconds(rt: HostRuntime) {
    let mut both = Both::opened(&rt, rt.alloc());
    for asked in [offset(400_000), offset(-3)] {
        both.adjtimex(&rt, 1_000, &asked);
    }
    for place in 1..=5_000 {
        both.update(&rt, 1_000 + place * 3_333_333);
        assert_same(&rt, &both.steered.next_second(), &both.plain.next_second());
    }
    both.assert_alike(&rt);
    assert_replays(&rt, &both.steered);
    let lag = both.plain.numbers().steering.lag;
    let none = SteeredClock::open(both.plain.clock().snapshot(0).desc(), 0, OPENED_TIME, 250);
    let none = none.expect(&rt, "clocks").numbers().steering.lag;
    assert_same(&rt, &(lag.high == none.high && lag.low == none.low), &false);
}

#[test]
fn a_second_that_begins_further_ahead_than_half_the_counter(rt: HostRuntime) {
    // a cycle lasts a microsecond, and the counter wraps after 65 ms
    let desc = CounterDesc::new(16, 256_000, 8).expect(&rt, "a counter");
    let mut both = Both::opened_on(&rt, rt.alloc(), desc, 65_000);
    let (mut seed, mut reading) = (0x9e37_79b9_7f4a_7c15, 65_000_u64);
    for place in 0..3_000 {
        seed = next_random(seed);
        // every tenth reading is behind
        let cycles = if place % 10 == 9 {
            40_000
        } else {
            seed % 20_000
        };
        let at = reading.wrapping_add(cycles) % 65_536;
        both.update(&rt, at);
        if cycles < 20_000 {
            reading = at;
        }
        both.assert_alike(&rt);
    }
    assert_same(&rt, &(both.plain.numbers().next > 1_700_000_020), &true);
}

#[test]
fn refused_updates_leave_those_before_them(rt: HostRuntime) {
    let mut both = Both::opened(&rt, rt.alloc());
    both.adjtimex(&rt, 0, &offset(400_000));
    for reading in [1_000_000_001, 1_000_000_500, 1_000_000_499, 1_000_000_501] {
        both.update(&rt, reading);
        both.assert_alike(&rt);
    }
    let refused = both.steered.apply(CALLER, 1_000_000_000, Command::Update);
    assert_same(&rt, &refused, &Err(Refusal::Behind));
    // a fold keeps what is still to be taken over
    let _folded = both.steered.fold(0);
    both.assert_alike(&rt);
    both.adjtimex(&rt, 1_000_000_777, &Timex::default());
    both.assert_alike(&rt);
}
