//! Compares steered clocks that have a journal with `SteeredClock`, which has none.

mod both;
mod memory;
mod orders;
mod running;
mod updates;

use std::alloc::Allocator;
use std::fmt::Debug;
use std::process::Abort;
use tk_clock::{Clock, Timespec};
use tk_counter::CounterDesc;
use tk_ntp::{ADJ_OFFSET, ADJ_STATUS, ADJ_TIMECONST, STA_PLL, SteeredClock, Timex};
use tk_steered::Steered;
use tk_test_support::OPENED_TIME;

/// The number of the caller that gives all orders.
const CALLER: u32 = 7;

/// The counter that all tests open: a cycle lasts a nanosecond, and it never wraps.
fn counter(rt: &impl Abort) -> CounterDesc {
    CounterDesc::new(64, 8_388_608, 23).expect(rt, "a counter")
}

/// Returns steered clocks opened at reading 0, with a journal.
fn opened<A: Allocator + Copy>(rt: &impl Abort, alloc: A) -> Steered<A> {
    Steered::open(alloc, counter(rt), 0, OPENED_TIME, 250).expect(rt, "steered clocks")
}

/// Returns the same clocks without a journal.
fn plain(rt: &impl Abort) -> SteeredClock {
    SteeredClock::open(counter(rt), 0, OPENED_TIME, 250).expect(rt, "steered clocks")
}

/// Returns a request for an offset, in microseconds, which each second gives a part of.
fn offset(offset: i64) -> Timex {
    Timex {
        modes: ADJ_OFFSET | ADJ_STATUS | ADJ_TIMECONST,
        offset,
        status: STA_PLL,
        constant: 2,
        ..Timex::default()
    }
}

/// Stops the test if two steered clocks differ: in a clock, in the rate, in the next second, in the
/// lag or in the offset and the phase.
fn assert_alike(rt: &impl Abort, found: &SteeredClock, wanted: &SteeredClock) {
    assert_same(rt, &found.snapshot(0).words(), &wanted.snapshot(0).words());
    assert_same(rt, &found.rate(), &wanted.rate());
    let (a, b) = (found.numbers(), wanted.numbers());
    assert_same(rt, &(a.next, a.last_account), &(b.next, b.last_account));
    let (a, b) = (a.steering, b.steering);
    assert_same(rt, &(a.lag.high, a.lag.low), &(b.lag.high, b.lag.low));
    let (a, b) = (a.ntp, b.ntp);
    assert_same(rt, &(a.offset, a.phase), &(b.offset, b.phase));
    assert_same(rt, &(a.status, a.plan.state), &(b.status, b.plan.state));
}

/// Stops the test unless the journal's entries, applied to fresh clocks, leave these clocks, and are
/// all those of the caller.
fn assert_replays<A: Allocator + Copy>(rt: &impl Abort, steered: &Steered<A>) {
    let mut clock = Clock::open(counter(rt), 0, OPENED_TIME).expect(rt, "clocks");
    for number in 1..=steered.keeper().len() {
        let entry = steered.keeper().entry(number as u64).expect(rt, "an entry");
        assert_same(rt, &entry.who, &CALLER);
        assert_same(rt, &clock.apply(entry.reading, entry.cmd), &Ok(()));
    }
    let wanted = steered.clock().clock();
    assert_same(rt, &clock.snapshot(0).words(), &wanted.snapshot(0).words());
    let rate = steered.clock().rate();
    assert_same(
        rt,
        &(clock.frequency(), clock.tick()),
        &(rate.frequency, rate.tick),
    );
}

/// Stops the test if `found` is not equal to `wanted`. It is a separate call to keep the proof of
/// each test short.
fn assert_same<T: PartialEq + Debug>(rt: &impl Abort, found: &T, wanted: &T) {
    assert_eq!(rt; found, wanted);
}

/// Returns an amount of REALTIME.
fn amount(sec: i64, nsec: u32) -> Timespec {
    Timespec { sec, nsec }
}
