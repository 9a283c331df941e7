//! Tests the readings of the counter.
ghost use Rattle.tk_shared.specs.Opening.{IsNamed};

use super::{assert_same, commanded, opened, read_by, ready, ready_on, time};
use std::marker::Brand;
use std::process::Abort;
use std::sync::Wait;
use tk_clock::{ClockId, Command, Refusal};
use tk_counter::CounterDesc;
use tk_now::Look;
use tk_shared::{Caller, Counter, Named, Prepared, SharedKeeper, Ticker};

/// Returns one reading first, and then others.
#[derive(Drop)]
struct Answers {
    first: Option<u64>,
    others: u64,
}

impl Counter for Answers {
    ghost use Rattle.std.specs.Prelude.{◌≡◌};
    ghost use Rattle.std.specs.Option.{unwrap_or};

    ghost answers = { λ counter answer. answer ≡ unwrap_or counter.first counter.others };

    ghost answers_after = { λ counter _ answer. answer ≡ unwrap_or counter.first counter.others };

    fn read(&mut self) -> u64 {
        self.first.take().unwrap_or(self.others)
    }

    fn read_after(&mut self, _look: &Look) -> u64 {
        self.read()
    }
}

/// The result of an Update, and the reading and MONOTONIC of the clocks after it.
#[derive(Clone, Copy)]
struct Updated {
    answer: Result<u64, Refusal>,
    last: u64,
    nanos: u32,
}

/// The same of the first Update, if it is accepted.
fn accepted(last: u64, nanos: u32) -> Updated {
    Updated {
        answer: Ok(1),
        last,
        nanos,
    }
}

/// Opens the prepared keeper, and compares an Update of its first caller with the wanted result.
fn updates<C: Counter, R: Wait + Abort + AllocGlobal>(
    rt: &R,
    prepared: Prepared<C>,
    wanted: Updated,
) {
    updates_named::<Brand, C, R>(rt, prepared, wanted);
}

fn updates_named<L: Named, C: Counter, R: Wait + Abort + AllocGlobal>(
    rt: &R,
    prepared: Prepared<C>,
    wanted: Updated,
)
    requires named { IsNamed prepared L.page L.latch L.notice L.name L.parts L.callers }
{
    let (keeper, mut callers) = opened::<L, C>(rt, rt.alloc(), prepared);
    updates_by(rt, &keeper, callers.as_mut_slice(), wanted);
}

fn updates_by<L: Named, C: Counter, R: Wait + Abort>(
    rt: &R,
    keeper: &SharedKeeper<L, C>,
    callers: &mut [Caller<L>],
    wanted: Updated,
) {
    let Updated {
        answer,
        last,
        nanos,
    } = wanted;
    let caller = callers.first_mut().expect(rt, "a caller");
    assert_same(rt, &commanded(rt, keeper, caller, Command::Update), &answer);
    let seen = read_by(rt, keeper, caller);
    assert_same(rt, &seen.front(), &answer.unwrap_or(0));
    assert_same(rt, &caller.accepted(), &seen.front());
    assert_same(rt, &seen.last(), &last);
    assert_same(rt, &seen.get(ClockId::Monotonic, last), &Ok(time(0, nanos)));
}

#[test]
fn a_counter_that_runs_back_is_refused(rt: HostRuntime) {
    let counter = Answers {
        first: Some(3_000),
        others: 2_999,
    };
    let prepared = ready(&rt, rt.alloc(), counter, 1);
    let refused = Updated {
        answer: Err(Refusal::Behind),
        last: 3_000,
        nanos: 0,
    };
    updates(&rt, prepared, refused);
}

#[test]
fn answers_above_the_mask_are_masked(rt: HostRuntime) {
    let counter = Answers {
        first: Some((1 << 32) + 5),
        others: (1 << 63) + 7,
    };
    let prepared = ready(&rt, rt.alloc(), counter, 1);
    updates(&rt, prepared, accepted(7, 2));
}

#[test]
fn readings_of_48_bits_keep_their_upper_bits(rt: HostRuntime) {
    let desc = CounterDesc::new(48, 16_777_216, 24).expect(&rt, "a counter");
    let start = (1 << 32) + 5;
    let prepared = ready_on(&rt, rt.alloc(), desc, Ticker::new(start, 1_000), 1);
    let wanted = accepted((1 << 32) + 1_005, 1_000);
    updates(&rt, prepared, wanted);
}

#[test]
fn a_ticker_wraps_at_64_bits(rt: HostRuntime) {
    let mut ticker = Ticker::new(u64::MAX - 999, 1_000);
    assert_same(&rt, &(ticker.read(), ticker.read()), &(u64::MAX - 999, 0));
    let prepared = ready(&rt, rt.alloc(), Ticker::new(u64::MAX - 999, 1_000), 1);
    updates(&rt, prepared, accepted(0, 1_000));
}
