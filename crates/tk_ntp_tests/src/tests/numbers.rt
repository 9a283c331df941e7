//! Steered clocks that are restored from their numbers.
use super::{assert_same, nanosecond_counter, pll, request};
use std::process::Abort;
use tk_clock::{Clock, Timespec};
use tk_ntp::{
    DisciplineNumbers, LagNumbers, LeapNumbers, NumbersError, SteeredClock, SteeredNumbers,
    SteeringNumbers, Timex,
};

/// REALTIME at the opening.
const OPENED: Timespec = Timespec {
    sec: 1_700_000_000,
    nsec: 0,
};

/// The numbers of a fresh discipline of 250 parts of a second, as kernel/time/ntp.c sets them.
const FRESH: DisciplineNumbers = DisciplineNumbers {
    hz: 250,
    status: 0x40,
    plan: LeapNumbers {
        state: 0,
        is_due: 0,
        due: 0,
    },
    offset: 0,
    constant: 2,
    maxerror: 16_000_000,
    esterror: 16_000_000,
    tick: 10_000,
    frequency: 0,
    reftime: 0,
    adjust: 0,
    phase: 0,
};

/// Half a second divided by 250, in `2^-32` ns.
const HALF: i64 = 2_000_000 << 32;

/// 500 us divided by 250, in `2^-32` ns.
const MOST: i64 = 2_000 << 32;

/// Returns the numbers of clocks without a lag, opened at the reading 9.
fn numbers(ntp: DisciplineNumbers) -> SteeredNumbers {
    SteeredNumbers {
        steering: SteeringNumbers {
            ntp,
            lag: LagNumbers {
                high: 1 << 60,
                low: 0,
            },
        },
        next: 1_700_000_001,
        last_account: 9,
    }
}

/// Returns the numbers of clocks without a lag, with a plan of a leap second.
fn planned(state: u32, is_due: u8, due: u64) -> SteeredNumbers {
    numbers(DisciplineNumbers {
        plan: LeapNumbers { state, is_due, due },
        ..FRESH
    })
}

/// Returns the numbers of clocks with the words of a lag.
fn lagging(high: u64, low: u64) -> SteeredNumbers {
    let fresh = numbers(FRESH);
    SteeredNumbers {
        steering: SteeringNumbers {
            lag: LagNumbers { high, low },
            ..fresh.steering
        },
        ..fresh
    }
}

/// Returns the clocks of a counter of 1 GHz, opened at the reading 9.
fn clock(rt: &impl Abort) -> Clock {
    let desc = nanosecond_counter(rt);
    Clock::open(desc, 9, OPENED).expect(rt, "a time of REALTIME")
}

/// Lists the numbers with a sign: the offset, the frequency, the rest of `adjtime` and the phase.
fn signed(numbers: &SteeredNumbers) -> [i64; 4] {
    let ntp = numbers.steering.ntp;
    [ntp.offset, ntp.frequency, ntp.adjust, ntp.phase]
}

/// Lists the numbers of a discipline without a sign.
fn unsigned(numbers: &SteeredNumbers) -> [u32; 7] {
    let ntp = numbers.steering.ntp;
    [
        ntp.hz,
        ntp.status,
        ntp.plan.state,
        ntp.constant,
        ntp.maxerror,
        ntp.esterror,
        ntp.tick,
    ]
}

/// Lists the numbers of 64 bits without a sign, and whether a leap is due.
fn long(numbers: &SteeredNumbers) -> [u64; 7] {
    let ntp = numbers.steering.ntp;
    let lag = numbers.steering.lag;
    [
        u64::from(ntp.plan.is_due),
        ntp.plan.due,
        ntp.reftime,
        lag.high,
        lag.low,
        numbers.next,
        numbers.last_account,
    ]
}

/// Stops the test if numbers differ.
pub(super) fn assert_numbers(rt: &impl Abort, found: &SteeredNumbers, wanted: &SteeredNumbers) {
    assert_same(rt, &signed(found), &signed(wanted));
    assert_same(rt, &unsigned(found), &unsigned(wanted));
    assert_same(rt, &long(found), &long(wanted));
}

/// Checks that clocks restored from numbers have these numbers.
fn accepts(rt: &impl Abort, wanted: SteeredNumbers) {
    let restored = SteeredClock::from_numbers(clock(rt), wanted).expect(rt, "numbers in range");
    assert_numbers(rt, &restored.numbers(), &wanted);
    assert_same(
        rt,
        &restored.clock().snapshot(0).words(),
        &clock(rt).snapshot(0).words(),
    );
}

/// Checks that numbers are refused.
fn refuses(rt: &impl Abort, numbers: SteeredNumbers, wanted: NumbersError) {
    let found = SteeredClock::from_numbers(clock(rt), numbers).err();
    assert_same(rt, &found, &Some(wanted));
}

#[test]
fn fresh_clocks_have_the_numbers_of_a_fresh_discipline(rt: HostRuntime) {
    let desc = nanosecond_counter(&rt);
    let fresh = SteeredClock::open(desc, 9, OPENED, 250).expect(&rt, "a time of REALTIME");
    assert_numbers(&rt, &fresh.numbers(), &numbers(FRESH));
    accepts(&rt, numbers(FRESH));
}

#[test]
fn numbers_at_the_ends_of_their_ranges_are_accepted(rt: HostRuntime) {
    let high = DisciplineNumbers {
        status: u32::MAX,
        offset: HALF,
        constant: 10,
        tick: 11_000,
        frequency: 500_000 << 32,
        reftime: (1 << 63) - 1,
        adjust: i64::MAX,
        phase: HALF + MOST,
        ..FRESH
    };
    accepts(&rt, numbers(high));
    let low = DisciplineNumbers {
        status: 0,
        offset: -HALF,
        constant: 0,
        maxerror: 0,
        esterror: 0,
        tick: 9_000,
        frequency: -(500_000 << 32),
        adjust: i64::MIN,
        phase: -HALF - MOST,
        ..FRESH
    };
    accepts(&rt, numbers(low));
    for hz in [1, 1_024] {
        accepts(&rt, numbers(DisciplineNumbers { hz, ..FRESH }));
    }
    accepts(&rt, planned(4, 1, u64::MAX));
    // 2^123 in either direction, plus 2^124
    accepts(&rt, lagging(1 << 59, 0));
    accepts(&rt, lagging(3 << 59, 0));
    let latest = SteeredNumbers {
        next: 9_223_372_037,
        last_account: u64::MAX,
        ..numbers(FRESH)
    };
    accepts(&rt, latest);
}

/// Numbers of a discipline of which one is past its range.
const PAST: [DisciplineNumbers; 15] = [
    DisciplineNumbers { hz: 0, ..FRESH },
    DisciplineNumbers { hz: 1_025, ..FRESH },
    DisciplineNumbers {
        offset: HALF + 1,
        ..FRESH
    },
    DisciplineNumbers {
        offset: -HALF - 1,
        ..FRESH
    },
    DisciplineNumbers {
        offset: i64::MIN,
        ..FRESH
    },
    DisciplineNumbers {
        constant: 11,
        ..FRESH
    },
    DisciplineNumbers {
        maxerror: 16_000_001,
        ..FRESH
    },
    DisciplineNumbers {
        esterror: 16_000_001,
        ..FRESH
    },
    DisciplineNumbers {
        tick: 8_999,
        ..FRESH
    },
    DisciplineNumbers {
        tick: 11_001,
        ..FRESH
    },
    DisciplineNumbers {
        frequency: (500_000 << 32) + 1,
        ..FRESH
    },
    DisciplineNumbers {
        frequency: -(500_000 << 32) - 1,
        ..FRESH
    },
    DisciplineNumbers {
        reftime: 1 << 63,
        ..FRESH
    },
    DisciplineNumbers {
        phase: HALF + MOST + 1,
        ..FRESH
    },
    DisciplineNumbers {
        phase: -HALF - MOST - 1,
        ..FRESH
    },
];

#[test]
fn numbers_past_their_ranges_are_refused(rt: HostRuntime) {
    for ntp in &PAST {
        refuses(&rt, numbers(*ntp), NumbersError::Discipline);
    }
    refuses(&rt, planned(5, 0, 0), NumbersError::Leap);
    refuses(&rt, planned(1, 2, 0), NumbersError::Leap);
    refuses(&rt, planned(0, 0, 86_400), NumbersError::Leap);
    refuses(&rt, lagging((1 << 59) - 1, u64::MAX), NumbersError::Lag);
    refuses(&rt, lagging(3 << 59, 1), NumbersError::Lag);
    refuses(&rt, lagging(u64::MAX, u64::MAX), NumbersError::Lag);
    let late = SteeredNumbers {
        next: 9_223_372_038,
        ..numbers(FRESH)
    };
    refuses(&rt, late, NumbersError::Second);
}

#[test]
fn the_first_part_out_of_its_range_is_named(rt: HostRuntime) {
    let mut wrong = lagging(0, 0);
    wrong.next = u64::MAX;
    refuses(&rt, wrong, NumbersError::Lag);
    wrong.steering.ntp.plan.state = 5;
    refuses(&rt, wrong, NumbersError::Leap);
    wrong.steering.ntp.tick = 0;
    refuses(&rt, wrong, NumbersError::Discipline);
}

/// Returns a request for an insertion at the end of the day, with the PLL on.
fn inserting() -> Timex {
    Timex {
        status: 0x11,
        ..request(0x10)
    }
}

#[test]
fn restored_clocks_go_on_as_before(rt: HostRuntime) {
    let desc = nanosecond_counter(&rt);
    let mut steered = SteeredClock::open(desc, 9, OPENED, 250).expect(&rt, "a time of REALTIME");
    let _ = steered
        .adjtimex(500, &pll(9_000_000, 1))
        .expect(&rt, "no fault");
    steered.advance(20_600_000_000).expect(&rt, "an advance");
    let _ = steered
        .adjtimex(20_700_000_000, &inserting())
        .expect(&rt, "no fault");
    let kept = (steered.clock(), steered.numbers());
    let mut restored = SteeredClock::from_numbers(kept.0, kept.1).expect(&rt, "numbers in range");
    for place in 0..40u64 {
        let reading = 21_000_000_000u64.wrapping_add(place.wrapping_mul(777_777_777));
        assert_same(&rt, &restored.advance(reading), &steered.advance(reading));
        assert_numbers(&rt, &restored.numbers(), &steered.numbers());
        assert_same(
            &rt,
            &restored.snapshot(0).words(),
            &steered.snapshot(0).words(),
        );
    }
    let replies = (
        restored.adjtimex(60_000_000_000, &request(0)),
        steered.adjtimex(60_000_000_000, &request(0)),
    );
    assert_same(&rt, &replies.0, &replies.1);
}
