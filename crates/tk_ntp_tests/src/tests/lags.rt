//! The lag of steered clocks.
use super::{assert_same, opened_at, pll, request};
use std::process::Abort;
use tk_clock::Command;
use tk_counter::CounterDesc;
use tk_ntp::{SteeredClock, Timex};

/// Calls in a run.
const CALLS: u64 = 600;

/// Describes a counter, and the bounds of the upper 64 bits of the lag's number. The lag stays
/// between -0.15 and 1.3 of what a second loses if its multiplier is one unit too low and its rate
/// is another.
struct Case {
    mult: u32,
    shift: u32,
    /// The cycles of a nominal second.
    second: u64,
    least: u64,
    greatest: u64,
}

/// Lists counters of 1 GHz, 24 MHz, 19.2 MHz, and of 1.024 GHz with a multiplier of three digits.
const CASES: [Case; 4] = [
    Case {
        mult: 8_388_608,
        shift: 23,
        second: 1_000_000_000,
        least: 1_152_921_504_571_917_909,
        greatest: 1_152_921_504_909_565_555,
    },
    Case {
        mult: 174_762_667,
        shift: 22,
        second: 24_000_000,
        least: 1_152_921_504_606_006_550,
        greatest: 1_152_921_504_614_130_663,
    },
    Case {
        mult: 3_495_253_333,
        shift: 26,
        second: 19_200_000,
        least: 1_152_921_504_606_140_660,
        greatest: 1_152_921_504_612_968_373,
    },
    Case {
        mult: 1_000,
        shift: 10,
        second: 1_024_000_000,
        least: 1_152_921_504_571_084_188,
        greatest: 1_152_921_504_916_791_133,
    },
];

/// Returns the number at a place of a random list. It is below 2^20.
fn random(place: u64) -> u64 {
    place.wrapping_mul(0x9e37_79b9_7f4a_7c15) >> 44
}

/// Returns a request for a frequency within 497 ppm, a tick within 9 percent of the usual one, or a
/// PLL's offset within 1.6 ms.
fn request_at(place: u64) -> Timex {
    let number = i64::try_from(random(place)).unwrap_or(0);
    match place % 3 {
        0 => Timex {
            freq: number.wrapping_mul(62).wrapping_sub(32_505_856),
            ..request(0x2)
        },
        1 => Timex {
            tick: (number % 1_800).wrapping_add(9_100),
            ..request(0x4000)
        },
        _ => pll(number.wrapping_mul(3).wrapping_sub(1_572_864), 1),
    }
}

/// Calls clocks at a reading: mostly by a request, which may change the length of the second.
fn call(rt: &impl Abort, steered: &mut SteeredClock, reading: u64, place: u64) {
    match place % 5 {
        0 => steered.advance(reading).expect(rt, "an advance"),
        1 => steered
            .apply(reading, Command::Update)
            .expect(rt, "an update"),
        _ => {
            let _ = steered
                .adjtimex(reading, &request_at(place))
                .expect(rt, "a request");
        }
    }
}

/// Calls the clocks of a case at random readings, and checks their lag after each call.
fn run(rt: &impl Abort, case: &Case) {
    let desc = CounterDesc::new(64, case.mult, case.shift).expect(rt, "a counter");
    let mut steered = opened_at(rt, desc, 1_700_000_000);
    let mut reading = 0u64;
    for place in 0..CALLS {
        let part = case.second.wrapping_mul(random(place)) >> 19;
        reading = reading.wrapping_add(part);
        call(rt, &mut steered, reading, place);
        let high = steered.numbers().steering.lag.high;
        assert_same(
            rt,
            &(place, case.least <= high && high <= case.greatest),
            &(place, true),
        );
    }
}

#[test]
fn the_lag_stays_small_while_lengths_stay_in_range(rt: HostRuntime) {
    for case in &CASES {
        run(&rt, case);
    }
}
