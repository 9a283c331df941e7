//! The frequency and the tick for the length of a second, and the lag.
use super::{assert_same, nanosecond_counter, request};
use tk_clock::Timespec;
use tk_ntp::{Change, Discipline, Lag, Leap, Rate, Steering, Timex};

#[test]
fn a_rate_makes_a_second_so_long(rt: HostRuntime) {
    // a nominal second, 100 ms and 500 us of phase, and -100 ppm at a tick 1 percent fast
    for (length, asked, frequency, tick) in [
        (4_294_967_296_000_000_000, 10_000, 0, 10_000),
        (4_296_645_017_600_000_000, 10_000, 25_600_000, 10_000),
        (4_297_114_779_648_000_000, 10_000, 32_768_000, 10_000),
        (4_337_487_472_230_400_000, 10_100, -6_553_600, 10_100),
        // 1,000 ppm, which no frequency reaches at the tick of 10,000 us
        (4_299_262_263_296_000_000, 10_000, 0, 10_010),
        // beyond 10.05 percent
        (4_831_838_208_000_000_000, 10_000, 32_768_000, 11_000),
        (i64::MAX, 9000, 32_768_000, 11_000),
        (0, 10_000, -32_768_000, 9000),
        (i64::MIN, 11_000, -32_768_000, 9000),
    ] {
        let found = Rate::of_length(length, asked);
        assert_same(&rt, &(length, found), &(length, Rate { frequency, tick }));
    }
}

#[test]
fn a_second_makes_up_for_the_lag(rt: HostRuntime) {
    let desc = nanosecond_counter(&rt);
    let length = 4_295_396_792_729_600_000;
    let mut lag = Lag::none();
    assert_same(&rt, &lag.made_up(desc), &0);
    // a second at 100 ppm, whose multiplier is rounded down
    lag.account(desc, length, 8_389_446, 999_900_113);
    assert_same(&rt, &lag.made_up(desc), &440_685_576_842);
    let rate = Rate::of_length(length + 440_685_576_842, 10_000);
    assert_same(&rt, &rate.frequency, &6_560_324);
    // a second at the same multiplier that was asked to be a nominal one
    lag.account(desc, 4_294_967_296_000_000_000, 8_389_446, 1_000_000_000);
    assert_same(&rt, &lag.made_up(desc), &-428_615_314_423_158);
    // any number of cycles leaves at most half a second
    for (mult, made_up) in [
        (0, 2_148_507_648_000_000),
        (u32::MAX, -2_148_507_648_000_000),
    ] {
        for _ in 0..3 {
            lag.account(desc, length, mult, u64::MAX);
            assert_same(&rt, &lag.made_up(desc), &made_up);
        }
    }
}

#[test]
fn only_a_new_multiplier_needs_commands(rt: HostRuntime) {
    let desc = nanosecond_counter(&rt);
    let usual = Rate::of_length(4_294_967_296_000_000_000, 10_000);
    for (length, tick, set_tick, frequency) in [
        (4_295_396_792_729_600_000, 10_000, None, Some(6_553_600)),
        (4_337_916_968_960_000_000, 10_100, Some(10_100), None),
        (
            4_337_487_472_230_400_000,
            10_100,
            Some(10_100),
            Some(-6_553_600),
        ),
        // a unit of the frequency doesn't change this multiplier
        (4_294_967_296_065_536_000, 10_000, None, None),
        (4_294_967_296_000_000_000, 10_000, None, None),
    ] {
        let expected = Change {
            tick: set_tick,
            frequency,
        };
        let wanted = Rate::of_length(length, tick);
        assert_same(
            &rt,
            &(length, Change::between(desc, usual, wanted)),
            &(length, expected),
        );
    }
}

#[test]
fn each_second_of_a_pll_gets_a_command(rt: HostRuntime) {
    let desc = nanosecond_counter(&rt);
    let mut steering = Steering::new(Discipline::new(250).expect(&rt, "250 is in range"));
    let pll = Timex {
        offset: 100_000_000,
        status: 1,
        constant: 6,
        ..request(0x2035)
    };
    assert!(rt; !pll.is_faulty());
    let real = Timespec {
        sec: 1_700_000_000,
        nsec: 500_000_000,
    };
    let _ = steering.adjtimex(&pll, real, 0);
    let mut frequency = 0;
    // the cycles of each second, and the frequency that it needs
    for (sec, cycles, wanted) in [
        (1_700_000_001, 500_000_000, 25_600_000),
        (1_700_000_002, 999_609_623, 25_506_247),
        (1_700_000_003, 999_611_053, 25_406_638),
        (1_700_000_004, 999_612_481, 25_301_560),
    ] {
        let mult = desc.mult_for(frequency);
        let leap = steering.begin(desc, mult, cycles, sec);
        assert_same(&rt, &leap, &Leap::None);
        let in_force = Rate {
            frequency,
            tick: 10_000,
        };
        let expected = Change {
            tick: None,
            frequency: Some(wanted),
        };
        assert_same(&rt, &steering.commands(desc, in_force), &expected);
        frequency = wanted;
    }
    steering.clear();
    assert_same(&rt, &steering.rate(desc).frequency, &0);
}
