//! Offsets that the PLL and the FLL follow.
use super::{Clock, assert_same, pll, request, synchronized, with_offset};
use tk_ntp::{TimeState, Timex};

#[test]
fn a_pll_gives_a_part_of_the_offset_in_each_second(rt: HostRuntime) {
    let mut clock = Clock::new(&rt, 1_700_000_000);
    let first = pll(100_000_000, 1);
    let expected = Timex {
        offset: 100_000_000,
        ..synchronized(0x2035, 1_700_000_000, 500_000_000, 8193, 0)
    };
    clock.replies(&rt, 500_000_000, &first, TimeState::Ok, expected);
    for (sec, offset, maxerror) in [
        (1_700_000_001, 99_609_375, 500),
        (1_700_000_010, 96_161_704, 5000),
    ] {
        clock.pass(sec);
        let expected = Timex {
            offset,
            ..synchronized(0, sec, 503_649_625, 8193, maxerror)
        };
        clock.replies(&rt, 503_649_625, &request(0), TimeState::Ok, expected);
    }
    clock.pass(1_700_000_064);
    let second = with_offset(0x2001, 50_000_000);
    let expected = Timex {
        offset: 50_000_000,
        freq: 200_000,
        ..synchronized(0x2001, 1_700_000_064, 522_004_432, 8193, 32_000)
    };
    clock.replies(&rt, 522_004_432, &second, TimeState::Ok, expected);
    clock.pass(1_700_000_100);
    let expected = Timex {
        offset: 43_428_791,
        freq: 200_000,
        ..synchronized(0, 1_700_000_100, 528_749_916, 8193, 50_000)
    };
    clock.replies(&rt, 528_749_916, &request(0), TimeState::Ok, expected);
}

#[test]
fn an_fll_acts_after_256_seconds(rt: HostRuntime) {
    let mut clock = Clock::new(&rt, 1_700_000_000);
    let expected = synchronized(0x2035, 1_700_000_000, 500_000_000, 8201, 0);
    clock.replies(&rt, 500_000_000, &pll(0, 9), TimeState::Ok, expected);
    let late = with_offset(0x2001, -3_000_000);
    for (sec, nsec, freq, status, maxerror) in [
        (1_700_000_300, 500_000_000, -220_090, 24_585, 150_000),
        (1_700_000_316, 499_769_627, -223_090, 8201, 158_000),
    ] {
        clock.pass(sec);
        let expected = Timex {
            offset: -3_000_000,
            freq,
            ..synchronized(0x2001, sec, i64::from(nsec), status, maxerror)
        };
        clock.replies(&rt, nsec, &late, TimeState::Ok, expected);
    }
}

#[test]
fn in_microseconds_the_constant_counts_4_more(rt: HostRuntime) {
    let mut clock = Clock::new(&rt, 1_700_000_000);
    let micro = Timex {
        offset: -300,
        status: 1,
        constant: 2,
        ..request(0x1035)
    };
    let expected = Timex {
        offset: -300,
        ..synchronized(0x1035, 1_700_000_000, 500_000, 1, 0)
    };
    clock.replies(&rt, 500_000_000, &micro, TimeState::Ok, expected);
    clock.pass(1_700_000_001);
    let expected = Timex {
        offset: -298,
        ..synchronized(0, 1_700_000_001, 249_999, 1, 500)
    };
    clock.replies(&rt, 249_999_828, &request(0), TimeState::Ok, expected);
    clock.pass(1_700_000_002);
    let nsec = 499_998_211;
    let all = [
        (0x1, 700_000, 500_000, 499_998, 1),
        (0x2000, 0, 500_000_000, 499_998_211, 8193),
        (0x2001, -2_000_000_000, -500_000_000, 499_998_211, 8193),
    ];
    for (modes, offset, left, sub, status) in all {
        let asked = with_offset(modes, offset);
        let expected = Timex {
            offset: left,
            freq: 62_500,
            ..synchronized(modes, 1_700_000_002, sub, status, 1000)
        };
        clock.replies(&rt, nsec, &asked, TimeState::Ok, expected);
    }
}

#[test]
fn a_step_forgets_the_phase(rt: HostRuntime) {
    let mut clock = Clock::following(&rt, 100_000_000);
    clock.pass(1_700_000_002);
    let shot = with_offset(0x8001, 900_000);
    let _ = clock.reply(&rt, 500_585_078, &shot);
    clock.ntp.clear();
    let step = Timex {
        sec: -2,
        sub: 250_000_000,
        ..request(0x2100)
    };
    for asked in [step, request(0xa001)] {
        let expected = synchronized(asked.modes, 1_700_000_002, 752_110_687, 8257, 16_000_000);
        clock.replies(&rt, 752_110_687, &asked, TimeState::Error, expected);
    }
    assert_same(&rt, &clock.ntp.second_length(), &4_294_967_296_000_000_000);
}
