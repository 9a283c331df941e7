//! Frequencies, ticks, errors, the old call adjtime, steps and faults.
use super::{Clock, assert_same, fields, request, synchronized, with_offset};
use tk_clock::Timespec;
use tk_ntp::{Discipline, TimeState, Timex};

#[test]
fn a_fresh_discipline_is_not_synchronized(rt: HostRuntime) {
    let mut clock = Clock::new(&rt, 1_700_000_000);
    let expected = fields(0, 1_700_000_000, 0);
    clock.replies(&rt, 0, &request(0), TimeState::Error, expected);
    assert_same(&rt, &clock.ntp.second_length(), &4_294_967_296_000_000_000);
    assert_same(&rt, &clock.ntp.tick(), &10_000);
}

#[test]
fn there_are_1_to_1024_parts_of_a_second(rt: HostRuntime) {
    for (hz, is_there) in [(0, false), (1, true), (1024, true), (1025, false)] {
        assert_same(&rt, &(hz, Discipline::new(hz).is_some()), &(hz, is_there));
    }
}

#[test]
fn a_frequency_is_clamped(rt: HostRuntime) {
    let mut clock = Clock::new(&rt, 1_700_000_010);
    for (given, kept) in [
        (6_553_600, 6_553_600),
        (40_000_000, 32_768_000),
        (-1, -1),
        (140_737_488_355, 32_768_000),
    ] {
        let asked = Timex {
            freq: given,
            ..request(0x2)
        };
        let expected = Timex {
            freq: kept,
            ..fields(0x2, 1_700_000_010, 501_049)
        };
        clock.replies(&rt, 501_049_935, &asked, TimeState::Error, expected);
    }
}

#[test]
fn a_phase_goes_on_under_another_tick(rt: HostRuntime) {
    let mut clock = Clock::following(&rt, 10_000_000);
    for (passed, nsec, modes, freq, tick, offset) in [
        (4u32, 500_136_017, 0x4000, 0, 10_100, 9_844_663),
        (14, 600_514_511, 0x4002, -6_553_600, 9900, 9_466_795),
    ] {
        let sec = 1_700_000_000u32.wrapping_add(passed);
        let maxerror = i64::from(passed) * 500;
        clock.pass(sec);
        let asked = Timex {
            freq,
            tick,
            ..request(modes)
        };
        let expected = Timex {
            offset,
            freq,
            tick,
            ..synchronized(modes, sec, i64::from(nsec), 8193, maxerror)
        };
        clock.replies(&rt, nsec, &asked, TimeState::Ok, expected);
    }
    assert_same(&rt, &clock.ntp.tick(), &9900);
}

#[test]
fn the_greatest_error_grows_to_its_limit(rt: HostRuntime) {
    let mut clock = Clock::new(&rt, 1_700_000_000);
    let errors = Timex {
        esterror: 7,
        ..request(0x1c)
    };
    let _ = clock.reply(&rt, 500_000_000, &errors);
    for (sec, state, maxerror, status) in [
        (1_700_000_010, TimeState::Ok, 5000, 0),
        (1_700_032_000, TimeState::Ok, 16_000_000, 0),
        (1_700_032_001, TimeState::Error, 16_000_000, 64),
    ] {
        clock.pass(sec);
        let expected = Timex {
            maxerror,
            esterror: 7,
            status,
            ..fields(0, sec, 500_000)
        };
        clock.replies(&rt, 500_000_000, &request(0), state, expected);
    }
}

#[test]
fn adjtime_gives_500_us_in_a_second(rt: HostRuntime) {
    let mut clock = Clock::new(&rt, 1_700_000_000);
    let shot = with_offset(0x8001, 1200);
    assert_same(&rt, &clock.reply(&rt, 500_000_000, &shot).timex.offset, &0);
    let mut sec = 1_700_000_000u32;
    // a second of 10^9 ns is longer by the us that it gives
    for (given, left) in [(0u32, 1200), (500, 700), (500, 200), (200, 0), (0, 0)] {
        clock.pass(sec);
        let expected = Timex {
            offset: left,
            ..fields(0xa001, sec, 500_249)
        };
        let single = request(0xa001);
        clock.replies(&rt, 500_249_981, &single, TimeState::Error, expected);
        let length = (1_000_000_000 + u64::from(given) * 1_000) << 32;
        assert_same(&rt, &clock.ntp.second_length().unsigned_abs(), &length);
        sec = sec.wrapping_add(1);
    }
}

#[test]
fn a_step_is_in_nanoseconds(rt: HostRuntime) {
    for (modes, sec, sub, nsec) in [
        (0x2100, -2, 250_000_000, 250_000_000),
        (0x100, 1, 999_999, 999_999_000),
        (0x100, i64::MIN, 0, 0),
    ] {
        let asked = Timex {
            sec,
            sub,
            ..request(modes)
        };
        assert!(rt; !asked.is_faulty());
        assert_same(&rt, &asked.step(), &Some(Timespec { sec, nsec }));
    }
    let none = request(0x2001);
    assert!(rt; !none.is_faulty());
    assert_same(&rt, &none.step(), &None);
}

#[test]
fn each_fault_is_refused(rt: HostRuntime) {
    for (modes, freq, tick, sub, is_faulty) in [
        (0x8000, 0, 0, 0, true),
        (0x8001, 0, 0, 0, false),
        (0xc001, 0, 8999, 0, false),
        (0x4000, 0, 8999, 0, true),
        (0x4000, 0, 9000, 0, false),
        (0x4000, 0, 11_000, 0, false),
        (0x4000, 0, 11_001, 0, true),
        (0x2, 140_737_488_356, 0, 0, true),
        (0x2, -140_737_488_355, 0, 0, false),
        (0x2, -140_737_488_356, 0, 0, true),
        (0x8003, i64::MAX, 0, 0, true),
        (0x100, 0, 0, 999_999, false),
        (0x100, 0, 0, 1_000_000, true),
        (0x2100, 0, 0, 999_999_999, false),
        (0x2100, 0, 0, 1_000_000_000, true),
        (0x100, 0, 0, -1, true),
        (0, i64::MIN, i64::MIN, i64::MIN, false),
    ] {
        let asked = Timex {
            freq,
            tick,
            sub,
            ..request(modes)
        };
        assert_same(
            &rt,
            &(modes, freq, tick, sub, asked.is_faulty()),
            &(modes, freq, tick, sub, is_faulty),
        );
    }
}

#[test]
fn numbers_out_of_range_are_clamped(rt: HostRuntime) {
    let mut clock = Clock::new(&rt, 1_700_000_000);
    for (given, error, constant, tai) in [
        (i64::MIN, 0, 4, 0),
        (-1, 0, 4, 0),
        (5, 5, 9, 5),
        (6, 6, 10, 6),
        (i64::MAX, 16_000_000, 10, 6),
        (100_000, 100_000, 10, 100_000),
        (100_001, 100_001, 10, 100_000),
        (16_000_001, 16_000_000, 10, 100_000),
    ] {
        let asked = Timex {
            maxerror: given,
            esterror: given,
            constant: given,
            ..request(0xac)
        };
        let found = clock.reply(&rt, 0, &asked);
        let expected = Timex {
            maxerror: error,
            esterror: error,
            constant,
            ..fields(0xac, 1_700_000_000, 0)
        };
        assert_same(&rt, &(given, found.timex), &(given, expected));
        assert_same(&rt, &(given, found.tai), &(given, tai));
    }
}
