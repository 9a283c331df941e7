//! A discipline that follows commands one by one, through an inserted second. The numbers are
//! those of `Steered` in tests/model/steered_clock.py, whose `account`, `ntp.overflow`, `command`
//! and `rate_for` were called in this order.
use super::{assert_same, nanosecond_counter, opened_at, request};
use std::process::Abort;
use tk_clock::{Clock, Command, Refusal};
use tk_ntp::{Change, Course, Leap, SteeredClock, TimeState, Timex};

/// Contains clocks, and the course of the discipline that follows their commands.
#[derive(Clone, Copy)]
struct Followed {
    clock: Clock,
    course: Course,
}

impl Followed {
    /// Returns the clocks with their discipline.
    fn steered(&self) -> SteeredClock {
        SteeredClock::with_course(self.clock, self.course)
    }
}

/// Checks the state that a command at a reading leaves: the TAI offset in seconds, from which
/// REALTIME minus MONOTONIC follows; the multiplier; the reading at which the next second begins,
/// the last one of the day; and the lag, in two words.
fn leaves(
    rt: &impl Abort,
    followed: &Followed,
    reading: u64,
    tai: u32,
    mult: u32,
    begins_at: u64,
    lag: (u64, u64),
) {
    let steered = followed.steered();
    let now = steered.snapshot(0);
    assert_same(rt, &(now.tai(), now.mult()), &(tai, mult));
    let real_offset = 1_483_228_798u64.wrapping_sub(u64::from(tai));
    assert_same(rt, &(now.real_offset() / 1_000_000_000), &real_offset);
    let numbers = steered.numbers();
    assert_same(
        rt,
        &(numbers.next, numbers.last_account),
        &(1_483_228_800, reading),
    );
    assert_same(rt, &steered.next_second(), &Some(begins_at));
    let found = numbers.steering.lag;
    assert_same(rt, &(found.high, found.low), &lag);
}

/// Opens clocks of a counter of 1 GHz at the reading 0, two seconds before a day ends.
fn opened(rt: &impl Abort) -> Followed {
    let steered = opened_at(rt, nanosecond_counter(rt), 1_483_228_798);
    Followed {
        clock: steered.clock(),
        course: steered.course(),
    }
}

/// Opens them with a frequency of 33 ppm, and an inserted second as the day ends.
fn announced(rt: &impl Abort) -> Followed {
    let mut followed = opened(rt);
    let asked = Timex {
        freq: 33 * 65_536 + 7,
        status: 0x10,
        ..request(0x12)
    };
    assert!(rt; !asked.is_faulty());
    let answer = followed.course.ask_alone(&followed.clock, &asked);
    let reply = answer.expect(rt, "no fault");
    assert_same(rt, &reply.state, &TimeState::Ok);
    assert_same(
        rt,
        &(reply.timex.sec, reply.timex.sub, reply.timex.freq),
        &(1_483_228_798, 0, 2_162_695),
    );
    // the clocks got no command
    assert_same(rt, &followed.clock.snapshot(0).mult(), &8_388_608);
    followed
}

/// Returns a change of the frequency.
fn frequency(frequency: i64) -> Change {
    Change {
        tick: None,
        frequency: Some(frequency),
    }
}

/// Gives the clocks the frequency that they need.
fn steers(rt: &impl Abort, followed: &mut Followed, reading: u64, needed: i64) {
    let Followed { clock, course } = followed;
    assert_same(rt, &course.needed_change(clock), &frequency(needed));
    let cmd = Command::Freq(needed);
    assert_same(rt, &course.follow_command(clock, reading, cmd), &Ok(()));
}

#[test]
fn clocks_follow_commands_through_an_inserted_second(rt: HostRuntime) {
    let mut followed = announced(&rt);
    let Followed { clock, course } = &mut followed;
    assert_same(&rt, &course.needed_change(clock), &frequency(2_162_695));
    assert_same(&rt, &course.begin_alone(clock, 999_999_999), &None);
    assert_same(
        &rt,
        &course.begin_alone(clock, 1_000_500_000),
        &Some(Leap::None),
    );
    assert_same(
        &rt,
        &course.follow_command(clock, 1_000_500_000, Command::Update),
        &Ok(()),
    );
    steers(&rt, &mut followed, 1_000_502_000, 4_326_471);
    let (tai, mult, begins_at) = (0, 8_389_161, 1_999_934_115);
    let lag = (1_152_921_569_092_536_165, 13_504_395_326_391_320_576);
    leaves(&rt, &followed, 1_000_502_000, tai, mult, begins_at, lag);
    let Followed { clock, course } = &mut followed;
    let leap = course.begin_alone(clock, 2_000_300_000);
    let leap = leap.expect(&rt, "a second that is due");
    assert_same(
        &rt,
        &course.follow_leap(clock, 2_000_301_000, leap),
        &Ok(()),
    );
    steers(&rt, &mut followed, 2_000_303_000, 2_169_291);
    let (tai, mult, begins_at) = (1, 8_388_885, 2_999_901_083);
    let lag = (1_152_921_504_803_319_941, 15_706_039_817_663_938_560);
    leaves(&rt, &followed, 2_000_303_000, tai, mult, begins_at, lag);
}

#[test]
fn a_refused_command_is_not_followed(rt: HostRuntime) {
    let Followed {
        mut clock,
        mut course,
    } = opened(&rt);
    assert_same(
        &rt,
        &course.follow_command(&mut clock, 1_000, Command::Update),
        &Ok(()),
    );
    let behind = Err(Refusal::Behind);
    assert_same(
        &rt,
        &course.follow_command(&mut clock, 999, Command::Update),
        &behind,
    );
    let steered = SteeredClock::with_course(clock, course);
    let numbers = steered.numbers();
    assert_same(
        &rt,
        &(numbers.next, numbers.last_account),
        &(1_483_228_799, 1_000),
    );
    assert_same(&rt, &steered.snapshot(0).tai(), &0);
}
