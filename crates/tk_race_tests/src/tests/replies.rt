//! Tests the replies that actors get.

use super::{
    OPENED_TIME, UPDATE, alike, assert_same, counter, first_gets, raced, raced_alone, result_of,
    rise,
};
use std::alloc::Global;
use std::process::Abort;
use std::sync::Wait;
use std::thread::Threads;
use tk_clock::{ClockId, Command, Refusal, Timespec};
use tk_counter::CounterDesc;
use tk_keeper::Timekeeper;
use tk_race::{Action, NoGate, RaceError, RaceReply, RaceReport};

#[test]
fn two_actors_of_three_updates_make_six_entries(rt: HostRuntime) {
    let actors = alike(rt.alloc(), 2, UPDATE, 3).expect(&rt, "memory");
    let report = raced(&rt, rt.alloc(), counter(&rt), (0, 1_000), actors, &NoGate);
    assert_same(&rt, &(report.keeper.len(), report.replies.len()), &(6, 2));
    three_each(&rt, &report);
    // every reading is the counter's next one, whichever actor gave the command
    for number in 1..=6u64 {
        has_update(&rt, &report.keeper, number, 1_000 * number);
    }
}

/// Checks that each actor has three numbers that rise.
fn three_each(rt: &impl Abort, report: &RaceReport) {
    for replies in report.replies.as_slice() {
        assert!(rt; replies.len() == 3 && rise(0, replies.as_slice()));
    }
}

/// Checks that the entry with a number is an update at this reading.
fn has_update(rt: &impl Abort, keeper: &Timekeeper, number: u64, reading: u64) {
    let entry = keeper.entry(number).expect(rt, "an entry");
    assert_same(rt, &(entry.reading, entry.cmd), &(reading, Command::Update));
}

/// The readings of three updates by one actor on a counter of one nanosecond a cycle, and MONOTONIC
/// at the last one.
fn three_updates<R: Abort + Threads + Wait + Sync>(
    rt: &R,
    alloc: Global,
    bits: u32,
    reading: u64,
    step: u64,
) -> ([u64; 3], Timespec) {
    let desc = CounterDesc::new(bits, 16_777_216, 24).expect(rt, "a counter");
    let report = raced_alone(rt, alloc, desc, (reading, step), &[UPDATE; 3]);
    readings_and_time(rt, &report.keeper)
}

/// Returns the readings of the first three entries, and MONOTONIC at the third one.
fn readings_and_time(rt: &impl Abort, keeper: &Timekeeper) -> ([u64; 3], Timespec) {
    let last = reading_of(rt, keeper, 3);
    let readings = [reading_of(rt, keeper, 1), reading_of(rt, keeper, 2), last];
    let time = keeper.get(ClockId::Monotonic, last);
    (readings, time.expect(rt, "a time"))
}

/// Returns the reading of the entry with a number.
fn reading_of(rt: &impl Abort, keeper: &Timekeeper, number: u64) -> u64 {
    keeper.entry(number).expect(rt, "an entry").reading
}

#[test]
fn readings_and_steps_keep_their_upper_bits(rt: HostRuntime) {
    for (bits, reading, step, readings, sec, nsec) in [
        (32, 0, 4_294_968_296, [1_000, 2_000, 3_000], 0, 3_000),
        (
            48,
            4_294_967_301,
            1_000,
            [4_294_968_301, 4_294_969_301, 4_294_970_301],
            0,
            3_000,
        ),
        (
            64,
            4_294_967_301,
            4_294_968_296,
            [8_589_935_597, 12_884_903_893, 17_179_872_189],
            12,
            884_904_888,
        ),
    ] {
        assert_same(
            &rt,
            &three_updates(&rt, rt.alloc(), bits, reading, step),
            &(readings, Timespec { sec, nsec }),
        );
    }
}

#[test]
fn one_actor_is_answered_as_on_one_thread(rt: HostRuntime) {
    let actions = [
        UPDATE,
        Action::Glance,
        Action::Look,
        Action::Order(Command::Tai(100_001)),
        Action::Order(Command::Suspend),
        UPDATE,
        Action::Order(Command::Resume(Timespec { sec: 1, nsec: 0 })),
        Action::Look,
        Action::Glance,
    ];
    let report = raced_alone(&rt, rt.alloc(), counter(&rt), (5, 10), &actions);
    let expected = [
        RaceReply::Done(1),
        RaceReply::Glanced(1),
        RaceReply::Saw(1),
        RaceReply::Refused(Refusal::Invalid),
        RaceReply::Done(2),
        RaceReply::Refused(Refusal::Asleep),
        RaceReply::Done(3),
        RaceReply::Saw(3),
        RaceReply::Glanced(3),
    ];
    first_gets(&rt, &report, &expected);
    // a refused order has also read the counter
    let resumed = report.keeper.entry(3).expect(&rt, "an entry");
    assert_same(&rt, &(report.keeper.len(), resumed.reading), &(3, 55));
}

#[test]
fn a_first_glance_finds_the_opening(rt: HostRuntime) {
    let actors = alike(rt.alloc(), 3, Action::Glance, 2).expect(&rt, "memory");
    let report = raced(&rt, rt.alloc(), counter(&rt), (5, 10), actors, &NoGate);
    // nobody publishes, so no glance finds that the latch moved
    all_get(
        &rt,
        &report,
        &[RaceReply::Glanced(0), RaceReply::Glanced(0)],
    );
}

/// Checks the replies to every actor.
fn all_get(rt: &impl Abort, report: &RaceReport, expected: &[RaceReply]) {
    for replies in report.replies.as_slice() {
        assert!(rt; replies.as_slice() == expected);
    }
}

/// Returns the error of a race of `actors` actors without actions.
fn error_of<R: Abort + Threads + Wait + Sync>(
    rt: &R,
    alloc: Global,
    actors: usize,
    desc: CounterDesc,
    reading: u64,
    real: Timespec,
) -> Option<RaceError> {
    let actors = alike(alloc, actors, UPDATE, 0).expect(rt, "memory");
    let list = actors.as_slice();
    result_of(rt, alloc, desc, (reading, 1), real, list, &NoGate).err()
}

#[test]
fn one_to_64_actors_race(rt: HostRuntime) {
    let desc = counter(&rt);
    for (actors, error) in [
        (0, Some(RaceError::Count)),
        (1, None),
        (2, None),
        (64, None),
        (65, Some(RaceError::Count)),
    ] {
        assert_same(
            &rt,
            &error_of(&rt, rt.alloc(), actors, desc, 0, OPENED_TIME),
            &error,
        );
    }
}

#[test]
fn count_comes_before_invalid(rt: HostRuntime) {
    let desc = counter(&rt);
    let late = Timespec {
        sec: 8_277_292_036,
        nsec: 0,
    };
    for (actors, reading, real, error) in [
        (1, 4_294_967_295, OPENED_TIME, None),
        (1, 4_294_967_296, OPENED_TIME, Some(RaceError::Invalid)),
        (1, 0, late, Some(RaceError::Invalid)),
        (0, 4_294_967_296, late, Some(RaceError::Count)),
        (65, 4_294_967_296, late, Some(RaceError::Count)),
    ] {
        assert_same(
            &rt,
            &error_of(&rt, rt.alloc(), actors, desc, reading, real),
            &error,
        );
    }
}

#[test]
fn each_error_has_its_text(rt: HostRuntime) {
    for (error, text) in [
        (RaceError::Count, "count out of range"),
        (RaceError::Invalid, "invalid opening"),
        (RaceError::Memory, "out of memory"),
        (RaceError::Threads, "cannot start a thread"),
    ] {
        says(&rt, rt.alloc(), error, text);
    }
}

/// Checks the text of an error.
fn says(rt: &impl Abort, alloc: Global, error: RaceError, text: &str) {
    let said = format!(in alloc; "{error}").expect(rt, "memory");
    assert_same(rt, &said.as_str(), &text);
}
