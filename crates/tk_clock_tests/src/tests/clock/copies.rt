use super::{applies, are_distinct, assert_same, assert_same_at, opened, time};
use std::process::Abort;
use tk_clock::{Clock, Command, Entry, ReadError, Refusal, Snapshot};
use tk_test_support::CLOCKS;

#[test]
fn a_time_is_its_two_numbers(rt: HostRuntime) {
    are_distinct(&rt, &[time(1, 2), time(-1, 2), time(1, 3)])
}

#[test]
fn no_clock_is_another(rt: HostRuntime) {
    are_distinct(&rt, &CLOCKS)
}

#[test]
fn no_refusal_is_another(rt: HostRuntime) {
    are_distinct(
        &rt,
        &[
            Refusal::Full,
            Refusal::Asleep,
            Refusal::Awake,
            Refusal::Invalid,
            Refusal::Behind,
            Refusal::Range,
            Refusal::Memory,
        ],
    );
    are_distinct(&rt, &[ReadError::Invalid, ReadError::Range])
}

#[test]
fn a_command_is_its_kind_and_its_numbers(rt: HostRuntime) {
    are_distinct(
        &rt,
        &[
            Command::Update,
            Command::SetTime(time(1, 2)),
            Command::SetTime(time(1, 3)),
            Command::Step(time(1, 2)),
            Command::Step(time(1, 3)),
            Command::Freq(10_000),
            Command::Freq(-10_000),
            Command::Tick(10_000),
            Command::Tick(10_001),
            Command::Tai(10_000),
            Command::Tai(10_001),
            Command::Leap { by: 1, tai: 2 },
            Command::Leap { by: 1, tai: 3 },
            Command::Leap { by: -1, tai: 2 },
            Command::Suspend,
            Command::Resume(time(1, 2)),
            Command::Resume(time(1, 3)),
        ],
    )
}

#[test]
fn an_entry_is_its_caller_reading_and_command(rt: HostRuntime) {
    let entry = Entry {
        who: 1,
        reading: 2,
        cmd: Command::Tai(3),
    };
    are_distinct(
        &rt,
        &[
            entry,
            Entry { who: 2, ..entry },
            Entry {
                reading: 3,
                ..entry
            },
            Entry {
                cmd: Command::Tai(4),
                ..entry
            },
        ],
    )
}

/// Returns clocks whose parts all have different values.
fn varied(rt: &impl Abort) -> Clock {
    let mut clock = opened(rt);
    for (reading, cmd) in [
        (1_000, Command::Tick(10_007)),
        (2_000, Command::Freq(-65_536)),
        (3_000, Command::Tai(37)),
        (4_000, Command::Suspend),
        (5_000, Command::Resume(time(6, 7))),
        (8_000, Command::Suspend),
    ] {
        applies(rt, &mut clock, reading, cmd);
    }
    clock
}

#[test]
fn a_clone_of_the_clocks_reads_and_goes_on_as_they_do(rt: HostRuntime) {
    let clock = varied(&rt);
    for (reading, cmd) in [
        (9_000, Command::Freq(65_536)),
        (9_000, Command::Tick(9_007)),
    ] {
        let mut copy = clock.clone().expect(&rt, "a copy");
        let mut own = clock;
        assert_same(&rt, &copy.snapshot(9).words(), &own.snapshot(9).words());
        for cmd in [Command::Resume(time(1, 1)), cmd] {
            applies(&rt, &mut copy, reading, cmd);
            applies(&rt, &mut own, reading, cmd);
        }
        assert_same_at(
            &rt,
            &cmd,
            &copy.snapshot(9).words(),
            &own.snapshot(9).words(),
        );
    }
}

#[test]
fn a_clone_of_a_snapshot_has_its_words_and_its_counter(rt: HostRuntime) {
    let snapshot: Snapshot = varied(&rt).snapshot(9);
    let copy = snapshot.clone().expect(&rt, "a copy");
    assert_same(&rt, &copy.words(), &snapshot.words());
    assert_same(&rt, &copy.desc(), &snapshot.desc());
}
