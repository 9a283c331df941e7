use super::both::Both;
use super::{CALLER, amount, assert_replays, assert_same, offset, opened};
use std::process::Abort;
use tk_clock::Command;
use tk_ntp::{
    ADJ_ADJTIME, ADJ_FREQUENCY, ADJ_OFFSET, ADJ_SETOFFSET, ADJ_STATUS, ADJ_TAI, ADJ_TICK, STA_DEL,
    STA_INS, Timex,
};

/// Returns one of some requests, some of which have a fault.
fn request(seed: u64) -> Timex {
    let small = (seed >> 8) as i64 % 1_000_000;
    let none = Timex::default();
    let modes = match seed % 8 {
        0 => return offset(small),
        1 => ADJ_FREQUENCY,
        2 => ADJ_TICK,
        3 => ADJ_TAI,
        4 => ADJ_SETOFFSET,
        5 => ADJ_STATUS,
        6 => ADJ_ADJTIME | ADJ_OFFSET,
        _ => ADJ_SETOFFSET | ADJ_TAI | ADJ_FREQUENCY | ADJ_TICK,
    };
    Timex {
        modes,
        offset: small,
        freq: small * 40,
        tick: 8_999 + small % 2_010,
        constant: small % 50,
        status: if seed >> 40 & 1 == 0 {
            STA_INS
        } else {
            STA_DEL
        },
        sec: small % 100,
        sub: small,
        ..none
    }
}

/// Returns one of the commands.
fn command(seed: u64) -> Command {
    let small = (seed >> 8) as i64 % 1_000_000;
    match seed % 10 {
        0 | 1 => Command::Update,
        2 => Command::SetTime(amount(1_700_000_000 + small, 5)),
        3 => Command::Step(amount(small % 100, 7)),
        4 => Command::Freq(small * 60 - 30_000_000),
        5 => Command::Tick(8_999 + small % 2_010),
        6 => Command::Tai(small % 100),
        7 => Command::Leap { by: 1, tai: 36 },
        8 => Command::Suspend,
        _ => Command::Resume(amount(small % 1_000, 9)),
    }
}

/// Gives both clocks the order of their random number at a reading.
pub(super) fn give(rt: &impl Abort, both: &mut Both, reading: u64) {
    let seed = both.seed;
    match seed >> 50 & 7 {
        0 => both.advance(rt, reading),
        1 => both.advance_late(rt, reading),
        2 | 3 => both.adjtimex(rt, reading, &request(seed)),
        _ => both.apply(rt, reading, command(seed)),
    }
}

#[test]
fn any_orders_leave_the_clocks_of_their_journal(rt: HostRuntime) {
    let mut both = Both::opened(&rt, rt.alloc());
    for _ in 0..3_000 {
        let reading = both.draw(3_000_000_000);
        // some readings are behind
        let back = if both.seed >> 60 == 0 {
            4_000_000_000
        } else {
            0
        };
        give(&rt, &mut both, reading.saturating_sub(back));
        both.assert_alike(&rt);
    }
    assert_replays(&rt, &both.steered);
}

#[test]
fn a_day_that_was_missed_is_entered(rt: HostRuntime) {
    let mut both = Both::opened(&rt, rt.alloc());
    let asked = Timex {
        modes: ADJ_STATUS,
        status: STA_INS,
        ..Timex::default()
    };
    for asked in [asked, offset(100_000)] {
        both.adjtimex(&rt, 1_000, &asked);
    }
    let day = 86_400_000_000_000;
    assert_same(&rt, &both.steered.advance(CALLER, day), &Ok(()));
    assert_same(&rt, &both.plain.advance(day), &Ok(()));
    both.assert_alike(&rt);
    assert_replays(&rt, &both.steered);
}

#[test]
fn the_keeper_that_steering_leaves_takes_commands(rt: HostRuntime) {
    let mut steered = opened(&rt, rt.alloc());
    let hour = 3_600_000_000_000;
    let _reply = steered.adjtimex(CALLER, 1_000, &offset(100_000));
    assert_same(&rt, &steered.advance(CALLER, hour), &Ok(()));
    let (clock, count) = (steered.clock(), steered.keeper().len() as u64);
    let mut keeper = steered.into_keeper();
    let wanted = clock.snapshot(count).words();
    assert_same(&rt, &keeper.snapshot().words(), &wanted);
    // a frequency is an entry now, and no request
    let cmd = Command::Freq(7_000);
    let found = keeper.apply(CALLER, hour, cmd);
    assert_same(&rt, &found, &Ok(count + 1));
    let entered = keeper.entry(count + 1).expect(&rt, "an entry");
    assert_same(&rt, &(entered.cmd, entered.who), &(cmd, CALLER));
}
