//! Compares snapshots of past fronts with the snapshots of clocks that applied the same commands
//! one after the other. The gaps of neighbouring updates add up to half the mask, to more, and to
//! whole rounds of the counter, also for a 64-bit counter. A second journal contains long runs of
//! updates.

use super::fronts::{COMMANDS, command};
use super::{applied, assert_same, words_at, words_of};
use std::alloc::Global;
use std::process::Abort;
use tk_clock::{Clock, Command};
use tk_counter::CounterDesc;
use tk_keeper::{FrontError, Timekeeper};
use tk_test_support::OPENED_TIME;

/// The kinds of commands of a journal.
#[derive(Clone, Copy)]
enum Filling {
    /// Settings and sleeps, with gaps of up to half the mask.
    Varied,
    /// Updates, mostly a cycle apart, and a setting among the last ones. Clocks are kept after
    /// commands 256, 512, 768 and 1,024.
    Calm,
}

impl Filling {
    /// Returns the number of commands.
    fn count(self) -> u64 {
        match self {
            Filling::Varied => COMMANDS,
            Filling::Calm => 1_100,
        }
    }

    /// Returns the command with a number.
    fn command(self, number: u64) -> Command {
        match self {
            Filling::Varied => command(number),
            Filling::Calm if number == 900 => Command::Tai(37),
            Filling::Calm => Command::Update,
        }
    }

    /// Returns the cycles from the command before this one, up to half the mask.
    fn gap(self, number: u64, half: u64) -> u64 {
        match self {
            Filling::Varied => varied_gap(number, half),
            Filling::Calm => calm_gap(number, half),
        }
    }
}

fn varied_gap(number: u64, half: u64) -> u64 {
    match number % 8 {
        0 | 4 | 5 => half,
        2 => half.wrapping_sub(1),
        1 | 3 => 1,
        6 => 2,
        _ => 0,
    }
}

/// Returns gaps that add up to half the mask from command 256 to 511, and to one cycle more from
/// 512 to 767, if the counter has more than 8 bits.
fn calm_gap(number: u64, half: u64) -> u64 {
    match number {
        257 => half.saturating_sub(254),
        513 => half.saturating_sub(253),
        _ => 1,
    }
}

/// Applies the next command to clocks that have no journal, and returns its reading.
fn advanced(rt: &impl Abort, clock: &mut Clock, filling: Filling, number: u64) -> u64 {
    let before = clock.snapshot(0);
    let desc = before.desc();
    let gap = filling.gap(number, desc.half());
    let reading = before.last().wrapping_add(gap) & desc.mask();
    assert_same(rt, &clock.apply(reading, filling.command(number)), &Ok(()));
    reading
}

/// Checks the snapshots of all fronts. `opened` contains the clocks at front 0.
fn compared(rt: &impl Abort, keeper: &Timekeeper, opened: Clock, filling: Filling) {
    let mut clock = opened;
    for front in 0..=filling.count() {
        if front > 0 {
            advanced(rt, &mut clock, filling, front);
        }
        let wanted = if front < keeper.folded() {
            Err(FrontError::Folded)
        } else {
            Ok(clock.snapshot(front).words())
        };
        assert_same(rt, &words_at(keeper, front), &wanted);
    }
}

/// Fills a journal of this counter, and checks the snapshots of all fronts, before folds and after
/// them.
fn filled(rt: &impl Abort, alloc: Global, desc: CounterDesc, filling: Filling) {
    let opened = Clock::open(desc, 0, OPENED_TIME).expect(rt, "clocks");
    let mut keeper = Timekeeper::open(alloc, desc, 0, OPENED_TIME).expect(rt, "a timekeeper");
    let mut clock = opened;
    for number in 1..=filling.count() {
        follows(rt, &mut keeper, &mut clock, filling, number);
    }
    for folded in [0, 100, 256, 300, 511, 512, 513] {
        folds_to(rt, &mut keeper, filling.count(), folded);
        compared(rt, &keeper, opened, filling);
    }
}

/// Applies the next command to both, and checks that their words are equal.
fn follows(
    rt: &impl Abort,
    keeper: &mut Timekeeper,
    clock: &mut Clock,
    filling: Filling,
    number: u64,
) {
    let reading = advanced(rt, clock, filling, number);
    let answer = applied(rt, keeper, reading, filling.command(number));
    assert_same(rt, &answer, &Ok(number));
    assert_same(rt, &words_of(keeper), &clock.snapshot(number).words());
}

/// Folds a journal of `count` commands up to a front.
pub(super) fn folds_to(rt: &impl Abort, keeper: &mut Timekeeper, count: u64, folded: u64) {
    keeper.fold(count.wrapping_sub(folded));
    assert_same(rt, &keeper.folded(), &folded);
}

#[test]
fn each_past_front_has_the_words_that_it_had(rt: HostRuntime) {
    let alloc = rt.alloc();
    // 1 ns a cycle twice, and 2^24 cycles a nanosecond: runs of more than 2^64 cycles
    for desc in [
        CounterDesc::new(8, 256, 8),
        CounterDesc::new(32, 16_777_216, 24),
        CounterDesc::new(64, 256, 32),
    ] {
        let desc = desc.expect(&rt, "a counter");
        filled(&rt, alloc, desc, Filling::Varied);
        filled(&rt, alloc, desc, Filling::Calm);
    }
}
