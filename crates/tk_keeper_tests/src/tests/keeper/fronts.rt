//! Traces whose fronts change in every order. All values are compared with the values of the
//! fronts' snapshots.

use super::replayed::folds_to;
use super::traces::traced;
use super::{applied, assert_same, opened, put, time};
use std::alloc::Global;
use std::process::Abort;
use tk_clock::{ClockId, Command};
use tk_keeper::Timekeeper;

/// The number of commands in the journal. Clocks are kept after commands 256 and 512.
pub(super) const COMMANDS: u64 = 700;

/// The number of items in a list.
const ITEMS: usize = 301;

/// Fronts that are equal to a kept state's, or one below or above it, from both sides and across
/// it.
const ROUND: [u64; 35] = [
    0, 1, 0, 255, 256, 255, 256, 257, 256, 256, 254, 257, 255, 258, 511, 512, 513, 512, 511, 0,
    511, 0, 512, 0, 513, 257, 512, 256, 511, 255, 700, 699, 700, 0, 700,
];

/// The order of the fronts in a list.
#[derive(Clone, Copy)]
enum Order {
    Equal,
    TenEach,
    Rising,
    Falling,
    Jumping,
    Random,
    Round,
}

impl Order {
    /// Returns the front of an item, from 0 to 700. A list has `ITEMS` items.
    fn front(self, place: usize) -> u64 {
        let number = place as u64;
        match self {
            Order::Equal => 300,
            Order::TenEach => 240u64.wrapping_add(number / 10),
            Order::Rising => 230u64.wrapping_add(number),
            Order::Falling => 530u64.wrapping_sub(number),
            Order::Jumping => number % 3 * 256,
            Order::Random => number.wrapping_mul(389) % (COMMANDS + 1),
            Order::Round => ROUND[place % 35],
        }
    }
}

/// Returns the command with a number: an update, a setting, or a sleep across a kept state.
pub(super) fn command(number: u64) -> Command {
    match number {
        100 => Command::Freq(65_536_000),
        256 | 511 => Command::Suspend,
        257 | 512 => Command::Resume(time(5, 500_000_000)),
        300 => Command::Tai(37),
        400 => Command::Step(time(-7, 1)),
        600 => Command::Tick(10_100),
        _ => Command::Update,
    }
}

/// Returns a timekeeper with those commands, a microsecond after each other.
fn busy(rt: &impl Abort, alloc: Global) -> Timekeeper {
    let mut keeper = opened(rt, alloc);
    for number in 1..=COMMANDS {
        let answer = applied(rt, &mut keeper, 1_000 * number, command(number));
        assert_same(rt, &answer, &Ok(number));
    }
    keeper
}

/// Converts a stamp by the snapshot of its front, to ns. `None` means that a call failed, or that
/// the time is before 1970 or too late for 64 bits.
fn by_snapshot(keeper: &Timekeeper, front: u64, stamp: u64, clock: ClockId) -> Option<u64> {
    let time = keeper.snapshot_at(front).ok()?.get(clock, stamp).ok()?;
    let sec = u64::try_from(time.sec).ok()?;
    let nanos = sec.checked_mul(1_000_000_000)?;
    nanos.checked_add(u64::from(time.nsec))
}

/// Checks both traces of fronts in this order, none of which is folded. An item's stamp is up to
/// 0.3 us after the command at its front.
fn compared(rt: &impl Abort, keeper: &Timekeeper, order: Order, clock: ClockId) {
    let (mut fronts, mut stamps, mut values) = ([0; ITEMS], [0; ITEMS], [0; ITEMS]);
    for place in 0..ITEMS {
        let front = order.front(place).max(keeper.folded());
        let stamp = front.wrapping_mul(1_000).wrapping_add(place as u64);
        let value = by_snapshot(keeper, front, stamp, clock);
        put(&mut fronts, place, front);
        put(&mut stamps, place, stamp);
        put(&mut values, place, value.unwrap_or(u64::MAX));
    }
    traced(rt, keeper, &fronts, &stamps, clock, &values, Ok(()));
}

#[test]
fn fronts_in_each_order_are_converted_by_their_own_clocks(rt: HostRuntime) {
    let mut keeper = busy(&rt, rt.alloc());
    // unfolded, folded at a kept state, and folded 44 commands after it
    for (folded, clock) in [
        (0, ClockId::Boottime),
        (256, ClockId::Tai),
        (300, ClockId::MonotonicRaw),
    ] {
        folds_to(&rt, &mut keeper, COMMANDS, folded);
        for order in [
            Order::Equal,
            Order::TenEach,
            Order::Rising,
            Order::Falling,
            Order::Jumping,
            Order::Random,
            Order::Round,
        ] {
            compared(&rt, &keeper, order, clock);
        }
    }
}
