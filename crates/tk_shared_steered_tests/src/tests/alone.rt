//! A discipline whose owner is the only caller that acts, or one of two in turn.
ghost use Rattle.std.specs.Prelude.{◌≡◌};
ghost use Rattle.tk_shared.specs.Opening.{IsNamed};

use super::{advanced, announce, assert_same, begins, opened, read_by, ready, steered};
use std::alloc::Global;
use std::marker::Brand;
use std::process::Abort;
use std::sync::Wait;
use tk_clock::{Command, Refusal, Snapshot};
use tk_ntp::SteeredClock;
use tk_shared::{Caller, Named, Prepared, SharedKeeper, Ticker};
use tk_shared_steered::{SharedSteering, SteeringFault};

/// The cycles from one reading of the counter to the next.
const STEP: u64 = 300_000_000;

/// Which of 12 calls let a second begin. The second one of these seconds is inserted. The numbers
/// of this test are those of `Steered` in tests/model/steered_clock.py, to which the commands were
/// given each at the next reading.
const BEGUN: [bool; 12] = [
    false, true, false, true, true, false, true, true, false, true, false, true,
];

/// The actions of the callers of a keeper.
#[derive(Clone, Copy)]
enum Deed {
    Begin,
    Advance,
    Meet,
    Fail,
}

/// Opens a keeper for this number of callers under a `Brand`, and lets them act.
fn does<R: Wait + Abort>(rt: &R, alloc: Global, callers: usize, deed: Deed) {
    let prepared = ready(rt, alloc, Ticker::new(0, STEP), callers);
    acts::<Brand, R>(rt, alloc, deed, prepared);
}

/// Owns the keeper and its callers, and only lends them to the functions that act, so that none of
/// those drops a keeper where it ends early.
fn acts<L: Named, R: Wait + Abort>(rt: &R, alloc: Global, deed: Deed, prepared: Prepared<Ticker>)
    requires named { IsNamed prepared L.page L.latch L.notice L.name L.parts L.callers }
{
    let (keeper, mut callers) = opened::<L, Ticker>(rt, alloc, prepared);
    acts_on(rt, &keeper, &mut callers, deed);
}

fn acts_on<L: Named>(
    rt: &(impl Wait + Abort),
    keeper: &SharedKeeper<L, Ticker>,
    callers: &mut Vec<Caller<L>>,
    deed: Deed,
) {
    match deed {
        Deed::Begin => begins_all(rt, keeper, callers),
        Deed::Advance => advances(rt, keeper, callers),
        Deed::Meet => meets(rt, keeper, callers),
        Deed::Fail => fails(rt, keeper, callers),
    }
}

/// The state past the inserted second. MONOTONIC at the last command is the multiplier, the seconds
/// and the `2^-23` ns below them; the lag is in two words.
#[derive(Clone, Copy)]
struct Left {
    front: u64,
    monotonic: (u32, u64, u64),
    next_second: u64,
    lag: (u64, u64),
}

/// Ends the discipline, and checks its state and the clocks.
fn leaves<L: Named>(
    rt: &(impl Wait + Abort),
    keeper: &SharedKeeper<L, Ticker>,
    steering: SharedSteering<L>,
    left: &Left,
) {
    let (mut caller, clock) = steering.into_parts();
    is_left(rt, &read_by(rt, keeper, &mut caller), left);
    is_disciplined(rt, &clock, left);
}

/// Checks the clocks. The counter was read once for each command.
fn is_left(rt: &impl Abort, now: &Snapshot, left: &Left) {
    let last = left.front.wrapping_mul(STEP);
    assert_same(rt, &(now.front(), now.last()), &(left.front, last));
    let monotonic = (now.mult(), now.sec(), now.frac());
    assert_same(rt, &monotonic, &left.monotonic);
    let offsets = (now.real_offset(), now.tai());
    assert_same(rt, &offsets, &(1_483_228_797_000_000_000, 1));
}

/// Checks the numbers of the discipline.
fn is_disciplined(rt: &impl Abort, clock: &SteeredClock, left: &Left) {
    let last = left.front.wrapping_mul(STEP);
    let numbers = clock.numbers();
    let found = (numbers.next, numbers.last_account);
    assert_same(rt, &found, &(left.next_second, last));
    let lag = numbers.steering.lag;
    assert_same(rt, &(lag.high, lag.low), &left.lag);
}

#[test]
fn seconds_begin_late_through_an_inserted_second(rt: HostRuntime) {
    does(&rt, rt.alloc(), 1, Deed::Begin);
}

fn begins_all<L: Named>(
    rt: &(impl Wait + Abort),
    keeper: &SharedKeeper<L, Ticker>,
    callers: &mut Vec<Caller<L>>,
) {
    let mut steering = steered(rt, keeper, callers);
    begins_each(rt, keeper, &mut steering);
    let left = Left {
        front: 24,
        monotonic: (8_388_885, 7, 1_679_631_400_000_000),
        next_second: 1_483_228_805,
        lag: (1_152_921_504_674_885_678, 204_913_783_045_357_568),
    };
    leaves(rt, keeper, steering, &left);
}

/// Lets 12 calls begin the seconds that are due, one of them inserted.
fn begins_each<L: Named>(
    rt: &(impl Wait + Abort),
    keeper: &SharedKeeper<L, Ticker>,
    steering: &mut SharedSteering<L>,
) {
    assert_same(rt, &announce(steering), &true);
    for begun in BEGUN {
        assert_same(rt, &begins(rt, keeper, steering), &Ok(begun));
    }
}

#[test]
fn all_due_seconds_begin_late(rt: HostRuntime) {
    does(&rt, rt.alloc(), 1, Deed::Advance);
}

fn advances<L: Named>(
    rt: &(impl Wait + Abort),
    keeper: &SharedKeeper<L, Ticker>,
    callers: &mut Vec<Caller<L>>,
) {
    let mut steering = steered(rt, keeper, callers);
    advances_often(rt, keeper, &mut steering);
    let left = Left {
        front: 14,
        monotonic: (8_388_867, 4, 1_678_809_100_000_000),
        next_second: 1_483_228_801,
        lag: (1_152_921_502_771_523_105, 15_088_747_601_551_425_536),
    };
    leaves(rt, keeper, steering, &left);
}

/// Lets three calls begin all seconds that are due, one of them inserted.
fn advances_often<L: Named>(
    rt: &(impl Wait + Abort),
    keeper: &SharedKeeper<L, Ticker>,
    steering: &mut SharedSteering<L>,
) {
    assert_same(rt, &announce(steering), &true);
    for _ in 0..3u8 {
        assert_same(rt, &advanced(rt, keeper, steering), &Ok(()));
    }
}

/// The result of a command of the first caller in a list, if the list has a caller.
fn other_commands<L: Named>(
    rt: &impl Wait,
    keeper: &SharedKeeper<L, Ticker>,
    callers: &mut [Caller<L>],
    cmd: Command,
) -> Option<Result<u64, Refusal>> {
    let caller = callers.first_mut()?;
    Some(keeper.command(rt, caller, cmd))
}

/// The number of commands that the first caller in a list finds by a read.
fn reads<L: Named>(
    rt: &impl Wait,
    keeper: &SharedKeeper<L, Ticker>,
    callers: &mut [Caller<L>],
) -> Option<u64> {
    let caller = callers.first_mut()?;
    Some(keeper.read(rt, caller).front())
}

#[test]
fn another_callers_command_is_reported(rt: HostRuntime) {
    does(&rt, rt.alloc(), 2, Deed::Meet);
}

fn meets<L: Named>(
    rt: &(impl Wait + Abort),
    keeper: &SharedKeeper<L, Ticker>,
    callers: &mut Vec<Caller<L>>,
) {
    let mut steering = steered(rt, keeper, callers);
    meets_another(rt, keeper, &mut steering, callers.as_mut_slice());
    let (caller, clock) = steering.into_parts();
    // the first of the two calls gave its update
    assert_same(rt, &caller.front(), &4);
    assert_same(rt, &clock.snapshot(0).last(), &600_000_000);
}

/// Lets a second begin before and after another caller's command. Its read is no command.
fn meets_another<L: Named>(
    rt: &(impl Wait + Abort),
    keeper: &SharedKeeper<L, Ticker>,
    steering: &mut SharedSteering<L>,
    callers: &mut [Caller<L>],
) {
    assert_same(rt, &begins(rt, keeper, steering), &Ok(false));
    assert_same(rt, &reads(rt, keeper, callers), &Some(2));
    assert_same(rt, &steering.is_lost(), &false);
    let answer = other_commands(rt, keeper, callers, Command::Freq(65_536));
    assert_same(rt, &answer, &Some(Ok(3)));
    let foreign = Err(SteeringFault::Foreign);
    assert_same(rt, &begins(rt, keeper, steering), &foreign);
    assert_same(rt, &steering.is_lost(), &true);
    assert_same(rt, &begins(rt, keeper, steering), &foreign);
}

#[test]
fn no_discipline_is_opened_in_error(rt: HostRuntime) {
    does(&rt, rt.alloc(), 2, Deed::Fail);
}

fn fails<L: Named>(
    rt: &(impl Wait + Abort),
    keeper: &SharedKeeper<L, Ticker>,
    callers: &mut Vec<Caller<L>>,
) {
    let owner = callers.pop().expect(rt, "a caller");
    let invalid = SteeringFault::Refused(Refusal::Invalid);
    let owner = unsteered(rt, keeper, owner, (0, invalid));
    let answer = other_commands(rt, keeper, callers.as_mut_slice(), Command::Update);
    assert_same(rt, &answer, &Some(Ok(1)));
    let owner = unsteered(rt, keeper, owner, (250, SteeringFault::Foreign));
    assert_same(rt, &owner.front(), &1);
}

/// Returns the caller for which no discipline is opened at this `hz`, with this fault.
fn unsteered<L: Named>(
    rt: &(impl Wait + Abort),
    keeper: &SharedKeeper<L, Ticker>,
    owner: Caller<L>,
    (hz, fault): (u32, SteeringFault),
) -> Caller<L> {
    let opened = SharedSteering::open(rt, keeper, owner, hz);
    let unsteered = opened.err().expect(rt, "a fault");
    assert_same(rt, &unsteered.fault, &fault);
    unsteered.caller
}
