//! Tests values from outside the contracts, and threads.
ghost use Rattle.tk_shared.specs.Closing.{AreDifferent};
ghost use Rattle.tk_shared.specs.Opening.{IsNamed};

mod deeds;
mod folding;
mod leaps;
mod locked;
mod many;
mod memory;
mod never_back;
mod openings;
mod readers;
mod readings;
mod times;
mod turns;

use super::assert_same;
use std::alloc::Global;
use std::process::Abort;
use std::sync::Wait;
use tk_clock::{ClockId, Command, ReadError, Refusal, Snapshot, Timespec};
use tk_counter::CounterDesc;
use tk_latch::Moved;
use tk_now::SharedCounter;
use tk_shared::{Caller, Closed, Counter, Named, NowFault, Prepared, SharedKeeper, prepare};
use tk_test_support::{OPENED_TIME, nanosecond_counter};

/// A time in seconds and nanoseconds.
fn time(sec: i64, nsec: u32) -> Timespec {
    Timespec { sec, nsec }
}

/// Prepares a keeper for this number of callers, with no capacity for commands yet.
fn ready<C: Counter, R: Wait + Abort>(
    rt: &R,
    alloc: Global,
    counter: C,
    callers: usize,
) -> Prepared<C> {
    let desc = nanosecond_counter().expect(rt, "a counter");
    ready_on(rt, alloc, desc, counter, callers)
}

/// Prepares the same keeper with a counter of this description.
fn ready_on<C: Counter, R: Wait + Abort>(
    rt: &R,
    alloc: Global,
    desc: CounterDesc,
    counter: C,
    callers: usize,
) -> Prepared<C> {
    let prepared = prepare(alloc, rt, desc, OPENED_TIME, counter, callers, 0);
    prepared.ok().expect(rt, "a prepared keeper")
}

/// A keeper and its callers 0 and 1.
type Two<L, C> = (SharedKeeper<L, C>, Caller<L>, Caller<L>);

/// Opens the prepared keeper, for the callers 0 and 1.
fn open_two<L: Named, C: Counter>(
    rt: &impl Abort,
    alloc: Global,
    prepared: Prepared<C>,
) -> Two<L, C>
    requires named { IsNamed prepared L.page L.latch L.notice L.name L.parts L.callers }
{
    let (keeper, callers) = opened(rt, alloc, prepared);
    let (one, two) = two_of(rt, callers);
    (keeper, one, two)
}

/// Opens the prepared keeper, with all its callers.
fn opened<L: Named, C: Counter>(
    rt: &impl Abort,
    alloc: Global,
    prepared: Prepared<C>,
) -> (SharedKeeper<L, C>, Vec<Caller<L>>)
    requires named { IsNamed prepared L.page L.latch L.notice L.name L.parts L.callers }
{
    let opened = SharedKeeper::<L, C>::open(alloc, prepared);
    opened.ok().expect(rt, "an open keeper")
}

/// The two callers of a vector.
fn two_of<L: Named>(rt: &impl Abort, mut callers: Vec<Caller<L>>) -> (Caller<L>, Caller<L>) {
    let (two, one) = last_two(rt, &mut callers);
    assert!(rt; callers.is_empty());
    (one, two)
}

/// Returns the last two callers of a list, the last one first, and removes them.
fn last_two<L: Named>(rt: &impl Abort, callers: &mut Vec<Caller<L>>) -> (Caller<L>, Caller<L>) {
    let last = callers.pop().expect(rt, "a caller");
    (last, callers.pop().expect(rt, "two callers"))
}

/// Closes a keeper with all its callers.
fn closed<L: Named, C: Counter, R: Wait + Abort>(
    rt: &R,
    keeper: SharedKeeper<L, C>,
    callers: Vec<Caller<L>>,
) -> Closed<C>
    requires { AreDifferent callers.items }
{
    keeper.close(rt, callers).ok().expect(rt, "a closed keeper")
}

/// Gives a command. Tests need nothing of its contract, which would be in each of their proofs.
fn commanded<L: Named, C: Counter, R: Wait>(
    rt: &R,
    keeper: &SharedKeeper<L, C>,
    caller: &mut Caller<L>,
    cmd: Command,
) -> Result<u64, Refusal> {
    keeper.command(rt, caller, cmd)
}

/// Makes a read, in the same way.
fn read_by<L: Named, C: Counter, R: Wait>(
    rt: &R,
    keeper: &SharedKeeper<L, C>,
    caller: &mut Caller<L>,
) -> Snapshot {
    keeper.read(rt, caller)
}

/// Makes a fast read, in the same way.
fn glanced<L: Named, C: Counter>(
    keeper: &SharedKeeper<L, C>,
    caller: &mut Caller<L>,
) -> Result<Snapshot, Moved> {
    keeper.fast_read(caller)
}

/// Asks for the time now by the page, in the same way.
fn now_by<L: Named, C: Counter, S: SharedCounter, R: Wait>(
    rt: &R,
    keeper: &SharedKeeper<L, C>,
    caller: &mut Caller<L>,
    counter: &S,
    clock: ClockId,
) -> Result<Timespec, ReadError> {
    keeper.now(rt, caller, counter, clock)
}

/// Asks for the time now by the latch, in the same way.
fn now_glanced<L: Named, C: Counter, S: SharedCounter>(
    keeper: &SharedKeeper<L, C>,
    caller: &mut Caller<L>,
    counter: &S,
    clock: ClockId,
) -> Result<Timespec, NowFault> {
    keeper.now_fast(caller, counter, clock)
}

/// Folds, in the same way.
fn fold_by<L: Named, C: Counter, R: Wait>(
    rt: &R,
    keeper: &SharedKeeper<L, C>,
    caller: &mut Caller<L>,
    keep: u64,
) -> u64 {
    keeper.fold(rt, caller, keep)
}

/// Lets a caller follow another one, in the same way.
fn follow_by<L: Named, C: Counter, R: Wait>(
    rt: &R,
    keeper: &SharedKeeper<L, C>,
    caller: &mut Caller<L>,
    other: &mut Caller<L>,
) {
    keeper.follow(rt, caller, other);
}
