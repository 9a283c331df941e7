//! Tests two callers that take turns in one thread.
ghost use Rattle.std.specs.Prelude.{◌≡◌, [], ◌∷◌};

use super::deeds::{Deed, closes, does};
use super::{assert_same, closed, commanded, follow_by, glanced, read_by, time};
use std::alloc::Global;
use std::process::Abort;
use std::sync::Wait;
use tk_clock::{ClockId, Command, Refusal, Snapshot, Timespec};
use tk_keeper::Timekeeper;
use tk_shared::{Caller, Closed, Counter, Missing, Named, SharedKeeper, Ticker};

/// The time to which the first caller sets REALTIME.
const SET: Command = Command::SetTime(Timespec {
    sec: 2_000_000_000,
    nsec: 0,
});

#[test]
fn a_command_is_read_by_both_and_all_callers_close(rt: HostRuntime) {
    let Closed {
        keeper,
        mut counter,
    } = closes(&rt, rt.alloc(), Ticker::new(0, 1_000), Deed::Read);
    // it was read at the opening and by each command
    assert_same(&rt, &counter.read(), &3_000);
    is_journal(&rt, &keeper);
}

/// Lets both callers give a command. Both read the first one's.
pub(super) fn both_read<L: Named, R: Wait + Abort>(
    rt: &R,
    keeper: &SharedKeeper<L, Ticker>,
    one: &mut Caller<L>,
    two: &mut Caller<L>,
) {
    let opened = (one.front(), one.mark(), one.accepted());
    let first = commanded(rt, keeper, one, SET);
    let own = read_by(rt, keeper, one);
    let others = read_by(rt, keeper, two).front();
    let second = commanded(rt, keeper, two, Command::Update);
    let counts = (one.accepted(), two.accepted());
    assert_same(rt, &(opened, counts), &((0, 0, 0), (1, 1)));
    is_set_between(rt, (first, second), &own, others);
}

/// Checks that both commands were accepted, and that both callers read between them that REALTIME
/// is set.
fn is_set_between<R: Abort>(
    rt: &R,
    answers: (Result<u64, Refusal>, Result<u64, Refusal>),
    own: &Snapshot,
    others: u64,
) {
    let fronts = (own.front(), others);
    assert_same(rt, &(answers, fronts), &((Ok(1), Ok(2)), (1, 1)));
    assert_same(
        rt,
        &own.get(ClockId::Realtime, 1_000),
        &Ok(time(2_000_000_000, 0)),
    );
}

/// Closes with only the first caller, which is refused, and then with both.
pub(super) fn closed_late<L: Named>(
    rt: &(impl Wait + Abort),
    alloc: Global,
    keeper: SharedKeeper<L, Ticker>,
    one: Caller<L>,
    other: Caller<L>,
) -> Closed<Ticker> {
    assert!(rt; one.id() == 0);
    assert!(rt; other.id() == 1);
    let Missing {
        keeper,
        mut callers,
    } = refused(rt, alloc, keeper, one);
    callers.push(other).ok().expect(rt, "memory");
    closed(rt, keeper, callers)
}

/// Closes with only this caller, which is refused.
fn refused<L: Named>(
    rt: &(impl Wait + Abort),
    alloc: Global,
    keeper: SharedKeeper<L, Ticker>,
    one: Caller<L>,
) -> Missing<L, Ticker>
    ensures { result.callers.items ≡ one ∷ [] }
{
    match keeper.close(rt, alone(rt, alloc, one)) {
        Ok(_) => panic!(rt; "closed without a caller"),
        Err(missing) => missing,
    }
}

/// One caller in a vector.
fn alone<L: Named>(rt: &impl Abort, alloc: Global, one: Caller<L>) -> Vec<Caller<L>>
    ensures { result.items ≡ one ∷ [] }
{
    vec![in alloc; one].ok().expect(rt, "memory")
}

/// The set, at the first tick, and the update, at the second.
fn is_journal<R: Abort>(rt: &R, keeper: &Timekeeper) {
    let entry = keeper.entry(1).expect(rt, "entry 1");
    assert_same(rt, &(entry.who, entry.reading, entry.cmd), &(0, 1_000, SET));
    let entry = keeper.entry(2).expect(rt, "entry 2");
    assert_same(
        rt,
        &(entry.who, entry.reading, entry.cmd),
        &(1, 2_000, Command::Update),
    );
    assert_same(rt, &keeper.len(), &2);
}

#[test]
fn a_fast_read_finds_what_another_caller_did(rt: HostRuntime) {
    does(&rt, rt.alloc(), Ticker::new(0, 1_000), Deed::ReadFast);
}

pub(super) fn reads_fast<L: Named>(
    rt: &(impl Wait + Abort),
    keeper: &SharedKeeper<L, Ticker>,
    one: &mut Caller<L>,
    two: &mut Caller<L>,
) {
    let first = commanded(rt, keeper, one, SET);
    let own = glanced(keeper, one).expect(rt, "a read");
    let others = glanced(keeper, two).expect(rt, "a read").front();
    let known = (one.front(), two.front(), two.mark());
    let second = commanded(rt, keeper, two, Command::Update);
    let marks = (one.mark(), two.mark());
    is_set_between(rt, (first, second), &own, others);
    assert_same(rt, &(known, marks), &((1, 0, 1), (1, 2)));
}

#[test]
fn a_caller_that_follows_knows_what_another_one_did(rt: HostRuntime) {
    does(&rt, rt.alloc(), Ticker::new(0, 1_000), Deed::Follow);
}

pub(super) fn follows<L: Named>(
    rt: &(impl Wait + Abort),
    keeper: &SharedKeeper<L, Ticker>,
    one: &mut Caller<L>,
    two: &mut Caller<L>,
) {
    let first = commanded(rt, keeper, one, SET);
    let before = (two.front(), two.mark());
    follow_by(rt, keeper, two, one);
    let after = (two.front(), two.mark(), two.accepted());
    let other = (one.front(), one.mark(), one.accepted());
    assert_same(
        rt,
        &(first, before, after, other),
        &(Ok(1), (0, 0), (1, 1, 0), (1, 1, 1)),
    );
    // only commands read the counter
    let second = commanded(rt, keeper, two, Command::Update);
    let last = read_by(rt, keeper, one).last();
    assert_same(rt, &(second, last), &(Ok(2), 2_000));
}
