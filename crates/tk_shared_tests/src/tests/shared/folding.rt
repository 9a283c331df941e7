//! Tests folding under the lock.
use super::deeds::{Deed, closes, does};
use super::{assert_same, commanded, fold_by, glanced, read_by};
use std::process::Abort;
use std::sync::Wait;
use tk_clock::{Command, Refusal};
use tk_shared::{Caller, Named, SharedKeeper, Ticker};

#[test]
fn a_fold_makes_room_again(rt: HostRuntime) {
    // two steps are more than half the counter's range, and one step isn't
    does(&rt, rt.alloc(), Ticker::new(0, 3 << 29), Deed::Fills);
}

pub(super) fn fills<L: Named>(
    rt: &(impl Wait + Abort),
    keeper: &SharedKeeper<L, Ticker>,
    caller: &mut Caller<L>,
    other: &mut Caller<L>,
) {
    let mut is_good = true;
    for number in 1..=1_048_576 {
        let answer = commanded(rt, keeper, caller, Command::Update);
        is_good = is_good && answer == Ok(number);
    }
    assert!(rt; is_good);
    let refused = commanded(rt, keeper, caller, Command::Update);
    assert_same(rt, &refused, &Err(Refusal::Full));
    // a refused command folds nothing
    assert_same(rt, &fold_by(rt, keeper, caller, 1_048_576), &0);
    assert_same(rt, &fold_by(rt, keeper, caller, 1), &1_048_575);
    assert_same(rt, &caller.folded(), &1_048_575);
    // the refused command read the counter too
    let behind = commanded(rt, keeper, caller, Command::Update);
    assert_same(rt, &behind, &Err(Refusal::Behind));
    let accepted = commanded(rt, keeper, caller, Command::Update);
    assert_same(rt, &accepted, &Ok(1_048_577));
    // the other caller knows of no fold before its command
    let others = commanded(rt, keeper, other, Command::Update);
    assert_same(rt, &(others, other.folded()), &(Ok(1_048_578), 1_048_575));
    // a refused command informs it too
    assert_same(rt, &fold_by(rt, keeper, caller, 0), &1_048_578);
    let refused = commanded(rt, keeper, other, Command::Tick(5));
    let seen = (refused, other.folded());
    assert_same(rt, &seen, &(Err(Refusal::Invalid), 1_048_578));
}

#[test]
fn a_fold_keeps_as_many_entries_as_asked(rt: HostRuntime) {
    does(&rt, rt.alloc(), Ticker::new(0, 1_000), Deed::Keeps);
}

pub(super) fn keeps<L: Named>(
    rt: &(impl Wait + Abort),
    keeper: &SharedKeeper<L, Ticker>,
    caller: &mut Caller<L>,
) {
    for number in 1..=5 {
        let answer = commanded(rt, keeper, caller, Command::Update);
        assert_same(rt, &answer, &Ok(number));
    }
    // the number of entries to keep listed, and the number of folded ones after the call
    for (keep, folded) in [(u64::MAX, 0), (5, 0), (2, 3), (4, 3), (0, 5)] {
        assert_same(rt, &fold_by(rt, keeper, caller, keep), &folded);
        assert_same(rt, &caller.folded(), &folded);
    }
}

#[test]
fn numbers_and_fronts_go_on_after_a_fold(rt: HostRuntime) {
    let closed = closes(&rt, rt.alloc(), Ticker::new(0, 1_000), Deed::Fold);
    let counts = (closed.keeper.len(), closed.keeper.folded());
    assert_same(&rt, &counts, &(4, 2));
}

pub(super) fn folds<L: Named>(
    rt: &(impl Wait + Abort),
    keeper: &SharedKeeper<L, Ticker>,
    one: &mut Caller<L>,
    other: &mut Caller<L>,
) {
    let first = commanded(rt, keeper, one, Command::Update);
    let second = commanded(rt, keeper, other, Command::Update);
    let third = commanded(rt, keeper, one, Command::Update);
    assert_same(rt, &(first, second, third), &(Ok(1), Ok(2), Ok(3)));
    let folded = fold_by(rt, keeper, one, 1);
    let fronts = (one.front(), other.front());
    let seen = read_by(rt, keeper, one).front();
    let fast = glanced(keeper, other).is_ok_and(|seen| seen.front() == 3);
    assert_same(rt, &(folded, fronts, seen, fast), &(2, (3, 2), 3, true));
    let fourth = commanded(rt, keeper, other, Command::Update);
    assert_same(rt, &fourth, &Ok(4));
}
