//! Opens a keeper of two callers under a `Brand`, for the tests that differ only in the actions of
//! the callers.
ghost use Rattle.tk_shared.specs.Opening.{IsNamed};

use super::{folding, leaps, open_two, readers, ready, turns};
use std::alloc::Global;
use std::marker::Brand;
use std::process::Abort;
use std::sync::Wait;
use std::thread::Threads;
use tk_shared::{Caller, Closed, Named, Prepared, SharedKeeper, Ticker};

/// The actions of the callers 0 and 1 of a keeper.
#[derive(Clone, Copy)]
pub(super) enum Deed {
    Fills,
    Fold,
    Follow,
    Glance,
    Keeps,
    Leap,
    Read,
    ReadFast,
}

/// Lets the two callers of a keeper with this counter do their actions, and closes the keeper: a
/// function that drops a keeper costs more to prove than one that closes it.
pub(super) fn does<R: Threads + Wait + Abort + Sync>(
    rt: &R,
    alloc: Global,
    ticker: Ticker,
    deed: Deed,
) {
    closes(rt, alloc, ticker, deed);
}

fn acts<L: Named + Send + Sync, R: Threads + Wait + Abort + Sync>(
    rt: &R,
    keeper: &SharedKeeper<L, Ticker>,
    one: &mut Caller<L>,
    other: &mut Caller<L>,
    deed: Deed,
) {
    match deed {
        Deed::Fills => folding::fills(rt, keeper, one, other),
        Deed::Fold => folding::folds(rt, keeper, one, other),
        Deed::Follow => turns::follows(rt, keeper, one, other),
        Deed::Glance => readers::glances_beside(rt, keeper, one, other),
        Deed::Keeps => folding::keeps(rt, keeper, one),
        Deed::Leap => leaps::both_act(rt, keeper, one, other),
        Deed::Read => turns::both_read(rt, keeper, one, other),
        Deed::ReadFast => turns::reads_fast(rt, keeper, one, other),
    }
}

/// Lets the two callers do their actions, and closes the keeper.
pub(super) fn closes<R: Threads + Wait + Abort + Sync>(
    rt: &R,
    alloc: Global,
    ticker: Ticker,
    deed: Deed,
) -> Closed<Ticker> {
    let prepared = ready(rt, alloc, ticker, 2);
    two_close::<Brand, R>(rt, alloc, prepared, deed)
}

fn two_close<L: Named + Send + Sync, R: Threads + Wait + Abort + Sync>(
    rt: &R,
    alloc: Global,
    prepared: Prepared<Ticker>,
    deed: Deed,
) -> Closed<Ticker>
    requires named { IsNamed prepared L.page L.latch L.notice L.name L.parts L.callers }
{
    let (keeper, mut one, mut other) = open_two::<L, Ticker>(rt, alloc, prepared);
    acts(rt, &keeper, &mut one, &mut other, deed);
    turns::closed_late(rt, alloc, keeper, one, other)
}
