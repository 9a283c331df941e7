ghost use Rattle.std.specs.Prelude.{◌≡◌, ◌-◌, ◌^◌, ◌<◌, ◌≤◌, length, map, min, sum_by, IfOk, MatchResult, None, vec_len, vec_capacity};
ghost use Rattle.tk_clock.specs.Legal.{Opened};
ghost use Rattle.tk_clock.specs.Limits.{listed_most};
ghost use Rattle.tk_shared.specs.Opening.{IsNamed};
ghost use Rattle.tk_race.specs.Race.{IsRaced, IsOutcome, orders_in};
ghost use Rattle.tk_race.specs.RaceError.{IsRaceError, IsLate, race_error};
ghost use Rattle.tk_race.specs.Actor.{AreReady, HaveDone};

use crate::action::{Action, RaceReply};
use crate::actor::{Actor, RaceKeeper, Track};
use crate::race_error::RaceError;
use crate::report::RaceReport;
use crate::starting::act_at_once;
use std::alloc::{AllocError, Global};
use std::marker::Brand;
use std::sync::Wait;
use std::thread::Threads;
use tk_clock::{Clock, Timespec};
use tk_counter::CounterDesc;
use tk_now::SharedTicker;
use tk_pieces::Gate;
use tk_shared::{CALLERS_LIMIT, Caller, Named, Prepared, SharedKeeper, SharedReader, prepare};

/// Runs a race: all actors do their actions in separate threads, on one keeper. Returns the keeper
/// and the replies, which are the results of `SharedKeeper`'s `command`, `read`, `fast_read` and
/// `now`.
///
/// The counter reads `reading` at the opening, and `step` cycles more, modulo 2^64, in each order and
/// in each time now. A time now that tries again reads the counter as it is then. An order is
/// refused as `Behind` if the counter has moved by more than half its range since the last accepted
/// order. So keep `step` times the number of all orders and times below `2^(bits - 1)`.
/// Actor k is piece k of the gate: `before(k)` runs before its first action, `after(k)` after its
/// last. The call waits until all actors are done. It reserves all capacity before it starts a
/// thread.
///
/// # Errors
///
/// - `Count` if the number of actors is below 1 or above 64.
/// - `Invalid` if `reading` is above the mask, or REALTIME may not be set to `real`.
/// - `Memory` if an allocation fails. No thread was started.
/// - `Threads` if a thread can't be started. The threads that were started have ended.
pub fn race<G: Gate + Sync, R: Threads + Wait + Sync>(
    alloc: Global,
    rt: &R,
    desc: CounterDesc,
    reading: u64,
    real: Timespec,
    step: u64,
    actors: &[Vec<Action>],
    gate: &G,
) -> Result<RaceReport, RaceError>
    ensures { MatchResult result
        (λ report. (race_error (length actors.now) desc reading real ≡ None)
        × IsRaced desc reading step real (map (λ a. a.items) actors.now) report.keeper.journal
        (map (λ r. r.items) report.replies.items)
        × (report.keeper.began ≡ Opened))
        (λ error. IsRaceError (length actors.now) desc reading real error) }
{
    if actors.is_empty() || actors.len() > CALLERS_LIMIT {
        return Err(RaceError::Count);
    }
    let Ok(_) = Clock::open(desc, reading, real) else {
        return Err(RaceError::Invalid);
    };
    let counter = SharedTicker::new(reading, step);
    let reader = SharedReader::new(alloc, &counter)?;
    match prepare(alloc, rt, desc, real, reader, actors.len(), orders(actors)) {
        Ok(prepared) => raced::<Brand, G, R>(alloc, rt, prepared, &counter, actors, gate),
        Err(fault) => Err(fault.error.into()),
    }
}

/// Returns the number of orders of all actors, or `usize::MAX` if there are more.
fn orders(actors: &[Vec<Action>]) -> usize
    ensures { result ≡ min (sum_by (λ a. orders_in a.items) actors.now) (2 ^ 64 - 1) }
{
    let mut count = 0usize;
    for actions in actors {
        count = count.saturating_add(orders_of(actions.as_slice()));
    }
    count
}

/// The number of orders of one actor.
fn orders_of(actions: &[Action]) -> usize
    ensures { result ≡ orders_in actions.now }
{
    let mut count = 0;
    for action in actions {
        if let Action::Order(_) = action {
            count += 1;
        }
    }
    count
}

/// Opens the keeper, lets all actors act, and closes it.
///
/// The keeper has capacity for all orders, at most for the number that a journal lists.
fn raced<L: Named + Send + Sync, G: Gate + Sync, R: Threads + Wait + Sync>(
    alloc: Global,
    rt: &R,
    prepared: Prepared<SharedReader<'_, SharedTicker>>,
    counter: &SharedTicker,
    actions: &[Vec<Action>],
    gate: &G,
) -> Result<RaceReport, RaceError>
    requires named { IsNamed prepared L.page L.latch L.notice L.name L.parts L.callers }
    requires callers { prepared.callers ≡ length actions.now }
    requires some { 0 < length actions.now }
    requires room { min (sum_by (λ a. orders_in a.items) actions.now) listed_most
        ≤ prepared.spare }
    ensures { MatchResult result
        (λ report. IsOutcome counter.now prepared.entry.journal (map (λ a. a.items) actions.now)
        report.keeper.journal (map (λ r. r.items) report.replies.items)
        × (report.keeper.began ≡ Opened))
        IsLate }
{
    let Ok((keeper, callers)) = RaceKeeper::<L>::open(alloc, prepared) else {
        return Err(RaceError::Memory);
    };
    let track = Track {
        keeper: &keeper,
        counter,
        gate,
    };
    let (back, replies) = act_all(alloc, rt, &track, actions, callers)?;
    let Ok(closed) = keeper.close(rt, back) else {
        unreachable!()
    };
    Ok(RaceReport {
        keeper: closed.keeper,
        replies,
    })
}

/// Lets the callers act in separate threads. Returns them and their replies.
///
/// All memory is allocated before the first thread is started.
fn act_all<L: Named + Send + Sync, G: Gate + Sync, R: Threads + Wait + Sync>(
    alloc: Global,
    rt: &R,
    track: &Track<'_, '_, L, G>,
    actions: &[Vec<Action>],
    callers: Vec<Caller<L>>,
) -> Result<(Vec<Caller<L>>, Vec<Vec<RaceReply>>), RaceError>
    requires { vec_len callers ≡ length actions.now }
    ensures { MatchResult result
        (λ done. HaveDone track.now.counter.now (map (λ a. a.items) actions.now) callers.items
        done.0.items (map (λ r. r.items) done.1.items))
        IsLate }
{
    let mut back = Vec::with_capacity(alloc, actions.len())?;
    let mut replies = Vec::with_capacity(alloc, actions.len())?;
    let actors = ready(alloc, actions, callers)?;
    let acted = act_at_once(rt, track, actions, actors)?;
    part(acted, &mut back, &mut replies);
    Ok((back, replies))
}

/// Makes an actor for each caller, with capacity for its replies.
fn ready<L: Named>(
    alloc: Global,
    actions: &[Vec<Action>],
    callers: Vec<Caller<L>>,
) -> Result<Vec<Actor<L>>, AllocError>
    requires callers { vec_len callers ≡ length actions.now }
    ensures callers { IfOk result (λ actors. map (λ a. a.caller) actors.items ≡ callers.items) }
    ensures ready { IfOk result (λ actors.
        AreReady (map (λ a. a.items) actions.now) actors.items) }
{
    let mut actors = Vec::with_capacity(alloc, actions.len())?;
    for caller in callers {
        let replies = Vec::with_capacity(alloc, actions[actors.len()].len())?;
        actors.push_reserved(Actor { caller, replies });
    }
    Ok(actors)
}

/// Moves the callers of these actors, and their replies, into vectors with capacity for them.
fn part<L: Named>(
    actors: Vec<Actor<L>>,
    callers: &mut Vec<Caller<L>>,
    replies: &mut Vec<Vec<RaceReply>>,
)
    requires empty { (vec_len callers.old ≡ 0) × (vec_len replies.old ≡ 0) }
    requires room { (vec_len actors ≤ vec_capacity callers.old)
        × (vec_len actors ≤ vec_capacity replies.old) }
    ensures callers { callers.new.items ≡ map (λ a. a.caller) actors.items }
    ensures replies { map (λ r. r.items) replies.new.items ≡ map (λ a. a.replies) actors.items }
{
    for actor in actors {
        callers.push_reserved(actor.caller);
        replies.push_reserved(actor.replies);
    }
}
