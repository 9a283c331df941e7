//! Starts actors in separate threads.
ghost use Rattle.std.specs.Prelude.{◌≡◌, length, map, IfOk, vec_len, vec_capacity, MatchResult};
ghost use Rattle.tk_race.specs.Actor.{HasActed, IsReady, HaveActed, AreReady};

use crate::action::Action;
use crate::actor::{Actor, Track, act};
use crate::race_error::RaceError;
use std::snapshot::Snapshot;
use std::sync::Wait;
use std::thread;
use std::thread::{Promise, PromisedHandle, Scope, Threads};
use tk_now::SharedTicker;
use tk_pieces::Gate;
use tk_shared::{Caller, Named};

/// States the promise of an actor's thread: it has done these actions, starting with this caller,
/// and with times of this counter.
#[derive(Drop)]
struct Acts<L: Named> {
    caller: Snapshot<Caller<L>>,
    actions: Snapshot<Vec<Action>>,
    counter: Snapshot<SharedTicker>,
}

impl<L: Named> Promise<Actor<L>> for Acts<L> {
    ghost use Rattle.tk_race.specs.Actor.{HasActed};

    ghost kept_by = { λ p actor.
        HasActed p.counter.value p.caller.value actor.caller p.actions.value.items
        actor.replies };
}

/// Starts an actor's thread. Returns `Threads` if it can't be started.
fn start<'s, 'c: 'e, 'e, L: Named + Send + Sync + 'e, G: Gate + Sync, R: Threads + Wait + Sync>(
    scope: &'s Scope<'s, &'e ()>,
    rt: &'e R,
    track: &'e Track<'e, 'c, L, G>,
    piece: usize,
    actions: &'e Vec<Action>,
    actor: Actor<L>,
) -> Result<PromisedHandle<Actor<L>, Acts<L>>, RaceError>
    requires ready { IsReady actions.now.items actor }
    ensures { MatchResult result
        (λ handle. (handle.promise.caller.value ≡ actor.caller)
        × (handle.promise.actions.value ≡ actions.now)
        × (handle.promise.counter.value ≡ track.now.counter.now))
        (λ error. error ≡ RaceError.Threads) }
{
    let promise = Acts {
        caller: Snapshot::of(&actor.caller),
        actions: Snapshot::of(actions),
        counter: Snapshot::of(track.counter),
    };
    let work = move || -> Actor<L>
        requires { IsReady actions.now.items actor }
        ensures { HasActed track.entry.now.counter.now actor.caller result.caller
            actions.entry.now.items result.replies }
    { act(rt, track, piece, actions.as_slice(), actor) };
    match scope.spawn_with(promise, work) {
        Ok(handle) => Ok(handle),
        Err(_) => Err(RaceError::Threads),
    }
}

/// Starts a thread for each actor, the last one first, and joins them all. The actors that come
/// back are in the list that was passed.
fn start_all<'s, 'c: 'e, 'e, L: Named + Send + Sync + 'e, G: Gate + Sync, R: Threads + Wait + Sync>(
    scope: &'s Scope<'s, &'e ()>,
    rt: &'e R,
    track: &'e Track<'e, 'c, L, G>,
    actions: &'e [Vec<Action>],
    mut actors: Vec<Actor<L>>,
) -> Result<Vec<Actor<L>>, RaceError>
    requires ready { AreReady (map (λ a. a.items) actions.now) actors.items }
    ensures acted { MatchResult result
        (λ back. HaveActed track.now.counter.now (map (λ a. a.items) actions.now) actors.items
        back.items)
        (λ error. error ≡ RaceError.Threads) }
    ensures room { IfOk result (λ back. vec_capacity back ≡ vec_capacity actors) }
{
    let Some((last, others)) = actions.split_last() else {
        return Ok(actors);
    };
    let actor = actors.pop().unwrap();
    let handle = start(scope, rt, track, others.len(), last, actor)?;
    let mut back = start_all(scope, rt, track, others, actors)?;
    back.push_reserved(handle.join(rt));
    Ok(back)
}

/// Lets all actors act at once, in separate threads, until all are done.
///
/// Returns `Threads` if a thread couldn't be started. The threads that were started have ended.
pub(crate) fn act_at_once<L: Named + Send + Sync, G: Gate + Sync, R: Threads + Wait + Sync>(
    rt: &R,
    track: &Track<'_, '_, L, G>,
    actions: &[Vec<Action>],
    actors: Vec<Actor<L>>,
) -> Result<Vec<Actor<L>>, RaceError>
    requires ready { AreReady (map (λ a. a.items) actions.now) actors.items }
    ensures { MatchResult result
        (λ back. HaveActed track.now.counter.now (map (λ a. a.items) actions.now) actors.items
        back.items)
        (λ error. error ≡ RaceError.Threads) }
{
    thread::scope(
        thread::scope_env(),
        rt,
        move |scope| -> Result<Vec<Actor<L>>, RaceError>
            requires { AreReady (map (λ a. a.items) actions.now) actors.items }
            ensures { MatchResult result
                (λ back. HaveActed track.entry.now.counter.now
                (map (λ a. a.items) actions.entry.now) actors.items back.items)
                (λ error. error ≡ RaceError.Threads) }
        { start_all(scope, rt, track, actions, actors) },
    )
}
