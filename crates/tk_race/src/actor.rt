//! Actors, and their work in their threads.
ghost use Rattle.std.specs.Prelude.{◌≡◌, ◌≤◌, [], length};
ghost use Rattle.tk_race.specs.Actor.{IsAnswer, IsFound, HasActed, IsReady};

use crate::action::{Action, RaceReply};
use crate::one_step::OneStep;
use std::marker::Model;
use std::sync::Wait;
use tk_latch::Moved;
use tk_now::SharedTicker;
use tk_pieces::Gate;
use tk_shared::{Caller, Named, SharedKeeper, SharedReader};

/// Contains an actor: its caller, and its replies so far.
#[derive(Drop)]
pub(crate) struct Actor<L: Named> {
    pub(crate) caller: Caller<L>,
    pub(crate) replies: Vec<RaceReply>,
}

impl<L: Named> Model for Actor<L> {
    ghost use Rattle.std.specs.Prelude.{vec_capacity};
    ghost use Rattle.tk_race.specs.Actor.{Actor};

    ghost Value = { Actor };

    ghost view = { λ a. record {
      caller = a.caller;
      replies = a.replies.items;
      room = vec_capacity a.replies;
    } };
}

/// The keeper of a race, with a counter that orders and times read.
pub(crate) type RaceKeeper<'c, L> = SharedKeeper<L, SharedReader<'c, SharedTicker>>;

/// Contains what the actors of a race share: the keeper, its counter and the gate.
#[derive(Drop)]
pub(crate) struct Track<'e, 'c, L: Named, G> {
    pub(crate) keeper: &'e RaceKeeper<'c, L>,
    pub(crate) counter: &'e SharedTicker,
    pub(crate) gate: &'e G,
}

/// Does an action and returns the reply to it.
fn answer<L: Named, R: Wait>(
    rt: &R,
    keeper: &RaceKeeper<'_, L>,
    counter: &SharedTicker,
    caller: &mut Caller<L>,
    action: Action,
) -> RaceReply
    ensures right { IsAnswer counter.now caller.old caller.new action result }
    ensures found { IsFound caller.old.learnt.found caller.new.learnt.found result }
{
    match action {
        Action::Order(cmd) => match keeper.command(rt, caller, cmd) {
            Ok(number) => RaceReply::Done(number),
            Err(refusal) => RaceReply::Refused(refusal),
        },
        Action::Look => RaceReply::Saw(keeper.read(rt, caller).front()),
        Action::Glance => match keeper.fast_read(caller) {
            Ok(snapshot) => RaceReply::Glanced(snapshot.front()),
            Err(Moved { first, last }) => RaceReply::Moved { first, last },
        },
        Action::Now(clock) => match keeper.now(rt, caller, &OneStep::of(counter), clock) {
            Ok(time) => RaceReply::Timed {
                front: caller.front(),
                time,
            },
            Err(refusal) => RaceReply::Untimed {
                front: caller.front(),
                refusal,
            },
        },
    }
}

/// Does all actions of an actor, in order, and calls the gate before and after them.
pub(crate) fn act<L: Named, G: Gate, R: Wait>(
    rt: &R,
    track: &Track<'_, '_, L, G>,
    piece: usize,
    actions: &[Action],
    actor: Actor<L>,
) -> Actor<L>
    requires ready { IsReady actions.now actor }
    ensures { HasActed track.now.counter.now actor.caller result.caller actions.now result.replies }
{
    let (keeper, counter) = (track.keeper, track.counter);
    track.gate.before(piece);
    let Actor {
        mut caller,
        mut replies,
    } = actor;
    for action in actions {
        replies.push_reserved(answer(rt, keeper, counter, &mut caller, *action));
    }
    track.gate.after(piece);
    Actor { caller, replies }
}
