//! Gives single commands by a caller.
ghost use Rattle.std.specs.Prelude.{length, IfOk, MatchResult};
ghost use Rattle.tk_shared_steered.specs.Given.{IsGiven, IsNotGiven};
ghost use Rattle.tk_shared_steered.specs.Readings.{IsAtReading};

use crate::fault::SteeringFault;
use std::sync::Wait;
use tk_clock::Command;
use tk_shared::{Caller, Counter, Named, SharedKeeper};

/// Gives a command, and returns its reading.
///
/// The reading is known if the command is the only entry after those that the caller had seen, and
/// if it is still the last one when the page is read after it.
///
/// # Errors
///
/// - `Refused`: the error of `SharedKeeper::command`. The caller has seen no new entry.
/// - `Foreign`: the caller has seen another caller's entry.
pub(crate) fn give<L: Named, C: Counter, R: Wait>(
    rt: &R,
    keeper: &SharedKeeper<L, C>,
    caller: &mut Caller<L>,
    cmd: Command,
) -> Result<u64, SteeringFault>
    ensures answer { MatchResult result
        (λ reading. IsGiven cmd reading caller.old caller.new)
        (λ fault. IsNotGiven cmd fault caller.old caller.new) }
    ensures reading { IfOk result (λ _.
        IsAtReading C.answers_after caller.new (length caller.old.seen.entries)) }
{
    let front = caller.front();
    let number = match keeper.command(rt, caller, cmd) {
        Ok(number) => number,
        Err(_) if caller.front() != front => return Err(SteeringFault::Foreign),
        Err(refusal) => return Err(SteeringFault::Refused(refusal)),
    };
    let snapshot = keeper.read(rt, caller);
    if number - front != 1 || caller.front() != number {
        return Err(SteeringFault::Foreign);
    }
    Ok(snapshot.last())
}
