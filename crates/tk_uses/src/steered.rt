//! One thread asks for MONOTONIC, lets a second begin late as the owner of a discipline, and asks
//! again: the later answer isn't smaller. The keeper stays open.
ghost use Rattle.std.specs.Prelude.{◌≡◌, ◌≤ℤ◌, length, IfOk, IfSome};
ghost use Rattle.tk_clock.specs.Time.{nanoseconds};
ghost use Rattle.tk_shared.specs.Callers.{IsKnownBy};
ghost use Rattle.tk_shared.specs.Opening.{IsNamed};
ghost use Rattle.tk_shared_steered.specs.Readings.{AreAtReadings};
ghost use Rattle.tk_uses.specs.InTurn.{HaveRisen};
ghost use Rattle.tk_uses.specs.Steered.{IsTrustedThroughout};

use crate::in_turn::{Stopped, ask, prepared, tell};
use crate::stop::Stop;
use std::alloc::Global;
use std::marker::Brand;
use std::sync::Wait;
use tk_clock::Timespec;
use tk_now::SharedCounter;
use tk_shared::{Caller, Counter, Named, OpenError, Prepared, SharedKeeper, now_never_falls};
use tk_shared_steered::SharedSteering;

/// The number of parts of a second that the discipline divides phases into.
const HZ: u32 = 250;

/// Opens clocks on a stopped counter for the owner of a discipline, and prints its times.
pub(crate) fn run<R: Wait + Print>(rt: &R, alloc: Global) -> Result<(), Stop> {
    let stopped = Stopped::<1_000_000>;
    tell(rt, "one owner", never_falls(rt, alloc, &stopped)?)
}

/// Returns MONOTONIC before a discipline is opened and after a second was let begin late. The
/// counter's readings are known, so that nothing has to be assumed of it.
fn never_falls<R: Wait>(
    rt: &R,
    alloc: Global,
    stopped: &Stopped<1_000_000>,
) -> Result<Option<(Timespec, Timespec)>, Stop>
    ensures { IfOk result (λ times. IfSome times (λ t. nanoseconds t.0 ≤ℤ nanoseconds t.1)) }
{
    let prepared = prepared(rt, alloc, stopped, 1)?;
    steered::<Brand, _, _, _>(rt, alloc, prepared, stopped)
}

/// Opens what was prepared, and returns MONOTONIC before its only caller opens a discipline and
/// after it let a second begin late. `None` means that another caller gave a command.
fn steered<L: Named, C: Counter, S: SharedCounter, R: Wait>(
    rt: &R,
    alloc: Global,
    prepared: Prepared<C>,
    counter: &S,
) -> Result<Option<(Timespec, Timespec)>, Stop>
    requires named { IsNamed prepared L.page L.latch L.notice L.name L.parts L.callers }
    requires trusted { IsTrustedThroughout C.answers_after S.answers counter.now
        prepared.journal.opening }
    ensures { IfOk result (λ times. IfSome times (λ t.
        HaveRisen S.answers counter.now prepared.journal.opening t.0 t.1)) }
{
    let (keeper, mut callers) = match SharedKeeper::<L, C>::open(alloc, prepared) {
        Ok(opened) => opened,
        Err(fault) => return Err(Stop::Open(fault.error)),
    };
    let Some(owner) = callers.pop() else {
        return Err(Stop::Open(OpenError::Count));
    };
    second_begins(rt, &keeper, owner, counter)
}

/// Asks for MONOTONIC, lets a second begin late by a fresh discipline, and asks again. The fold
/// informs the caller of the whole history, of which `None` means that another caller gave a command
/// in it.
fn second_begins<L: Named, C: Counter, S: SharedCounter, R: Wait>(
    rt: &R,
    keeper: &SharedKeeper<L, C>,
    owner: Caller<L>,
    counter: &S,
) -> Result<Option<(Timespec, Timespec)>, Stop>
    requires trusted { IsTrustedThroughout C.answers_after S.answers counter.now
        owner.seen.opening }
    ensures { IfOk result (λ times. IfSome times (λ t.
        HaveRisen S.answers counter.now owner.seen.opening t.0 t.1)) }
{
    let first = ask(rt, keeper, owner, counter)?;
    let caller = begun(rt, keeper, first.caller)?;
    let count = caller.front();
    let mut later = ask(rt, keeper, caller, counter)?;
    keeper.fold(rt, &mut later.caller, count);
    if later.caller.front() != count {
        return Ok(None);
    }
    now_never_falls::<S>();
    Ok(Some((first.time, later.time)))
}

/// Opens a discipline, lets a second begin late, and returns the caller. All commands that it has
/// seen were given at readings of the counter.
fn begun<L: Named, C: Counter, R: Wait>(
    rt: &R,
    keeper: &SharedKeeper<L, C>,
    owner: Caller<L>,
) -> Result<Caller<L>, Stop>
    // the caller knows all that it knew
    ensures known { IfOk result (λ begun. IsKnownBy owner begun) }
    ensures readings { IfOk result (λ begun.
        AreAtReadings C.answers_after begun 0 (length begun.seen.entries)) }
{
    let mut steering = match SharedSteering::open(rt, keeper, owner, HZ) {
        Ok(steering) => steering,
        Err(unsteered) => return Err(Stop::Steering(unsteered.fault)),
    };
    steering.begin_late(rt, keeper)?;
    let (caller, _) = steering.into_parts();
    Ok(caller)
}
