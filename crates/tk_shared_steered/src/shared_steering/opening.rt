//! Opens a discipline over the clocks of a shared keeper.
ghost use Rattle.std.specs.Prelude.{◌≡◌, pos, IfOk, MatchResult};
ghost use Rattle.tk_clock.specs.Time.{nanoseconds, timespec_of};
ghost use Rattle.tk_shared.specs.Callers.{IsKnownBy};
ghost use Rattle.tk_shared_steered.specs.Opened.{HasOpened, IsNotShown, IsShown, IsUnopened};
ghost use Rattle.tk_shared_steered.specs.Readings.{AreAtReadings};

use super::SharedSteering;
use crate::fault::{SteeringFault, Unsteered};
use crate::giving::give;
use std::sync::Wait;
use tk_clock::{Command, Snapshot, Timespec};
use tk_counter::NANOS_PER_SECOND;
use tk_ntp::SteeredClock;
use tk_shared::{Caller, Counter, Named, SharedKeeper};

impl<L: Named> SharedSteering<L> {
    /// Opens a fresh discipline over the clocks of a keeper, which were just opened: no command was
    /// accepted yet. It gives an `Update` by the caller.
    ///
    /// `hz` is the number of parts of a second that phases are divided into, as in
    /// `Discipline::new`.
    ///
    /// # Errors
    ///
    /// Returns an `Unsteered`, which contains the caller and the first fault that applies:
    ///
    /// - `Foreign`: a command was accepted before, or another caller's with the `Update`.
    /// - `Refused`: `Invalid` if `hz` is not 1 to 1024; or the refusal of the `Update`.
    pub fn open<C: Counter, R: Wait>(
        rt: &R,
        keeper: &SharedKeeper<L, C>,
        caller: Caller<L>,
        hz: u32,
    ) -> Result<SharedSteering<L>, Unsteered<L>>
        ensures answer { MatchResult result
            (λ owner. HasOpened hz caller owner)
            (λ unsteered. IsUnopened hz caller unsteered.caller unsteered.fault) }
        // the caller knows all that it knew
        ensures known { MatchResult result
            (λ owner. IsKnownBy caller owner.caller)
            (λ unsteered. IsKnownBy caller unsteered.caller) }
        // the `Update` was given at a reading of the counter
        ensures readings { IfOk result (λ owner.
            AreAtReadings C.answers_after owner.caller 0 owner.count) }
    {
        let mut caller = caller;
        let now = keeper.read(rt, &mut caller);
        let steered = match shown(&now, hz) {
            Ok(steered) => steered,
            Err(fault) => return Err(Unsteered { fault, caller }),
        };
        match give(rt, keeper, &mut caller, Command::Update) {
            Ok(reading) => {
                let mut clock = steered.clock();
                let mut course = steered.course();
                let _accepted = course.follow_command(&mut clock, reading, Command::Update);
                let count = caller.front();
                Ok(SharedSteering {
                    caller,
                    clock,
                    course,
                    count,
                })
            }
            Err(fault) => Err(Unsteered { fault, caller }),
        }
    }
}

/// Opens clocks with a fresh discipline, as a snapshot shows them before any command.
fn shown(now: &Snapshot, hz: u32) -> Result<SteeredClock, SteeringFault>
    ensures answer { MatchResult result
        (λ clock. IsShown hz now.now clock)
        (λ fault. IsNotShown hz now.now fault) }
{
    if now.front() != 0 {
        return Err(SteeringFault::Foreign);
    }
    let real = time_of(now.real_offset());
    match SteeredClock::open(now.desc(), now.last(), real, hz) {
        Ok(clock) => Ok(clock),
        Err(refusal) => Err(SteeringFault::Refused(refusal)),
    }
}

/// Returns a number of nanoseconds as a time.
fn time_of(nanos: u64) -> Timespec
    ensures value { result ≡ timespec_of nanos }
    ensures same { nanoseconds result ≡ pos nanos }
{
    Timespec {
        sec: (nanos / NANOS_PER_SECOND) as i64,
        nsec: (nanos % NANOS_PER_SECOND) as u32,
    }
}
