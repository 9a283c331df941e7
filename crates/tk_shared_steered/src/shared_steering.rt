ghost use Rattle.std.specs.Prelude.{◌≡◌, MatchResult, Some, None, true, false, length};

mod late;
mod opening;

use crate::fault::SteeringFault;
use std::marker::Model;
use tk_clock::Clock;
use tk_ntp::{Course, Reply, SteeredClock, Timex};
use tk_shared::{Caller, Named};

/// Owns a discipline over the clocks of a shared keeper, and the caller that gives its commands.
///
/// Each command has its own reading, later than the command before it, so no command is in the past
/// of another caller's read. The discipline knows the clocks while its caller is the only one that
/// gives commands. Other callers may read.
#[derive(Drop)]
pub struct SharedSteering<L: Named> {
    caller: Caller<L>,
    /// Contains the clocks of the entries that the discipline has followed.
    clock: Clock,
    /// Contains the course of the discipline.
    course: Course,
    /// The number of these entries.
    count: u64,
}

impl<L: Named> Model for SharedSteering<L> {
    ghost use Rattle.tk_ntp.specs.Course.{seen};
    ghost use Rattle.tk_shared_steered.specs.Owner.{Owner, owner_of, IsInStepIfKnown};

    ghost Value = { Owner };

    ghost view = { λ a. owner_of a.caller (seen a.clock a.course) a.count };

    ghost invariant = { λ a. IsInStepIfKnown (owner_of a.caller (seen a.clock a.course) a.count) };
}

impl<L: Named> SharedSteering<L> {
    ghost use Rattle.tk_clock.specs.State.{state_of};
    ghost use Rattle.tk_ntp.specs.Fault.{is_faulty};
    ghost use Rattle.tk_shared_steered.specs.Asked.{IsAsked};
    ghost use Rattle.tk_shared_steered.specs.Owner.{is_lost};

    /// Returns whether another caller's command was seen. The discipline doesn't know the clocks
    /// then, and `begin_late` and `ask` return `Foreign`.
    pub fn is_lost(&self) -> bool
        ensures value { result ≡ is_lost self.now }
        ensures known { result ≡ false → length self.now.caller.seen.entries ≡ self.now.count }
        // the clocks are those of the history that the caller has seen
        ensures running { result ≡ false → self.now.clock.clock ≡ state_of self.now.caller.seen }
    {
        self.caller.front() != self.count
    }

    /// Returns the clocks with their discipline, after the last command that the discipline has
    /// followed: `next_second`, `rate` and `numbers` are its calls. A change of the returned copy
    /// doesn't change the discipline.
    pub fn clock(&self) -> SteeredClock
        ensures { result ≡ self.now.clock }
    {
        SteeredClock::with_course(self.clock, self.course)
    }

    /// Does what a request without a fault asks the discipline for, at the reading of the last
    /// command, and returns the reply (`Course::ask_alone`). It neither steps REALTIME nor
    /// sets the TAI offset, and gives no command.
    ///
    /// Call `begin_late` first, so that the request acts at the present, and again after it, so
    /// that the clocks get another rate at once.
    ///
    /// # Errors
    ///
    /// - `Foreign`: another caller's command was seen. Nothing changes.
    /// - `Refused`: the errors of `Course::ask_alone`. Nothing changes.
    pub fn ask(&mut self, request: &Timex) -> Result<Reply, SteeringFault>
        requires sound { is_faulty request.now ≡ false }
        ensures answer { IsAsked request.now self.old result self.new }
    {
        if self.is_lost() {
            return Err(SteeringFault::Foreign);
        }
        match self.course.ask_alone(&self.clock, request) {
            Ok(reply) => Ok(reply),
            Err(refusal) => Err(SteeringFault::Refused(refusal)),
        }
    }

    /// Returns the caller, and the clocks with their discipline, and ends the steering. The rate in
    /// force stays.
    pub fn into_parts(self) -> (Caller<L>, SteeredClock)
        ensures parts { (result.0 ≡ self.caller) × (result.1 ≡ self.clock) }
    {
        let clock = self.clock();
        (self.caller, clock)
    }
}
