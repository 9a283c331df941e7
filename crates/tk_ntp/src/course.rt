ghost use Rattle.std.specs.Prelude.{◌≡◌, MatchResult, Ok, Some, None, false, pos, ◌≤ℤ◌, nat_lt};
ghost use Rattle.tk_ntp.specs.Advance.{tai_of_clock};
ghost use Rattle.tk_ntp.specs.Asked.{real_at, real_refusal};

mod advancing;
mod asking;
mod commanding;
mod due;
mod following;
mod giving;
mod pulses;
mod ticking;
mod turning;

use crate::change::Change;
use crate::numbers::SteeredNumbers;
use crate::rate::Rate;
use crate::reply::Reply;
use crate::steering::Steering;
use crate::timex::Timex;
pub use advancing::SECOND_ENTRIES_LIMIT;
pub use asking::{REQUEST_ENTRIES_LIMIT, request_of};
use std::marker::Model;
use tk_clock::{Clock, ClockId, Refusal, Timespec};
use tk_counter::NANOS_PER_SECOND;

/// Keeps a discipline on its way: what steers clocks, but not the clocks.
///
/// Its calls take the clocks from their owner, who may be a `Clock` or a keeper that enters each
/// command in a journal (`Clocks`). They give each command once, and say which entries came.
#[repr(C)]
#[derive(Clone, Copy, Debug)]
pub struct Course {
    /// Contains the discipline, and what the clocks lag behind the lengths of their seconds.
    pub(crate) steering: Steering,
    /// Contains the second of REALTIME that begins next, in seconds since 1970.
    pub(crate) next: u64,
    /// Contains the reading up to which the lag is accounted for, in cycles.
    pub(crate) last_account: u64,
}

impl Model for Course {
    ghost use Rattle.std.specs.Prelude.{◌+◌, ◌≤◌};
    ghost use Rattle.tk_clock.specs.Limits.{clock_end};
    ghost use Rattle.tk_ntp.specs.Course.{Course};

    ghost Value = { Course };

    ghost view = { λ a. record {
      steering = a.steering;
      next = a.next;
      last_account = a.last_account;
    } };

    ghost invariant = { λ a. a.next ≤ clock_end + 1 };

    ghost inverse = { λ s. record {
      steering = s.steering;
      next = s.next;
      last_account = s.last_account;
    } };
}

impl Course {
    ghost use Rattle.tk_counter.specs.Counter.{half, gap};
    ghost use Rattle.tk_clock.specs.State.{State};
    ghost use Rattle.tk_ntp.specs.Asked.{with_asked};
    ghost use Rattle.tk_ntp.specs.Course.{seen};
    ghost use Rattle.tk_ntp.specs.Fault.{is_faulty};
    ghost use Rattle.tk_ntp.specs.History.{second_number};
    ghost use Rattle.tk_ntp.specs.Ntp.{second_length};
    ghost use Rattle.tk_ntp.specs.Numbers.{course_numbers, steered_numbers};
    ghost use Rattle.tk_ntp.specs.Reply.{reply_to};
    ghost use Rattle.tk_ntp.specs.Restored.{steered_from};
    ghost use Rattle.tk_ntp.specs.Steering.{commands};
    ghost use Rattle.tk_ntp.specs.SteeredClock.{accounted_to, rate_in_force};

    /// Returns the numbers that the discipline, the lag, the next second and the last account are kept in.
    pub fn numbers(&self) -> SteeredNumbers
        ensures value { result ≡ course_numbers self.now }
        ensures back { (clock : State) → let steered = seen clock self.now in
            steered_from clock (steered_numbers steered) ≡ Ok steered }
    {
        SteeredNumbers {
            steering: self.steering.numbers(),
            next: self.next,
            last_account: self.last_account,
        }
    }

    /// Returns the length of the present second, in `2^-32` ns (`Discipline::second_length`).
    pub fn second_length(&self) -> i64
        ensures { result ≡ second_length self.now.steering.ntp }
    {
        self.steering.second_length()
    }

    /// Returns the second of REALTIME that begins next, in seconds since 1970.
    #[inline(always)]
    pub fn coming_second(&self) -> u64
        ensures value { result ≡ self.now.next }
    {
        self.next
    }

    /// Returns a number that grows by 1 as each second of REALTIME begins, also by a leap: MONOTONIC
    /// as the next one begins, in seconds, rounded up.
    ///
    /// The difference of two of them is the number of seconds that have begun in between, unless
    /// REALTIME was set or stepped, or the clocks slept: then it is within 1 of it.
    pub fn second_number(&self, clock: &Clock) -> i64
        ensures { result ≡ second_number (seen clock.now self.now) }
    {
        let offset = clock.snapshot(0).real_offset() / NANOS_PER_SECOND;
        self.next as i64 - offset as i64
    }

    /// Returns the reading up to which the lag is accounted for, in cycles.
    pub(crate) fn last_account(&self) -> u64
        ensures { result ≡ self.now.last_account }
    {
        self.last_account
    }

    /// Returns whether a reading is behind the one up to which the lag is accounted for.
    pub(crate) fn is_behind(&self, clock: &Clock, reading: u64) -> bool
        ensures { let counter = clock.now.base.counter in
            result ≡ nat_lt (half counter) (gap counter self.now.last_account reading) }
    {
        let desc = clock.snapshot(0).desc();
        desc.is_behind(desc.gap(self.last_account, reading))
    }

    /// Accounts for the cycles up to a reading, in cycles.
    #[inline(always)]
    pub(crate) fn account(&mut self, clock: &Clock, reading: u64)
        ensures { seen clock.now self.new ≡ accounted_to reading (seen clock.now self.old) }
    {
        let now = clock.snapshot(0);
        let cycles = now.desc().gap(self.last_account, reading);
        self.steering.account(now.desc(), now.mult(), cycles);
        self.last_account = reading;
    }

    /// Returns the change that gives the clocks the rate that the present second needs: a command
    /// for the tick and one for the frequency, unless the rate in force gives the same multiplier.
    pub fn needed_change(&self, clock: &Clock) -> Change
        ensures { result
            ≡ commands clock.now.base.counter (rate_in_force clock.now) self.now.steering }
    {
        let rate = Rate {
            frequency: clock.frequency(),
            tick: clock.tick(),
        };
        self.steering.commands(clock.snapshot(0).desc(), rate)
    }

    /// Lets the discipline do what a request asks for, at a time of REALTIME. `tai` is the TAI offset
    /// before the request, in seconds.
    pub(crate) fn ask_discipline(&mut self, request: &Timex, real: Timespec, tai: u32) -> Reply
        requires sound { is_faulty request.now ≡ false }
        requires since { pos 0 ≤ℤ real.sec }
        ensures state { (clock : State) →
            seen clock self.new ≡ with_asked request.now real (seen clock self.old) }
        ensures reply { result ≡ reply_to request.now real tai self.old.steering.ntp }
    {
        self.steering.adjtimex(request, real, tai)
    }
}

/// Returns REALTIME at a reading. The error is `Invalid` above the mask, and `Range` if REALTIME is
/// past its limit.
#[tactic(auto, using(crate::proofs::Real::timespec_of_value))]
pub(crate) fn real(clock: &Clock, reading: u64) -> Result<Timespec, Refusal>
    ensures { MatchResult result
        (λ real. (real_refusal reading clock.now ≡ None)
        × (real ≡ real_at reading clock.now) × (pos 0 ≤ℤ real.sec))
        (λ refusal. real_refusal reading clock.now ≡ Some refusal) }
{
    match clock.snapshot(0).get(ClockId::Realtime, reading) {
        Ok(real) => Ok(real),
        Err(error) => Err(Refusal::from(error)),
    }
}

/// Returns the TAI offset, in seconds.
pub(crate) fn tai_of(clock: &Clock) -> u32
    ensures { result ≡ tai_of_clock clock.now }
{
    clock.snapshot(0).tai()
}
