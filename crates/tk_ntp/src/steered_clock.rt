ghost use Rattle.std.specs.Prelude.{◌≡◌, ◌≤◌, ◌*ℤ◌, ◌≤ℤ◌, IfOk, MatchResult, MatchOption, Some, None, IsTrue, ◌↔◌, pos, unsigned_abs};

mod advancing;
mod asking;
mod change_counter;
mod numbers;
mod pulses;
mod uptime;

use crate::course::Course;
use crate::discipline::Discipline;
use crate::rate::Rate;
use crate::steering::Steering;
use std::marker::Model;
use tk_clock::{Clock, Refusal, Snapshot, Timespec};
use tk_counter::CounterDesc;

/// Keeps the clocks of a counter, steered by a discipline: the kernel's `struct timekeeper` with
/// the variables of kernel/time/ntp.c.
///
/// It has no source of time: the caller passes the counter's reading with each call. No call
/// allocates.
#[repr(C)]
#[derive(Clone, Copy, Debug)]
pub struct SteeredClock {
    /// Contains the running clocks.
    clock: Clock,
    /// Contains the course of their discipline.
    course: Course,
}

impl Model for SteeredClock {
    ghost use Rattle.std.specs.Prelude.{◌+◌, ◌≤◌};
    ghost use Rattle.tk_clock.specs.Limits.{clock_end};
    ghost use Rattle.tk_ntp.specs.Course.{course_of, seen};
    ghost use Rattle.tk_ntp.specs.SteeredClock.{SteeredClock};

    ghost Value = { SteeredClock };

    ghost view = { λ a. seen a.clock a.course };

    // `IsConsistent` is no invariant: `from_numbers` takes any numbers, and the calls that follow a
    // shared keeper take any reading
    ghost inverse = { λ s. record { clock = s.clock; course = course_of s } };
}

impl SteeredClock {
    ghost use Rattle.tk_clock.specs.declared.clock_id.ClockId.TheVariants.{Realtime};
    ghost use Rattle.tk_clock.specs.Further.{IsFurther};
    ghost use Rattle.tk_clock.specs.Limits.{clock_end};
    ghost use Rattle.tk_clock.specs.Reach.{IsFirstReached, IsNeverReached};
    ghost use Rattle.tk_clock.specs.Time.{nanoseconds};
    ghost use Rattle.tk_counter.specs.Counter.{least_tick, greatest_tick};
    ghost use Rattle.tk_ntp.specs.Account.{owed, IsConsistent};
    ghost use Rattle.tk_ntp.specs.Change.{multiplier_at};
    ghost use Rattle.tk_ntp.specs.Course.{course_of, seen};
    ghost use Rattle.tk_ntp.specs.Ntp.{second_length};
    ghost use Rattle.tk_ntp.specs.Rate.{IsNearUsual, nominal};
    ghost use Rattle.tk_ntp.specs.SteeredClock.{steered_by, steered_refusal, steered_opened, rate_in_force};
    ghost use Rattle.tk_ntp.specs.Advance.{second_time};

    /// Opens the clocks of the counter `desc` at `reading`, in cycles, with a fresh discipline.
    /// They are awake and at their usual rate, MONOTONIC is 0 and REALTIME is `real`.
    ///
    /// `hz` is the number of parts of a second that phases are divided into, as in
    /// `Discipline::new`.
    ///
    /// # Errors
    ///
    /// - `Invalid`: `reading` is above the mask, REALTIME may not be set to `real`, or `hz` is not
    ///   1 to 1024. REALTIME may be set to times from 0 s to below 8,277,292,036 s, with `nsec`
    ///   below 10^9.
    pub fn open(
        desc: CounterDesc,
        reading: u64,
        real: Timespec,
        hz: u32,
    ) -> Result<SteeredClock, Refusal>
        ensures answer { MatchResult result
            (λ steered. (steered_refusal desc reading real hz ≡ None)
            × (steered ≡ steered_opened desc reading real hz))
            (λ refusal. steered_refusal desc reading real hz ≡ Some refusal) }
        ensures consistent { IfOk result IsConsistent }
        ensures nothing { IfOk result (λ steered. owed steered ≡ pos 0) }
    {
        let clock = Clock::open(desc, reading, real)?;
        let Some(ntp) = Discipline::new(hz) else {
            return Err(Refusal::Invalid);
        };
        Ok(SteeredClock::fresh(clock, ntp, reading, real))
    }

    /// Steers clocks that were opened at `reading`, when REALTIME was `real`, by a fresh discipline.
    fn fresh(clock: Clock, ntp: Discipline, reading: u64, real: Timespec) -> SteeredClock
        requires { unsigned_abs real.sec ≤ clock_end }
        ensures value { result ≡ steered_by ntp reading real clock }
        ensures consistent { reading ≡ clock.base.last → IsConsistent result }
        ensures owes { reading ≡ clock.base.last →
            owed result ≡ pos clock.base.amount *ℤ pos nominal }
    {
        SteeredClock {
            clock,
            course: Course {
                steering: Steering::new(ntp),
                next: real.sec.unsigned_abs() + 1,
                last_account: reading,
            },
        }
    }

    /// Returns the first reading, in cycles, at which the next second of REALTIME has begun: the
    /// one to set a timer to. It is not before the last command's reading.
    ///
    /// `None` means that REALTIME doesn't reach that second up to half the counter's range after
    /// the last command, or that the clocks are asleep (`Snapshot::reading_at`).
    pub fn next_second(&self) -> Option<u64>
        ensures { let nanos = nanoseconds (second_time self.now.next) in
            MatchOption result
            (IsNeverReached self.now.clock.base Realtime nanos)
            (λ reading. IsFirstReached self.now.clock.base Realtime nanos reading) }
    {
        self.course.next_second(&self.clock)
    }

    /// Returns whether the next second of REALTIME is further away than `next_second` searches
    /// (`Snapshot::is_further`). So if `next_second` returns `None`, this says whether to look
    /// again after a later command.
    pub fn is_next_further(&self) -> bool
        ensures { let nanos = nanoseconds (second_time self.now.next) in
            IsTrue result ↔ IsFurther self.now.clock.base Realtime nanos }
    {
        self.course.is_next_further(&self.clock)
    }

    /// Returns the frequency and the tick that the clocks run at.
    pub fn rate(&self) -> Rate
        ensures value { result ≡ rate_in_force self.now.clock }
        ensures slowest { least_tick ≤ℤ result.tick }
        ensures fastest { result.tick ≤ℤ greatest_tick }
        ensures multiplier { let base = self.now.clock.base in
            base.mult ≡ multiplier_at base.counter result }
        // the multiplier is never more than 10.05 percent from the counter's own
        ensures near { let base = self.now.clock.base in IsNearUsual base.counter base.mult }
    {
        Rate {
            frequency: self.clock.frequency(),
            tick: self.clock.tick(),
        }
    }

    /// Returns the length of the present second, in `2^-32` ns (`Discipline::second_length`).
    pub fn second_length(&self) -> i64
        ensures { result ≡ second_length self.now.steering.ntp }
    {
        self.course.second_length()
    }

    /// Returns the clocks.
    pub fn clock(&self) -> Clock
        ensures { result ≡ self.now.clock }
    {
        self.clock
    }

    /// Returns the snapshot of the clocks. `front` is the number of commands accepted so far, which
    /// the caller counts.
    pub fn snapshot(&self, front: u64) -> Snapshot
        ensures { result ≡ record { front = front; base = self.now.clock.base } }
    {
        self.clock.snapshot(front)
    }

    /// Returns the course of the discipline, apart from the clocks: an owner who keeps the clocks
    /// elsewhere goes on with it.
    pub fn course(&self) -> Course
        ensures { result ≡ course_of self.now }
    {
        self.course
    }

    /// Returns clocks with the course of a discipline. The caller passes those that belong together.
    pub fn with_course(clock: Clock, course: Course) -> SteeredClock
        ensures { result ≡ seen clock course }
    {
        SteeredClock { clock, course }
    }
}
