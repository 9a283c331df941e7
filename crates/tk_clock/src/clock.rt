ghost use Rattle.std.specs.Prelude.{◌≡◌, ◌≤◌, ◌⊎◌, ◌↔◌, IsTrue, true, false, MatchOption, MatchResult, Some, None};

mod change_counter;
mod effects;
mod parts;
mod replacing;
mod settings;
mod testing;
mod uptime;

use crate::amount::Amount;
use crate::clock_id::ClockId;
use crate::command::Command;
use crate::limits::{is_settable, is_well_formed};
use crate::read_base::ReadBase;
use crate::refusal::Refusal;
use crate::snapshot::Snapshot;
use crate::timespec::{Timespec, nanos_of};
pub use settings::time_moved;
use std::marker::Model;
use tk_counter::{CounterDesc, USUAL_TICK};

/// Keeps the running clocks of a counter, as the kernel's `struct timekeeper`.
///
/// It has no source of time: the caller passes the counter's reading with each command.
#[repr(C)]
#[derive(Clone, Copy, Debug)]
pub struct Clock {
    /// The part of the state that a read needs.
    base: ReadBase,
    /// The frequency in force, in `2^-16` ppm, as it was set.
    frequency: i64,
    /// The tick in force, in microseconds.
    tick: i64,
}

impl Model for Clock {
    ghost use Rattle.tk_clock.specs.State.{State};
    ghost use Rattle.tk_clock.specs.Running.{IsRunning};

    ghost Value = { State };

    ghost view = { λ a. record { base = a.base; frequency = a.frequency; tick = a.tick } };

    ghost invariant = { λ a. IsRunning a.base a.frequency a.tick };

    ghost inverse = { λ s. record { base = s.base; frequency = s.frequency; tick = s.tick } };
}

impl Clock {
    ghost use Rattle.tk_counter.specs.Counter.{IsCounter};
    ghost use Rattle.tk_clock.specs.Journal.{opened};
    ghost use Rattle.tk_clock.specs.Refusal.{opening_refusal, early_refusal, state_value_refusal, state_refusal};
    ghost use Rattle.tk_clock.specs.State.{state_of, effect};
    ghost use Rattle.tk_clock.specs.Effect.{IsForwarded, IsEarly};
    ghost use Rattle.tk_clock.specs.Further.{IsFurther};
    ghost use Rattle.tk_clock.specs.Reach.{IsFirstReached, IsNeverReached};
    ghost use Rattle.tk_clock.specs.Time.{nanoseconds};

    /// Opens the clocks of the counter `desc` at `reading`, in cycles. They are awake and at their
    /// usual rate, MONOTONIC is 0 and REALTIME is `real`.
    ///
    /// # Errors
    ///
    /// - `Invalid`: `reading` is above the mask, or REALTIME may not be set to `real`. It may be
    ///   set to times from 0 s to below 8,277,292,036 s, with `nsec` below 10^9.
    pub fn open(desc: CounterDesc, reading: u64, real: Timespec) -> Result<Clock, Refusal>
        ensures answer { MatchResult result
            (λ clock. (opening_refusal desc reading real ≡ None)
            × (clock ≡ state_of (opened desc reading real)))
            (λ refusal. opening_refusal desc reading real ≡ Some refusal) }
        ensures counter { IsCounter desc }
    {
        if reading > desc.mask() || !is_settable(real) {
            return Err(Refusal::Invalid);
        }
        let base = ReadBase {
            desc,
            last: reading,
            mult: desc.mult(),
            monotonic: Amount::zero(),
            raw: Amount::zero(),
            real_offset: nanos_of(real),
            boot_offset: 0,
            tai: 0,
            asleep: false,
        };
        Ok(Clock {
            base,
            frequency: 0,
            tick: USUAL_TICK,
        })
    }

    /// Applies a command at `reading`, in cycles. A refused command doesn't change the clocks.
    ///
    /// `Command` lists the kernel's functions, and the ranges of the numbers of all commands.
    ///
    /// # Errors
    ///
    /// Returns the first test that fails, in this order. It never returns `Full` or `Memory`.
    ///
    /// - `Asleep`: the clocks are asleep, and the command is not `Resume`.
    /// - `Awake`: the clocks are awake, and the command is `Resume`.
    /// - `Invalid`: `reading` is above the mask, or a number of the command is out of its range.
    /// - `Behind`: `reading` is behind the last one. `Resume` skips this test.
    /// - `Range`: MONOTONIC or BOOTTIME would be at its limit or beyond it; REALTIME or TAI too,
    ///   unless the command is `SetTime`, `Step` or `Leap`.
    /// - `Invalid`: `SetTime`, `Step` or `Leap` would set REALTIME below MONOTONIC, or `Step` or
    ///   `Leap` would move it to 8,277,292,036 s or beyond.
    #[inline(always)]
    pub fn apply(&mut self, reading: u64, cmd: Command) -> Result<(), Refusal>
        ensures { MatchResult result
            (λ _. (state_refusal self.old reading cmd ≡ None)
            × (self.new ≡ effect self.old reading cmd))
            (λ refusal. (state_refusal self.old reading cmd ≡ Some refusal)
            × (self.new ≡ self.old)) }
    {
        if matches!(cmd, Command::Update) {
            return self.update_at(reading);
        }
        self.apply_any(reading, cmd)
    }

    /// Applies an update, as `apply` does.
    #[inline(always)]
    fn update_at(&mut self, reading: u64) -> Result<(), Refusal>
        ensures { MatchResult result
            (λ _. (state_refusal self.old reading Command.Update ≡ None)
            × (self.new ≡ effect self.old reading Command.Update))
            (λ refusal. (state_refusal self.old reading Command.Update ≡ Some refusal)
            × (self.new ≡ self.old)) }
    {
        self.check(reading, Command::Update)?;
        if self.update_soon(reading) {
            return Ok(());
        }
        self.update_late(reading)
    }

    /// Applies an update of the usual kind, after the tests of `check`: fewer than 2^31 cycles
    /// after the last command, during which neither MONOTONIC nor MONOTONIC_RAW gains two whole
    /// seconds, and with offsets of the usual size. Returns whether it did so; if not, nothing
    /// changes.
    #[inline(always)]
    fn update_soon(&mut self, reading: u64) -> bool
        requires { IsEarly self.old reading Command.Update }
        ensures { ((result ≡ true)
            × (state_value_refusal self.old reading Command.Update ≡ None)
            × (self.new ≡ effect self.old reading Command.Update))
            ⊎ ((result ≡ false) × (self.new ≡ self.old)) }
    {
        let Some(now) = self.base.forwarded_soon(reading) else {
            return false;
        };
        self.take_near(now)
    }

    /// Replaces the base by one that was advanced, if its offsets show that no clock is at its limit.
    /// Returns whether it did so; if not, nothing changes.
    #[inline(always)]
    fn take_near(&mut self, now: ReadBase) -> bool
        requires { IsForwarded self.old now }
        ensures { ((result ≡ true)
            × (state_value_refusal self.old now.last Command.Update ≡ None)
            × (self.new ≡ effect self.old now.last Command.Update))
            ⊎ ((result ≡ false) × (self.new ≡ self.old)) }
    {
        if !now.has_near_offsets() {
            return false;
        }
        self.base.take_forward(now);
        true
    }

    /// Applies any update after the tests of `check`. It is out of line, so that most updates don't
    /// reserve its stack.
    #[inline(never)]
    fn update_late(&mut self, reading: u64) -> Result<(), Refusal>
        requires { IsEarly self.old reading Command.Update }
        ensures { MatchResult result
            (λ _. (state_value_refusal self.old reading Command.Update ≡ None)
            × (self.new ≡ effect self.old reading Command.Update))
            (λ refusal. (state_value_refusal self.old reading Command.Update ≡ Some refusal)
            × (self.new ≡ self.old)) }
    {
        let now = self.forwarded(reading, Command::Update)?;
        if !self.take(now) {
            return Err(Refusal::Range);
        }
        Ok(())
    }

    /// Replaces the base by one that was advanced, unless a clock would be at its limit. Returns
    /// whether it did so; if not, nothing changes.
    #[inline(always)]
    fn take(&mut self, now: ReadBase) -> bool
        requires { IsForwarded self.old now }
        ensures { ((result ≡ true)
            × (state_value_refusal self.old now.last Command.Update ≡ None)
            × (self.new ≡ effect self.old now.last Command.Update))
            ⊎ ((result ≡ false)
            × (state_value_refusal self.old now.last Command.Update ≡ Some Refusal.Range)
            × (self.new ≡ self.old)) }
    {
        if now.is_past_limit(Command::Update) {
            return false;
        }
        self.base.take_forward(now);
        true
    }

    /// Applies any command, as `apply` does. It is out of line, so that most updates don't reserve
    /// its stack.
    #[inline(never)]
    fn apply_any(&mut self, reading: u64, cmd: Command) -> Result<(), Refusal>
        ensures { MatchResult result
            (λ _. (state_refusal self.old reading cmd ≡ None)
            × (self.new ≡ effect self.old reading cmd))
            (λ refusal. (state_refusal self.old reading cmd ≡ Some refusal)
            × (self.new ≡ self.old)) }
    {
        self.check(reading, cmd)?;
        let now = self.effect(reading, cmd)?;
        self.replace(now);
        Ok(())
    }

    /// Runs the tests that don't depend on a clock's value, in the order of `apply`.
    #[inline(always)]
    fn check(&self, reading: u64, cmd: Command) -> Result<(), Refusal>
        ensures { MatchResult result
            (λ _. IsEarly self.now reading cmd)
            (λ refusal. early_refusal self.now.base.counter self.now.base.asleep self.now.base.last
            reading cmd ≡ Some refusal) }
    {
        let is_resume = matches!(cmd, Command::Resume(_));
        if self.base.asleep && !is_resume {
            return Err(Refusal::Asleep);
        }
        if !self.base.asleep && is_resume {
            return Err(Refusal::Awake);
        }
        if reading > self.base.desc.mask() || !is_well_formed(cmd) {
            return Err(Refusal::Invalid);
        }
        if !is_resume && self.base.is_behind(reading) {
            return Err(Refusal::Behind);
        }
        Ok(())
    }

    /// Returns the snapshot of the clocks. `front` is the number of commands accepted so far, which
    /// the caller counts.
    pub fn snapshot(&self, front: u64) -> Snapshot
        ensures { result ≡ record { front = front; base = self.now.base } }
    {
        Snapshot {
            front,
            base: self.base,
        }
    }

    /// Returns the first reading, in cycles, at which a clock has reached `time`, as
    /// `Snapshot::reading_at` does, but without a copy of the clocks.
    pub fn reading_at(&self, clock: ClockId, time: Timespec) -> Option<u64>
        ensures { let nanos = nanoseconds time in
            MatchOption result
            (IsNeverReached self.now.base clock nanos)
            (λ reading. IsFirstReached self.now.base clock nanos reading) }
    {
        self.base.reading_at(clock, time)
    }

    /// Returns whether `time` is further away than `reading_at` searches, as `Snapshot::is_further`
    /// does, but without a copy of the clocks.
    pub fn is_further(&self, clock: ClockId, time: Timespec) -> bool
        ensures { IsTrue result ↔ IsFurther self.now.base clock (nanoseconds time) }
    {
        self.base.is_further(clock, time)
    }
}
