//! Applies commands to the clocks, and tests the resulting values.
ghost use Rattle.std.specs.Prelude.{◌≡◌, ◌+◌, ◌*◌, ◌/◌, ◌^◌, ◌<◌, ◌≤◌, MatchResult, MatchOption, Some, None, pos, ◌≤ℤ◌, ◌<ℤ◌, ◌+ℤ◌, true, false, ◌⊎◌};
ghost use Rattle.tk_clock.specs.State.{base_value, forwarded};
ghost use Rattle.tk_clock.specs.Limits.{limit, sets_real};
ghost use Rattle.tk_clock.specs.Running.{IsRated};
ghost use Rattle.tk_clock.specs.Refusal.{state_value_refusal};
ghost use Rattle.tk_clock.specs.Effect.{IsForwarded, IsEarly, IsEffect, IsSettled};
ghost use Rattle.tk_clock.specs.Command.{is_resume};
ghost use Rattle.tk_clock.specs.Time.{nanoseconds};
ghost use Rattle.tk_counter.specs.Counter.{mask, multiplier, least_tick, greatest_tick};

use super::Clock;
use crate::command::Command;
use crate::read_base::ReadBase;
use crate::refusal::Refusal;
use crate::timespec::{Timespec, nanos_of};

impl Clock {
    /// Returns the clocks after a command that passed the tests which don't depend on a clock's
    /// value.
    ///
    /// The errors are `Range` if a clock would be at its limit, and then `Invalid` if REALTIME
    /// would be set below MONOTONIC or to a time that it may not be set to.
    pub(super) fn effect(&self, reading: u64, cmd: Command) -> Result<Clock, Refusal>
        requires { IsEarly self.now reading cmd }
        ensures { IsEffect self.now reading cmd result }
    {
        match cmd {
            Command::Resume(away) => self.resume(reading, away),
            _ => self.change(self.forwarded(reading, cmd)?, cmd),
        }
    }

    /// Returns the clocks after a command other than `Resume`. `now` is the base at the command's
    /// reading.
    fn change(&self, now: ReadBase, cmd: Command) -> Result<Clock, Refusal>
        requires forwarded { IsForwarded self.now now }
        requires early { IsEarly self.now now.last cmd }
        requires awake { is_resume cmd ≡ false }
        ensures { IsEffect self.now now.last cmd result }
    {
        match cmd {
            Command::Update => self.update(now),
            Command::SetTime(time) => self.set_time(now, time),
            Command::Step(by) => self.step(now, by),
            Command::Freq(frequency) => self.set_frequency(now, frequency),
            Command::Tick(tick) => self.set_tick(now, tick),
            Command::Tai(seconds) => self.set_tai(now, seconds),
            Command::Leap { by, tai } => self.leap(now, by, tai),
            Command::Suspend => self.suspend(now),
            Command::Resume(_) => unreachable!(),
        }
    }

    /// Returns the base advanced to the reading of a command other than `Resume`. The error is
    /// `Range` if MONOTONIC would be at its limit.
    #[inline(always)]
    pub(super) fn forwarded(&self, reading: u64, cmd: Command) -> Result<ReadBase, Refusal>
        requires early { IsEarly self.now reading cmd }
        requires awake { is_resume cmd ≡ false }
        ensures { MatchResult result
            (λ now. (now.last ≡ reading) × IsForwarded self.now now)
            (λ refusal. state_value_refusal self.now reading cmd ≡ Some refusal) }
    {
        let Some(now) = self.base.forwarded(reading) else {
            return Err(Refusal::Range);
        };
        Ok(now)
    }

    /// Returns the advanced clocks, with no other change.
    #[inline(always)]
    pub(super) fn update(&self, now: ReadBase) -> Result<Clock, Refusal>
        requires forwarded { IsForwarded self.now now }
        ensures { IsEffect self.now now.last Command.Update result }
    {
        self.settled(now, Command::Update)
    }

    /// Returns the clocks with another frequency, starting at the base's last reading. The tick is
    /// unchanged.
    fn set_frequency(&self, now: ReadBase, frequency: i64) -> Result<Clock, Refusal>
        requires forwarded { IsForwarded self.now now }
        ensures { IsEffect self.now now.last (Command.Freq frequency) result }
    {
        Clock::steered(now, frequency, self.tick, Command::Freq(frequency))
    }

    /// Returns the clocks with another tick, starting at the base's last reading. The frequency is
    /// unchanged.
    fn set_tick(&self, now: ReadBase, tick: i64) -> Result<Clock, Refusal>
        requires forwarded { IsForwarded self.now now }
        requires early { IsEarly self.now now.last (Command.Tick tick) }
        ensures { IsEffect self.now now.last (Command.Tick tick) result }
    {
        Clock::steered(now, self.frequency, tick, Command::Tick(tick))
    }

    /// Returns the clocks with another TAI offset.
    fn set_tai(&self, now: ReadBase, seconds: i64) -> Result<Clock, Refusal>
        requires forwarded { IsForwarded self.now now }
        requires early { IsEarly self.now now.last (Command.Tai seconds) }
        ensures { IsEffect self.now now.last (Command.Tai seconds) result }
    {
        self.settled(now.with_tai(seconds), Command::Tai(seconds))
    }

    /// Returns the clocks, asleep since the base's last reading.
    fn suspend(&self, now: ReadBase) -> Result<Clock, Refusal>
        requires forwarded { IsForwarded self.now now }
        ensures { IsEffect self.now now.last Command.Suspend result }
    {
        self.settled(now.fallen_asleep(), Command::Suspend)
    }

    /// Returns the clocks, awake after a suspension. They count starting at `reading`.
    fn resume(&self, reading: u64, away: Timespec) -> Result<Clock, Refusal>
        requires { IsEarly self.now reading (Command.Resume away) }
        ensures { IsEffect self.now reading (Command.Resume away) result }
    {
        self.settled(
            self.base.woken(reading, nanos_of(away)),
            Command::Resume(away),
        )
    }

    /// Returns the clocks with another rate, starting at the base's last reading. The error is
    /// `Range` if one is at its limit.
    fn steered(now: ReadBase, frequency: i64, tick: i64, cmd: Command) -> Result<Clock, Refusal>
        requires slowest { least_tick ≤ℤ tick }
        requires fastest { tick ≤ℤ greatest_tick }
        requires rated { IsRated now }
        requires plain { sets_real cmd ≡ false }
        ensures { IsSettled (record {
          base = record now { mult = multiplier now.counter frequency tick };
          frequency = frequency;
          tick = tick;
        }) cmd result }
    {
        let base = now.with_mult(now.desc.mult_at(frequency, tick));
        if base.is_past_limit(cmd) {
            return Err(Refusal::Range);
        }
        Ok(Clock {
            base,
            frequency,
            tick,
        })
    }

    /// Returns the clocks with a base that runs at their rate. The error is `Range` if one is at
    /// its limit.
    fn settled(&self, base: ReadBase, cmd: Command) -> Result<Clock, Refusal>
        requires steered { base.mult ≡ self.now.base.mult }
        requires counter { base.counter ≡ self.now.base.counter }
        requires rated { IsRated base }
        requires plain { sets_real cmd ≡ false }
        ensures { IsSettled (record self.now { base = base }) cmd result }
    {
        if base.is_past_limit(cmd) {
            return Err(Refusal::Range);
        }
        Ok(Clock { base, ..*self })
    }
}
