//! Sets REALTIME to a time, moves it by an amount, and makes leap seconds.
ghost use Rattle.std.specs.Prelude.{◌≡◌, ◌+◌, ◌*◌, ◌/◌, ◌^◌, ◌<◌, ◌≤◌, MatchOption, MatchResult, Some, None, true, pos, ◌≤ℤ◌, ◌<ℤ◌, ◌+ℤ◌, ◌⊎◌};
ghost use Rattle.tk_clock.specs.State.{base_value, forwarded};
ghost use Rattle.tk_clock.specs.Limits.{limit, clock_end, monotonic_end, settable_end, greatest_tai};
ghost use Rattle.tk_clock.specs.Running.{IsRated};
ghost use Rattle.tk_clock.specs.Command.{steps_real, real_amount};
ghost use Rattle.tk_clock.specs.Refusal.{state_value_refusal};
ghost use Rattle.tk_clock.specs.Effect.{IsForwarded, IsEarly, IsEffect};
ghost use Rattle.tk_clock.specs.Time.{nanoseconds};

use super::Clock;
use crate::clock_id::ClockId;
use crate::command::Command;
use crate::limits::settable_limit;
use crate::read_base::ReadBase;
use crate::refusal::Refusal;
use crate::timespec::{Timespec, nanos_of};
use tk_counter::NANOS_PER_SECOND;

impl Clock {
    /// Returns the clocks with REALTIME set to a time (`do_settimeofday64`).
    pub(super) fn set_time(&self, now: ReadBase, time: Timespec) -> Result<Clock, Refusal>
        requires forwarded { IsForwarded self.now now }
        requires early { IsEarly self.now now.last (Command.SetTime time) }
        ensures { IsEffect self.now now.last (Command.SetTime time) result }
    {
        if now.is_past_limit(Command::SetTime(time)) {
            return Err(Refusal::Range);
        }
        let Some(offset) = nanos_of(time).checked_sub(now.monotonic_now()) else {
            return Err(Refusal::Invalid);
        };
        Ok(self.set_to(now, offset))
    }

    /// Returns the clocks with REALTIME moved by an amount (`timekeeping_inject_offset`).
    pub(super) fn step(&self, now: ReadBase, by: Timespec) -> Result<Clock, Refusal>
        requires forwarded { IsForwarded self.now now }
        requires early { IsEarly self.now now.last (Command.Step by) }
        ensures { IsEffect self.now now.last (Command.Step by) result }
    {
        let offset = self.stepped(now, by, Command::Step(by))?;
        Ok(self.set_to(now, offset))
    }

    /// Returns the clocks after a leap second, with REALTIME moved by `by` seconds and another TAI
    /// offset (`accumulate_nsecs_to_secs`).
    pub(super) fn leap(&self, now: ReadBase, by: i64, tai: i64) -> Result<Clock, Refusal>
        requires forwarded { IsForwarded self.now now }
        requires early { IsEarly self.now now.last (Command.Leap by tai) }
        ensures { IsEffect self.now now.last (Command.Leap by tai) result }
    {
        let amount = Timespec { sec: by, nsec: 0 };
        let offset = self.stepped(now, amount, Command::Leap { by, tai })?;
        Ok(self.set_to(now.with_tai(tai), offset))
    }

    /// Returns REALTIME minus MONOTONIC, in ns, after a command that moves REALTIME by an amount.
    ///
    /// The errors are `Range` if MONOTONIC or BOOTTIME is at its limit, and then `Invalid` if
    /// REALTIME would be below MONOTONIC or at a time that it may not be set to.
    fn stepped(&self, now: ReadBase, by: Timespec, cmd: Command) -> Result<u64, Refusal>
        requires forwarded { IsForwarded self.now now }
        requires early { IsEarly self.now now.last cmd }
        requires steps { steps_real cmd ≡ true }
        requires amount { real_amount cmd ≡ nanoseconds by }
        requires rest { by.nsec < 10 ^ 9 }
        ensures { MatchResult result
            (λ offset. (state_value_refusal self.now now.last cmd ≡ None)
            × (pos offset ≡ now.real_offset +ℤ nanoseconds by)
            × (now.amount / 2 ^ now.counter.shift + offset < settable_end * 10 ^ 9)
            × (base_value now ClockId.Boottime now.last <ℤ limit ClockId.Boottime))
            (λ refusal. state_value_refusal self.now now.last cmd ≡ Some refusal) }
    {
        if now.is_past_limit(cmd) {
            return Err(Refusal::Range);
        }
        let monotonic = now.monotonic_now();
        let Some(real) = time_moved(monotonic + self.base.real_offset, by) else {
            return Err(Refusal::Invalid);
        };
        if real < monotonic || real >= settable_limit() {
            return Err(Refusal::Invalid);
        }
        Ok(real - monotonic)
    }

    /// Returns the clocks with a base that runs at their rate, and REALTIME `offset` ns after
    /// MONOTONIC.
    fn set_to(&self, now: ReadBase, offset: u64) -> Clock
        requires steered { now.mult ≡ self.now.base.mult }
        requires counter { now.counter ≡ self.now.base.counter }
        requires rated { IsRated now }
        requires settable { now.amount / 2 ^ now.counter.shift + offset < settable_end * 10 ^ 9 }
        requires tai { now.tai ≤ℤ pos greatest_tai }
        requires boot { base_value now ClockId.Boottime now.last <ℤ limit ClockId.Boottime }
        ensures { result ≡ record self.now { base = record now { real_offset = pos offset } } }
    {
        let base = now.with_real_offset(offset);
        Clock { base, ..*self }
    }
}

/// Returns a time in ns, moved by an amount. Returns `None` if the result is below 0 or doesn't fit in
/// 64 bits.
pub fn time_moved(real: u64, by: Timespec) -> Option<u64>
    requires real { real < (clock_end + monotonic_end) * 10 ^ 9 }
    requires rest { by.nsec < 10 ^ 9 }
    ensures { let moved = pos real +ℤ nanoseconds by in
        MatchOption result
        ((moved <ℤ pos 0) ⊎ (pos (2 ^ 64) ≤ℤ moved))
        (λ nanos. pos nanos ≡ moved) }
{
    let upward = real + u64::from(by.nsec);
    let whole = by.sec.unsigned_abs().checked_mul(NANOS_PER_SECOND)?;
    if by.sec < 0 {
        upward.checked_sub(whole)
    } else {
        upward.checked_add(whole)
    }
}
