//! Makes the read base after a command. The functions return another base and leave their own
//! unchanged, except for `take_forward`, which changes its base.
ghost use Rattle.std.specs.Prelude.{◌≡◌, ◌*◌, ◌/◌, ◌^◌, ◌<◌, ◌≤◌, MatchOption, pos, ◌≤ℤ◌, ◌+ℤ◌, ◌<ℤ◌, not, int_lt, true, false};
ghost use Rattle.tk_counter.specs.Counter.{mask, fastest, second};
ghost use Rattle.tk_clock.specs.Limits.{is_past_limit, clock_end, monotonic_end, greatest_tai};
ghost use Rattle.tk_clock.specs.Amount.{IsAmountOf, units_of};
ghost use Rattle.tk_clock.specs.State.{base_value, forwarded};
ghost use Rattle.tk_clock.specs.Running.{IsFar, IsRated, slowest};
ghost use Rattle.tk_clock.specs.Uptime.{with_uptime};

use super::ReadBase;
use crate::amount::{Amount, NARROW_CYCLES};
use crate::command::Command;
use crate::limits::{CLOCK_LIMIT, FAR_OFFSET, MONOTONIC_END, sets_real};

impl ReadBase {
    /// Returns the base with its amounts advanced to a reading (`timekeeping_forward_now`). Nothing
    /// below a nanosecond is lost. Returns `None` if MONOTONIC would be at its limit.
    #[inline(always)]
    pub fn forwarded(&self, reading: u64) -> Option<ReadBase>
        requires reading { reading ≤ mask self.now.counter }
        requires steered { slowest self.now.counter ≤ self.now.mult }
        requires rated { IsRated self.now }
        ensures { let after = forwarded self.now reading in
            MatchOption result
            (monotonic_end * 10 ^ 9 ≤ after.amount / 2 ^ after.counter.shift)
            (λ base. (base ≡ after) × IsRated base) }
    {
        let cycles = self.desc.gap(self.last, reading);
        let monotonic = self.monotonic.grown(&self.desc, cycles, self.mult)?;
        let raw = self.raw.grown(&self.desc, cycles, self.desc.mult())?;
        self.with_amounts(reading, monotonic, raw)
    }

    /// Returns the result of `forwarded`, if there are fewer than 2^31 cycles and no amount gains
    /// two whole seconds. Returns `None` otherwise, and if MONOTONIC would be at its limit.
    #[inline(always)]
    pub fn forwarded_soon(&self, reading: u64) -> Option<ReadBase>
        requires reading { reading ≤ mask self.now.counter }
        requires steered { slowest self.now.counter ≤ self.now.mult }
        requires rated { IsRated self.now }
        ensures { MatchOption result
            (IsFar self.now reading)
            (λ base. (base ≡ forwarded self.now reading) × IsRated base) }
    {
        let cycles = self.desc.gap(self.last, reading);
        if cycles >= NARROW_CYCLES {
            return None;
        }
        let monotonic = self.monotonic.grown_soon(&self.desc, cycles, self.mult)?;
        let raw = self.raw.grown_soon(&self.desc, cycles, self.desc.mult())?;
        self.with_amounts(reading, monotonic, raw)
    }

    /// Returns the base at a reading, from the amounts of MONOTONIC and MONOTONIC_RAW at it.
    /// Returns `None` if MONOTONIC is at its limit.
    #[inline(always)]
    fn with_amounts(&self, reading: u64, monotonic: Amount, raw: Amount) -> Option<ReadBase>
        requires reading { reading ≤ mask self.now.counter }
        requires steered { slowest self.now.counter ≤ self.now.mult }
        requires rated { IsRated self.now }
        requires monotonic { IsAmountOf self.now.counter monotonic
            (forwarded self.now reading).amount }
        requires raw { IsAmountOf self.now.counter raw (forwarded self.now reading).raw_amount }
        ensures { let after = forwarded self.now reading in
            MatchOption result
            (monotonic_end * 10 ^ 9 ≤ after.amount / 2 ^ after.counter.shift)
            (λ base. (base ≡ after) × IsRated base) }
    {
        if monotonic.sec >= MONOTONIC_END {
            return None;
        }
        Some(ReadBase {
            last: reading,
            monotonic,
            raw,
            ..*self
        })
    }

    /// Replaces the base by a result of `forwarded`. It writes only the fields that `forwarded`
    /// changes.
    pub fn take_forward(&mut self, now: ReadBase)
        requires { now ≡ forwarded self.old now.last }
        ensures { self.new ≡ now }
    {
        self.last = now.last;
        self.monotonic = now.monotonic;
        self.raw = now.raw;
    }

    /// Returns whether a clock is at its limit at the last reading, after a command. It doesn't
    /// test REALTIME and TAI if the command sets REALTIME, steps it or makes a leap second, because
    /// a separate test bounds them.
    #[tactic(auto, unfolding(crate::specs::Limits::is_past_limit))]
    pub fn is_past_limit(&self, cmd: Command) -> bool
        ensures { result ≡ is_past_limit (λ clock. base_value self.now clock self.now.last) cmd }
    {
        let now = self.monotonic_now();
        if is_at_limit(now, self.boot_offset) {
            return true;
        }
        if sets_real(cmd) {
            return false;
        }
        // TAI is never below REALTIME
        is_at_limit(now + self.tai_nanos(), self.real_offset)
    }

    /// Returns whether the offsets alone show that no clock is at its limit at the last reading.
    #[tactic(auto, unfolding(crate::specs::Limits::is_past_limit))]
    #[inline(always)]
    pub fn has_near_offsets(&self) -> bool
        ensures { result ≡ true →
            is_past_limit (λ clock. base_value self.now clock self.now.last) Command.Update ≡ false }
    {
        // MONOTONIC is below its limit, and the TAI offset is at most the greatest one
        let _ = (self.monotonic_now(), self.tai_nanos());
        self.boot_offset <= FAR_OFFSET && self.real_offset <= FAR_OFFSET
    }

    /// Returns the base with another multiplier, starting at its last reading.
    pub fn with_mult(self, mult: u32) -> ReadBase
        requires some { 1 ≤ mult }
        requires most { mult ≤ fastest self.counter }
        ensures { result ≡ record self { mult = mult } }
    {
        ReadBase { mult, ..self }
    }

    /// Returns the base with REALTIME `offset` ns after MONOTONIC.
    pub fn with_real_offset(self, offset: u64) -> ReadBase
        ensures { result ≡ record self { real_offset = pos offset } }
    {
        ReadBase {
            real_offset: offset,
            ..self
        }
    }

    /// Returns the base with MONOTONIC and MONOTONIC_RAW at an amount, and REALTIME `real_offset`
    /// ns after MONOTONIC.
    pub fn with_uptime(self, amount: Amount, real_offset: u64) -> ReadBase
        requires rest { amount.frac < second self.counter }
        requires low { amount.sec < monotonic_end }
        ensures { result ≡ with_uptime self (units_of self.counter amount) (pos real_offset) }
    {
        ReadBase {
            monotonic: amount,
            raw: amount,
            real_offset,
            ..self
        }
    }

    /// Returns the base with TAI `seconds` after REALTIME.
    pub fn with_tai(self, seconds: i64) -> ReadBase
        requires least { pos 0 ≤ℤ seconds }
        requires most { seconds ≤ℤ pos greatest_tai }
        ensures { result ≡ record self { tai = seconds } }
    {
        ReadBase {
            tai: seconds.unsigned_abs() as u32,
            ..self
        }
    }

    /// Returns the base asleep.
    pub fn fallen_asleep(self) -> ReadBase
        ensures { result ≡ record self { asleep = true } }
    {
        ReadBase {
            asleep: true,
            ..self
        }
    }

    /// Returns the base, awake after a suspension of `away` ns. It counts starting at another
    /// reading.
    pub fn woken(self, reading: u64, away: u64) -> ReadBase
        requires reading { reading ≤ mask self.counter }
        requires real { (self.real_offset +ℤ pos away) <ℤ pos (2 ^ 64) }
        requires boot { (self.boot_offset +ℤ pos away) <ℤ pos (2 ^ 64) }
        ensures { result ≡ record self {
          last = reading;
          real_offset = self.real_offset +ℤ pos away;
          boot_offset = self.boot_offset +ℤ pos away;
          asleep = false;
        } }
    {
        ReadBase {
            last: reading,
            real_offset: self.real_offset + away,
            boot_offset: self.boot_offset + away,
            asleep: false,
            ..self
        }
    }
}

/// Returns whether `elapsed` plus `offset`, in ns, is at the limit of the clocks other than
/// MONOTONIC.
pub(super) fn is_at_limit(elapsed: u64, offset: u64) -> bool
    ensures { result ≡ not (int_lt (pos elapsed +ℤ pos offset) (pos (clock_end * 10 ^ 9))) }
{
    elapsed.saturating_add(offset) >= CLOCK_LIMIT
}
