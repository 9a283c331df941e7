//! Makes the reply to a request.
ghost use Rattle.std.specs.Prelude.{◌≡◌, ◌^◌, ◌≤◌, pos, unsigned_abs};
ghost use Rattle.std.specs.Int.{int_div_euclid};
ghost use Rattle.tk_ntp.specs.Length.{max_frequency};
ghost use Rattle.tk_ntp.specs.Reply.{reply_offset, reply_freq, reply_state, reply_sub, reply_with, named};

use super::Discipline;
use crate::bits::{STA_CLOCKERR, STA_NANO, STA_UNSYNC, has};
use crate::leap_plan::LeapState;
use crate::length::toward_zero;
use crate::phase::phase_nanos;
use crate::reply::{Reply, TimeState};
use crate::timex::Timex;
use tk_clock::Timespec;

impl Discipline {
    /// Returns the reply with an offset, at a time of REALTIME and a TAI offset.
    pub(super) fn reply(&self, modes: u32, offset: i64, real: Timespec, tai: u32) -> Reply
        ensures { result ≡ reply_with modes offset real tai self.now }
    {
        Reply {
            state: self.state(),
            tai,
            timex: Timex {
                modes,
                offset,
                freq: reply_freq(self.frequency),
                maxerror: i64::from(self.maxerror),
                esterror: i64::from(self.esterror),
                status: self.status,
                constant: i64::from(self.constant),
                tick: i64::from(self.tick),
                sec: real.sec,
                sub: self.sub(real.nsec),
            },
        }
    }

    /// Returns the phase still to give, in nanoseconds or microseconds.
    pub(super) fn reply_offset(&self) -> i64
        ensures { result ≡ reply_offset self.now }
    {
        let nanos = phase_nanos(self.offset, self.hz);
        if has(self.status, STA_NANO) {
            nanos
        } else {
            toward_zero(nanos, 1000)
        }
    }

    /// Returns the clock's state.
    fn state(&self) -> TimeState
        ensures { result ≡ reply_state self.now }
    {
        if has(self.status, STA_UNSYNC | STA_CLOCKERR) {
            TimeState::Error
        } else {
            named(self.plan.state())
        }
    }

    /// Returns the part of a second, in nanoseconds or microseconds.
    fn sub(&self, nsec: u32) -> i64
        ensures { result ≡ reply_sub self.now nsec }
    {
        if has(self.status, STA_NANO) {
            i64::from(nsec)
        } else {
            i64::from(nsec / 1000)
        }
    }
}

/// Returns the name of the leap second's state.
fn named(state: LeapState) -> TimeState
    ensures { result ≡ named state }
{
    match state {
        LeapState::Idle => TimeState::Ok,
        LeapState::Inserting => TimeState::Ins,
        LeapState::Deleting => TimeState::Del,
        LeapState::InProgress => TimeState::Oop,
        LeapState::Over => TimeState::Wait,
    }
}

/// Returns a frequency in `2^-16` ppm, as the kernel computes it (`PPM_SCALE_INV`).
pub(crate) fn reply_freq(frequency: i64) -> i64
    requires { unsigned_abs frequency ≤ max_frequency }
    ensures { result ≡ reply_freq frequency }
{
    toward_zero(coarse(frequency) * 34_359_739, 1 << 32)
}

/// Returns a frequency in units of `2^-13` ns, rounded down.
fn coarse(frequency: i64) -> i64
    requires { unsigned_abs frequency ≤ max_frequency }
    ensures value { result ≡ int_div_euclid frequency (pos (2 ^ 19)) }
    ensures most { unsigned_abs result ≤ 4096000000 }
{
    frequency.div_euclid(1 << 19)
}
