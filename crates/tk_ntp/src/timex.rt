ghost use Rattle.std.specs.Prelude.{◌≡◌, true, false};
ghost use Rattle.tk_ntp.specs.Bits.{has, adj_setoffset};
ghost use Rattle.tk_ntp.specs.Fault.{has_adjtime_fault, has_tick_fault, has_time_fault, has_frequency_fault, is_faulty};
ghost use Rattle.tk_ntp.specs.Request.{nanos_of, step_of};

use crate::bits::{ADJ_ADJTIME, ADJ_FREQUENCY, ADJ_NANO, ADJ_OFFSET, ADJ_SETOFFSET, ADJ_TICK, has};
use tk_clock::Timespec;

/// Contains the fields of a request, and the fields of the same names in its reply (`struct timex`,
/// adjtimex(2)).
///
/// A request may have any numbers. `modes` says which of them it gives; the others are ignored.
#[derive(Clone, Copy, Debug, Default, PartialEq, Eq)]
pub struct Timex {
    /// Says which of the other fields are given, by the bits `ADJ_..`. Other bits are ignored.
    pub modes: u32,
    /// Gives the offset between the clock and its reference, in nanoseconds or microseconds.
    pub offset: i64,
    /// Gives the frequency, in `2^-16` ppm.
    pub freq: i64,
    /// Gives the greatest error, in microseconds.
    pub maxerror: i64,
    /// Gives the estimated error, in microseconds.
    pub esterror: i64,
    /// Gives the status, by the bits `STA_..`.
    pub status: u32,
    /// Gives the time constant of the PLL, or the TAI offset in seconds.
    pub constant: i64,
    /// Gives the tick, in microseconds.
    pub tick: i64,
    /// Counts whole seconds of a time.
    pub sec: i64,
    /// Counts the part of a second in the time, in nanoseconds or microseconds.
    pub sub: i64,
}

/// The greatest frequency that a request may give, in `2^-16` ppm (`LLONG_MAX / PPM_SCALE`).
const GREATEST_FREQUENCY: i64 = 140_737_488_355;

impl Timex {
    /// Returns whether the request has a fault, for which the kernel returns `EINVAL`
    /// (`timekeeping_validate_timex`).
    ///
    /// These are the faults:
    ///
    /// - `ADJ_ADJTIME` without `ADJ_OFFSET`;
    /// - `ADJ_TICK` without `ADJ_ADJTIME`, and `tick` is not 9,000 to 11,000;
    /// - `ADJ_SETOFFSET`, and `sub` is negative, or 10^9 or more with `ADJ_NANO`, or 10^6 or more
    ///   without it;
    /// - `ADJ_FREQUENCY`, and `freq` is not within ±140,737,488,355.
    pub fn is_faulty(&self) -> bool
        ensures { result ≡ is_faulty self.now }
    {
        self.has_adjtime_fault()
            || self.has_tick_fault()
            || self.has_time_fault()
            || self.has_frequency_fault()
    }

    fn has_adjtime_fault(&self) -> bool
        ensures { result ≡ has_adjtime_fault self.now }
    {
        has(self.modes, ADJ_ADJTIME) && !has(self.modes, ADJ_OFFSET)
    }

    fn has_tick_fault(&self) -> bool
        ensures { result ≡ has_tick_fault self.now }
    {
        !has(self.modes, ADJ_ADJTIME)
            && has(self.modes, ADJ_TICK)
            && (self.tick < 9_000 || 11_000 < self.tick)
    }

    fn has_time_fault(&self) -> bool
        ensures { result ≡ has_time_fault self.now }
    {
        let most = if has(self.modes, ADJ_NANO) {
            999_999_999
        } else {
            999_999
        };
        has(self.modes, ADJ_SETOFFSET) && (self.sub < 0 || most < self.sub)
    }

    fn has_frequency_fault(&self) -> bool
        ensures { result ≡ has_frequency_fault self.now }
    {
        has(self.modes, ADJ_FREQUENCY)
            && (self.freq < -GREATEST_FREQUENCY || GREATEST_FREQUENCY < self.freq)
    }

    /// Returns the step of REALTIME that a request without a fault asks for (`ADJ_SETOFFSET`), or
    /// `None` if it asks for none. `sec` may be negative; the nanoseconds always count forward.
    pub fn step(&self) -> Option<Timespec>
        requires sound { is_faulty self.now ≡ false }
        ensures { result ≡ step_of self.now }
    {
        if has(self.modes, ADJ_SETOFFSET) {
            Some(Timespec {
                sec: self.sec,
                nsec: self.nanos(),
            })
        } else {
            None
        }
    }

    /// Returns the part of a second in the step, in nanoseconds.
    fn nanos(&self) -> u32
        requires sound { has_time_fault self.now ≡ false }
        requires step { has self.now.modes adj_setoffset ≡ true }
        ensures { result ≡ nanos_of self.now }
    {
        if has(self.modes, ADJ_NANO) {
            self.sub.unsigned_abs() as u32
        } else {
            (self.sub * 1000).unsigned_abs() as u32
        }
    }
}
