//! Keeps the state of a signal of a pulse per second.
ghost use Rattle.std.specs.Prelude.{◌≡◌, ◌^◌, ◌<◌};
ghost use Rattle.tk_ntp.specs.Pps.{no_signal, pps_cleared, with_short_interval, is_lost, pps_second, pps_seconds, is_lost_in, stepped, turns_pll_off, with_interval_kept, with_asked_frequency, pps_asked};

mod interval;
mod measuring;
mod pulses;
mod replies;

use crate::bits::{ADJ_ADJTIME, ADJ_FREQUENCY, ADJ_SETOFFSET, ADJ_STATUS, STA_PLL, has};
use crate::request::gain_of;
use crate::timex::Timex;
use std::marker::Model;

/// The least length of an interval: 4 s (`PPS_INTMIN`).
pub(crate) const LEAST_SHIFT: u32 = 2;

/// The greatest length of an interval: 256 s (`PPS_INTMAX`).
pub(crate) const GREATEST_SHIFT: u32 = 8;

/// The seconds that may begin after a pulse before the signal counts as lost (`PPS_VALID`).
const VALID_SECONDS: u32 = 10;

/// Keeps the state of a signal of a pulse per second, as the variables `pps_` of kernel/time/ntp.c.
///
/// Its owner keeps it next to a discipline. `pulse` says what the discipline takes from a pulse. Call
/// `second` after each second of REALTIME that begins, `clear` after each set or step of REALTIME,
/// and `ask` after each request.
#[repr(C)]
#[derive(Clone, Copy, Debug)]
pub struct Pps {
    /// Counts the seconds that may begin before the signal counts as lost.
    valid: u32,
    /// Says how long an interval is: `2^shift` seconds.
    shift: u32,
    /// Contains the mean of what a correction differs by from the one before, in nanoseconds.
    jitter: u32,
    /// Contains the mean of what the frequency changes by, in `2^-16` ppm.
    stabil: u32,
    /// Contains the correction of the last pulse, in nanoseconds.
    correction: i64,
    /// Counts the good intervals minus the bad ones, since the shift last changed.
    balance: i64,
    /// Contains what each second gains, as the last interval showed, in `2^-32` ns.
    frequency: i64,
    /// Contains MONOTONIC_RAW at the beginning of the interval, in nanoseconds; below a second there
    /// is none.
    start: u64,
    /// Counts the intervals.
    calcnt: u64,
    /// Counts the corrections that were too far from the one before.
    jitcnt: u64,
    /// Counts the frequencies that were too far from the one before.
    stbcnt: u64,
    /// Counts the intervals that were too long.
    errcnt: u64,
}

const _: () = prove!(size_of::<Pps>() <= 80);

impl Model for Pps {
    ghost use Rattle.tk_ntp.specs.Pps.{Pps, IsPps, pps_of};

    ghost Value = { Pps };

    ghost view = { pps_of };

    ghost invariant = { λ a. IsPps (pps_of a) };

    ghost inverse = { λ p. record {
      valid = p.valid;
      shift = p.shift;
      jitter = p.jitter;
      stabil = p.stabil;
      correction = p.correction;
      balance = p.balance;
      frequency = p.frequency;
      start = p.start;
      calcnt = p.calcnt;
      jitcnt = p.jitcnt;
      stbcnt = p.stbcnt;
      errcnt = p.errcnt;
    } };
}

impl Pps {
    /// Makes the state of a signal without a pulse.
    pub fn new() -> Pps
        ensures { result ≡ no_signal }
    {
        Pps {
            valid: 0,
            shift: LEAST_SHIFT,
            jitter: 0,
            stabil: 0,
            correction: 0,
            balance: 0,
            frequency: 0,
            start: 0,
            calcnt: 0,
            jitcnt: 0,
            stbcnt: 0,
            errcnt: 0,
        }
    }

    /// Clears the state after REALTIME was set or stepped (`pps_clear`): an interval begins with the
    /// next pulse, and the signal's frequency is 0. The counts and both means stay.
    pub fn clear(&mut self)
        ensures { self.new ≡ pps_cleared self.old }
    {
        self.shorten();
        self.correction = 0;
        self.start = 0;
        self.frequency = 0;
    }

    /// Makes intervals as short as possible again (`pps_reset_freq_interval`).
    fn shorten(&mut self)
        ensures { self.new ≡ with_short_interval self.old }
    {
        self.shift = LEAST_SHIFT;
        self.balance = 0;
    }

    /// Counts a second of REALTIME that has begun. Returns whether the signal counts as lost; call
    /// `Discipline::lose_signal` then (`pps_dec_valid`).
    pub fn second(&mut self) -> bool
        ensures state { self.new ≡ pps_second self.old }
        ensures lost { result ≡ is_lost self.old }
    {
        if self.valid == 0 {
            self.clear();
            return true;
        }
        self.valid -= 1;
        false
    }

    /// Counts some seconds of REALTIME that have begun, as that many calls of `second` do. Returns
    /// whether the signal counts as lost at one of them; call `Discipline::lose_signal` then.
    ///
    /// An owner may let several seconds begin in a call, and count them after it. While the signal
    /// is present, the first of them gives the whole offset, so the others don't need the signal.
    pub fn seconds(&mut self, count: u64) -> bool
        ensures state { self.new ≡ pps_seconds count self.old }
        ensures lost { result ≡ is_lost_in count self.old }
    {
        if u64::from(self.valid) < count {
            self.valid = 0;
            self.clear();
            return true;
        }
        self.valid -= count as u32;
        false
    }

    /// Does what a request without a fault changes in the signal's state. `status` is the
    /// discipline's status before the request.
    ///
    /// A step clears the state. A request that turns `STA_PLL` off makes the intervals short again,
    /// and `ADJ_FREQUENCY` sets the signal's frequency.
    pub fn ask(&mut self, request: &Timex, status: u32)
        ensures { self.new ≡ pps_asked request.now status self.old }
    {
        if has(request.modes, ADJ_SETOFFSET) {
            self.clear();
        }
        if has(request.modes, ADJ_ADJTIME) {
            return;
        }
        if turns_pll_off(request, status) {
            self.shorten();
        }
        if has(request.modes, ADJ_FREQUENCY) {
            self.frequency = gain_of(request.freq);
        }
    }
}

/// Returns whether a request turns the PLL off.
fn turns_pll_off(request: &Timex, status: u32) -> bool
    ensures { result ≡ turns_pll_off request.now status }
{
    has(request.modes, ADJ_STATUS) && has(status, STA_PLL) && !has(request.status, STA_PLL)
}
