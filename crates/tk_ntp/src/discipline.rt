ghost use Rattle.std.specs.Prelude.{◌≡◌, ◌+◌, ◌<◌, ◌≤◌, MatchOption, ◌⊎◌, pos, ◌-ℤ◌, ◌<ℤ◌, unsigned_abs};

mod modes;
mod numbers;
mod pulses;
mod replies;
mod requests;
mod seconds;

use crate::bits::STA_UNSYNC;
use crate::leap_plan::LeapPlan;
use crate::length::second_with_phase;
use crate::request::ERROR_LIMIT;
pub(crate) use replies::reply_freq;
pub(crate) use requests::asked_tai;
use std::marker::Model;

/// The usual tick, in microseconds (`USER_TICK_USEC`).
const USUAL_TICK: u32 = 10_000;

/// The greatest number of parts that a second is divided into for its phase.
pub(crate) const HZ_LIMIT: u32 = 1024;

/// Keeps the state of a discipline, as the variables of kernel/time/ntp.c.
///
/// It has no source of time and knows no counter: its caller says which second of REALTIME begins,
/// and which time it is at a request. It allocates nothing, and is at most 128 bytes long.
#[repr(C)]
#[derive(Clone, Copy, Debug)]
pub struct Discipline {
    /// Counts the parts of a second that phases are divided into: the kernel's `HZ`.
    hz: u32,
    /// Contains the bits of the status.
    status: u32,
    /// Says what the leap second is doing.
    plan: LeapPlan,
    /// Contains the phase still to give in each of `hz` parts, in `2^-32` ns.
    offset: i64,
    /// Contains the time constant of the PLL.
    constant: u32,
    /// Contains the greatest error, in microseconds.
    maxerror: u32,
    /// Contains the estimated error, in microseconds.
    esterror: u32,
    /// Contains the tick, in microseconds.
    tick: u32,
    /// Contains what each second gains, in `2^-32` ns.
    frequency: i64,
    /// Contains the second of REALTIME at the last offset.
    reftime: u64,
    /// Contains what `adjtime` has still to give, in microseconds.
    adjust: i64,
    /// Contains what each of `hz` parts of the present second gets beyond its length at the tick
    /// and the frequency, in `2^-32` ns.
    phase: i64,
}

const _: () = prove!(size_of::<Discipline>() <= 128);

impl Model for Discipline {
    ghost use Rattle.tk_ntp.specs.Ntp.{Ntp, IsNtp, ntp_of};

    ghost Value = { Ntp };

    ghost view = { ntp_of };

    ghost invariant = { λ a. IsNtp (ntp_of a) };

    ghost inverse = { λ n. record {
      hz = n.hz;
      status = n.status;
      plan = n.plan;
      offset = n.offset;
      constant = n.constant;
      maxerror = n.maxerror;
      esterror = n.esterror;
      tick = n.tick;
      frequency = n.frequency;
      reftime = n.reftime;
      adjust = n.adjust;
      phase = n.phase;
    } };
}

impl Discipline {
    ghost use Rattle.tk_ntp.specs.Ntp.{Ntp, IsNtp, fresh, cleared, plain_length, second_length};
    ghost use Rattle.tk_ntp.specs.Length.{max_phase, max_frequency};

    /// Makes a fresh discipline: its status is `STA_UNSYNC`, and each second is a nominal one.
    ///
    /// `hz` is the number of parts of a second that phases are divided into, 1 to 1024. With the
    /// kernel's `HZ` all replies are the kernel's to the last digit. Otherwise the result is
    /// `None`.
    pub fn new(hz: u32) -> Option<Discipline>
        ensures { MatchOption result
            ((hz ≡ 0) ⊎ (1024 < hz))
            (λ ntp. (ntp ≡ fresh hz) × (1 ≤ hz) × (hz ≤ 1024)) }
    {
        if hz == 0 || HZ_LIMIT < hz {
            return None;
        }
        Some(Discipline {
            hz,
            status: STA_UNSYNC,
            plan: LeapPlan::none(),
            offset: 0,
            constant: 2,
            maxerror: ERROR_LIMIT,
            esterror: ERROR_LIMIT,
            tick: USUAL_TICK,
            frequency: 0,
            reftime: 0,
            adjust: 0,
            phase: 0,
        })
    }

    /// Clears the discipline after REALTIME was set or stepped (`ntp_clear`).
    ///
    /// The offset, the phase and the rest of `adjtime` become 0, and no leap is due. Both errors
    /// are at their limit, and the clock counts as not synchronized. The frequency, the tick, the
    /// time constant and the state of the leap second stay.
    pub fn clear(&mut self)
        ensures { self.new ≡ cleared self.old }
    {
        self.status |= STA_UNSYNC;
        self.plan = self.plan.put_off();
        self.offset = 0;
        self.maxerror = ERROR_LIMIT;
        self.esterror = ERROR_LIMIT;
        self.adjust = 0;
        self.phase = 0;
    }

    /// Returns the length of the present second, in `2^-32` ns: what the cycles of a nominal second
    /// shall add to the clock. The length of a nominal second is 10^9 * 2^32.
    pub fn second_length(&self) -> i64
        ensures value { result ≡ second_length self.now }
        ensures near { unsigned_abs (result -ℤ plain_length self.now)
            ≤ max_phase + max_frequency + self.now.hz }
        ensures positive { pos 0 <ℤ result }
        ensures ranges { IsNtp self.now }
    {
        second_with_phase(self.hz, self.tick, self.frequency, self.phase)
    }

    /// Returns the tick in force, in microseconds, 9,000 to 11,000.
    pub fn tick(&self) -> u32
        ensures value { result ≡ self.now.tick }
        ensures ranges { IsNtp self.now }
    {
        self.tick
    }
}
