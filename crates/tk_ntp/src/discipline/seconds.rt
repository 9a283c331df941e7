//! Lets a second of REALTIME begin.
ghost use Rattle.std.specs.Prelude.{◌≡◌, ◌/◌, ◌<◌, ◌≤◌, ◌^◌, nat_lt, bit_or, if◌then◌else◌, unsigned_abs};
ghost use Rattle.tk_ntp.specs.Bits.{sta_unsync};
ghost use Rattle.tk_ntp.specs.Length.{max_frequency};
ghost use Rattle.tk_ntp.specs.Phase.{adjust_part};
ghost use Rattle.tk_ntp.specs.Request.{error_limit};
ghost use Rattle.tk_ntp.specs.Second.{begun, leap_at, with_plan, with_error, with_phase, IsAsLong};
ghost use Rattle.tk_ntp.specs.Given.{IsKept};

use super::Discipline;
use crate::bits::{STA_DEL, STA_INS, STA_UNSYNC, has};
use crate::leap::Leap;
use crate::phase::{adjust_rest, phase_of, rest_of};
use crate::request::ERROR_LIMIT;

/// What the greatest error grows by in a second, in microseconds (`MAXFREQ / NSEC_PER_USEC`).
const ERROR_GROWTH: u32 = 500;

impl Discipline {
    ghost use Rattle.tk_ntp.specs.Ntp.{IsNtp};

    /// Lets the second `sec` of REALTIME begin, in seconds since 1970, below 2^63. Returns what
    /// REALTIME leaps by then (`second_overflow`).
    ///
    /// The leap second moves on, the greatest error grows by 500 us, and the second gets its phase:
    /// a part of the offset, and up to 500 us of what `adjtime` has still to give. With
    /// `STA_PPSTIME` and `STA_PPSSIGNAL` on, the part is the whole offset. If the greatest error
    /// would be above 16 s, the clock counts as not synchronized.
    #[tactic(auto, using(crate::proofs::Kept::kept))]
    pub fn overflow(&mut self, sec: u64) -> Leap
        requires { sec < 2 ^ 63 }
        ensures state { self.new ≡ begun self.old sec }
        ensures leap { result ≡ leap_at self.old sec }
        ensures kept { IsKept self.old }
        ensures length { IsAsLong self.old self.new }
    {
        let leap = self.begin_leap(sec);
        self.take_phase();
        self.grow_error();
        leap
    }

    /// Moves the leap second on.
    fn begin_leap(&mut self, sec: u64) -> Leap
        requires { sec < 2 ^ 63 }
        ensures state { self.new ≡ with_plan self.old sec }
        ensures leap { result ≡ leap_at self.old sec }
    {
        let insert = has(self.status, STA_INS);
        let delete = has(self.status, STA_DEL);
        let (plan, leap) = self.plan.begun(insert, delete, sec);
        self.plan = plan;
        leap
    }

    /// Lets the greatest error grow by what a second adds.
    fn grow_error(&mut self)
        ensures { self.new ≡ with_error self.old }
    {
        let error = self.maxerror + ERROR_GROWTH;
        self.maxerror = error.min(ERROR_LIMIT);
        self.status = unsynchronized_past_limit(self.status, error);
    }

    /// Gives the second its phase.
    fn take_phase(&mut self)
        ensures state { self.new ≡ with_phase self.old }
        ensures adjust { unsigned_abs (adjust_part self.old.adjust self.old.hz)
            ≤ max_frequency / self.old.hz }
        ensures ranges { IsNtp self.old }
    {
        self.phase = phase_of(
            self.offset,
            self.constant,
            self.status,
            self.adjust,
            self.hz,
        );
        self.offset = rest_of(self.offset, self.constant, self.status);
        self.adjust = adjust_rest(self.adjust);
    }
}

/// Returns the status after the greatest error has become `error`, in microseconds.
fn unsynchronized_past_limit(status: u32, error: u32) -> u32
    ensures { result ≡ (if nat_lt error_limit error then bit_or status sta_unsync else status) }
{
    if error > ERROR_LIMIT {
        status | STA_UNSYNC
    } else {
        status
    }
}
