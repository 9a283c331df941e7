//! Answers a request.
ghost use Rattle.std.specs.Prelude.{◌≡◌, ◌^◌, ◌<◌, false, pos, ◌≤ℤ◌, unsigned_abs};
ghost use Rattle.tk_ntp.specs.Fault.{is_faulty};
ghost use Rattle.tk_ntp.specs.Modes.{with_adjust, given_tai, asked, asked_tai};
ghost use Rattle.tk_ntp.specs.Reply.{asked_offset, reply_to, ReadsBack};

use super::Discipline;
use crate::bits::{ADJ_ADJTIME, ADJ_READONLY, ADJ_TAI, has};
use crate::reply::Reply;
use crate::request::tai_of;
use crate::timex::Timex;
use tk_clock::Timespec;

impl Discipline {
    /// Does what a request without a fault asks for, and returns the reply (adjtimex(2)).
    ///
    /// `real` is REALTIME at the request, from 0 s on. `tai` is TAI minus REALTIME, in seconds; the
    /// reply contains the one after the request.
    ///
    /// With `ADJ_ADJTIME` the reply's `offset` is what `adjtime` had left, in microseconds, and no
    /// other mode acts. Otherwise the modes act in this order: `ADJ_STATUS`, `ADJ_NANO`,
    /// `ADJ_MICRO`, `ADJ_FREQUENCY`, `ADJ_MAXERROR`, `ADJ_ESTERROR`, `ADJ_TIMECONST`, `ADJ_TAI`,
    /// `ADJ_OFFSET`, `ADJ_TICK`. `ADJ_SETOFFSET` is the caller's, by `Timex::step` and `clear`,
    /// before this call.
    pub fn adjtimex(&mut self, request: &Timex, real: Timespec, tai: u32) -> Reply
        requires sound { is_faulty request.now ≡ false }
        requires since { pos 0 ≤ℤ real.sec }
        ensures state { self.new ≡ asked request.now (unsigned_abs real.sec) self.old }
        ensures reply { result ≡ reply_to request.now real tai self.old }
        ensures reads { request.now.modes ≡ 0 → self.new ≡ self.old }
        ensures reads_back { ReadsBack request.now result }
    {
        let (offset, tai) = self.ask(request, real.sec.unsigned_abs(), tai);
        self.reply(request.modes, offset, real, tai)
    }

    /// Does what a request asks for at the second `now` of REALTIME. Returns the reply's offset,
    /// and the TAI offset.
    fn ask(&mut self, request: &Timex, now: u64, tai: u32) -> (i64, u32)
        requires sound { is_faulty request.now ≡ false }
        requires now { now < 2 ^ 63 }
        ensures state { self.new ≡ asked request.now now self.old }
        ensures offset { result.0 ≡ asked_offset request.now now self.old }
        ensures tai { result.1 ≡ asked_tai request.now tai }
    {
        if has(request.modes, ADJ_ADJTIME) {
            return (self.adjtime(request), tai);
        }
        self.request(request, now);
        (self.reply_offset(), given_tai(request, tai))
    }

    /// Does what the old call `adjtime` does. Returns what it had left to give, in microseconds.
    fn adjtime(&mut self, request: &Timex) -> i64
        ensures left { result ≡ self.old.adjust }
        ensures state { self.new ≡ with_adjust request.now self.old }
    {
        let left = self.adjust;
        if !has(request.modes, ADJ_READONLY) {
            self.adjust = request.offset;
        }
        left
    }
}

/// Returns the TAI offset after `ADJ_TAI`, in seconds.
fn given_tai(request: &Timex, tai: u32) -> u32
    ensures { result ≡ given_tai request.now tai }
{
    if has(request.modes, ADJ_TAI) {
        tai_of(request.constant, tai)
    } else {
        tai
    }
}

/// Returns the TAI offset after a request without a fault, in seconds, if it was `tai` before it.
pub(crate) fn asked_tai(request: &Timex, tai: u32) -> u32
    ensures { result ≡ asked_tai request.now tai }
{
    if has(request.modes, ADJ_ADJTIME) {
        tai
    } else {
        given_tai(request, tai)
    }
}
