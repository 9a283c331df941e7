//! Fills the part of a reply that shows a signal.
ghost use Rattle.std.specs.Prelude.{◌≡◌, ◌≤◌};
ghost use Rattle.tk_ntp.specs.Pps.{greatest_shift};
ghost use Rattle.tk_ntp.specs.PpsReply.{lacks_signal, has_faulty_time, has_faulty_frequency, is_signal_error, pps_state, reply_jitter, pps_reply};

use super::Pps;
use crate::bits::*;
use crate::discipline::reply_freq;
use crate::pps_reply::PpsReply;
use crate::reply::{Reply, TimeState};

impl Pps {
    /// Returns the part of a reply that shows the signal. Call `ask` with the request first.
    pub fn reply(&self, reply: &Reply) -> PpsReply
        ensures value { result ≡ pps_reply reply.now self.now }
        ensures short { result.shift ≤ greatest_shift }
    {
        PpsReply {
            state: state(reply),
            ppsfreq: reply_freq(self.frequency),
            jitter: i64::from(self.reply_jitter(reply.timex.status)),
            shift: self.shift,
            stabil: i64::from(self.stabil),
            jitcnt: self.jitcnt as i64,
            calcnt: self.calcnt as i64,
            errcnt: self.errcnt as i64,
            stbcnt: self.stbcnt as i64,
        }
    }

    /// Returns the mean jitter, in nanoseconds or microseconds.
    fn reply_jitter(&self, status: u32) -> u32
        ensures { result ≡ reply_jitter status self.now }
    {
        if has(status, STA_NANO) {
            self.jitter
        } else {
            self.jitter / 1000
        }
    }
}

/// Returns the clock's state in a reply.
fn state(reply: &Reply) -> TimeState
    ensures { result ≡ pps_state reply.now }
{
    if is_signal_error(reply.timex.status) {
        TimeState::Error
    } else {
        reply.state
    }
}

/// Returns whether a status makes the state an error because of the signal.
fn is_signal_error(status: u32) -> bool
    ensures { result ≡ is_signal_error status }
{
    lacks_signal(status) || has_faulty_time(status) || has_faulty_frequency(status)
}

/// Returns whether the signal was asked for and isn't present.
fn lacks_signal(status: u32) -> bool
    ensures { result ≡ lacks_signal status }
{
    (has(status, STA_PPSFREQ) || has(status, STA_PPSTIME)) && !has(status, STA_PPSSIGNAL)
}

/// Returns whether the signal sets the offset, and its last pulse is faulty.
fn has_faulty_time(status: u32) -> bool
    ensures { result ≡ has_faulty_time status }
{
    has(status, STA_PPSTIME) && has(status, STA_PPSJITTER)
}

/// Returns whether the signal sets the frequency, and its last interval is faulty.
fn has_faulty_frequency(status: u32) -> bool
    ensures { result ≡ has_faulty_frequency status }
{
    has(status, STA_PPSFREQ) && (has(status, STA_PPSWANDER) || has(status, STA_PPSERROR))
}
