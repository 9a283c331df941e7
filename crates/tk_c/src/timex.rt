//! Describes a request as C passes it, in the memory that the reply is written to.
ghost use Rattle.std.specs.Prelude.{◌≡◌, ◌≤◌};
ghost use Rattle.tk_c.specs.Timex.{request_of, without_pulse, answered, shown_reply, state_number};

use std::mem::size_of;
use tk_ntp::{PpsReply, Reply, TimeState, Timex};

const _: () = prove!(size_of::<KernelTimex>() == 208);

/// Describes a request, and the memory that the reply is written to: `struct tkc_timex`, with the
/// layout of the kernel's `struct timex` on x86-64.
///
/// Units are those of `Timex`. No call reads or writes a `padding`, so a reply leaves it unchanged.
#[repr(C)]
#[derive(Clone, Copy)]
pub struct KernelTimex {
    /// Says which fields are given, by the bits `ADJ_..`. A reply leaves it unchanged.
    pub modes: u32,
    /// Aligns the next field.
    pub modes_padding: u32,
    /// The offset between the clock and its reference.
    pub offset: i64,
    /// The frequency.
    pub freq: i64,
    /// The greatest error.
    pub maxerror: i64,
    /// The estimated error.
    pub esterror: i64,
    /// The status, by the bits `STA_..`.
    pub status: u32,
    /// Aligns the next field.
    pub status_padding: u32,
    /// The time constant of the PLL, or the TAI offset.
    pub constant: i64,
    /// The precision of the clock, in microseconds: 1 in a reply.
    pub precision: i64,
    /// The greatest frequency, in `2^-16` ppm: 32,768,000 in a reply.
    pub tolerance: i64,
    /// The whole seconds of a time.
    pub sec: i64,
    /// The part of a second in the time.
    pub sub: i64,
    /// The tick.
    pub tick: i64,
    /// The frequency of the pulse per second: 0 without a signal.
    pub ppsfreq: i64,
    /// The jitter of the pulse: 0 without a signal.
    pub jitter: i64,
    /// The length of a calibration: 0 without a signal.
    pub shift: i32,
    /// Aligns the next field.
    pub shift_padding: u32,
    /// The wander of the pulse: 0 without a signal.
    pub stabil: i64,
    /// The pulses with too much jitter: 0 without a signal.
    pub jitcnt: i64,
    /// The calibrations: 0 without a signal.
    pub calcnt: i64,
    /// The calibrations that failed: 0 without a signal.
    pub errcnt: i64,
    /// The calibrations with too much wander: 0 without a signal.
    pub stbcnt: i64,
    /// TAI minus REALTIME, in seconds.
    pub tai: u32,
    /// Fills the kernel's 208 bytes.
    pub padding: [u32; 11],
}

impl KernelTimex {
    /// Returns the request: the fields that a request has.
    pub(crate) fn request(&self) -> Timex
        ensures { result ≡ request_of self.now }
    {
        // (never two neighbours in sequence: see general_registers.rt)
        Timex {
            modes: self.modes,
            offset: self.offset,
            maxerror: self.maxerror,
            constant: self.constant,
            sec: self.sec,
            tick: self.tick,
            freq: self.freq,
            status: self.status,
            esterror: self.esterror,
            sub: self.sub,
        }
    }

    /// Writes a reply, as `__do_adjtimex` does: all fields but `modes` and the padding. No two
    /// neighbours are written in sequence (general_registers.rt).
    pub(crate) fn answer(&mut self, reply: &Reply)
        ensures { self.new ≡ answered self.old reply.now }
    {
        self.offset = reply.timex.offset;
        self.maxerror = reply.timex.maxerror;
        self.sec = reply.timex.sec;
        self.constant = reply.timex.constant;
        self.freq = reply.timex.freq;
        self.status = reply.timex.status;
        self.esterror = reply.timex.esterror;
        self.tick = reply.timex.tick;
        self.sub = reply.timex.sub;
        self.precision = 1;
        self.tolerance = 32_768_000;
        self.clear_pulse();
        self.tai = reply.tai;
    }

    /// Writes the fields of a signal (`pps_fill_timex`).
    pub(crate) fn show(&mut self, reply: &PpsReply)
        requires { reply.now.shift ≤ 8 }
        ensures { self.new ≡ shown_reply self.old reply.now }
    {
        self.ppsfreq = reply.ppsfreq;
        self.jitter = reply.jitter;
        self.shift = reply.shift as i32;
        self.stabil = reply.stabil;
        self.jitcnt = reply.jitcnt;
        self.calcnt = reply.calcnt;
        self.errcnt = reply.errcnt;
        self.stbcnt = reply.stbcnt;
    }

    /// Sets the fields of the pulse per second to 0, as for clocks without a signal.
    fn clear_pulse(&mut self)
        ensures { self.new ≡ without_pulse self.old }
    {
        self.ppsfreq = 0;
        self.jitter = 0;
        self.shift = 0;
        self.stabil = 0;
        self.jitcnt = 0;
        self.calcnt = 0;
        self.errcnt = 0;
        self.stbcnt = 0;
    }
}

/// Returns the number of a clock's state, as adjtimex(2) returns it.
pub(crate) fn state_number(state: TimeState) -> u32
    ensures { result ≡ state_number state }
{
    match state {
        TimeState::Ok => 0,
        TimeState::Ins => 1,
        TimeState::Del => 2,
        TimeState::Oop => 3,
        TimeState::Wait => 4,
        TimeState::Error => 5,
    }
}
