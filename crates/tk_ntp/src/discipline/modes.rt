//! Applies the modes of a request, one method for each.
ghost use Rattle.std.specs.Prelude.{◌≡◌, ◌^◌, ◌<◌, ◌≤◌, true, pos, ◌≤ℤ◌, unsigned_abs};
ghost use Rattle.tk_counter.specs.Counter.{least_tick, greatest_tick};
ghost use Rattle.tk_ntp.specs.Bits.{has, adj_tick};
ghost use Rattle.tk_ntp.specs.Offset.{status_after, followed, with_offset};
ghost use Rattle.tk_ntp.specs.Modes.{merged, with_pll_off, with_pll_on, with_status, with_units, with_given_status, with_given_frequency, with_given_maxerror, with_given_esterror, with_given_constant, with_given_offset, with_given_tick, requested};

use super::Discipline;
use crate::bits::*;
use crate::leap_plan::LeapPlan;
use crate::loops::{elapsed, frequency_after, offset_of, phase_share, uses_fll};
use crate::request::{constant_of, error_of, gain_of, tick_of};
use crate::timex::Timex;

impl Discipline {
    /// Applies all modes but `ADJ_TAI`, in their order, at the second `now` of REALTIME.
    pub(super) fn request(&mut self, request: &Timex, now: u64)
        requires now { now < 2 ^ 63 }
        requires slowest { has request.now.modes adj_tick ≡ true → least_tick ≤ℤ request.now.tick }
        requires fastest { has request.now.modes adj_tick ≡ true →
            request.now.tick ≤ℤ greatest_tick }
        ensures { self.new ≡ requested request.now now self.old }
    {
        self.take_given_status(request, now);
        self.take_units(request.modes);
        self.take_given_frequency(request);
        self.take_given_maxerror(request);
        self.take_given_esterror(request);
        self.take_given_constant(request);
        self.take_given_offset(request, now);
        self.take_given_tick(request);
    }

    fn take_given_status(&mut self, request: &Timex, now: u64)
        requires { now < 2 ^ 63 }
        ensures { self.new ≡ with_given_status request.now now self.old }
    {
        if has(request.modes, ADJ_STATUS) {
            self.take_status(request.status, now);
        }
    }

    fn take_status(&mut self, given: u32, now: u64)
        requires { now < 2 ^ 63 }
        ensures { self.new ≡ with_status given now self.old }
    {
        self.turn_pll_off(given);
        self.turn_pll_on(given, now);
        self.status = merged(self.status, given);
    }

    fn turn_pll_off(&mut self, given: u32)
        ensures { self.new ≡ with_pll_off given self.old }
    {
        if has(self.status, STA_PLL) && !has(given, STA_PLL) {
            self.plan = LeapPlan::none();
            self.status = STA_UNSYNC;
        }
    }

    fn turn_pll_on(&mut self, given: u32, now: u64)
        requires { now < 2 ^ 63 }
        ensures { self.new ≡ with_pll_on given now self.old }
    {
        if !has(self.status, STA_PLL) && has(given, STA_PLL) {
            self.reftime = now;
        }
    }

    fn take_units(&mut self, modes: u32)
        ensures { self.new ≡ with_units modes self.old }
    {
        if has(modes, ADJ_MICRO) {
            self.status = without(self.status, STA_NANO);
        } else if has(modes, ADJ_NANO) {
            self.status |= STA_NANO;
        }
    }

    fn take_given_frequency(&mut self, request: &Timex)
        ensures { self.new ≡ with_given_frequency request.now self.old }
    {
        if has(request.modes, ADJ_FREQUENCY) {
            self.frequency = gain_of(request.freq);
        }
    }

    fn take_given_maxerror(&mut self, request: &Timex)
        ensures { self.new ≡ with_given_maxerror request.now self.old }
    {
        if has(request.modes, ADJ_MAXERROR) {
            self.maxerror = error_of(request.maxerror);
        }
    }

    fn take_given_esterror(&mut self, request: &Timex)
        ensures { self.new ≡ with_given_esterror request.now self.old }
    {
        if has(request.modes, ADJ_ESTERROR) {
            self.esterror = error_of(request.esterror);
        }
    }

    fn take_given_constant(&mut self, request: &Timex)
        ensures { self.new ≡ with_given_constant request.now self.old }
    {
        if has(request.modes, ADJ_TIMECONST) {
            self.constant = constant_of(request.constant, has(self.status, STA_NANO));
        }
    }

    fn take_given_offset(&mut self, request: &Timex, now: u64)
        requires { now < 2 ^ 63 }
        ensures { self.new ≡ with_given_offset request.now now self.old }
    {
        if has(request.modes, ADJ_OFFSET) {
            self.take_offset(request.offset, now);
        }
    }

    /// Takes an offset, if the PLL is on: the phase, and the frequency that follows from it.
    fn take_offset(&mut self, given: i64, now: u64)
        requires { now < 2 ^ 63 }
        ensures { self.new ≡ with_offset given now self.old }
    {
        if has(self.status, STA_PLL) {
            let offset = offset_of(given, has(self.status, STA_NANO));
            self.follow(offset, now);
        }
    }

    /// Takes an offset in nanoseconds.
    fn follow(&mut self, offset: i64, now: u64)
        requires now { now < 2 ^ 63 }
        requires held { unsigned_abs offset ≤ 500000000 }
        ensures { self.new ≡ followed offset now self.old }
    {
        let secs = elapsed(self.reftime, now, has(self.status, STA_FREQHOLD));
        let fll = has(self.status, STA_FLL);
        self.reftime = now;
        self.status = status_after(self.status, uses_fll(secs, fll));
        self.frequency = frequency_after(self.frequency, offset, secs, self.constant, fll);
        self.offset = phase_share(offset, self.hz);
    }

    fn take_given_tick(&mut self, request: &Timex)
        requires slowest { has request.now.modes adj_tick ≡ true → least_tick ≤ℤ request.now.tick }
        requires fastest { has request.now.modes adj_tick ≡ true →
            request.now.tick ≤ℤ greatest_tick }
        ensures { self.new ≡ with_given_tick request.now self.old }
    {
        if has(request.modes, ADJ_TICK) {
            self.tick = tick_of(request.tick);
        }
    }
}

/// Returns the status after an offset, which says whether the FLL acted.
fn status_after(status: u32, acts: bool) -> u32
    ensures { result ≡ status_after status acts }
{
    let plain = without(status, STA_MODE);
    if acts { plain | STA_MODE } else { plain }
}

/// Returns the read-only bits of a status, with the other bits of a given one.
fn merged(status: u32, given: u32) -> u32
    ensures { result ≡ merged status given }
{
    (status & STA_RONLY) | without(given, STA_RONLY)
}
