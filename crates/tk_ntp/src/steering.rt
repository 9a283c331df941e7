ghost use Rattle.std.specs.Prelude.{◌≡◌, ◌≤◌, ◌<◌, ◌^◌, pos, ◌+ℤ◌, ◌≤ℤ◌, true, false, unsigned_abs};
ghost use Rattle.tk_counter.specs.Counter.{least_tick, greatest_tick};

use crate::change::Change;
use crate::discipline::Discipline;
use crate::lag::Lag;
use crate::leap::Leap;
use crate::numbers::SteeringNumbers;
use crate::pulse::Pulse;
use crate::rate::Rate;
use crate::reply::Reply;
use crate::timex::Timex;
use std::marker::Model;
use tk_clock::Timespec;
use tk_counter::CounterDesc;

/// Keeps a discipline and the lag of its clock, and says which commands each second needs.
#[repr(C)]
#[derive(Clone, Copy, Debug)]
pub struct Steering {
    ntp: Discipline,
    lag: Lag,
    /// Contains the length of the present second, in `2^-32` ns (`tick_length`), so that an account
    /// needs no division.
    length: i64,
}

impl Model for Steering {
    ghost use Rattle.std.specs.Prelude.{◌≡◌};
    ghost use Rattle.tk_ntp.specs.Ntp.{second_length};
    ghost use Rattle.tk_ntp.specs.Steering.{Steered};

    ghost Value = { Steered };

    ghost view = { λ a. record { ntp = a.ntp; lag = a.lag } };

    ghost invariant = { λ a. a.length ≡ second_length a.ntp };

    ghost inverse = { λ s. record { ntp = s.ntp; lag = s.lag; length = second_length s.ntp } };
}

impl Steering {
    ghost use Rattle.tk_ntp.specs.Steering.{accounted, second_begun, needed, needed_rate, commands};
    ghost use Rattle.tk_ntp.specs.Fault.{is_faulty};
    ghost use Rattle.tk_ntp.specs.Modes.{asked};
    ghost use Rattle.tk_ntp.specs.Ntp.{cleared, second_length};
    ghost use Rattle.tk_ntp.specs.Numbers.{discipline_numbers, lag_numbers, steering_numbers};
    ghost use Rattle.tk_ntp.specs.Restored.{are_in_range, is_plan, is_lag, lag_of, steering_of};
    ghost use Rattle.tk_ntp.specs.Pps.{without_signal};
    ghost use Rattle.tk_ntp.specs.Pulse.{IsPulse, with_pulse};
    ghost use Rattle.tk_ntp.specs.Reply.{reply_to};
    ghost use Rattle.tk_ntp.specs.Second.{leap_at};
    ghost use Rattle.tk_ntp.specs.Change.{multiplier_at, changed};
    ghost use Rattle.tk_ntp.specs.ChangeCounter.{lag_over};
    ghost use Rattle.tk_ntp.specs.Rate.{IsInRange, IsGiven, IsNearUsual};

    /// Steers by a discipline, without a lag.
    pub fn new(ntp: Discipline) -> Steering
        ensures { result ≡ record { ntp = ntp; lag = pos 0 } }
    {
        Steering {
            ntp,
            lag: Lag::none(),
            length: ntp.second_length(),
        }
    }

    /// Does what a request without a fault asks the discipline for, and returns the reply, as
    /// `Discipline::adjtimex`. The lag stays: call `account` first.
    pub fn adjtimex(&mut self, request: &Timex, real: Timespec, tai: u32) -> Reply
        requires sound { is_faulty request.now ≡ false }
        requires since { pos 0 ≤ℤ real.sec }
        ensures state { self.new ≡ record self.old {
          ntp = asked request.now (unsigned_abs real.sec) self.old.ntp;
        } }
        ensures reply { result ≡ reply_to request.now real tai self.old.ntp }
    {
        let reply = self.ntp.adjtimex(request, real, tai);
        if request.modes != 0 {
            self.length = self.ntp.second_length();
        }
        reply
    }

    /// Takes a pulse of a signal, as `Discipline::pulse`. The lag stays: call `account` first.
    pub fn pulse(&mut self, pulse: Pulse)
        requires { IsPulse pulse }
        ensures { self.new ≡ record self.old { ntp = with_pulse pulse self.old.ntp } }
    {
        self.ntp.pulse(pulse);
        self.length = self.ntp.second_length();
    }

    /// Turns the bits of a signal off, as `Discipline::lose_signal`.
    pub fn lose_signal(&mut self)
        ensures { self.new ≡ record self.old { ntp = without_signal self.old.ntp } }
    {
        self.ntp.lose_signal();
    }

    /// Clears the discipline, as `Discipline::clear`, and sets the lag to 0, after REALTIME was set
    /// or stepped.
    pub fn clear(&mut self)
        ensures { self.new ≡ record { ntp = cleared self.old.ntp; lag = pos 0 } }
    {
        self.ntp.clear();
        self.lag = Lag::none();
        self.length = self.ntp.second_length();
    }

    /// Accounts for some cycles of a counter at the multiplier `mult`. It must be called before the
    /// discipline or the multiplier changes, with the cycles since the last account.
    #[inline(always)]
    pub fn account(&mut self, desc: CounterDesc, mult: u32, cycles: u64)
        ensures { self.new ≡ accounted desc mult cycles self.old }
    {
        self.lag.account(desc, self.length, mult, cycles);
    }

    /// Carries the lag over from the counter `from` to the counter `desc`.
    pub(crate) fn carry_over(&mut self, from: CounterDesc, desc: CounterDesc)
        ensures { self.new ≡ record self.old { lag = lag_over from desc self.old.lag } }
    {
        self.lag.carry_over(from, desc);
    }

    /// Lets the second `sec` of REALTIME begin, `cycles` after the last account, and returns what
    /// REALTIME leaps by then. `sec` is below 2^63.
    pub fn begin(&mut self, desc: CounterDesc, mult: u32, cycles: u64, sec: u64) -> Leap
        requires { sec < 2 ^ 63 }
        ensures state { self.new ≡ second_begun desc mult cycles sec self.old }
        ensures leap { result ≡ leap_at self.old.ntp sec }
    {
        self.account(desc, mult, cycles);
        let leap = self.ntp.overflow(sec);
        self.length = self.ntp.second_length();
        leap
    }

    /// Returns the rate that the present second needs: for its length, and for what it makes up
    /// for.
    pub fn rate(&self, desc: CounterDesc) -> Rate
        ensures value { result ≡ needed_rate desc self.now }
        ensures slowest { least_tick ≤ℤ result.tick }
        ensures fastest { result.tick ≤ℤ greatest_tick }
        // the multiplier gives what is needed, and is never more than 10.05 percent from the usual
        ensures given { IsInRange (needed desc self.now) →
            IsGiven desc (needed desc self.now) (multiplier_at desc result) }
        ensures near { IsNearUsual desc (multiplier_at desc result) }
    {
        Rate::of_length(self.needed(desc), self.ntp.tick())
    }

    /// Returns the numbers that the discipline and the lag are kept in.
    pub fn numbers(&self) -> SteeringNumbers
        ensures value { result ≡ steering_numbers self.now }
        ensures range { are_in_range (discipline_numbers self.now.ntp) ≡ true }
        ensures lag { is_lag (lag_numbers self.now.lag) ≡ true }
        ensures back { lag_of (lag_numbers self.now.lag) ≡ self.now.lag }
    {
        SteeringNumbers {
            ntp: self.ntp.numbers(),
            lag: self.lag.numbers(),
        }
    }

    /// Returns the discipline and the lag that are kept in these numbers.
    pub(crate) fn of_numbers(numbers: SteeringNumbers) -> Steering
        requires ranges { are_in_range numbers.ntp ≡ true }
        requires plan { is_plan numbers.ntp.plan ≡ true }
        requires lag { is_lag numbers.lag ≡ true }
        ensures value { result ≡ steering_of numbers }
        ensures again { steering_numbers result ≡ numbers }
    {
        let ntp = Discipline::of_numbers(numbers.ntp);
        Steering {
            ntp,
            lag: Lag::of_words(numbers.lag.high, numbers.lag.low),
            length: ntp.second_length(),
        }
    }

    /// Returns the length of the present second, in `2^-32` ns, without what it makes up for.
    pub fn second_length(&self) -> i64
        ensures { result ≡ second_length self.now.ntp }
    {
        self.length
    }

    /// Returns the length that the present second needs, in `2^-32` ns.
    fn needed(&self, desc: CounterDesc) -> i64
        ensures { result ≡ needed desc self.now }
    {
        self.ntp.second_length() + self.lag.made_up(desc)
    }

    /// Returns the commands for the present second, at the rate in force, whose tick is 9,000 to
    /// 11,000 microseconds.
    pub fn commands(&self, desc: CounterDesc, in_force: Rate) -> Change
        requires slowest { least_tick ≤ℤ in_force.tick }
        requires fastest { in_force.tick ≤ℤ greatest_tick }
        ensures value { result ≡ commands desc in_force self.now }
        ensures near { IsNearUsual desc (multiplier_at desc (changed in_force result)) }
    {
        Change::between(desc, in_force, self.rate(desc))
    }
}
