//! Returns steered clocks in plain numbers, and restores them from these numbers.
ghost use Rattle.std.specs.Prelude.{◌≡◌, ◌↔◌, IsTrue, Ok, IfOk};
ghost use Rattle.tk_ntp.specs.Account.{IsConsistent};
ghost use Rattle.tk_ntp.specs.Numbers.{steered_numbers};
ghost use Rattle.tk_ntp.specs.Restored.{steered_from};

use super::SteeredClock;
use crate::course::Course;
use crate::numbers::SteeredNumbers;
use crate::numbers_error::NumbersError;
use crate::steering::Steering;
use tk_clock::Clock;
use tk_counter::SECONDS_END;

impl SteeredClock {
    /// Returns the numbers that the discipline, the lag, the next second and the last account are kept in.
    /// `from_numbers` restores the steered clocks from them and from `clock`.
    pub fn numbers(&self) -> SteeredNumbers
        ensures value { result ≡ steered_numbers self.now }
        ensures back { steered_from self.now.clock (steered_numbers self.now) ≡ Ok self.now }
    {
        self.course.numbers()
    }

    /// Restores steered clocks from their clocks and their numbers. Any clocks and numbers that
    /// steered clocks can be in are accepted, together or not: the caller passes those that belong
    /// together.
    ///
    /// Ask `is_consistent` whether the laws of the lag hold for them.
    ///
    /// # Errors
    ///
    /// The first of these that applies:
    ///
    /// - `Discipline`: a number of the discipline is out of its range: `hz` is 1 to 1024, the offset
    ///   is at most half a second divided by `hz`, the time constant is at most 10, both errors are
    ///   at most 16,000,000, the tick is 9,000 to 11,000, the frequency is at most 500 us, the
    ///   second of the last offset is below 2^63, and the phase is at most half a second and 500 us,
    ///   both divided by `hz`. The status and the rest of `adjtime` may be any numbers.
    /// - `Leap`: the state of the leap second is above 4, `is_due` is neither 0 nor 1, or it is 0
    ///   and `due` isn't.
    /// - `Lag`: the lag is more than 2^123 in either direction.
    /// - `Second`: the second that begins next is above 9,223,372,037.
    pub fn from_numbers(clock: Clock, numbers: SteeredNumbers) -> Result<SteeredClock, NumbersError>
        ensures value { result ≡ steered_from clock numbers }
        ensures again { IfOk result (λ steered. steered_numbers steered ≡ numbers) }
    {
        let steering = numbers.steering;
        if !steering.ntp.are_in_range() {
            return Err(NumbersError::Discipline);
        }
        if !steering.ntp.plan.is_plan() {
            return Err(NumbersError::Leap);
        }
        if !steering.lag.is_lag() {
            return Err(NumbersError::Lag);
        }
        if numbers.next > SECONDS_END + 1 {
            return Err(NumbersError::Second);
        }
        Ok(SteeredClock {
            clock,
            course: Course {
                steering: Steering::of_numbers(steering),
                next: numbers.next,
                last_account: numbers.last_account,
            },
        })
    }

    /// Returns whether the last account is where the laws of the lag want it: at most half the
    /// counter's range after the last command, at it while the clocks sleep, and not after the
    /// beginning of the next second.
    ///
    /// It is there after `open` and `open_at`, and `advance`, `advance_late`, `adjtimex`, `apply` and
    /// `pulse` keep it there. So it is to be asked of numbers that come from elsewhere
    /// (`from_numbers`).
    pub fn is_consistent(&self) -> bool
        ensures { IsTrue result ↔ IsConsistent self.now }
    {
        let now = self.snapshot(0);
        let last_account = self.course.last_account();
        if now.asleep() {
            return last_account == now.last();
        }
        let cycles = now.desc().gap(now.last(), last_account);
        if cycles > now.desc().half() {
            return false;
        }
        match self.next_second() {
            Some(at) => cycles <= now.desc().gap(now.last(), at),
            None => true,
        }
    }
}
