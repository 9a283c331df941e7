//! Returns a discipline in plain numbers, and restores it from them.
ghost use Rattle.std.specs.Prelude.{◌≡◌, true};
ghost use Rattle.tk_ntp.specs.Numbers.{discipline_numbers};
ghost use Rattle.tk_ntp.specs.Restored.{are_in_range, is_plan, discipline_of};

use super::Discipline;
use crate::leap_plan::LeapPlan;
use crate::numbers::DisciplineNumbers;

impl Discipline {
    /// Returns the numbers that the discipline is kept in.
    pub fn numbers(&self) -> DisciplineNumbers
        ensures value { result ≡ discipline_numbers self.now }
        ensures range { are_in_range (discipline_numbers self.now) ≡ true }
    {
        DisciplineNumbers {
            hz: self.hz,
            status: self.status,
            plan: self.plan.numbers(),
            offset: self.offset,
            constant: self.constant,
            maxerror: self.maxerror,
            esterror: self.esterror,
            tick: self.tick,
            frequency: self.frequency,
            reftime: self.reftime,
            adjust: self.adjust,
            phase: self.phase,
        }
    }
    /// Returns the discipline that is kept in these numbers.
    pub(crate) fn of_numbers(numbers: DisciplineNumbers) -> Discipline
        requires ranges { are_in_range numbers ≡ true }
        requires plan { is_plan numbers.plan ≡ true }
        ensures value { result ≡ discipline_of numbers }
        ensures again { discipline_numbers result ≡ numbers }
    {
        Discipline {
            hz: numbers.hz,
            status: numbers.status,
            plan: LeapPlan::of_numbers(numbers.plan),
            offset: numbers.offset,
            constant: numbers.constant,
            maxerror: numbers.maxerror,
            esterror: numbers.esterror,
            tick: numbers.tick,
            frequency: numbers.frequency,
            reftime: numbers.reftime,
            adjust: numbers.adjust,
            phase: numbers.phase,
        }
    }
}
