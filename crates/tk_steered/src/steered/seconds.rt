//! Lets the seconds of REALTIME begin.
ghost use Rattle.std.specs.Prelude.{IfOk, false, true};
ghost use Rattle.tk_ntp.specs.Account.{IsAccounted, IsConsistent};
ghost use Rattle.tk_ntp.specs.Advance.{IsAdvanced, IsNoneDue, second_begun_at};
ghost use Rattle.tk_ntp.specs.History.{IsNumbered, IsOffsetKept, IsTaiKept};
ghost use Rattle.tk_ntp.specs.Late.{IsAdvancedLate, second_begun_late};
ghost use Rattle.tk_ntp.specs.LateLaws.{IsAccountedLate, IsNumberedLate, IsOffsetKeptLate, IsTaiKeptLate};
ghost use Rattle.tk_ntp.specs.Often.{IsAtOnce};
ghost use Rattle.tk_ntp.specs.Steady.{StaysSmall};
ghost use Rattle.tk_steered.specs.Kept.{IsAdvancedTo, IsContinuedAt, steered_of};
ghost use Rattle.tk_steered.specs.Stopped.{IsOnTheWay};

use super::Steered;
use std::alloc::Allocator;
use tk_clock::Refusal;

impl<A: Allocator + Copy> Steered<A> {
    /// Lets each second of REALTIME up to `reading` begin, in order, at the first reading at which
    /// REALTIME reaches it, and enters the commands that it gives as those of the caller `who`.
    ///
    /// # Errors
    ///
    /// - The errors of `SteeredClock::advance`. Nothing changes then.
    /// - `Full`: the journal has no room for the `SECOND_ENTRIES_LIMIT` entries that a second may
    ///   make. The seconds before it have begun, and it hasn't: it can begin after a fold.
    /// - `Memory`: the memory for these entries can't be allocated. The seconds before have begun.
    pub fn advance(&mut self, who: u32, reading: u64) -> Result<(), Refusal>
        ensures answer { IsAdvancedTo false who reading self.old result self.new }
        // the clocks are those that `SteeredClock::advance` leaves
        ensures clocks { IfOk result
            (λ _. IsAdvanced reading (steered_of self.old) (steered_of self.new)) }
        // no second up to the reading is left
        ensures none { IfOk result (λ _. IsNoneDue (steered_of self.new) reading) }
        // advancing often or seldom leaves the same clocks
        ensures at_once { IfOk result
            (λ _. IsAtOnce reading (steered_of self.old) (steered_of self.new)) }
        // the number of the next second grows by 1 with each
        ensures number { IfOk result
            (λ _. IsNumbered reading (steered_of self.old) (steered_of self.new)) }
        // no part of an offset is lost
        ensures offset { IfOk result
            (λ _. IsOffsetKept reading (steered_of self.old) (steered_of self.new)) }
        // the accounts add up to what the seconds were asked for
        ensures sum { IfOk result (λ _. IsConsistent (steered_of self.old) →
            IsAccounted reading (steered_of self.old) (steered_of self.new)) }
        // the lag stays small while the clocks get the rates that their seconds need
        ensures small { IfOk result
            (λ _. StaysSmall reading (steered_of self.old) (steered_of self.new)) }
        // the last account stays where the laws of the lag want it
        ensures consistent { IsConsistent (steered_of self.old) → IsConsistent (steered_of self.new) }
        // after a refused call the other seconds can begin, as if none had begun before
        ensures rest { IsOnTheWay second_begun_at reading
            (steered_of self.old) (steered_of self.new) }
        // TAI runs on at each leap
        ensures tai { IfOk result
            (λ _. IsTaiKept reading (steered_of self.old) (steered_of self.new)) }
    {
        self.early = 0;
        self.course.advance(&mut self.keeper, false, who, reading)
    }

    /// Lets each second of REALTIME up to `reading` begin, as `advance` does, but gives and enters
    /// all commands at `reading` (`SteeredClock::advance_late`). It is for clocks that others have
    /// read meanwhile: no command is in the past of a read, so MONOTONIC doesn't go back for reads
    /// up to `reading`.
    ///
    /// # Errors
    ///
    /// Returns the errors of `advance`. After `Full` and `Memory` the seconds before the refused
    /// one have begun, and it hasn't.
    pub fn advance_late(&mut self, who: u32, reading: u64) -> Result<(), Refusal>
        ensures answer { IsAdvancedTo true who reading self.old result self.new }
        // the clocks are those that `SteeredClock::advance_late` leaves
        ensures clocks { IfOk result
            (λ _. IsAdvancedLate reading (steered_of self.old) (steered_of self.new)) }
        // the laws of `advance`
        ensures none { IfOk result (λ _. IsNoneDue (steered_of self.new) reading) }
        ensures number { IfOk result
            (λ _. IsNumberedLate reading (steered_of self.old) (steered_of self.new)) }
        ensures offset { IfOk result
            (λ _. IsOffsetKeptLate reading (steered_of self.old) (steered_of self.new)) }
        ensures tai { IfOk result
            (λ _. IsTaiKeptLate reading (steered_of self.old) (steered_of self.new)) }
        ensures sum { IfOk result (λ _. IsConsistent (steered_of self.old) →
            IsAccountedLate reading (steered_of self.old) (steered_of self.new)) }
        ensures consistent { IsConsistent (steered_of self.old) → IsConsistent (steered_of self.new) }
        ensures rest { IsOnTheWay (λ at. second_begun_late at reading) reading
            (steered_of self.old) (steered_of self.new) }
        // each entry that it adds is the caller's, at `reading`
        ensures entries { IsContinuedAt who reading self.old.keeper.journal
            self.new.keeper.journal }
    {
        self.early = 0;
        self.course.advance(&mut self.keeper, true, who, reading)
    }
}
