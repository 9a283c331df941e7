//! Lets the seconds of REALTIME begin.
ghost use Rattle.std.specs.Prelude.{◌≡◌, MatchResult, IfOk, Some, None};
ghost use Rattle.tk_ntp.specs.SteeredClock.{reading_refusal};
ghost use Rattle.tk_ntp.specs.Account.{IsConsistent, IsAccounted};
ghost use Rattle.tk_ntp.specs.History.{IsNumbered, IsOffsetKept, IsTaiKept};
ghost use Rattle.tk_ntp.specs.Late.{IsAdvancedLate};
ghost use Rattle.tk_ntp.specs.LateLaws.{IsAccountedLate, IsNumberedLate, IsOffsetKeptLate, IsTaiKeptLate};
ghost use Rattle.tk_ntp.specs.Often.{IsAtOnce};
ghost use Rattle.tk_ntp.specs.Steady.{StaysSmall};
ghost use Rattle.tk_ntp.specs.Advance.{IsNoneDue, IsAdvanced};

use super::SteeredClock;
use tk_clock::Refusal;

impl SteeredClock {
    /// Lets each second of REALTIME up to `reading` begin, in order, at the first reading at which
    /// REALTIME reaches it (`timekeeping_advance`).
    ///
    /// As a second begins, its leap is made by one command, and the clocks get the rate that the
    /// second needs. A leap that the clocks refuse isn't made.
    ///
    /// # Errors
    ///
    /// Returns the first of these that applies. Nothing changes then.
    ///
    /// - `Asleep`: the clocks are asleep.
    /// - `Invalid`: `reading` is above the mask.
    /// - `Behind`: `reading` is behind the last command's.
    /// - `Range`: a clock would be at its limit or beyond it.
    /// - `Behind`: `reading` is behind the beginning of the present second, or behind the last
    ///   request that acted on the discipline: one that had modes, and not `ADJ_ADJTIME`.
    pub fn advance(&mut self, reading: u64) -> Result<(), Refusal>
        ensures answer { MatchResult result
            (λ _. (reading_refusal reading self.old ≡ None)
            × IsAdvanced reading self.old self.new)
            (λ refusal. (reading_refusal reading self.old ≡ Some refusal)
            × (self.new ≡ self.old)) }
        // no second up to the reading is left
        ensures none { IfOk result (λ _. IsNoneDue self.new reading) }
        // advancing often or seldom leaves the same state
        ensures at_once { IfOk result (λ _. IsAtOnce reading self.old self.new) }
        // the number of the next second grows by 1 with each
        ensures number { IfOk result (λ _. IsNumbered reading self.old self.new) }
        // no part of an offset is lost
        ensures offset { IfOk result (λ _. IsOffsetKept reading self.old self.new) }
        // TAI runs on at each leap
        ensures tai { IfOk result (λ _. IsTaiKept reading self.old self.new) }
        // the accounts add up to what the seconds were asked for
        ensures sum { IfOk result (λ _. IsConsistent self.old → IsAccounted reading self.old self.new) }
        // the lag stays small while the clocks get the rates that their seconds need
        ensures small { IfOk result (λ _. StaysSmall reading self.old self.new) }
    {
        self.course.advance(&mut self.clock, false, 0, reading)
    }

    /// Lets each second of REALTIME up to `reading` begin, as `advance` does, but gives the clocks
    /// all commands at `reading`. It is for clocks that others have read meanwhile: no command is
    /// in the past of a read, so MONOTONIC doesn't go back for reads up to `reading`.
    ///
    /// The discipline's second begins at its own reading, and the lag counts the cycles since then,
    /// so later seconds make up for them. If further seconds are due, they begin at `reading`, and
    /// their phases are lost, as in the kernel.
    ///
    /// # Errors
    ///
    /// Returns the errors of `advance`. Nothing changes then.
    pub fn advance_late(&mut self, reading: u64) -> Result<(), Refusal>
        ensures answer { MatchResult result
            (λ _. (reading_refusal reading self.old ≡ None)
            × IsAdvancedLate reading self.old self.new)
            (λ refusal. (reading_refusal reading self.old ≡ Some refusal)
            × (self.new ≡ self.old)) }
        // no second up to the reading is left
        ensures none { IfOk result (λ _. IsNoneDue self.new reading) }
        // the last account stays where the laws of the lag want it
        ensures consistent { IfOk result (λ _. IsConsistent self.old → IsConsistent self.new) }
        // the laws of `advance` on the number of the next second, the offset, TAI and the accounts
        ensures number { IfOk result (λ _. IsNumberedLate reading self.old self.new) }
        ensures offset { IfOk result (λ _. IsOffsetKeptLate reading self.old self.new) }
        ensures tai { IfOk result (λ _. IsTaiKeptLate reading self.old self.new) }
        ensures sum { IfOk result (λ _. IsConsistent self.old →
            IsAccountedLate reading self.old self.new) }
    {
        self.course.advance(&mut self.clock, true, 0, reading)
    }
}
