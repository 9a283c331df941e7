//! Changes the counter that steered clocks run over.
ghost use Rattle.std.specs.Prelude.{◌≡◌, IfOk};
ghost use Rattle.tk_counter.specs.Counter.{IsCounter};
ghost use Rattle.tk_ntp.specs.Account.{IsConsistent};
ghost use Rattle.tk_ntp.specs.ChangeCounter.{IsCounterChanged, IsTurnedOver};
ghost use Rattle.tk_ntp.specs.ChangeLaws.{IsBalancedOver, IsKeptOver};

use super::SteeredClock;
use tk_clock::Refusal;
use tk_counter::CounterDesc;

impl SteeredClock {
    /// Changes the counter (`change_clocksource`): lets the seconds of REALTIME up to `reading` of
    /// the present counter begin, as `advance` does, and lets the clocks run over the counter `desc`
    /// starting at its reading `first`. Both readings are in cycles and must be taken at the same
    /// moment. `Clock::change_counter` describes what stays.
    ///
    /// The discipline goes on: its frequency, its offset and its leap stay. What the clocks lag
    /// behind is carried over as units of `desc`, rounded down if its shift is smaller than the
    /// present one. (Linux drops the lag.) The new multiplier follows from the frequency and the
    /// tick in force, and the next second gets the rate that it needs.
    ///
    /// Clocks that are asleep stay asleep, and no second begins.
    ///
    /// # Errors
    ///
    /// Returns the first test that fails, in this order.
    ///
    /// - `Invalid`: `first` is above the mask of `desc`. Nothing changes.
    /// - `Invalid`, `Behind`, `Range`: `advance` refuses the reading. While the clocks are asleep,
    ///   only `Invalid`. Nothing changes.
    /// - `Range`: `Clock::change_counter` refuses the change. The state is the one that `advance`
    ///   leaves.
    pub fn change_counter(
        &mut self,
        reading: u64,
        desc: CounterDesc,
        first: u64,
    ) -> Result<(), Refusal>
        ensures answer { IsCounterChanged reading desc first self.old result self.new }
        ensures counter { IsCounter desc }
        // no part of the offset is lost, and TAI runs on
        ensures kept { IfOk result (λ _. IsKeptOver reading first self.old self.new) }
        // the accounts add up to what the clocks were asked for, and the sum is carried over
        ensures sum { IsConsistent self.old → IfOk result
            (λ _. IsBalancedOver reading self.old self.new) }
        // the last account stays where the laws of the lag want it
        ensures consistent { IfOk result (λ _. IsConsistent self.new) }
    {
        if first > desc.mask() {
            return Err(Refusal::Invalid);
        }
        let now = self.clock.snapshot(0);
        if !now.asleep() {
            self.advance(reading)?;
        } else if reading > now.desc().mask() {
            return Err(Refusal::Invalid);
        }
        self.turn_over(reading, desc, first)
    }

    /// Changes the counter after the seconds up to `reading` have begun.
    fn turn_over(&mut self, reading: u64, desc: CounterDesc, first: u64) -> Result<(), Refusal>
        ensures answer { IsTurnedOver reading desc first self.old result self.new }
        ensures consistent { IfOk result (λ _. IsConsistent self.new) }
    {
        let former = self.clock.snapshot(0);
        self.clock.change_counter(reading, desc, first)?;
        self.course.turn_over(&former, reading, desc, first);
        Ok(())
    }
}
