//! Goes on over another counter.
ghost use Rattle.std.specs.Prelude.{◌≡◌};
ghost use Rattle.tk_clock.specs.State.{State};
ghost use Rattle.tk_ntp.specs.ChangeCounter.{accounted_awake, lag_over, turned_over};
ghost use Rattle.tk_ntp.specs.Course.{seen};

use super::Course;
use tk_clock::Snapshot;
use tk_counter::CounterDesc;

impl Course {
    /// Goes on over the counter `desc`, to whose reading `first` the clocks changed at `reading` of
    /// their former counter. `former` is a snapshot of the clocks right before the change, and no
    /// second is due up to `reading`. `SteeredClock::change_counter` says what stays.
    pub fn turn_over(&mut self, former: &Snapshot, reading: u64, desc: CounterDesc, first: u64)
        ensures { (before after : State) → before.base ≡ former.now.base →
            seen after self.new ≡ turned_over reading desc first after (seen before self.old) }
    {
        self.account_awake(former, reading);
        self.carry_over(former.desc(), desc, first);
    }

    /// Accounts for the cycles up to a reading, unless the clocks of the snapshot are asleep.
    fn account_awake(&mut self, former: &Snapshot, reading: u64)
        ensures { (before : State) → before.base ≡ former.now.base → seen before self.new
            ≡ accounted_awake before.base.asleep reading (seen before self.old) }
    {
        if !former.asleep() {
            let cycles = former.desc().gap(self.last_account, reading);
            self.steering.account(former.desc(), former.mult(), cycles);
            self.last_account = reading;
        }
    }

    /// Carries the lag over from the counter `from` to the counter `desc`, over which the clocks run
    /// starting at its reading `first`.
    fn carry_over(&mut self, from: CounterDesc, desc: CounterDesc, first: u64)
        ensures { self.new ≡ record self.old {
          steering = record self.old.steering {
            lag = lag_over from desc self.old.steering.lag;
          };
          last_account = first;
        } }
    {
        self.steering.carry_over(from, desc);
        self.last_account = first;
    }
}
