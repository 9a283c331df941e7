ghost use Rattle.std.specs.Prelude.{◌≡◌, ◌≤ℤ◌, true};
ghost use Rattle.tk_counter.specs.Counter.{least_tick, greatest_tick};
ghost use Rattle.tk_ntp.specs.Change.{multiplier_at, is_same, unless_same, difference, change_of, set_to, changed, tick_command, frequency_command};

use crate::rate::Rate;
use tk_clock::Command;
use tk_counter::CounterDesc;

/// Represents the change that brings clocks to another rate: at most a command for the tick, and
/// then one for the frequency.
#[derive(Clone, Copy, Debug, PartialEq, Eq)]
pub struct Change {
    /// Contains the tick to set, in microseconds. `None` means that the tick stays.
    pub tick: Option<i64>,
    /// Contains the frequency to set, in `2^-16` ppm. `None` means that the frequency stays.
    pub frequency: Option<i64>,
}

impl Change {
    /// Returns the change that brings the clocks of a counter from the rate `in_force` to another
    /// one. No command is needed if the multiplier is the same already. The ticks of both rates are
    /// 9,000 to 11,000 microseconds.
    pub fn between(desc: CounterDesc, in_force: Rate, wanted: Rate) -> Change
        requires slowest { least_tick ≤ℤ in_force.tick }
        requires fastest { in_force.tick ≤ℤ greatest_tick }
        requires wanted_slowest { least_tick ≤ℤ wanted.tick }
        requires wanted_fastest { wanted.tick ≤ℤ greatest_tick }
        ensures value { result ≡ change_of desc in_force wanted }
        // the clocks have the multiplier that is wanted then
        ensures steered { multiplier_at desc (changed in_force result) ≡ multiplier_at desc wanted }
    {
        if is_same(desc, in_force, wanted) {
            return Change {
                tick: None,
                frequency: None,
            };
        }
        Change::difference(in_force, wanted)
    }

    /// Returns the numbers in which a rate differs from the rate `in_force`, also if both give the
    /// same multiplier.
    pub fn difference(in_force: Rate, wanted: Rate) -> Change
        ensures value { result ≡ difference in_force wanted }
        ensures rate { changed in_force result ≡ wanted }
    {
        Change {
            tick: unless_same(in_force.tick, wanted.tick),
            frequency: unless_same(in_force.frequency, wanted.frequency),
        }
    }

    /// Returns the command for the tick, if the tick changes.
    pub fn tick_command(self) -> Option<Command>
        ensures { result ≡ tick_command self }
    {
        self.tick.map(Command::Tick)
    }

    /// Returns the command for the frequency, if the frequency changes.
    pub fn frequency_command(self) -> Option<Command>
        ensures { result ≡ frequency_command self }
    {
        self.frequency.map(Command::Freq)
    }
}

/// Returns whether two rates give the same multiplier.
#[tactic(auto, unfolding(crate::specs::Change::is_same))]
fn is_same(desc: CounterDesc, in_force: Rate, wanted: Rate) -> bool
    requires slowest { least_tick ≤ℤ in_force.tick }
    requires fastest { in_force.tick ≤ℤ greatest_tick }
    requires wanted_slowest { least_tick ≤ℤ wanted.tick }
    requires wanted_fastest { wanted.tick ≤ℤ greatest_tick }
    ensures value { result ≡ is_same desc in_force wanted }
    ensures same { result ≡ true → multiplier_at desc in_force ≡ multiplier_at desc wanted }
{
    desc.mult_at(in_force.frequency, in_force.tick) == desc.mult_at(wanted.frequency, wanted.tick)
}

/// Returns a number to be set, unless it is in force.
fn unless_same(in_force: i64, wanted: i64) -> Option<i64>
    ensures value { result ≡ unless_same in_force wanted }
    ensures set { set_to in_force result ≡ wanted }
{
    if in_force == wanted {
        None
    } else {
        Some(wanted)
    }
}
