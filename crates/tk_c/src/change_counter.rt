//! Changes the counter of clocks that count their commands.
ghost use Rattle.tk_c.specs.ChangeCounter.{IsChanged, KeepsCountedTimes, NeverFallsCounted};

use crate::code::Code;
use crate::counted::{CountedClock, count};
use tk_clock::COUNTED_LIMIT;
use tk_counter::CounterDesc;

/// Lets the clocks go on over another counter, and counts this as a command
/// (`Clock::change_counter`).
///
/// Brings the clocks forward to `reading` of their present counter, as an update does. Then they
/// run over `counter`, starting at its reading `first`. Both readings are in cycles and must be
/// taken at the same moment. Clocks that are asleep stay asleep, and aren't brought forward.
///
/// # Errors
///
/// A refused change doesn't change the clocks. Returns, in this order:
///
/// - `Code::Full` if 2^63 - 1 commands were accepted;
/// - `Code::Invalid` if `first` is above the mask of `counter`, or `reading` above the mask of the
///   present counter;
/// - `Code::Behind` if `reading` is behind the last command's, and the clocks are awake;
/// - `Code::Range` if a clock would be at its limit or beyond it, or MONOTONIC_RAW would be further
///   ahead of MONOTONIC than the slowest rate of `counter` allows.
#[unsafe(no_mangle)]
pub extern "C" fn tkc_clock_change_counter(
    clock: &mut CountedClock,
    reading: u64,
    counter: &CounterDesc,
    first: u64,
) -> u32
    ensures answer { IsChanged clock.old reading counter.now first result clock.new }
    ensures times { KeepsCountedTimes clock.old reading counter.now first clock.new }
    ensures rises { NeverFallsCounted clock.old reading counter.now first clock.new }
{
    if clock.front >= COUNTED_LIMIT {
        return Code::Full.number();
    }
    let called = clock.clock.change_counter(reading, *counter, first);
    count(&mut clock.front, called)
}
