//! Converts clocks to words that contain their counter, and such words back to clocks.
ghost use Rattle.std.specs.Prelude.{◌≡◌, None, Some, take, MatchOption};
ghost use Rattle.tk_counter.specs.Counter.{IsCounter};
ghost use Rattle.tk_clock.specs.Running.{IsRunning};
ghost use Rattle.tk_clock.specs.Words.{words_of, restored};
ghost use Rattle.tk_c.specs.Counted.{counted_snapshot};
ghost use Rattle.tk_c.specs.Restored.{IsClockOf};
ghost use Rattle.tk_c.specs.Saved.{saved, counter_of_words, saved_frequency, saved_tick, IsLoaded, LoadsAs};

use crate::counted::CountedClock;
use crate::general_registers::{first_ten, store_saved};
use crate::storage::ClockStorage;
use crate::words::{running_clock, write_clock};
use tk_counter::CounterDesc;

/// The number of 64-bit words of clocks with their counter.
pub const SAVED_WORDS: usize = 15;

/// Writes the clocks as 15 words: the ten words of their snapshot; bits, mult and shift of their
/// counter; the frequency in `2^-16` ppm as it was set, and the tick in microseconds, both in two's
/// complement. `tkc_clock_load` makes the same clocks from the words.
#[unsafe(no_mangle)]
pub extern "C" fn tkc_clock_save(words: &mut [u64; SAVED_WORDS], clock: &CountedClock)
    ensures value { words.new ≡ saved clock.now }
    ensures snapshot { restored clock.now.clock.base.counter (words_of (counted_snapshot clock.now))
        ≡ Some (counted_snapshot clock.now) }
    ensures counter { IsCounter clock.now.clock.base.counter }
    ensures running { let state = clock.now.clock in IsRunning state.base state.frequency state.tick }
    ensures back { LoadsAs words.new clock.now }
{
    let snapshot = clock.clock.snapshot(clock.front);
    let counter = snapshot.desc();
    let rest = [
        u64::from(counter.bits()),
        u64::from(counter.mult()),
        u64::from(counter.shift()),
        clock.clock.frequency().cast_unsigned(),
        clock.clock.tick().cast_unsigned(),
    ];
    store_saved(words, &snapshot.words(), &rest);
}

/// Writes the clocks that 15 words represent to `out`. The words may have any values.
///
/// # Errors
///
/// Returns `Code::BadWords`, and doesn't write `out`, if words 10 to 12 describe no counter, if the
/// first ten words represent no snapshot of that counter, or if no running clocks with the
/// frequency of word 13 and the tick of word 14 have this snapshot.
#[unsafe(no_mangle)]
pub extern "C" fn tkc_clock_load(out: &mut ClockStorage, words: &[u64; SAVED_WORDS]) -> u32
    ensures { IsLoaded words.now out.old out.new result }
{
    write_clock(out, clock_of_words(words))
}

/// Returns the clocks that the words of `tkc_clock_save` represent, or `None` if they represent
/// none.
pub(crate) fn clock_of_words(words: &[u64; SAVED_WORDS]) -> Option<CountedClock>
    ensures { MatchOption (counter_of_words words.now) (result ≡ None)
        (λ counter. IsClockOf (restored counter (take 10 words.now)) (saved_frequency words.now)
        (saved_tick words.now) result) }
{
    let counter = counter_of_words(words)?;
    let frequency = words[13].cast_signed();
    let tick = words[14].cast_signed();
    running_clock(counter, &first_ten(words), frequency, tick)
}

/// Returns the counter that words 10 to 12 describe, or `None` if they describe none.
fn counter_of_words(words: &[u64; SAVED_WORDS]) -> Option<CounterDesc>
    ensures { result ≡ counter_of_words words.now }
{
    let &[.., bits, mult, shift, _, _] = words;
    let bits = u32::try_from(bits).ok()?;
    let mult = u32::try_from(mult).ok()?;
    let shift = u32::try_from(shift).ok()?;
    CounterDesc::new(bits, mult, shift).ok()
}
