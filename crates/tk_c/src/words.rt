//! Converts values to 64-bit words, and words back to values after every test.
ghost use Rattle.std.specs.Prelude.{◌≡◌, MatchOption, Some};
ghost use Rattle.tk_clock.specs.Running.{IsRunning};
ghost use Rattle.tk_clock.specs.Snapshot.{Snapshot};
ghost use Rattle.tk_clock.specs.Words.{words_of, restored};
ghost use Rattle.tk_c.specs.Codes.{number_of};
ghost use Rattle.tk_c.specs.declared.code.Code.TheVariants.{Done, BadWords};
ghost use Rattle.tk_c.specs.Counted.{counted_snapshot};
ghost use Rattle.tk_c.specs.Restored.{IsClockRestored, IsClockOf, IsClockWritten};
ghost use Rattle.tk_c.specs.Storage.{snapshot_storage};

use crate::code::Code;
use crate::counted::CountedClock;
use crate::general_registers::{loaded, store};
use crate::storage::{ClockStorage, SnapshotStorage};
use tk_clock::{Clock, SNAPSHOT_WORDS, Snapshot};
use tk_counter::CounterDesc;

/// Writes the ten words of a snapshot (`Snapshot::words`). include/tkcore.h lists them with units.
#[unsafe(no_mangle)]
pub extern "C" fn tkc_snapshot_words(words: &mut [u64; SNAPSHOT_WORDS], snapshot: &Snapshot)
    ensures value { words.new ≡ words_of snapshot.now }
    ensures back { restored snapshot.now.base.counter words.new ≡ Some snapshot.now }
{
    store(words, &snapshot.words());
}

/// Writes the snapshot of a counter that ten words represent to `out` (`Snapshot::from_words`).
///
/// # Errors
///
/// Returns `Code::BadWords`, and doesn't write `out`, if a word is out of its range, or if
/// REALTIME, BOOTTIME or TAI would be at or past its limit at the last reading.
#[unsafe(no_mangle)]
pub extern "C" fn tkc_snapshot_from_words(
    out: &mut SnapshotStorage,
    counter: &CounterDesc,
    words: &[u64; SNAPSHOT_WORDS],
) -> u32
    ensures { MatchOption (restored counter.now words.now)
        ((result ≡ number_of BadWords) × (out.new ≡ out.old))
        (λ snapshot. (result ≡ number_of Done) × (out.new ≡ snapshot_storage snapshot)) }
{
    match Snapshot::from_words(*counter, loaded(words)) {
        Some(snapshot) => {
            *out = SnapshotStorage::from(snapshot);
            Code::Done.number()
        }
        None => Code::BadWords.number(),
    }
}

/// Writes the ten words of the clocks' snapshot, the frequency in `2^-16` ppm as it was set, and
/// the tick in microseconds.
#[unsafe(no_mangle)]
pub extern "C" fn tkc_clock_words(
    words: &mut [u64; SNAPSHOT_WORDS],
    frequency: &mut i64,
    tick: &mut i64,
    clock: &CountedClock,
)
    ensures words { words.new ≡ words_of (counted_snapshot clock.now) }
    ensures frequency { frequency.new ≡ clock.now.clock.frequency }
    ensures tick { tick.new ≡ clock.now.clock.tick }
    ensures back { restored clock.now.clock.base.counter words.new
        ≡ Some (counted_snapshot clock.now) }
    ensures running { IsRunning clock.now.clock.base frequency.new tick.new }
{
    store(words, &clock.clock.snapshot(clock.front).words());
    *frequency = clock.clock.frequency();
    *tick = clock.clock.tick();
}

/// Writes the clocks that ten words, a frequency in `2^-16` ppm and a tick in microseconds
/// represent to `out` (`Snapshot::from_words`, `Clock::from_snapshot`).
///
/// # Errors
///
/// Returns `Code::BadWords`, and doesn't write `out`, if the words represent no snapshot of the
/// counter, or if no running clocks with this frequency and tick have this snapshot.
#[unsafe(no_mangle)]
pub extern "C" fn tkc_clock_from_words(
    out: &mut ClockStorage,
    counter: &CounterDesc,
    words: &[u64; SNAPSHOT_WORDS],
    frequency: i64,
    tick: i64,
) -> u32
    ensures { MatchOption (restored counter.now words.now)
        ((result ≡ number_of BadWords) × (out.new ≡ out.old))
        (λ snapshot. IsClockRestored snapshot frequency tick out.old out.new result) }
{
    write_clock(out, running_clock(*counter, words, frequency, tick))
}

/// Writes the clocks that words represent to `out`, or returns `Code::BadWords` if they represent
/// none.
pub(crate) fn write_clock(out: &mut ClockStorage, found: Option<CountedClock>) -> u32
    ensures { IsClockWritten found out.old out.new result }
{
    match found {
        Some(counted) => {
            *out = ClockStorage::from(counted);
            Code::Done.number()
        }
        None => Code::BadWords.number(),
    }
}

/// Returns the clocks that ten words of a counter, a frequency in `2^-16` ppm and a tick in
/// microseconds represent, or `None` if they represent none.
#[inline(always)]
pub(crate) fn running_clock(
    counter: CounterDesc,
    words: &[u64; SNAPSHOT_WORDS],
    frequency: i64,
    tick: i64,
) -> Option<CountedClock>
    ensures { IsClockOf (restored counter words.now) frequency tick result }
{
    let Some(snapshot) = Snapshot::from_words(counter, loaded(words)) else {
        return None;
    };
    let Some(clock) = Clock::from_snapshot(snapshot, frequency, tick) else {
        return None;
    };
    Some(CountedClock {
        clock,
        front: snapshot.front(),
    })
}
