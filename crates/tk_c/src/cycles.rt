//! Computes with the cycles of a counter.
ghost use Rattle.std.specs.Prelude.{◌≡◌};
ghost use Rattle.tk_counter.specs.Counter.{gap};
ghost use Rattle.tk_c.specs.Cycles.{nanos_of_cycles};

use tk_counter::CounterDesc;

/// Returns the cycles from a reading to a later one, modulo `2^bits` (`CounterDesc::gap`). The
/// readings may be any numbers: bits above the counter's don't count.
#[unsafe(no_mangle)]
pub extern "C" fn tkc_counter_gap(counter: &CounterDesc, from: u64, to: u64) -> u64
    ensures { result ≡ gap counter.now from to }
{
    counter.gap(from, to)
}

/// Returns the nanoseconds of a number of cycles at the counter's own rate, rounded down: 2^64 - 1
/// if they are that many or more (`clocksource_cyc2ns`, which drops the upper bits).
#[unsafe(no_mangle)]
pub extern "C" fn tkc_counter_nanos(counter: &CounterDesc, cycles: u64) -> u64
    ensures { result ≡ nanos_of_cycles counter.now cycles }
{
    let mult = u64::from(counter.mult());
    let upper = (cycles >> 32) * mult;
    let lower = (cycles & 0xffff_ffff) * mult;
    upper
        .saturating_mul(1 << (32 - counter.shift()))
        .saturating_add(lower >> counter.shift())
}
