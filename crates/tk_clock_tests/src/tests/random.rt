//! Makes clocks of random journals, which are the same in each run.

use super::{desc_of, opened_at, time};
use std::alloc::Global;
use std::process::Abort;
use tk_clock::{Clock, Command};
use tk_counter::CounterDesc;
use tk_test_support::{OPENED_TIME, next_random};

/// Replaces a random number by the next one, and returns that.
pub(super) fn drawn(seed: &mut u64) -> u64 {
    *seed = next_random(*seed);
    *seed
}

/// Returns this many random numbers, which follow `seed`.
pub(super) fn numbers(rt: &impl Abort, alloc: Global, mut seed: u64, many: usize) -> Vec<u64> {
    let mut list = Vec::from_elem(alloc, 0, many).expect(rt, "memory");
    for item in list.iter_mut() {
        *item = drawn(&mut seed);
    }
    list
}

/// Makes a counter from a number, with 8 to 64 bits and any shift.
fn counter_of(rt: &impl Abort, number: u64) -> CounterDesc {
    let bits = ((number >> 8) % 57) as u32;
    let shift = ((number >> 16) % 33) as u32;
    let mult = ((number >> 24) % 3_869_000_000) as u32;
    desc_of(rt, bits.wrapping_add(8), mult.max(256), shift)
}

/// Makes a command from a number. All kinds are about equally frequent.
fn command_of(number: u64) -> Command {
    let part = (number >> 8) as i64;
    match number % 9 {
        0 => Command::Update,
        1 => Command::SetTime(time(part & 0x1_ffff_ffff, 5)),
        2 => Command::Step(time(part & 0xffff, 999_999_999)),
        3 => Command::Freq(part),
        4 => Command::Tick((part & 0x7ff).saturating_add(9_000)),
        5 => Command::Tai(part & 0x1_ffff),
        6 => Command::Suspend,
        7 => Command::Leap {
            by: (part & 3).saturating_sub(1),
            tai: part >> 2 & 0x1_ffff,
        },
        _ => Command::Resume(time(part & 0xfff_ffff, 1)),
    }
}

/// Makes clocks from a number, with any counter and after up to 15 commands.
pub(super) fn clock_of(rt: &impl Abort, mut seed: u64) -> Clock {
    let desc = counter_of(rt, seed);
    let mask = desc.mask();
    let mut clock = opened_at(rt, desc, seed & mask, OPENED_TIME);
    for _ in 0..seed % 16 {
        seed = next_random(seed);
        let last = clock.snapshot(0).last();
        let reading = last.wrapping_add(seed >> 40) & mask;
        // a refused command changes nothing
        let _ = clock.apply(reading, command_of(seed));
    }
    clock
}
