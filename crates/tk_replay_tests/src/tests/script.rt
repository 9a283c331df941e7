mod commands;
mod continued;
mod dates;
mod faults;
mod lines;
mod memory;
mod names;
mod refused;
mod running;
mod scripts;

use super::{assert_lines, assert_same};
use std::process::Abort;
use tk_clock::{ClockId, Command, Timespec};
use tk_script::{Row, Script, Start};

/// A 32-bit counter at 1 ns per cycle, opened at reading 0.
const OPENING: &[u8] = b"open,32,16777216,24,0,1700000000,0\n";

/// Stops the test unless the bytes are a script of these rows.
fn assert_rows(rt: &(impl Abort + AllocGlobal), bytes: &[u8], rows: &[Row]) {
    match Script::from_bytes(rt.alloc(), bytes) {
        Ok(script) => assert_same(rt, &script.rows.as_slice(), &rows),
        Err(error) => assert_same(rt, &Some(error), &None),
    }
}

/// Stops the test unless a script opens a counter of these bits, multiplier and shift, at this
/// reading and time.
fn assert_opening(
    rt: &(impl Abort + AllocGlobal),
    bytes: &[u8],
    counter: (u32, u32, u32),
    reading: u64,
    real: Timespec,
) {
    match Script::from_bytes(rt.alloc(), bytes) {
        Ok(script) => assert_opened(rt, script.start, counter, reading, real),
        Err(error) => assert_same(rt, &Some(error), &None),
    }
}

/// Stops the test unless clocks are opened with these values.
fn assert_opened(
    rt: &impl Abort,
    start: Start,
    counter: (u32, u32, u32),
    reading: u64,
    real: Timespec,
) {
    let Start::Opened(opening) = start else {
        assert!(rt; false);
        return;
    };
    let desc = opening.desc;
    let found = (desc.bits(), desc.mult(), desc.shift());
    assert_same(rt, &found, &counter);
    assert_same(rt, &opening.reading, &reading);
    assert_same(rt, &opening.real, &real);
}

/// Returns a text and a later one after it.
fn joined(rt: &(impl Abort + AllocGlobal), first: &[u8], later: &[u8]) -> Vec<u8> {
    let mut bytes = first.to_vec(rt.alloc()).expect(rt, "memory");
    bytes.extend_from_slice(later).expect(rt, "memory");
    bytes
}

fn time(sec: i64, nsec: u32) -> Timespec {
    Timespec { sec, nsec }
}

fn act(reading: u64, cmd: Command) -> Row {
    Row::Act { reading, cmd }
}

fn look(reading: u64, clock: ClockId) -> Row {
    Row::Look {
        reading,
        clock,
        expected: None,
    }
}
