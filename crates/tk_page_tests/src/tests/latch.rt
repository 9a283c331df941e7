//! Tests values that were worked out manually, outside the contracts, the edges of each range, and
//! threads.
mod changes;
mod openings;
mod publications;
mod threads;

ghost use Rattle.std.specs.Prelude.{◌≡◌};

use super::assert_same;
use std::process::Abort;
use tk_clock::{Clock, Snapshot};
use tk_latch::{Latch, LatchReader};
use tk_test_support::{OPENED_REAL, OPENED_TIME, OPENED_WORDS, nanosecond_counter};

/// The words after an Update at reading 100.
const UPDATED_WORDS: [u64; 10] = [
    1,
    100,
    16_777_216,
    1_677_721_600,
    0,
    OPENED_REAL,
    0,
    0,
    1_677_721_600,
    0,
];

/// The words after that Update and a TAI offset of 37 s at reading 300.
const TAI_WORDS: [u64; 10] = [
    2,
    300,
    16_777_216,
    5_033_164_800,
    0,
    OPENED_REAL,
    0,
    74,
    5_033_164_800,
    0,
];

/// Returns its clocks, opened at reading 0, with REALTIME at 1,700,000,000 s.
fn opened(rt: &impl Abort) -> Clock {
    let desc = nanosecond_counter().expect(rt, "a counter");
    Clock::open(desc, 0, OPENED_TIME).expect(rt, "clocks")
}

/// Reads a latch in which nobody publishes, and returns the words and the mark.
fn words_and_mark(latch: &Latch, reader: &mut LatchReader) -> Option<([u64; 10], u64)>
    requires { reader.old.latch ≡ latch.now }
    ensures { reader.new.latch ≡ reader.old.latch }
{
    let snapshot = reader.try_read(latch).ok()?;
    Some((snapshot.words(), reader.mark()))
}
