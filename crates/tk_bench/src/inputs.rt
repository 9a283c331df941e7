//! Makes the inputs of jobs: lists of stamps, scripts and stamp files.

ghost use Rattle.std.specs.Prelude.{◌<◌};

use std::alloc::{AllocError, Global};
use tk_clock::Timespec;

/// REALTIME at the opening of all clocks.
pub(crate) const OPENED_TIME: Timespec = Timespec {
    sec: 1_700_000_000,
    nsec: 0,
};

/// The reading at which the clocks of lists of stamps are opened.
pub(crate) const OPENING: u64 = 12_345;

/// The number of commands in the script of a trace.
pub(crate) const COMMANDS: u64 = 1_000;

/// The factor of the unordered sequences.
const FACTOR: u64 = 6364136223846793005;

/// Returns a list of `count` times the number.
pub(crate) fn repeated(alloc: Global, count: usize, number: u64) -> Result<Vec<u64>, AllocError> {
    vec![in alloc; number; count]
}

/// Returns unordered stamps in the 275 seconds after the opening, at a nanosecond a cycle.
pub(crate) fn stamps(alloc: Global, count: usize) -> Result<Vec<u64>, AllocError> {
    stamps_within(alloc, count, 26, 1 << 38)
}

/// Returns unordered stamps in the 12 hours after the opening, at a nanosecond a cycle.
pub(crate) fn far_stamps(alloc: Global, count: usize) -> Result<Vec<u64>, AllocError> {
    stamps_within(alloc, count, 18, 43_200_000_000_000)
}

/// Returns unordered stamps less than `span` cycles after the opening: each is the remainder of a
/// number without its lowest `bits` bits.
fn stamps_within(alloc: Global, count: usize, bits: u32, span: u64) -> Result<Vec<u64>, AllocError>
    requires kept { bits < 64 }
    requires some { 0 < span }
{
    let mut stamps = repeated(alloc, count, 0)?;
    let mut state = 88172645463325252u64;
    for stamp in stamps.iter_mut() {
        state = state.wrapping_mul(FACTOR).wrapping_add(1442695040888963407);
        *stamp = OPENING.wrapping_add((state >> bits) % span);
    }
    Ok(stamps)
}

/// Returns a script of updates 10 ns apart, each followed by a read of the clock if one is named.
pub(crate) fn script(
    alloc: Global,
    updates: u64,
    clock: Option<&str>,
) -> Result<Vec<u8>, AllocError> {
    let mut script = Vec::from_slice(alloc, b"open,64,16777216,24,0,1700000000,0\n")?;
    for n in 0..updates {
        let reading = n.wrapping_mul(10);
        script.extend_from_slice(format!(in alloc; "update,{reading}\n")?.as_bytes())?;
        if let Some(clock) = clock {
            let later = reading.wrapping_add(5);
            script.extend_from_slice(format!(in alloc; "get,{later},{clock}\n")?.as_bytes())?;
        }
    }
    Ok(script)
}

/// The fronts of a stamp file: the numbers of commands of the script before the stamps.
#[derive(Clone, Copy)]
pub(crate) enum Fronts {
    /// The whole script for every stamp.
    Equal,
    /// One more after every thousand stamps.
    Thousands,
    /// One more after every ten stamps, up to 999 and then from 0 again.
    Tens,
    /// One more after every stamp, up to 999 and then from 0 again.
    Ones,
    /// Unordered, below 1,000.
    Random,
}

impl Fronts {
    /// Returns the front of the stamp with this number, from 0.
    fn of_stamp(self, n: u64) -> u64 {
        match self {
            Fronts::Equal => COMMANDS,
            Fronts::Thousands => n / 1_000,
            Fronts::Tens => n / 10 % COMMANDS,
            Fronts::Ones => n % COMMANDS,
            Fronts::Random => {
                let mixed = n.wrapping_mul(FACTOR);
                ((mixed ^ (mixed >> 32)).wrapping_mul(FACTOR) >> 32) % COMMANDS
            }
        }
    }
}

/// Returns a stamp file with such fronts. The stamps rise by 997 cycles.
pub(crate) fn stamp_file(alloc: Global, count: u64, fronts: Fronts) -> Result<Vec<u8>, AllocError> {
    let mut file = Vec::new(alloc);
    for n in 0..count {
        let (front, stamp) = (fronts.of_stamp(n), n.wrapping_mul(997));
        file.extend_from_slice(format!(in alloc; "{front},{stamp}\n")?.as_bytes())?;
    }
    Ok(file)
}
