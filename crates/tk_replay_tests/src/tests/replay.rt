//! Tests what no clause states: the printed lines, the texts of the faults, and that calls succeed.

mod differences;
mod fakes;
mod faults;
mod files;
mod many;
mod marks;
mod memory;
mod notes;
mod streams;
mod traces;

use super::{assert_lines, assert_same};
use std::alloc::Global;
use std::io::{Read, Write};
use tk_replay::{Fault, replay, replay_bounded, report, report_bounded};
use tk_script::ScriptError;

/// Opens a counter of one nanosecond a cycle, and advances the clocks by half of the counter's
/// range.
const SCRIPT: &[u8] = b"open,32,16777216,24,0,1700000000,0\nget,0,monotonic\nupdate,2147483647\n\
get,2147483648,monotonic\nupdate,0\n";

/// Its report, 97 bytes.
const REPORT: &[u8] = b"open,32,16777216,24\nat,monotonic,0.000000000\nok,1,2.147483647\n\
at,monotonic,2.147483648\nno,behind\n";

/// Both ways to report and to replay: with a journal that may not be folded, and with one that may.
const BOTH: [bool; 2] = [false, true];

/// Returns the report of a script. It states nothing of the text, to keep the proof of each test
/// short, and so does `replayed`.
fn reported(alloc: Global, is_bounded: bool, script: &[u8]) -> Result<Vec<u8>, ScriptError> {
    if is_bounded {
        report_bounded(alloc, script, 1)
    } else {
        report(alloc, script)
    }
}

/// Replays a script.
fn replayed<R: Read, W: Write>(
    alloc: Global,
    is_bounded: bool,
    reader: &mut R,
    writer: &mut W,
) -> Result<u64, Fault> {
    if is_bounded {
        replay_bounded(alloc, reader, writer, 1)
    } else {
        replay(alloc, reader, writer)
    }
}
