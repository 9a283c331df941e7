//! Tests with how many calls the line of error is written.

use super::assert_same;
use std::io;
use std::io::Write;
use tk_counter::DescError;
use tk_program::Ending;
use tk_script::ScriptError;

/// The longest line of error.
const LONGEST: &[u8] =
    b"tkcore: file 18446744073709551615: record 18446744073709551615: the frequency is 0 Hz or the span is not 1 to 600 seconds\n";

/// Counts calls and bytes, and takes at most `most` bytes with each call.
#[derive(Drop)]
struct Counting {
    most: usize,
    calls: usize,
    bytes: usize,
}

impl Write for Counting {
    fn write(&mut self, buf: &[u8]) -> io::Result<usize> {
        let taken = buf.len().min(self.most);
        self.calls = self.calls.saturating_add(1);
        self.bytes = self.bytes.saturating_add(taken);
        Ok(taken)
    }

    fn flush(&mut self) -> io::Result<()> {
        Ok(())
    }
}

/// Returns the ending with the longest line of error.
fn longest() -> Ending {
    let row = u64::MAX;
    let error = DescError::Rate;
    Ending::File {
        index: usize::MAX,
        error: ScriptError::Counter { row, error },
    }
}

#[test]
fn the_longest_line_has_room(rt: HostRuntime) {
    let mut line = Vec::new(rt.alloc());
    assert_same(&rt, &longest().tell(&mut line), &Ok(()));
    assert_same(&rt, &line.as_slice(), &LONGEST);
}

#[test]
fn a_line_is_written_with_one_call(rt: HostRuntime) {
    for (ending, calls, bytes) in [
        (longest(), 1, 122),
        (Ending::Words, 1, 22),
        (Ending::Openings, 1, 24),
        (Ending::Done, 0, 0),
        (Ending::Differs, 0, 0),
    ] {
        let mut errors = Counting {
            most: 1_000,
            calls: 0,
            bytes: 0,
        };
        assert_same(&rt, &ending.tell(&mut errors), &Ok(()));
        assert_same(&rt, &errors.calls, &calls);
        assert_same(&rt, &errors.bytes, &bytes);
    }
}

#[test]
fn a_line_that_is_taken_in_parts_is_written_whole(rt: HostRuntime) {
    for (most, calls) in [(1, 122), (50, 3), (121, 2)] {
        let mut errors = Counting {
            most,
            calls: 0,
            bytes: 0,
        };
        assert_same(&rt, &longest().tell(&mut errors), &Ok(()));
        assert_same(&rt, &errors.calls, &calls);
        assert_same(&rt, &errors.bytes, &122);
    }
}
