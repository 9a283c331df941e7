//! Tests a writer that becomes full.

use super::assert_same;
use std::io;
use std::io::Write;
use std::process::Abort;
use std::sync::Wait;
use std::thread::Threads;
use tk_program::{Ending, Folder, run};
use tk_replay::Fault;

/// Opens the same script for every name.
#[derive(Drop)]
struct OneScript;

impl Folder for OneScript {
    type File = &'static [u8];

    ghost open_gives = { λ _ _ _. Unit {0} };

    fn open_once(&self, _name: &str) -> Option<&'static [u8]> {
        Some(b"open,32,16777216,24,0,1700000000,0\nupdate,9\nupdate,1\nupdate,4294967295\n")
    }
}

/// Accepts `room` bytes, and then none.
#[derive(Drop)]
struct Narrow {
    room: usize,
}

impl Write for Narrow {
    fn write(&mut self, buf: &[u8]) -> io::Result<usize> {
        let taken = buf.len().min(self.room);
        self.room -= taken;
        Ok(taken)
    }

    fn flush(&mut self) -> io::Result<()> {
        Ok(())
    }
}

/// Returns the ending of the script's race with a writer of this capacity.
fn ended(
    rt: &(impl AllocGlobal + Abort + Threads + Wait + Sync),
    words: &[String],
    room: usize,
) -> Ending {
    let mut reader: &[u8] = b"";
    let mut writer = Narrow { room };
    run(rt.alloc(), rt, words, &OneScript, &mut reader, &mut writer)
}

/// Returns the arguments for a race of one script.
fn race_words(rt: &(impl AllocGlobal + Abort)) -> Vec<String> {
    let mut words = Vec::new(rt.alloc());
    for word in ["tkcore", "race", "1", "a"] {
        let word = String::from_str(rt.alloc(), word).expect(rt, "memory");
        words.push(word).expect(rt, "memory");
    }
    words
}

/// The report is 22 bytes long: `entries,3` and `actor,0,3,0`.
#[test]
fn a_full_writer_is_reported_with_what_went_out(rt: HostRuntime) {
    let words = race_words(&rt);
    for room in [0, 10, 21] {
        let written = room as u64;
        let ending = ended(&rt, words.as_slice(), room);
        assert_same(&rt, &ending, &Ending::Fault(Fault::Write { written }));
    }
    assert_same(&rt, &ended(&rt, words.as_slice(), 22), &Ending::Done);
}
