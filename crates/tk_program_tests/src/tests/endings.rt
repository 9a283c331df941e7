//! Tests the lines and statuses of all endings.

use super::assert_same;
use std::io::{Error, ErrorKind};
use std::process::Abort;
use std::test::Fail;
use tk_counter::DescError;
use tk_program::{Ending, WordsError};
use tk_replay::{Fault, ManyError, RaceError};
use tk_script::ScriptError;

/// Stops the test unless an ending has this status and prints this line.
fn assert_line(rt: &(impl Abort + AllocGlobal), ending: Ending, status: u8, text: &[u8]) {
    let mut line = Vec::new(rt.alloc());
    let is_stated = ending.tell(&mut line).is_ok();
    assert_same(rt, &is_stated, &true);
    assert_same(rt, &line.as_slice(), &text);
    assert_same(rt, &ending.status(), &status);
}

#[test]
fn refuses_words_that_could_not_be_taken(rt: HostRuntime) {
    let refused = WordsError::from(Error::from(ErrorKind::InvalidData));
    assert_same(&rt, &refused, &WordsError::Refused);
    let memory = WordsError::from(Error::from(ErrorKind::OutOfMemory));
    assert_same(&rt, &memory, &WordsError::Memory);
}

#[test]
fn states_why_words_are_not_taken(rt: HostRuntime) -> Result<(), Fail> {
    let refused = WordsError::Refused.to_string(rt.alloc())?;
    assert_same(&rt, &refused.as_str(), &"words refused");
    let memory = WordsError::Memory.to_string(rt.alloc())?;
    assert_same(&rt, &memory.as_str(), &"out of memory");
    Ok(())
}

#[test]
fn states_each_ending(rt: HostRuntime) {
    let endings: [(Ending, u8, &[u8]); 14] = [
        (Ending::Done, 0, b""),
        (Ending::Faulty, 1, b""),
        (Ending::Differs, 3, b""),
        (
            Ending::Many(ManyError::Count),
            1,
            b"tkcore: count out of range\n",
        ),
        (
            Ending::Many(ManyError::Memory),
            1,
            b"tkcore: out of memory\n",
        ),
        (
            Ending::Many(ManyError::Threads),
            1,
            b"tkcore: cannot start a thread\n",
        ),
        (Ending::Words, 2, b"tkcore: words refused\n"),
        (Ending::Fault(Fault::Read), 1, b"tkcore: cannot read\n"),
        (Ending::Fault(Fault::Memory), 1, b"tkcore: out of memory\n"),
        (
            Ending::Fault(Fault::Write { written: 97 }),
            1,
            b"tkcore: cannot write\n",
        ),
        (
            Ending::Fault(Fault::Script(ScriptError::TooLarge)),
            1,
            b"tkcore: script: larger than 16777216 bytes\n",
        ),
        (Ending::Openings, 1, b"tkcore: openings differ\n"),
        (
            Ending::Running { index: 9 },
            1,
            b"tkcore: file 9: a race cannot begin from running clocks\n",
        ),
        (
            Ending::Counter { index: 12 },
            1,
            b"tkcore: file 12: the counter of a race cannot change\n",
        ),
    ];
    for (ending, status, text) in endings {
        assert_line(&rt, ending, status, text);
    }
}

#[test]
fn states_why_there_is_no_race(rt: HostRuntime) {
    let errors: [(RaceError, &[u8]); 4] = [
        (RaceError::Count, b"tkcore: count out of range\n"),
        (RaceError::Invalid, b"tkcore: invalid opening\n"),
        (RaceError::Memory, b"tkcore: out of memory\n"),
        (RaceError::Threads, b"tkcore: cannot start a thread\n"),
    ];
    for (error, text) in errors {
        assert_line(&rt, Ending::Race(error), 1, text);
    }
    let faults: [(ScriptError, &[u8]); 5] = [
        (
            ScriptError::TooLarge,
            b"tkcore: file 12: larger than 16777216 bytes\n",
        ),
        (ScriptError::Empty, b"tkcore: file 12: no record\n"),
        (
            ScriptError::Opening { row: 1 },
            b"tkcore: file 12: record 1: not a valid opening\n",
        ),
        (
            ScriptError::Number { row: 30 },
            b"tkcore: file 12: record 30: not a number in range\n",
        ),
        (
            ScriptError::Counter {
                row: 30,
                error: DescError::Mult,
            },
            b"tkcore: file 12: record 30: the mult is below 256\n",
        ),
    ];
    for (error, text) in faults {
        assert_line(&rt, Ending::File { index: 12, error }, 1, text);
    }
}
