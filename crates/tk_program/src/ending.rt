ghost use Rattle.std.specs.Prelude.{◌≡◌, OnOk};
ghost use Rattle.tk_program.specs.Ending.{IsErrorLine, IsTold, ending_at, ending_of, ending_of_file, ending_of_replay, status_of};

use crate::writing::write_line;
use arrayvec::ArrayVec;
use std::io;
use std::io::Write;
use tk_command_line::WordsError;
use tk_race::RaceError;
use tk_replay::ManyError;
use tk_report::{Fault, Sink};
use tk_script::ScriptError;

/// More bytes than any line of error has.
const LINE_LIMIT: usize = 160;

/// Says how the program ends. Every variant with status 1 or 2, except `Faulty`, prints one line of
/// error.
#[derive(Clone, Copy, Debug, PartialEq, Eq)]
pub enum Ending {
    /// All was done: status 0, and no line.
    Done,
    /// The arguments were refused: status 2.
    Words,
    /// `many` wrote its output, which contains a script's fault instead of its report: status 1,
    /// and no line.
    Faulty,
    /// The output contains a line `differs`: a read did not give the value that its record states,
    /// and no script has a fault. Status 3, and no line.
    Differs,
    /// A fault stopped the work, such as a script's fault, or a failed read, write or allocation:
    /// status 1.
    Fault(Fault),
    /// The reports of many scripts were not made: status 1.
    Many(ManyError),
    /// The script of a race's file has a fault, which is never `ScriptError::Memory`: status 1.
    File {
        /// The file's index, from 0.
        index: usize,
        /// The script's first fault.
        error: ScriptError,
    },
    /// The script of a race's file begins from running clocks that nothing steers: status 1.
    Running {
        /// The file's index, from 0.
        index: usize,
    },
    /// The script of a race's file changes its counter, which is one for all scripts: status 1.
    Counter {
        /// The file's index, from 0.
        index: usize,
    },
    /// The script of a race's file opens steered clocks, continues running ones, or contains a
    /// request to steer them: status 1.
    Steered {
        /// The file's index, from 0.
        index: usize,
    },
    /// The scripts of a race open their clocks differently: status 1.
    Openings,
    /// The race was not run: status 1.
    Race(RaceError),
}

impl Ending {
    /// Returns the exit status: 0 to 3.
    pub fn status(self) -> u8
        ensures { result ≡ status_of self }
    {
        match self {
            Ending::Done => 0,
            Ending::Words => 2,
            Ending::Differs => 3,
            Ending::Faulty | Ending::Fault(_) | Ending::Many(_) => 1,
            Ending::File { .. } | Ending::Openings | Ending::Race(_) => 1,
            Ending::Running { .. } | Ending::Counter { .. } | Ending::Steered { .. } => 1,
        }
    }

    /// Writes the line of error to `out`: `tkcore: ` and the text. For `Done`, `Faulty` and
    /// `Differs` it writes nothing.
    ///
    /// It makes the line first and writes it with one call. Only if `out` takes a part does it write
    /// the rest with further calls. It doesn't allocate.
    ///
    /// # Errors
    ///
    /// Returns the number of bytes written, if a write failed or took no byte.
    pub fn tell<W: Sink>(self, out: &mut W) -> Result<(), u64>
        ensures ok { OnOk result (IsErrorLine W.Write.contents out.old out.new self) }
        ensures once { IsTold W.Sink.write_gives out.old out.new self }
    {
        let mut line = ArrayVec::<u8, LINE_LIMIT>::new();
        match self.add_line(&mut line) {
            Ok(()) if line.is_empty() => Ok(()),
            Ok(()) => write_line(out, line.as_slice()),
            Err(_) => Err(0),
        }
    }

    /// Writes the line of `tell` in parts.
    fn add_line<W: Write>(self, out: &mut W) -> io::Result<()>
        ensures { OnOk result (IsErrorLine W.Write.contents out.old out.new self) }
    {
        match self {
            Ending::Done | Ending::Faulty | Ending::Differs => Ok(()),
            Ending::Words => writeln!(out, "tkcore: {}", WordsError::Refused),
            Ending::Fault(fault) => writeln!(out, "tkcore: {fault}"),
            Ending::Many(error) => writeln!(out, "tkcore: {error}"),
            Ending::File { index, error } => writeln!(out, "tkcore: file {index}: {error}"),
            Ending::Running { index } => {
                writeln!(
                    out,
                    "tkcore: file {index}: a race cannot begin from running clocks"
                )
            }
            Ending::Counter { index } => {
                writeln!(
                    out,
                    "tkcore: file {index}: the counter of a race cannot change"
                )
            }
            Ending::Steered { index } => {
                writeln!(
                    out,
                    "tkcore: file {index}: the clocks of a race cannot be steered"
                )
            }
            Ending::Openings => writeln!(out, "tkcore: openings differ"),
            Ending::Race(error) => writeln!(out, "tkcore: {error}"),
        }
    }

    /// Returns the ending of a replay: `outcome` is the number of its differences, or its fault.
    pub(crate) fn of_replay(outcome: Result<u64, Fault>) -> Ending
        ensures { result ≡ ending_of_replay outcome }
    {
        match outcome {
            Ok(0) => Ending::Done,
            Ok(_) => Ending::Differs,
            Err(cause) => Ending::Fault(cause),
        }
    }

    /// Converts the fault of the script in a race's file.
    pub(crate) fn of_file(index: usize, error: ScriptError) -> Ending
        ensures { result ≡ ending_of_file index error }
    {
        match error {
            ScriptError::Memory => Ending::Fault(Fault::Memory),
            error => Ending::File { index, error },
        }
    }
}

impl From<Result<(), Fault>> for Ending {
    ghost from_gives = { λ outcome ending. ending ≡ ending_of outcome };

    fn from(outcome: Result<(), Fault>) -> Ending {
        match outcome {
            Ok(()) => Ending::Done,
            Err(fault) => Ending::Fault(fault),
        }
    }
}

impl From<WordsError> for Ending {
    ghost from_gives = { λ error ending. ending ≡ ending_at error };

    fn from(error: WordsError) -> Ending {
        match error {
            WordsError::Refused => Ending::Words,
            WordsError::Memory => Ending::Fault(Fault::Memory),
        }
    }
}
