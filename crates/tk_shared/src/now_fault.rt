ghost use Rattle.std.specs.Prelude.{Some};
ghost use Rattle.tk_shared.specs.Errors.{late_text, now_text};

use std::fmt;
use thiserror::Error;
use tk_clock::ReadError;

/// Says why `now_fast` returned no time.
#[derive(Clone, Copy, Debug, PartialEq, Eq, Error)]
pub enum NowFault {
    /// The clock refuses the reading.
    Refused(#[source] ReadError),
    /// A publication was begun or made while the latch was read.
    Moved(tk_latch::Moved),
    /// A command was in progress while the counter was read.
    Busy(tk_now::Busy),
    /// A command was accepted after the latch was read and before the counter was.
    Late(Late),
    /// The latch gave the publication of a command that wasn't accepted by the counter's reading:
    /// the command was in progress. No run gives this, since each command is announced until after
    /// its publication; `Busy` comes first. No clause excludes it.
    Ahead(Late),
}

/// Contains the two numbers of commands that differ.
#[derive(Clone, Copy, Debug, PartialEq, Eq, Error)]
pub struct Late {
    /// The number of the publication that was read from the latch.
    pub front: u64,
    /// The number of commands that were accepted before the reading.
    pub place: u64,
}

impl fmt::Display for NowFault {
    ghost output = { λ fault. Some (now_text fault) };

    fn fmt<W: fmt::Write>(&self, f: &mut fmt::Formatter<W>) -> fmt::Result {
        match self {
            NowFault::Refused(_) => write!(f, "the clock cannot be read at this reading"),
            NowFault::Moved(moved) => write!(f, "{moved}"),
            NowFault::Busy(busy) => write!(f, "{busy}"),
            NowFault::Late(late) | NowFault::Ahead(late) => write!(f, "{late}"),
        }
    }
}

impl fmt::Display for Late {
    ghost output = { λ late. Some (late_text late) };

    fn fmt<W: fmt::Write>(&self, f: &mut fmt::Formatter<W>) -> fmt::Result {
        write!(
            f,
            "commands accepted: {}, published: {}",
            self.place, self.front
        )
    }
}
