ghost use Rattle.std.specs.Prelude.{◌≡◌, ◌<◌, ◌^◌, pos, ◌+ℤ◌};
ghost use Rattle.tk_clock.specs.Limits.{greatest_tai};
ghost use Rattle.tk_ntp.specs.Leap.{leap_seconds, tai_after_leap, leap_command, second_after_leap};

use crate::request::TAI_OFFSET_LIMIT;
use tk_clock::{Command, Timespec};

/// Says what REALTIME leaps by as a second begins.
#[derive(Clone, Copy, Debug, PartialEq, Eq)]
pub enum Leap {
    /// No leap.
    None,
    /// A second is inserted: REALTIME goes back by a second.
    Insert,
    /// A second is deleted: REALTIME goes forward by a second.
    Delete,
}

impl Leap {
    /// Returns the seconds that the leap adds to REALTIME: -1 for an insertion, 1 for a deletion,
    /// otherwise 0.
    pub fn seconds(self) -> i64
        ensures { result ≡ leap_seconds self }
    {
        match self {
            Leap::None => 0,
            Leap::Insert => -1,
            Leap::Delete => 1,
        }
    }

    /// Returns the TAI offset after the leap, in seconds, from the one before it, so that TAI runs
    /// on. An offset that would leave its range of 0 to 100,000 stays as it is.
    pub fn tai_after(self, tai: u32) -> u32
        ensures value { result ≡ tai_after_leap self tai }
        ensures runs_on { 0 < tai → tai < greatest_tai →
            pos result +ℤ leap_seconds self ≡ pos tai }
    {
        match self {
            Leap::None => tai,
            Leap::Insert if tai < TAI_OFFSET_LIMIT => tai + 1,
            Leap::Insert => tai,
            Leap::Delete => tai.saturating_sub(1),
        }
    }

    /// Returns the command that makes the leap, at the TAI offset in force, in seconds. It moves
    /// REALTIME and sets the TAI offset, or steps REALTIME if the TAI offset stays.
    pub fn command(self, tai: u32) -> Command
        ensures { result ≡ leap_command self tai }
    {
        let by = self.seconds();
        let after = self.tai_after(tai);
        if after == tai {
            Command::Step(Timespec { sec: by, nsec: 0 })
        } else {
            Command::Leap {
                by,
                tai: i64::from(after),
            }
        }
    }

    /// Returns the second of REALTIME that begins next after the leap, if it was `sec` before it.
    pub(crate) fn next_second(self, sec: u64) -> u64
        requires some { 0 < sec }
        requires low { sec < 2 ^ 63 }
        ensures { result ≡ second_after_leap self sec }
    {
        match self {
            Leap::None => sec,
            Leap::Insert => sec - 1,
            Leap::Delete => sec + 1,
        }
    }
}
