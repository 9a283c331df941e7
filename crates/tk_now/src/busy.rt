ghost use Rattle.std.specs.Prelude.{Some};
ghost use Rattle.tk_now.specs.Busy.{busy_text};

use std::fmt;
use thiserror::Error;

/// Says that no reading was taken, because a command was in progress or was accepted between the
/// two loads of the notice.
#[derive(Clone, Copy, Debug, PartialEq, Eq, Error)]
pub struct Busy {
    /// The word that the first load found.
    pub first: u64,
    /// The word that the second load found.
    pub last: u64,
}

impl fmt::Display for Busy {
    ghost output = { λ busy. Some (busy_text busy.first busy.last) };

    fn fmt<W: fmt::Write>(&self, f: &mut fmt::Formatter<W>) -> fmt::Result {
        write!(
            f,
            "a command was in progress: the notice was {}, then {}",
            self.first, self.last
        )
    }
}
