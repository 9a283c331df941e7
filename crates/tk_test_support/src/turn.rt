use std::time::Duration;

/// The number of turns of a job.
pub(crate) const TURNS: u32 = 2;

/// The nanoseconds of a millisecond: the `count` of a turn whose time is printed in milliseconds.
pub const IN_MILLISECONDS: u64 = 1_000_000;

/// Names the length of a turn.
#[derive(Clone, Copy)]
pub enum Effort {
    /// Long enough for CI to compare the check.
    Short,
    /// Long enough to be timed.
    Full,
}

impl Effort {
    /// Returns the number of repetitions in a turn: the number of a full turn, or a thousandth of
    /// it.
    pub fn of(self, full: u64) -> u64 {
        match self {
            Effort::Short => full / 1_000,
            Effort::Full => full,
        }
    }
}

/// Describes the result of a turn.
#[derive(Clone, Copy)]
pub struct Turn {
    /// The turn's time.
    pub time: Duration,
    /// The number of timed operations, or `IN_MILLISECONDS`.
    pub count: u64,
    /// A number computed from the results.
    pub check: u64,
}

impl Turn {
    /// Returns the time of one operation in thousandths of a nanosecond or, with `IN_MILLISECONDS`,
    /// the turn's time in thousandths of a millisecond.
    pub fn thousandths(&self) -> u128 {
        self.time.as_nanos().saturating_mul(1_000) / u128::from(self.count.max(1))
    }

    /// Returns the faster of two turns, or `None` if their checks differ.
    pub fn faster(self, other: Turn) -> Option<Turn> {
        if other.check != self.check {
            None
        } else if other.thousandths() < self.thousandths() {
            Some(other)
        } else {
            Some(self)
        }
    }
}
