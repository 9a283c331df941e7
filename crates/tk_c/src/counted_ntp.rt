use crate::counted::CountedClock;
use tk_ntp::{Course, SteeredClock};

/// Holds steered clocks and the number of commands that they accepted: `struct tkc_ntp` in C.
///
/// Both the commands of callers and those of the discipline count. The clocks are a part of their
/// own, so that the discipline gives its commands to them in place.
#[repr(C)]
#[derive(Clone, Copy)]
pub struct CountedNtp {
    /// The clocks with their front, at most 2^63 - 1 in clocks that these calls change.
    pub clocks: CountedClock,
    /// The course of their discipline.
    pub course: Course,
}

/// Holds steered clocks that were made, and the number of commands that they accepted.
#[derive(Clone, Copy)]
pub struct SteeredCount {
    /// The clocks, with their discipline.
    pub steered: SteeredClock,
    /// The number of accepted commands.
    pub front: u64,
}
