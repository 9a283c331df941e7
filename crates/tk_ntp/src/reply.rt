use crate::timex::Timex;

/// Represents the reply to a request.
#[derive(Clone, Copy, Debug, PartialEq, Eq)]
pub struct Reply {
    /// Says what the leap second is doing, or that the clock can't be relied on.
    pub state: TimeState,
    /// Counts TAI minus REALTIME, in seconds.
    pub tai: u32,
    /// Contains the other fields. `modes` is the request's, and the time is REALTIME's.
    pub timex: Timex,
}

/// Says in a reply what the leap second is doing, or that the clock can't be relied on: the result
/// of adjtimex(2).
#[derive(Clone, Copy, Debug, PartialEq, Eq)]
pub enum TimeState {
    /// No leap second is announced (`TIME_OK`).
    Ok,
    /// A second will be inserted at the end of the day (`TIME_INS`).
    Ins,
    /// The last second of the day will be deleted (`TIME_DEL`).
    Del,
    /// The inserted second is in progress (`TIME_OOP`).
    Oop,
    /// The leap second is over, and the status still asks for it (`TIME_WAIT`).
    Wait,
    /// The clock is not synchronized, or its hardware is at fault (`TIME_ERROR`).
    Error,
}
