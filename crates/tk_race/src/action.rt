use tk_clock::{ClockId, Command, ReadError, Refusal, Timespec};

/// Describes one action of an actor.
#[derive(Clone, Copy, Debug, PartialEq, Eq)]
pub enum Action {
    /// Gives a command, at the counter's next reading. It may wait for the lock and for readers of
    /// the page.
    Order(Command),
    /// Reads the page. It may wait for a thread that holds its words.
    Look,
    /// Reads the latch. It never waits.
    Glance,
    /// Asks for a clock's time now, by the page. It takes a reading of the counter, and may wait
    /// for a thread that holds the words of the page.
    Now(ClockId),
}

/// Reports how an action ended.
#[derive(Clone, Copy, Debug, PartialEq, Eq)]
pub enum RaceReply {
    /// The order was accepted, and is the entry with this number.
    Done(u64),
    /// The order was refused.
    Refused(Refusal),
    /// The look found a snapshot. The value is the number of commands accepted before it.
    Saw(u64),
    /// The glance found a snapshot. The value is the number of commands accepted before it.
    Glanced(u64),
    /// The glance read nothing, because a publication was begun or made between its two loads of
    /// the latch's sequence number: twice the number of publications that were made, plus 1 while
    /// one is in progress.
    Moved {
        /// The number that the first load found.
        first: u64,
        /// The number that the last load found.
        last: u64,
    },
    /// The time now, and the number of commands that were accepted before its reading.
    Timed {
        front: u64,
        time: Timespec,
    },
    /// The clock refuses the reading, and the number of commands that were accepted before it.
    Untimed {
        front: u64,
        refusal: ReadError,
    },
}
