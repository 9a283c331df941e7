//! Offers the clocks to C: the functions of include/tkcore.h, a thin layer over tk_clock and
//! tk_lanes, and over tk_ntp for clocks that a discipline steers.
//!
//! | Item | Its meaning |
//! |---|---|
//! | `tkc_counter_*` | make counters from numbers or from a rate, also with the finest mult; store a counter's numbers, compute with its cycles |
//! | `tkc_clock_*` | open the running clocks, apply commands, change the counter, return the frequency and the tick, convert clocks to and from words, with their counter or without |
//! | `tkc_snapshot_*` | read one time, at a reading or at the last command, or a list of times; test a step; find the reading of a time, return a clock's line and a snapshot's numbers, convert snapshots to and from words |
//! | `tkc_ntp_*`, `tkc_adjtimex` | open steered clocks, advance them, apply commands, pass ticks, change the counter, answer requests, return the coming leap and numbers of the discipline, convert them to and from words with their counter |
//! | `tkc_pps_*`, `tkc_ntp_pulse`, `tkc_ntp_seconds` | keep the state of a signal of a pulse per second next to steered clocks, which take its pulses |
//! | `tkc_version` | returns the archive's version |
//! | `CountedClock` | the clocks with their count of commands, `struct tkc_clock` in C |
//! | `CountedNtp`, `SteeredCount`, `NtpStorage` | steered clocks with their count of commands, `struct tkc_ntp` in C |
//! | `KernelTimex` | a request and its reply, `struct tkc_timex` in C |
//! | `CounterStorage`, `ClockStorage`, `SnapshotStorage`, `DisciplineStorage`, `PpsStorage`, `TimeStorage` | memory that a value is written to |
//! | `Code` | the codes that calls return |
//!
//! Units are the same as in tk_clock; include/tkcore.h states them for C. No call allocates or
//! waits.
#![tactic(auto)]

mod change_counter;
mod change_ntp_counter;
mod clocks;
mod coarse;
mod code;
mod counted;
mod counted_ntp;
mod counters;
mod cycles;
mod finest;
mod general_registers;
mod lines;
mod named;
mod ntp;
mod ntp_storage;
mod number_words;
mod parts;
mod pps;
mod pps_storage;
mod pulses;
mod reached;
mod saved;
mod saved_ntp;
mod snapshots;
mod steered_parts;
mod steps;
mod storage;
mod ticks;
mod timex;
mod version;
mod words;

pub use change_counter::tkc_clock_change_counter;
pub use change_ntp_counter::tkc_ntp_change_counter;
pub use clocks::{tkc_clock_apply, tkc_clock_open, tkc_clock_open_at, tkc_clock_snapshot};
pub use coarse::tkc_snapshot_coarse;
pub use code::Code;
pub use counted::CountedClock;
pub use counted_ntp::{CountedNtp, SteeredCount};
pub use counters::{
    tkc_counter_from_hz, tkc_counter_from_khz, tkc_counter_new, tkc_counter_numbers,
    tkc_snapshot_counter,
};
pub use cycles::{tkc_counter_gap, tkc_counter_nanos};
pub use finest::tkc_counter_finest;
pub use lines::tkc_snapshot_line;
pub use ntp::{
    tkc_adjtimex, tkc_ntp_advance, tkc_ntp_advance_late, tkc_ntp_apply, tkc_ntp_next_second,
    tkc_ntp_open, tkc_ntp_open_at, tkc_ntp_snapshot,
};
pub use ntp_storage::{DisciplineStorage, NtpStorage};
pub use parts::{
    tkc_clock_frequency, tkc_clock_tick, tkc_snapshot_asleep, tkc_snapshot_front, tkc_snapshot_tai,
};
pub use pps::{
    tkc_ntp_seconds, tkc_pps_ask, tkc_pps_clear, tkc_pps_open, tkc_pps_reply, tkc_pps_seconds,
};
pub use pps_storage::PpsStorage;
pub use pulses::tkc_ntp_pulse;
pub use reached::tkc_snapshot_reading;
pub use saved::{SAVED_WORDS, tkc_clock_load, tkc_clock_save};
pub use saved_ntp::{NTP_SAVED_WORDS, tkc_ntp_load, tkc_ntp_save};
pub use snapshots::{tkc_snapshot_convert, tkc_snapshot_get};
pub use steered_parts::{tkc_ntp_frequency, tkc_ntp_leap, tkc_ntp_status, tkc_ntp_tick_length};
pub use steps::tkc_snapshot_step;
pub use storage::{BaseStorage, ClockStorage, CounterStorage, SnapshotStorage, TimeStorage};
pub use ticks::{TICK_LEAP, TICK_RATE, TICK_SECOND, TickNumbers, tkc_ntp_tick};
pub use timex::KernelTimex;
pub use version::tkc_version;
pub use words::{
    tkc_clock_from_words, tkc_clock_words, tkc_snapshot_from_words, tkc_snapshot_words,
};
