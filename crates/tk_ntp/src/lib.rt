//! Steers a clock as adjtimex(2) does: a discipline gives each second's length. No call allocates.
//! Lengths are in `2^-32` ns, frequencies in `2^-16` ppm, errors and ticks in microseconds.
//!
//! | Item | Its meaning |
//! |---|---|
//! | `Discipline` | the state, changed by requests and by each second of REALTIME that begins |
//! | `Timex`, `Reply`, `TimeState` | a request, the reply to it, and the clock's state in it |
//! | `Leap` | what REALTIME leaps by as a second begins |
//! | `SteeredClock` | the clocks of a counter, steered by a discipline |
//! | `Course` | such a discipline apart from its clocks, for whoever keeps these (`Clocks`) |
//! | `request_of` | the request that a command acts as |
//! | `SECOND_ENTRIES_LIMIT`, `REQUEST_ENTRIES_LIMIT` | the most entries of a second or a command; of a request |
//! | `Pps`, `Pulse`, `PpsReply` | a signal of a pulse per second, what a discipline takes from a pulse, and the signal's part of a reply |
//! | `Steering`, `Lag` | a discipline with what its clock lags behind; the commands of a second |
//! | `Rate`, `Change` | the frequency and the tick for a length, and the commands that set them |
//! | `SteeredNumbers` .. | a discipline in plain numbers, as C code holds it |
//! | `NumbersError` | which part of such numbers is out of its range |
//! | `ADJ_OFFSET` .., `STA_PLL` .. | the bits of a request's `modes`, and of a status |
#![tactic(auto)]

mod bits;
mod change;
mod course;
mod discipline;
mod lag;
mod leap;
mod leap_plan;
mod length;
mod loops;
mod numbers;
mod numbers_error;
mod phase;
mod pps;
mod pps_reply;
mod pulse;
mod rate;
mod reply;
mod request;
mod steered_clock;
mod steering;
mod timex;

pub use bits::{
    ADJ_ADJTIME, ADJ_ESTERROR, ADJ_FREQUENCY, ADJ_MAXERROR, ADJ_MICRO, ADJ_NANO, ADJ_OFFSET,
    ADJ_READONLY, ADJ_SETOFFSET, ADJ_STATUS, ADJ_TAI, ADJ_TICK, ADJ_TIMECONST, STA_CLOCKERR,
    STA_DEL, STA_FLL, STA_FREQHOLD, STA_INS, STA_MODE, STA_NANO, STA_PLL, STA_PPSERROR,
    STA_PPSFREQ, STA_PPSJITTER, STA_PPSSIGNAL, STA_PPSTIME, STA_PPSWANDER, STA_UNSYNC,
};
pub use change::Change;
pub use course::{Course, REQUEST_ENTRIES_LIMIT, SECOND_ENTRIES_LIMIT, request_of};
pub use discipline::Discipline;
pub use lag::Lag;
pub use leap::Leap;
pub use numbers::{DisciplineNumbers, LagNumbers, LeapNumbers, SteeredNumbers, SteeringNumbers};
pub use numbers_error::NumbersError;
pub use pps::Pps;
pub use pps_reply::PpsReply;
pub use pulse::Pulse;
pub use rate::Rate;
pub use reply::{Reply, TimeState};
pub use steered_clock::SteeredClock;
pub use steering::Steering;
pub use timex::Timex;
