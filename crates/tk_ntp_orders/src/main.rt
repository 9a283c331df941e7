//! Passes the orders of standard input to a discipline and to steered clocks, and writes the
//! answers. `tests/model/ntp.py` and `tests/model/steered.py` compare them with the definitions in
//! Python.
//!
//! Each line is an order, and gets a line as its answer. LENGTH is the length of a second after the
//! order, in `2^-32` ns.
//!
//! | Order | Answer |
//! |---|---|
//! | `new,HZ` | `new,LENGTH`: a fresh discipline; or `no` |
//! | `second,SEC` | `second,LEAP,TAI,LENGTH`: the second SEC of REALTIME begins |
//! | `clear` | `clear,LENGTH`: REALTIME was set |
//! | `signal` | `signal`: from now on, the discipline has a signal of a pulse per second |
//! | `pps,NSEC,RAW` | `pps,STATUS,LENGTH`: a pulse, NSEC ns after a second of REALTIME began, when MONOTONIC_RAW is RAW ns; or `no` |
//! | `adjtimex,SEC,NSEC,MODES,OFFSET,FREQ,MAXERROR,ESTERROR,STATUS,CONSTANT,TICK,STEP_SEC,SUB` | a reply at the time SEC and NSEC, after the line `step,STEP_SEC,NSEC` if the request steps REALTIME; or `no` |
//! | `open,BITS,MULT,SHIFT,READING,SEC,NSEC,HZ` | opens steered clocks: `open,CLOCKS` or `no,REFUSAL` |
//! | `advance,READING` | `ok,CLOCKS`, after `no,REFUSAL` if it is refused |
//! | `late,READING` | the same, by `advance_late` |
//! | `ask,READING,MODES,..` | a request, whose fields are those of `adjtimex`: a reply without its LENGTH, or `no,REFUSAL`; then `ok,CLOCKS` |
//! | `update,READING`, `suspend,READING`, `freq,READING,N`, `tick,READING,N`, `tai,READING,N`, `set,READING,SEC,NSEC`, `step,READING,SEC,NSEC`, `leap,READING,BY,TAI`, `resume,READING,SEC,NSEC` | a command to them: as for `advance` |
//!
//! CLOCKS is `LAST,SEC,FRAC,REAL_OFFSET,BOOT_OFFSET,TAI,FREQUENCY,TICK,ASLEEP,NEXT`: the last
//! reading, MONOTONIC there, the offsets, the rate in force, whether the clocks are asleep, and the
//! reading at which the next second begins, or `none`.
//!
//! With a signal, a reply is followed by its part that shows the signal,
//! `pps,STATE,PPSFREQ,JITTER,SHIFT,STABIL,JITCNT,CALCNT,ERRCNT,STBCNT`. `tests/model/pps.py` compares
//! pulses.
//!
//! A reply is `adj,STATE,SEC,SUB,OFFSET,FREQ,MAXERROR,ESTERROR,STATUS,CONSTANT,TICK,TAI,LENGTH`.
#![tactic(auto)]

mod order;
mod reply_line;
mod session;
mod steered_order;
mod steered_session;

use session::Session;
use std::io::{self, BufRead, BufReader};

fn main(rt: HostRuntime) -> io::Result<()> {
    let mut session = Session::new();
    for line in BufReader::new(rt.alloc(), rt.reader())?.lines(rt.alloc()) {
        session.follow(&rt, line?.as_str())?;
    }
    Ok(())
}
