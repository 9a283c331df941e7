//! Keeps the state of a signal of a pulse per second next to steered clocks.
ghost use Rattle.std.specs.Prelude.{◌≡◌};
ghost use Rattle.tk_ntp.specs.History.{second_number};
ghost use Rattle.tk_ntp.specs.Pps.{is_lost_in, no_signal, pps_asked, pps_cleared, pps_seconds};
ghost use Rattle.tk_c.specs.CountedNtp.{whole};
ghost use Rattle.tk_c.specs.Pps.{lost_if, pps_storage, shown, shown_state};
ghost use Rattle.tk_c.specs.Timex.{request_of};

use crate::counted_ntp::CountedNtp;
use crate::pps_storage::{PpsStorage, store_no_signal};
use crate::timex::{KernelTimex, state_number};
use tk_ntp::{Pps, Reply, TimeState};

/// Makes the state of a signal without a pulse, and writes it to `out` (`Pps::new`).
#[unsafe(no_mangle)]
pub extern "C" fn tkc_pps_open(out: &mut PpsStorage)
    ensures { out.new ≡ pps_storage no_signal }
{
    store_no_signal(out);
}

/// Clears the state after REALTIME was set or stepped (`Pps::clear`, `pps_clear`).
#[unsafe(no_mangle)]
pub extern "C" fn tkc_pps_clear(pps: &mut Pps)
    ensures { pps.new ≡ pps_cleared pps.old }
{
    pps.clear();
}

/// Returns a number that grows by 1 as each second of REALTIME begins, also by a leap second
/// (`Course::second_number`).
#[unsafe(no_mangle)]
pub extern "C" fn tkc_ntp_seconds(ntp: &CountedNtp) -> i64
    ensures { result ≡ second_number (whole ntp.now).steered }
{
    ntp.course.second_number(&ntp.clocks.clock)
}

/// Counts seconds of REALTIME that have begun (`Pps::seconds`). If the signal counts as lost at one
/// of them, turns its bits of the status off (`SteeredClock::lose_signal`, `pps_dec_valid`).
#[unsafe(no_mangle)]
pub extern "C" fn tkc_pps_seconds(pps: &mut Pps, ntp: &mut CountedNtp, count: u64)
    ensures signal { pps.new ≡ pps_seconds count pps.old }
    ensures clocks { whole ntp.new ≡ lost_if (is_lost_in count pps.old) (whole ntp.old) }
{
    if pps.seconds(count) {
        ntp.course.lose_signal();
    }
}

/// Does what an answered request changes in the signal's state (`Pps::ask`). `request` is as
/// `tkc_adjtimex` took it, and `status` is the discipline's status before that call.
#[unsafe(no_mangle)]
pub extern "C" fn tkc_pps_ask(pps: &mut Pps, request: &KernelTimex, status: u32)
    ensures { pps.new ≡ pps_asked (request_of request.now) status pps.old }
{
    pps.ask(&request.request(), status);
}

/// Writes the fields of the signal into a reply of `tkc_adjtimex`, and the number of
/// `TimeState::Error` to `state`, if the clock can't be relied on because of the signal
/// (`Pps::reply`, `pps_fill_timex`). `tkc_pps_ask` comes first.
#[unsafe(no_mangle)]
pub extern "C" fn tkc_pps_reply(timex: &mut KernelTimex, state: &mut u32, pps: &Pps)
    ensures reply { timex.new ≡ shown timex.old pps.now }
    ensures state { state.new ≡ shown_state timex.old.status state.old }
{
    let reply = pps.reply(&Reply {
        state: TimeState::Ok,
        tai: 0,
        timex: timex.request(),
    });
    timex.show(&reply);
    if reply.state == TimeState::Error {
        *state = state_number(TimeState::Error);
    }
}
