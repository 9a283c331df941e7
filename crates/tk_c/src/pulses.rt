//! Lets steered clocks take a pulse of a signal.
ghost use Rattle.std.specs.Prelude.{◌≡◌, ◌^◌, ◌<◌, true};
ghost use Rattle.tk_c.specs.CountedNtp.{whole};
ghost use Rattle.tk_c.specs.Pulses.{IsPulseAnswered, IsPulseTaken, is_pulse};

use crate::code::Code;
use crate::counted_ntp::CountedNtp;
use tk_ntp::Pps;

/// The number of nanoseconds of a second.
const SECOND: u32 = 1_000_000_000;

/// The greatest MONOTONIC_RAW of a pulse, in nanoseconds.
const RAW_LIMIT: u64 = (1 << 63) - 1;

/// Lets a signal and steered clocks take a pulse at a reading, and counts the commands that the
/// clocks get (`Pps::pulse`, `SteeredClock::pulse`, `hardpps`). The pulse came `nsec` ns after a
/// second of REALTIME began, when MONOTONIC_RAW was `raw` ns. Each second of REALTIME up to the
/// reading begins first, with its commands.
///
/// # Errors
///
/// The signal's state doesn't change then. Returns, in this order:
///
/// - `Code::Invalid` if `nsec` is 10^9 or more, or `raw` is 2^63 or more: nothing changes;
/// - the codes of `tkc_ntp_advance`;
/// - `Code::Full` if the front leaves no room for the 3 commands that the pulse may need. The seconds
///   up to the reading have begun.
#[unsafe(no_mangle)]
pub extern "C" fn tkc_ntp_pulse(
    ntp: &mut CountedNtp,
    pps: &mut Pps,
    reading: u64,
    nsec: u32,
    raw: u64,
) -> u32
    ensures { IsPulseAnswered (whole ntp.old) pps.old reading nsec raw result (whole ntp.new)
        pps.new }
{
    if !is_pulse(nsec, raw) {
        return Code::Invalid.number();
    }
    take(ntp, pps, reading, nsec, raw)
}

/// Returns whether the times of a pulse are in their ranges.
fn is_pulse(nsec: u32, raw: u64) -> bool
    ensures value { result ≡ is_pulse nsec raw }
    ensures nsec { result ≡ true → nsec < 1000000000 }
    ensures raw { result ≡ true → raw < 2 ^ 63 }
{
    nsec < SECOND && raw <= RAW_LIMIT
}

/// Lets a signal and steered clocks take a pulse whose times are in their ranges.
fn take(ntp: &mut CountedNtp, pps: &mut Pps, reading: u64, nsec: u32, raw: u64) -> u32
    requires nsec { nsec < 1000000000 }
    requires raw { raw < 2 ^ 63 }
    ensures { IsPulseTaken (whole ntp.old) pps.old reading nsec raw result (whole ntp.new) pps.new }
{
    let mut after = *pps;
    let pulse = after.pulse(nsec, raw);
    match ntp.course.pulse(&mut ntp.clocks, 0, reading, pulse) {
        Ok(()) => {
            *pps = after;
            Code::Done.number()
        }
        Err(refusal) => Code::from(refusal).number(),
    }
}
