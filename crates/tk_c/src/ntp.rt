//! Steers clocks by a discipline.
ghost use Rattle.std.specs.Prelude.{◌≡◌, MatchOption, MatchResult, true, false};
ghost use Rattle.tk_clock.specs.declared.timespec.Timespec.{Timespec};
ghost use Rattle.tk_ntp.specs.SteeredClock.{steered_refusal, steered_opened};
ghost use Rattle.tk_ntp.specs.Uptime.{steered_running_refusal, steered_running};
ghost use Rattle.tk_c.specs.Codes.{number_of, code_of_refusal};
ghost use Rattle.tk_c.specs.CountedNtp.{IsAdvancedTo, IsCommandCounted, IsNtpApplied, IsNtpAnswered, IsNextSecond, whole};
ghost use Rattle.tk_c.specs.declared.code.Code.TheVariants.{Done};
ghost use Rattle.tk_c.specs.Named.{command_named};
ghost use Rattle.tk_c.specs.NtpStorage.{ntp_storage};
ghost use Rattle.tk_c.specs.Storage.{snapshot_storage};

use crate::code::{Code, code_of_call};
use crate::counted_ntp::CountedNtp;
use crate::general_registers::store_snapshot;
use crate::named::command_named;
use crate::ntp_storage::{NtpStorage, store_ntp};
use crate::reached::unreached;
use crate::storage::SnapshotStorage;
use crate::timex::{KernelTimex, state_number};
use tk_clock::{Command, Refusal, Timespec};
use tk_counter::CounterDesc;
use tk_ntp::SteeredClock;

/// Opens clocks at a reading of the counter, steered by a fresh discipline, and writes them to `out`
/// (`SteeredClock::open`).
///
/// REALTIME is `sec` s, 0 to 8,277,292,035, plus `nsec` ns, 0 to 999,999,999, at the reading. `hz` is
/// the number of parts of a second that phases are divided into, 1 to 1024. No command is counted yet.
///
/// # Errors
///
/// Returns `Code::Invalid`, and doesn't write `out`, if the reading is above the mask, or the time or
/// `hz` is out of its range.
#[unsafe(no_mangle)]
pub extern "C" fn tkc_ntp_open(
    out: &mut NtpStorage,
    counter: &CounterDesc,
    reading: u64,
    sec: i64,
    nsec: u32,
    hz: u32,
) -> u32
    ensures { let real : Timespec = record { sec = sec; nsec = nsec } in
        MatchOption (steered_refusal counter.now reading real hz)
        ((result ≡ number_of Done)
        × (out.new ≡ ntp_storage 0 (steered_opened counter.now reading real hz)))
        (λ refusal. (result ≡ number_of (code_of_refusal refusal)) × (out.new ≡ out.old)) }
{
    write_opened(
        out,
        SteeredClock::open(*counter, reading, Timespec { sec, nsec }, hz),
    )
}

/// Opens steered clocks with an uptime at a reading of the counter, and writes them to `out`
/// (`SteeredClock::open_at`).
///
/// They are as by `tkc_ntp_open`, except that MONOTONIC, MONOTONIC_RAW and BOOTTIME are
/// `uptime_sec` s, 0 to 946,079,999, plus `uptime_nsec` ns, 0 to 999,999,999, at the reading.
///
/// # Errors
///
/// Doesn't write `out` then. Returns, in this order:
///
/// - the code of `tkc_clock_open_at`, if it refuses the other arguments;
/// - `Code::Invalid` if `hz` is not 1 to 1024.
#[unsafe(no_mangle)]
pub extern "C" fn tkc_ntp_open_at(
    out: &mut NtpStorage,
    counter: &CounterDesc,
    reading: u64,
    sec: i64,
    nsec: u32,
    uptime_sec: i64,
    uptime_nsec: u32,
    hz: u32,
) -> u32
    ensures { let real : Timespec = record { sec = sec; nsec = nsec } in
        let uptime : Timespec = record { sec = uptime_sec; nsec = uptime_nsec } in
        MatchOption (steered_running_refusal counter.now reading real uptime hz)
        ((result ≡ number_of Done)
        × (out.new ≡ ntp_storage 0 (steered_running counter.now reading real uptime hz)))
        (λ refusal. (result ≡ number_of (code_of_refusal refusal)) × (out.new ≡ out.old)) }
{
    let uptime = Timespec {
        sec: uptime_sec,
        nsec: uptime_nsec,
    };
    let opened = SteeredClock::open_at(*counter, reading, Timespec { sec, nsec }, uptime, hz);
    write_opened(out, opened)
}

/// Writes opened clocks, for which no command is counted yet, or returns the code of their refusal.
#[inline(always)]
fn write_opened(out: &mut NtpStorage, opened: Result<SteeredClock, Refusal>) -> u32
    ensures { MatchResult opened
        (λ steered. (result ≡ number_of Done) × (out.new ≡ ntp_storage 0 steered))
        (λ refusal. (result ≡ number_of (code_of_refusal refusal)) × (out.new ≡ out.old)) }
{
    // (by reference: the clocks are many words, which no call may copy)
    match &opened {
        Ok(steered) => {
            store_ntp(out, steered, 0);
            Code::Done.number()
        }
        Err(refusal) => Code::from(*refusal).number(),
    }
}

/// Lets each second of REALTIME up to a reading begin, and counts the commands that the clocks get
/// (`SteeredClock::advance`).
///
/// # Errors
///
/// Returns, in this order:
///
/// - the code of the reading's refusal, in the order of `SteeredClock::advance`: nothing changes;
/// - `Code::Full` if the front leaves no room for the 3 commands that a second may need: the front is
///   2^63 - 3 or more. The seconds before it have begun.
#[unsafe(no_mangle)]
pub extern "C" fn tkc_ntp_advance(ntp: &mut CountedNtp, reading: u64) -> u32
    ensures { IsAdvancedTo false (whole ntp.old) reading result (whole ntp.new) }
{
    advance(ntp, false, reading)
}

/// Lets each second of REALTIME up to a reading begin late, with all commands of the clocks at the
/// reading, and counts these commands (`SteeredClock::advance_late`).
///
/// # Errors
///
/// Returns the codes of `tkc_ntp_advance`.
#[unsafe(no_mangle)]
pub extern "C" fn tkc_ntp_advance_late(ntp: &mut CountedNtp, reading: u64) -> u32
    ensures { IsAdvancedTo true (whole ntp.old) reading result (whole ntp.new) }
{
    advance(ntp, true, reading)
}

/// Lets each second of REALTIME up to a reading begin, late or not, and counts their commands.
fn advance(ntp: &mut CountedNtp, is_late: bool, reading: u64) -> u32
    ensures { IsAdvancedTo is_late (whole ntp.old) reading result (whole ntp.new) }
{
    let called = ntp.course.advance(&mut ntp.clocks, is_late, 0, reading);
    code_of_call(called).number()
}

/// Applies the command with this number to the clocks, after the seconds up to its reading have
/// begun, and counts each command that the clocks get (`SteeredClock::apply`).
///
/// # Errors
///
/// Returns, in this order:
///
/// - `Code::BadCommand` if no command has the number `command`: nothing changes;
/// - for a tick or a frequency, the codes of `tkc_adjtimex`;
/// - the code of the reading's refusal, unless the command is a resume: nothing changes;
/// - `Code::Full` if the front leaves no room for the 3 commands that a second, or the command, may
///   need: the front is 2^63 - 3 or more. The seconds before have begun;
/// - the code of the first test that the command fails. The seconds up to the reading have begun.
#[unsafe(no_mangle)]
pub extern "C" fn tkc_ntp_apply(
    ntp: &mut CountedNtp,
    reading: u64,
    command: u32,
    number: i64,
    nsec: u32,
) -> u32
    ensures { IsNtpApplied (whole ntp.old) reading (command_named command number nsec) result
        (whole ntp.new) }
{
    match command_named(command, number, nsec) {
        Some(cmd) => apply_counted(ntp, reading, cmd),
        None => Code::BadCommand.number(),
    }
}

/// Applies a command, and counts each command that the clocks get.
fn apply_counted(ntp: &mut CountedNtp, reading: u64, cmd: Command) -> u32
    ensures { IsCommandCounted (whole ntp.old) reading cmd result (whole ntp.new) }
{
    let called = ntp.course.apply(&mut ntp.clocks, 0, reading, cmd);
    code_of_call(called).number()
}

/// Does what a request asks for, after the seconds up to its reading have begun, writes the reply
/// into `timex` and the clock's state to `state`, and counts the commands that the clocks get
/// (`SteeredClock::adjtimex`).
///
/// # Errors
///
/// Writes neither `timex` nor `state` then. Returns, in this order:
///
/// - `Code::Invalid` if the request has a fault (`Timex::is_faulty`): nothing changes;
/// - the code of the test that an update at the reading fails: nothing changes;
/// - `Code::Full` if the front leaves no room for the 3 commands that a second may need, or then for
///   the 6 that the request may need: the front is 2^63 - 6 or more. The seconds before have begun;
/// - the code of the test that the request's step or TAI offset fails: the seconds up to the reading
///   have begun.
#[unsafe(no_mangle)]
pub extern "C" fn tkc_adjtimex(
    timex: &mut KernelTimex,
    state: &mut u32,
    ntp: &mut CountedNtp,
    reading: u64,
) -> u32
    ensures { IsNtpAnswered (whole ntp.old) reading timex.old state.old result timex.new state.new
        (whole ntp.new) }
{
    let answer = ntp
        .course
        .adjtimex(&mut ntp.clocks, 0, reading, &timex.request());
    match answer {
        Ok(reply) => {
            timex.answer(&reply);
            *state = state_number(reply.state);
            Code::Done.number()
        }
        Err(refusal) => Code::from(refusal).number(),
    }
}

/// Writes the reading at which the next second of REALTIME begins to `out`
/// (`Course::next_second`).
///
/// # Errors
///
/// Doesn't write `out` then. Returns `Code::Further` if REALTIME counts but doesn't reach that second
/// up to half the counter's range after the last command, and `Code::Never` if the clocks are asleep
/// or REALTIME reaches its limit first.
#[unsafe(no_mangle)]
pub extern "C" fn tkc_ntp_next_second(out: &mut u64, ntp: &CountedNtp) -> u32
    ensures { IsNextSecond (whole ntp.now) out.old out.new result }
{
    match ntp.course.next_second(&ntp.clocks.clock) {
        Some(reading) => {
            *out = reading;
            Code::Done.number()
        }
        None => unreached(ntp.course.is_next_further(&ntp.clocks.clock)).number(),
    }
}

/// Writes a snapshot of the clocks to `out` (`Clock::snapshot`). Its front is the number of
/// accepted commands.
#[unsafe(no_mangle)]
pub extern "C" fn tkc_ntp_snapshot(out: &mut SnapshotStorage, ntp: &CountedNtp)
    ensures { out.new ≡ snapshot_storage (record {
      front = ntp.now.clocks.front;
      base = ntp.now.clocks.clock.base;
    }) }
{
    store_snapshot(out, ntp.clocks.clock.snapshot(ntp.clocks.front));
}
