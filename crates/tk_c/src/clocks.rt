ghost use Rattle.std.specs.Prelude.{◌≡◌, Some, MatchOption, MatchResult};
ghost use Rattle.tk_clock.specs.Journal.{opened};
ghost use Rattle.tk_clock.specs.Refusal.{opening_refusal};
ghost use Rattle.tk_clock.specs.State.{state_of, effect};
ghost use Rattle.tk_clock.specs.Uptime.{running_refusal, opened_running};
ghost use Rattle.tk_clock.specs.declared.timespec.Timespec.{Timespec};
ghost use Rattle.tk_c.specs.Codes.{number_of, code_of_refusal};
ghost use Rattle.tk_c.specs.declared.code.Code.TheVariants.{Done};
ghost use Rattle.tk_c.specs.Counted.{IsApplied};
ghost use Rattle.tk_c.specs.Named.{command_named};
ghost use Rattle.tk_c.specs.Storage.{snapshot_storage, clock_storage};

use crate::code::Code;
use crate::counted::CountedClock;
use crate::general_registers::store_snapshot;
use crate::named::command_named;
use crate::storage::{ClockStorage, SnapshotStorage};
use tk_clock::{COUNTED_LIMIT, Clock, Command, Refusal, Timespec};
use tk_counter::CounterDesc;

/// The number of the command `Update`.
const UPDATE: u32 = 0;

/// Opens clocks at a reading of the counter and writes them to `out` (`Clock::open`).
///
/// REALTIME is `sec` s, 0 to 8,277,292,035, plus `nsec` ns, 0 to 999,999,999, at the reading. No
/// command is counted yet.
///
/// # Errors
///
/// Returns `Code::Invalid`, and doesn't write `out`, if the reading is above the mask or the time
/// is out of its range.
#[unsafe(no_mangle)]
pub extern "C" fn tkc_clock_open(
    out: &mut ClockStorage,
    counter: &CounterDesc,
    reading: u64,
    sec: i64,
    nsec: u32,
) -> u32
    ensures { let real : Timespec = record { sec = sec; nsec = nsec } in
        MatchOption (opening_refusal counter.now reading real)
        ((result ≡ number_of Done)
        × (out.new ≡ clock_storage 0 (state_of (opened counter.now reading real))))
        (λ refusal. (result ≡ number_of (code_of_refusal refusal)) × (out.new ≡ out.old)) }
{
    write_opened(out, Clock::open(*counter, reading, Timespec { sec, nsec }))
}

/// Opens clocks with an uptime at a reading of the counter, and writes them to `out`
/// (`Clock::open_at`).
///
/// They are as by `tkc_clock_open`, except that MONOTONIC, MONOTONIC_RAW and BOOTTIME are
/// `uptime_sec` s, 0 to 946,079,999, plus `uptime_nsec` ns, 0 to 999,999,999, at the reading.
///
/// # Errors
///
/// Doesn't write `out` then. Returns, in this order:
///
/// - `Code::Invalid` if `tkc_clock_open` does, or if the uptime is below 0 s or has more than
///   999,999,999 ns;
/// - `Code::Range` if the uptime is 946,080,000 s or more;
/// - `Code::Invalid` if REALTIME would be below MONOTONIC.
#[unsafe(no_mangle)]
pub extern "C" fn tkc_clock_open_at(
    out: &mut ClockStorage,
    counter: &CounterDesc,
    reading: u64,
    sec: i64,
    nsec: u32,
    uptime_sec: i64,
    uptime_nsec: u32,
) -> u32
    ensures { let real : Timespec = record { sec = sec; nsec = nsec } in
        let uptime : Timespec = record { sec = uptime_sec; nsec = uptime_nsec } in
        MatchOption (running_refusal counter.now reading real uptime)
        ((result ≡ number_of Done)
        × (out.new ≡ clock_storage 0 (opened_running counter.now reading real uptime)))
        (λ refusal. (result ≡ number_of (code_of_refusal refusal)) × (out.new ≡ out.old)) }
{
    let uptime = Timespec {
        sec: uptime_sec,
        nsec: uptime_nsec,
    };
    let opened = Clock::open_at(*counter, reading, Timespec { sec, nsec }, uptime);
    write_opened(out, opened)
}

/// Writes opened clocks, which have accepted no command, or returns the code of their refusal.
fn write_opened(out: &mut ClockStorage, opened: Result<Clock, Refusal>) -> u32
    ensures { MatchResult opened
        (λ clock. (result ≡ number_of Done) × (out.new ≡ clock_storage 0 clock))
        (λ refusal. (result ≡ number_of (code_of_refusal refusal)) × (out.new ≡ out.old)) }
{
    match opened {
        Ok(clock) => {
            *out = ClockStorage::from(CountedClock { clock, front: 0 });
            Code::Done.number()
        }
        Err(refusal) => Code::from(refusal).number(),
    }
}

/// Applies the command with this number to the clocks and counts it (`Clock::apply`).
///
/// `number` and `nsec` are the command's arguments, in the units of `enum tkc_command` in
/// include/tkcore.h. An argument that the command doesn't use may have any value.
///
/// # Errors
///
/// A refused command doesn't change the clocks. Returns, in this order:
///
/// - `Code::BadCommand` if no command has the number `command`;
/// - `Code::Full` if 2^63 - 1 commands were accepted;
/// - the code of the first test that the command fails: `Asleep` or `Awake`, `Invalid` for the
///   reading and the numbers, `Behind`, `Range`, `Invalid` for the resulting REALTIME.
#[unsafe(no_mangle)]
pub extern "C" fn tkc_clock_apply(
    clock: &mut CountedClock,
    reading: u64,
    command: u32,
    number: i64,
    nsec: u32,
) -> u32
    ensures { IsApplied clock.old reading (command_named command number nsec) result clock.new }
{
    // Updates are the most frequent commands. Their separate machine code reserves no stack for
    // other commands.
    if command == UPDATE {
        return apply_counted(clock, reading, Command::Update);
    }
    apply_other(clock, reading, command, number, nsec)
}

/// Applies the command with this number and counts it, out of line.
#[inline(never)]
fn apply_other(clock: &mut CountedClock, reading: u64, command: u32, number: i64, nsec: u32) -> u32
    ensures { IsApplied clock.old reading (command_named command number nsec) result clock.new }
{
    match command_named(command, number, nsec) {
        Some(cmd) => apply_counted(clock, reading, cmd),
        None => Code::BadCommand.number(),
    }
}

/// Applies a command, and counts it if it is accepted.
#[inline(always)]
fn apply_counted(clock: &mut CountedClock, reading: u64, cmd: Command) -> u32
    ensures { IsApplied clock.old reading (Some cmd) result clock.new }
{
    if clock.front >= COUNTED_LIMIT {
        return Code::from(Refusal::Full).number();
    }
    match clock.clock.apply(reading, cmd) {
        Ok(()) => {
            clock.front += 1;
            Code::Done.number()
        }
        Err(refusal) => Code::from(refusal).number(),
    }
}

/// Writes a snapshot of the clocks to `out` (`Clock::snapshot`). Its front is the number of
/// accepted commands.
#[unsafe(no_mangle)]
pub extern "C" fn tkc_clock_snapshot(out: &mut SnapshotStorage, clock: &CountedClock)
    ensures { out.new ≡ snapshot_storage (record {
      front = clock.now.front;
      base = clock.now.clock.base;
    }) }
{
    store_snapshot(out, clock.clock.snapshot(clock.front));
}
