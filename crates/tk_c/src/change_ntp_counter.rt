//! Changes the counter of steered clocks that count their commands.
ghost use Rattle.std.specs.Prelude.{◌≡◌};
ghost use Rattle.tk_c.specs.ChangeNtpCounter.{IsNtpOver, IsOver, IsOverAsleep, IsOverAwake, IsOverBegun};
ghost use Rattle.tk_c.specs.CountedNtp.{whole};

use crate::code::code_of_call;
use crate::counted_ntp::CountedNtp;
use tk_clock::{Clocks, Refusal};
use tk_counter::CounterDesc;

/// Lets steered clocks go on over another counter, starting at its reading `first`, and counts this
/// as a command (`SteeredClock::change_counter`). Each second of REALTIME up to `reading` of the
/// present counter begins first, with its commands. Both readings are in cycles and must be taken
/// at the same moment. The discipline stays, and what the clocks lag behind is carried over.
///
/// # Errors
///
/// Returns, in this order:
///
/// - `Code::Invalid` if `first` is above the mask of `counter`: nothing changes;
/// - the codes of `tkc_ntp_advance` for `reading`; while the clocks are asleep, only `Code::Invalid`:
///   nothing changes;
/// - `Code::Full` if the front leaves no room for the 3 commands of a second that is due, or for the
///   change. The seconds before have begun;
/// - `Code::Range` if MONOTONIC_RAW would be further ahead of MONOTONIC than the slowest rate of
///   `counter` allows. The seconds up to the reading have begun.
#[unsafe(no_mangle)]
pub extern "C" fn tkc_ntp_change_counter(
    ntp: &mut CountedNtp,
    reading: u64,
    counter: &CounterDesc,
    first: u64,
) -> u32
    ensures { IsNtpOver (whole ntp.old) reading counter.now first result (whole ntp.new) }
{
    code_of_call(change(ntp, reading, *counter, first)).number()
}

/// Changes the counter, after the seconds up to `reading` have begun.
fn change(ntp: &mut CountedNtp, reading: u64, desc: CounterDesc, first: u64) -> Result<(), Refusal>
    ensures { IsOverBegun (whole ntp.old) reading desc first result (whole ntp.new) }
{
    if first > desc.mask() {
        return Err(Refusal::Invalid);
    }
    if ntp.clocks.clock.snapshot(0).asleep() {
        return change_asleep(ntp, reading, desc, first);
    }
    change_awake(ntp, reading, desc, first)
}

/// Changes the counter of clocks that are asleep.
fn change_asleep(
    ntp: &mut CountedNtp,
    reading: u64,
    desc: CounterDesc,
    first: u64,
) -> Result<(), Refusal>
    ensures { IsOverAsleep (whole ntp.old) reading desc first result (whole ntp.new) }
{
    if reading > ntp.clocks.clock.snapshot(0).desc().mask() {
        return Err(Refusal::Invalid);
    }
    turn_over(ntp, reading, desc, first)
}

/// Changes the counter of clocks that are awake, after the seconds up to `reading` have begun.
fn change_awake(
    ntp: &mut CountedNtp,
    reading: u64,
    desc: CounterDesc,
    first: u64,
) -> Result<(), Refusal>
    ensures { IsOverAwake (whole ntp.old) reading desc first result (whole ntp.new) }
{
    match ntp.course.advance(&mut ntp.clocks, false, 0, reading) {
        Ok(()) => turn_over(ntp, reading, desc, first),
        Err(refusal) => Err(refusal),
    }
}

/// Changes the counter of clocks whose seconds up to `reading` have begun.
fn turn_over(
    ntp: &mut CountedNtp,
    reading: u64,
    desc: CounterDesc,
    first: u64,
) -> Result<(), Refusal>
    ensures { IsOver (whole ntp.old) reading desc first result (whole ntp.new) }
{
    ntp.clocks.ready(1)?;
    let former = ntp.clocks.clock.snapshot(0);
    ntp.clocks.clock.change_counter(reading, desc, first)?;
    ntp.clocks.front += 1;
    ntp.course.turn_over(&former, reading, desc, first);
    Ok(())
}
