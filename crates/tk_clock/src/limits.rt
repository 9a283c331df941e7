ghost use Rattle.std.specs.Prelude.{◌≡◌, ◌*◌, ◌^◌, ◌<◌, pos, ◌≤ℤ◌, ◌<ℤ◌, nat_lt};
ghost use Rattle.tk_clock.specs.Limits.{settable_end, is_settable, is_suspension, is_tai_offset, is_leap, is_well_formed, sets_real};
ghost use Rattle.tk_clock.specs.Uptime.{is_uptime};

use crate::command::Command;
use crate::timespec::Timespec;
use tk_counter::{NANOS_PER_SECOND, SECONDS_END};

/// The end of MONOTONIC, in seconds: 30 years of 365 days (`TIME_UPTIME_SEC_MAX`).
pub(crate) const MONOTONIC_END: u64 = 946_080_000;

/// The bound of MONOTONIC_RAW, in seconds: it stays below this while MONOTONIC is below its limit.
/// It runs ahead of MONOTONIC fastest at the least tick and frequency.
pub(crate) const RAW_END: u64 = 1_060_000_000;

/// The end of the other clocks, in seconds.
const CLOCK_END: i64 = SECONDS_END as i64;

/// The end of the times that REALTIME may be set to, in seconds: 30 years before its own end
/// (`TIME_SETTOD_SEC_MAX`).
const SETTABLE_END: i64 = 8_277_292_036;

/// The shortest tick that may be set, in microseconds.
pub(crate) const SHORTEST_TICK: i64 = 9_000;

/// The longest tick that may be set, in microseconds.
pub(crate) const LONGEST_TICK: i64 = 11_000;

/// The greatest TAI offset, in seconds (`MAX_TAI_OFFSET`).
pub(crate) const TAI_OFFSET_LIMIT: i64 = 100_000;

/// The limit of MONOTONIC, in ns.
pub(crate) const MONOTONIC_LIMIT: u64 = MONOTONIC_END * NANOS_PER_SECOND;

/// The limit of the other clocks, in ns.
pub(crate) const CLOCK_LIMIT: u64 = SECONDS_END * NANOS_PER_SECOND;

/// An offset from MONOTONIC, in ns. No clock with this offset or a lesser one is at its limit while
/// MONOTONIC is below its own, and TAI isn't with this offset of REALTIME.
pub(crate) const FAR_OFFSET: u64 = (SECONDS_END - MONOTONIC_END - TAI_OFFSET_LIMIT as u64)
    * NANOS_PER_SECOND;

/// The most commands that are counted: 2^63 - 1.
pub const COUNTED_LIMIT: u64 = (1 << 63) - 1;

/// Returns the end of the times that REALTIME may be set to, in ns.
pub(crate) fn settable_limit() -> u64
    ensures { result ≡ settable_end * 10 ^ 9 }
{
    SETTABLE_END as u64 * NANOS_PER_SECOND
}

/// Returns whether nanoseconds last less than a second.
fn is_below_a_second(nsec: u32) -> bool
    ensures { result ≡ nat_lt nsec (10 ^ 9) }
{
    u64::from(nsec) < NANOS_PER_SECOND
}

/// Returns whether REALTIME may be set to this time.
#[tactic(auto, unfolding(crate::specs::Limits::is_settable))]
pub(crate) fn is_settable(time: Timespec) -> bool
    ensures { result ≡ is_settable time }
{
    time.sec >= 0 && time.sec < SETTABLE_END && is_below_a_second(time.nsec)
}

/// Returns whether a time can be an uptime. It may be at the limit of MONOTONIC or beyond it: a
/// separate test refuses that.
pub(crate) fn is_uptime(uptime: Timespec) -> bool
    ensures { result ≡ is_uptime uptime }
{
    uptime.sec >= 0 && is_below_a_second(uptime.nsec)
}

/// Returns whether a suspension may have this length.
#[tactic(auto, unfolding(crate::specs::Limits::is_suspension))]
fn is_suspension(away: Timespec) -> bool
    ensures { result ≡ is_suspension away }
{
    away.sec >= 0 && away.sec < CLOCK_END && is_below_a_second(away.nsec)
}

/// Returns whether a number of seconds is a TAI offset.
fn is_tai_offset(seconds: i64) -> bool
    ensures { result ≡ is_tai_offset seconds }
{
    (0..=TAI_OFFSET_LIMIT).contains(&seconds)
}

/// Returns whether a leap second moves REALTIME by this number of seconds.
fn is_leap(by: i64) -> bool
    ensures { result ≡ is_leap by }
{
    by == -1 || by == 1
}

/// Returns whether a command's numbers are in their ranges.
#[tactic(auto, unfolding(crate::specs::Limits::is_well_formed))]
#[inline(always)]
pub(crate) fn is_well_formed(cmd: Command) -> bool
    ensures { result ≡ is_well_formed cmd }
{
    match cmd {
        Command::SetTime(time) => is_settable(time),
        Command::Step(by) => is_below_a_second(by.nsec),
        Command::Tick(tick) => (SHORTEST_TICK..=LONGEST_TICK).contains(&tick),
        Command::Tai(seconds) => is_tai_offset(seconds),
        Command::Leap { by, tai } => is_leap(by) && is_tai_offset(tai),
        Command::Resume(away) => is_suspension(away),
        Command::Update | Command::Freq(_) | Command::Suspend => true,
    }
}

/// Returns whether the command sets REALTIME, steps it or makes a leap second. If so, a separate
/// test bounds REALTIME.
pub(crate) fn sets_real(cmd: Command) -> bool
    ensures { result ≡ sets_real cmd }
{
    matches!(
        cmd,
        Command::SetTime(_) | Command::Step(_) | Command::Leap { .. }
    )
}
