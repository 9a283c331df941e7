ghost use Rattle.std.specs.Prelude.{◌≡◌, ◌*◌, ◌^◌, ◌<◌, pos, ◌≤ℤ◌, ◌<ℤ◌};
ghost use Rattle.std.specs.Int.{int_max};
ghost use Rattle.tk_clock.specs.Time.{nanoseconds, timespec_of};
ghost use Rattle.tk_clock.specs.Limits.{clock_end};

use tk_counter::NANOS_PER_SECOND;

/// Represents a time or an amount of time: `sec * 10^9 + nsec` nanoseconds.
///
/// As in the kernel's `struct timespec64`, `sec` may be negative, and `nsec` counts upwards from
/// it.
#[repr(C)]
#[derive(Clone, Copy, Debug, PartialEq, Eq)]
pub struct Timespec {
    /// Counts whole seconds.
    pub sec: i64,
    /// Counts the nanoseconds after `sec`, below 10^9. An opening or a command with 10^9 or more is
    /// refused as `Invalid`.
    pub nsec: u32,
}

/// Converts a time or an amount of time to nanoseconds (`timespec64_to_ns`). It must be from 0 to
/// less than 9,223,372,036 s.
pub(crate) fn nanos_of(time: Timespec) -> u64
    requires since { pos 0 ≤ℤ time.sec }
    requires until { time.sec <ℤ pos clock_end }
    requires rest { time.nsec < 10 ^ 9 }
    ensures value { pos result ≡ nanoseconds time }
    ensures most { result < clock_end * 10 ^ 9 }
{
    time.sec as u64 * NANOS_PER_SECOND + u64::from(time.nsec)
}

/// Converts nanoseconds to seconds and nanoseconds (`ns_to_timespec64`).
pub(crate) fn timespec_of(nanos: u64) -> Timespec
    requires { nanos < clock_end * 10 ^ 9 }
    ensures { result ≡ timespec_of nanos }
{
    Timespec {
        sec: (nanos / NANOS_PER_SECOND) as i64,
        nsec: (nanos % NANOS_PER_SECOND) as u32,
    }
}

/// Converts a time to nanoseconds. A time before 0 gives 0.
pub(crate) fn nanos_from_zero(time: Timespec) -> u128
    ensures value { pos result ≡ int_max (pos 0) (nanoseconds time) }
    ensures low { result < 2 ^ 94 }
{
    let whole = u128::from(time.sec.unsigned_abs()) * u128::from(NANOS_PER_SECOND);
    let rest = u128::from(time.nsec);
    if time.sec < 0 {
        rest.saturating_sub(whole)
    } else {
        whole + rest
    }
}
