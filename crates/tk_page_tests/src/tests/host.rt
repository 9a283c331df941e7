//! Readings of the host's clock, by a clock whose times are known.
ghost use Rattle.std.specs.Prelude.{◌+◌, ◌/◌, ◌<◌, ◌^◌};

use super::assert_same;
use std::cell::Cell;
use std::io;
use std::time::{Clock, Duration, Instant};
use tk_now::{HostCounter, Look, SharedCounter};

/// A clock that is read twice.
#[derive(Drop)]
struct Times {
    first: Duration,
    /// `None` means that the second read fails.
    second: Option<Duration>,
    is_read: Cell<bool>,
}

impl Clock for Times {
    fn monotonic(&self) -> io::Result<Duration> {
        if !self.is_read.replace(true) {
            return Ok(self.first);
        }
        match self.second {
            Some(time) => Ok(time),
            None => Err(io::Error::from(io::ErrorKind::Unsupported)),
        }
    }

    fn since_1970(&self) -> io::Result<Duration> {
        Ok(Duration::ZERO)
    }
}

/// The time when a counter was made, the time of its read, and the reading.
type Row = (Duration, Option<Duration>, u64);

fn time(secs: u64, nanos: u32) -> Duration
    requires { secs + nanos / 1_000_000_000 < 2 ^ 64 }
{
    Duration::new(secs, nanos)
}

fn rows() -> [Row; 8] {
    let opened = time(0, 0);
    [
        (opened, Some(time(59, 999_999_999)), 59_999_999_999),
        (opened, Some(time(60, 1)), 60_000_000_001),
        // 2^32 + 1 s
        (
            opened,
            Some(time(4_294_967_297, 123_456_789)),
            4_294_967_297_123_456_789,
        ),
        (
            time(4_294_967_296, 999_999_999),
            Some(time(4_294_967_297, 123_456_789)),
            123_456_790,
        ),
        // 2^64 - 1 ns, and two more
        (opened, Some(time(18_446_744_073, 709_551_615)), u64::MAX),
        (opened, Some(time(18_446_744_073, 709_551_617)), 1),
        // the clock went back, and the clock failed
        (time(7, 5), Some(time(7, 4)), 0),
        (time(7, 5), None, 0),
    ]
}

#[test]
fn a_reading_is_the_nanoseconds_since_the_start(rt: HostRuntime) {
    for (first, second, wanted) in rows() {
        let clock = Times {
            first,
            second,
            is_read: Cell::new(false),
        };
        let start = Instant::now(&clock).expect(&rt, "a time");
        let counter = HostCounter::new(&clock, start);
        let look = Look::first(rt.alloc()).expect(&rt, "memory");
        assert_same(&rt, &counter.read(&look), &wanted);
    }
}
