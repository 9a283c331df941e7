//! Times calls on steered clocks: requests, seconds that begin, and commands in between.

use crate::bench::{Bench, Job, TURNS, Unit};
use crate::digest::of_snapshot;
use crate::inputs::OPENED_TIME;
use std::thread::Threads;
use std::time::Clock as Hours;
use tk_clock::Command;
use tk_counter::CounterDesc;
use tk_ntp::{
    ADJ_ESTERROR, ADJ_FREQUENCY, ADJ_MAXERROR, ADJ_NANO, ADJ_OFFSET, ADJ_STATUS, ADJ_TIMECONST,
    STA_PLL, SteeredClock, Timex,
};

/// The number of requests or commands in a turn, 1 microsecond apart.
const CALLS: u64 = 1_000_000;

/// The number of seconds in a turn, each begun by its own call.
const SECONDS: u64 = 10_000;

/// The cycles of a microsecond, of a second, and of a day.
const STEP: u64 = 1_000;

const SECOND: u64 = 1_000_000_000;

const DAY: u64 = 86_400_000_000_000;

/// The number of parts of a second that phases are divided into.
const HZ: u32 = 1_000;

/// Names the call that brings the clocks forward.
#[derive(Clone, Copy)]
enum Call {
    Advance,
    Update,
}

/// Steers the clocks by requests 1 microsecond apart. Their offsets go up and down.
#[derive(Drop)]
struct Requests {
    opened: SteeredClock,
    request: Timex,
    left: SteeredClock,
    sum: u64,
}

impl Job for Requests {
    fn turn<R: Threads + Hours + Sync>(&mut self, _rt: &R) -> bool {
        let (mut steered, mut request) = (self.opened, self.request);
        let (mut reading, mut sum) = (0u64, 0u64);
        for turn in 0..CALLS {
            reading = reading.wrapping_add(STEP);
            request.offset = (turn % 1_024) as i64 - 512;
            if let Ok(reply) = steered.adjtimex(reading, &request) {
                sum = sum.wrapping_add(
                    reply.timex.offset.unsigned_abs()
                        ^ reply.timex.freq.unsigned_abs()
                        ^ reply.timex.sub.unsigned_abs(),
                );
            }
        }
        (self.left, self.sum) = (steered, sum);
        true
    }

    fn check(&self) -> u64 {
        self.sum.wrapping_add(of_snapshot(&self.left.snapshot(0)))
    }
}

/// Brings the clocks forward by `count` calls, `step` cycles apart.
#[derive(Clone, Copy)]
struct Calls {
    opened: SteeredClock,
    call: Call,
    count: u64,
    step: u64,
    left: SteeredClock,
}

impl Job for Calls {
    fn turn<R: Threads + Hours + Sync>(&mut self, _rt: &R) -> bool {
        let (mut steered, mut reading) = (self.opened, 0u64);
        for _ in 0..self.count {
            reading = reading.wrapping_add(self.step);
            let called = match self.call {
                Call::Advance => steered.advance(reading),
                Call::Update => steered.apply(reading, Command::Update),
            };
            if called.is_err() {
                return false;
            }
        }
        self.left = steered;
        true
    }

    fn check(&self) -> u64 {
        of_snapshot(&self.left.snapshot(0))
    }
}

/// Times requests of a daemon and requests that only read, seconds one by one and a day at once,
/// and updates. Returns `false` if a call fails.
pub(crate) fn run_steered(rt: &(impl Threads + Hours + Sync), bench: &Bench<'_>) -> bool {
    if !bench.wants_any("ntp_") {
        return true;
    }
    let Some(opened) = opened(bench.unknown()) else {
        return false;
    };
    run_requests(rt, bench, "ntp_adjtimex", opened, daemon_request())
        && run_requests(rt, bench, "ntp_adjtimex_read", opened, Timex::default())
        && run_seconds(rt, bench, opened)
}

/// Times seconds and updates.
fn run_seconds(
    rt: &(impl Threads + Hours + Sync),
    bench: &Bench<'_>,
    opened: SteeredClock,
) -> bool {
    let seconds = Calls {
        opened,
        call: Call::Advance,
        count: SECONDS,
        step: SECOND,
        left: opened,
    };
    let day = Calls {
        count: 1,
        step: DAY,
        ..seconds
    };
    let updates = Calls {
        call: Call::Update,
        count: CALLS,
        step: STEP,
        ..seconds
    };
    run_calls(
        rt,
        bench,
        "ntp_advance",
        Unit::Each(SECONDS, "second"),
        seconds,
    ) && run_calls(rt, bench, "ntp_advance_day", Unit::Whole, day)
        && run_calls(
            rt,
            bench,
            "ntp_apply_1us",
            Unit::Each(CALLS, "command"),
            updates,
        )
}

/// Times these requests.
fn run_requests(
    rt: &(impl Threads + Hours + Sync),
    bench: &Bench<'_>,
    name: &str,
    opened: SteeredClock,
    request: Timex,
) -> bool {
    let mut job = Requests {
        opened,
        request,
        left: opened,
        sum: 0,
    };
    bench.run(rt, name, Unit::Each(CALLS, "request"), TURNS, &mut job)
}

/// Times these calls.
fn run_calls(
    rt: &(impl Threads + Hours + Sync),
    bench: &Bench<'_>,
    name: &str,
    unit: Unit,
    mut job: Calls,
) -> bool {
    bench.run(rt, name, unit, TURNS, &mut job)
}

/// Opens steered clocks of a counter whose numbers the compiler can't know. They have an offset of
/// 100 ms left to give, and a frequency of 33.3 ppm, for which the rate changes from second to
/// second.
fn opened(unknown: u32) -> Option<SteeredClock> {
    let desc = CounterDesc::new(64, unknown.wrapping_add(16_777_216), 24).ok()?;
    let mut steered = SteeredClock::open(desc, 0, OPENED_TIME, HZ).ok()?;
    let mut request = daemon_request();
    request.modes |= ADJ_FREQUENCY;
    request.offset = 100_000_000;
    request.freq = 2_182_349;
    steered.adjtimex(0, &request).ok()?;
    Some(steered)
}

/// Returns the request of a daemon that steers its clock by the PLL.
fn daemon_request() -> Timex {
    Timex {
        modes: ADJ_OFFSET | ADJ_MAXERROR | ADJ_ESTERROR | ADJ_STATUS | ADJ_TIMECONST | ADJ_NANO,
        status: STA_PLL,
        maxerror: 1_000,
        esterror: 500,
        constant: 6,
        ..Timex::default()
    }
}
