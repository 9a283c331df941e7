//! Runs worked requests whose replies the kernel's own ntp.c gave, with HZ 250.
use std::fmt::Debug;
use std::process::Abort;
use tk_clock::Timespec;
use tk_counter::CounterDesc;
use tk_ntp::{Discipline, Leap, Reply, SteeredClock, TimeState, Timex};

mod changing;
mod following;
mod lags;
mod last_accounts;
mod leaps;
mod loops;
mod numbers;
mod rates;
mod readings;
mod requests;
mod signals;
mod ticks;
mod uptimes;

/// A discipline at a second of REALTIME.
#[derive(Clone, Copy)]
struct Clock {
    ntp: Discipline,
    sec: u32,
    tai: u32,
}

impl Clock {
    /// Makes a fresh discipline with `hz` 250 at a second.
    fn new(rt: &impl Abort, sec: u32) -> Clock {
        Clock {
            ntp: Discipline::new(250).expect(rt, "250 is in range"),
            sec,
            tai: 0,
        }
    }

    /// Makes a discipline whose PLL follows an offset in nanoseconds since a part of this second.
    fn following(rt: &impl Abort, offset: i64) -> Clock {
        let mut clock = Clock::new(rt, 1_700_000_000);
        let _ = clock.reply(rt, 500_000_000, &pll(offset, 1));
        clock
    }

    /// Lets the seconds after the present one begin, up to `sec`.
    fn pass(&mut self, sec: u32) {
        for before in self.sec..sec {
            let _ = self.ntp.overflow(u64::from(before) + 1);
        }
        self.sec = sec;
    }

    /// Lets the second `sec` begin, and returns its leap.
    fn begin(&mut self, sec: u32) -> Leap {
        let leap = self.ntp.overflow(u64::from(sec));
        self.tai = leap.tai_after(self.tai);
        self.sec = sec;
        leap
    }

    /// Asks at a part of the present second, in nanoseconds. `None` means that the request is
    /// refused.
    fn ask(&mut self, nsec: u32, request: &Timex) -> Option<Reply> {
        if request.is_faulty() {
            return None;
        }
        let real = Timespec {
            sec: i64::from(self.sec),
            nsec,
        };
        let reply = self.ntp.adjtimex(request, real, self.tai);
        self.tai = reply.tai;
        Some(reply)
    }

    /// Returns the reply to a request that is not refused.
    fn reply(&mut self, rt: &impl Abort, nsec: u32, request: &Timex) -> Reply {
        self.ask(nsec, request)
            .expect(rt, "the request has no fault")
    }

    /// Checks the reply to a request that is not refused. It has no TAI offset.
    fn replies(
        &mut self,
        rt: &impl Abort,
        nsec: u32,
        request: &Timex,
        state: TimeState,
        timex: Timex,
    ) {
        let expected = Reply {
            state,
            tai: 0,
            timex,
        };
        assert_same(rt, &self.reply(rt, nsec, request), &expected);
    }
}

/// Makes a counter of 1 GHz.
fn nanosecond_counter(rt: &impl Abort) -> CounterDesc {
    CounterDesc::new(64, 8_388_608, 23).expect(rt, "a counter of 1 GHz")
}

/// Opens steered clocks at the reading 0, as this second of REALTIME begins.
fn opened_at(rt: &impl Abort, desc: CounterDesc, sec: i64) -> SteeredClock {
    let real = Timespec { sec, nsec: 0 };
    SteeredClock::open(desc, 0, real, 250).expect(rt, "a time of REALTIME")
}

/// Stops the test if `found` is not equal to `wanted`. It is a separate call to keep the proof of
/// each test short.
fn assert_same<T: PartialEq + Debug>(rt: &impl Abort, found: &T, wanted: &T) {
    assert_eq!(rt; found, wanted);
}

/// Returns a request that gives nothing but its modes.
fn request(modes: u32) -> Timex {
    Timex {
        modes,
        ..Timex::default()
    }
}

/// Returns a request that gives only an offset with its modes.
fn with_offset(modes: u32, offset: i64) -> Timex {
    Timex {
        offset,
        ..request(modes)
    }
}

/// Returns a request of an offset in nanoseconds that sets up the PLL.
fn pll(offset: i64, status: u32) -> Timex {
    Timex {
        offset,
        status,
        constant: 6,
        ..request(0x2035)
    }
}

/// Returns the fields of a fresh discipline's reply to some modes, at a time.
fn fields(modes: u32, sec: u32, sub: i64) -> Timex {
    Timex {
        modes,
        offset: 0,
        freq: 0,
        maxerror: 16_000_000,
        esterror: 16_000_000,
        status: 64,
        constant: 2,
        tick: 10_000,
        sec: i64::from(sec),
        sub,
    }
}

/// Returns the fields of a reply that is synchronized, in nanoseconds, with the constant 6.
fn synchronized(modes: u32, sec: u32, sub: i64, status: u32, maxerror: i64) -> Timex {
    Timex {
        maxerror,
        status,
        constant: 6,
        ..fields(modes, sec, sub)
    }
}
