//! Makes a session that no record has opened.
ghost use Rattle.std.specs.Prelude.{◌≡◌};
ghost use Rattle.tk_session.specs.Closed as spec;

use super::{Session, USUAL_HZ, steered_at};
use tk_clock::Timespec;
use tk_counter::CounterDesc;
use tk_ntp::SteeredClock;
use tk_report::CountedClocks;

impl Session {
    /// Makes a session that no record has opened, so it has counted none. `Session::open` makes one
    /// that replaces it.
    ///
    /// Its clocks are those of a counter of 64 bits whose cycles last 1 ns, opened at reading 0 with
    /// REALTIME 0. No discipline steers them.
    pub fn closed() -> Session
        ensures { result ≡ spec.closed }
    {
        let clock = idle_clock();
        Session {
            clocks: CountedClocks::of(clock.clock(), 0),
            course: clock.course(),
            records: 0,
            differences: 0,
            is_steered: false,
        }
    }
}

/// Opens clocks at reading 0, with a discipline.
fn idle_clock() -> SteeredClock
    ensures { result ≡ spec.idle }
{
    let epoch = Timespec { sec: 0, nsec: 0 };
    steered_at(idle_counter(), 0, epoch, USUAL_HZ)
}

/// Makes a counter of 64 bits whose cycles last 1 ns.
fn idle_counter() -> CounterDesc
    ensures { result ≡ spec.idle_counter }
{
    CounterDesc::new(64, 1 << 24, 24).unwrap()
}
