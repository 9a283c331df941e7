//! Tests values from outside the contracts, and threads.
ghost use Rattle.std.specs.Prelude.{◌≡◌};
ghost use Rattle.tk_shared.specs.Opening.{IsNamed};

mod alone;
mod threads;

use std::alloc::Global;
use std::fmt::Debug;
use std::process::Abort;
use std::sync::Wait;
use tk_clock::{Snapshot, Timespec};
use tk_counter::CounterDesc;
use tk_ntp::Timex;
use tk_shared::{Caller, Counter, Named, Prepared, SharedKeeper, prepare};
use tk_shared_steered::{SharedSteering, SteeringFault};

/// Stops the test if `found` is not equal to `wanted`. It is a separate call to keep the proof of
/// each test short.
fn assert_same<T: PartialEq + Debug>(rt: &impl Abort, found: &T, wanted: &T) {
    assert_eq!(rt; found, wanted);
}

/// Prepares a keeper of a counter of 1 GHz for this number of callers, two seconds before a day
/// ends.
fn ready<C: Counter, R: Wait + Abort>(
    rt: &R,
    alloc: Global,
    counter: C,
    callers: usize,
) -> Prepared<C> {
    let desc = CounterDesc::new(64, 8_388_608, 23).expect(rt, "a counter of 1 GHz");
    let real = Timespec {
        sec: 1_483_228_798,
        nsec: 0,
    };
    let prepared = prepare(alloc, rt, desc, real, counter, callers, 1_000);
    prepared.ok().expect(rt, "a prepared keeper")
}

/// Opens the prepared keeper, with all its callers.
fn opened<L: Named, C: Counter>(
    rt: &impl Abort,
    alloc: Global,
    prepared: Prepared<C>,
) -> (SharedKeeper<L, C>, Vec<Caller<L>>)
    requires named { IsNamed prepared L.page L.latch L.notice L.name L.parts L.callers }
{
    let opened = SharedKeeper::<L, C>::open(alloc, prepared);
    opened.ok().expect(rt, "a keeper")
}

/// Opens a discipline whose owner is the last caller of a list, and removes the caller from it.
fn steered<L: Named, C: Counter, R: Wait + Abort>(
    rt: &R,
    keeper: &SharedKeeper<L, C>,
    callers: &mut Vec<Caller<L>>,
) -> SharedSteering<L> {
    let owner = callers.pop().expect(rt, "a caller");
    let steering = SharedSteering::open(rt, keeper, owner, 250);
    steering.ok().expect(rt, "a discipline")
}

/// Asks for a frequency of 33 ppm, and for an inserted second as the day ends. Returns whether the
/// discipline has answered.
fn announce<L: Named>(steering: &mut SharedSteering<L>) -> bool {
    let request = Timex {
        modes: 0x12,
        freq: 33 * 65_536 + 7,
        status: 0x10,
        ..Timex::default()
    };
    !request.is_faulty() && steering.ask(&request).is_ok()
}

/// Lets the next second begin late, if it is due. Tests need nothing of its contract.
fn begins<L: Named, C: Counter, R: Wait>(
    rt: &R,
    keeper: &SharedKeeper<L, C>,
    steering: &mut SharedSteering<L>,
) -> Result<bool, SteeringFault> {
    steering.begin_late(rt, keeper)
}

/// Lets all due seconds begin late, in the same way.
fn advanced<L: Named, C: Counter, R: Wait>(
    rt: &R,
    keeper: &SharedKeeper<L, C>,
    steering: &mut SharedSteering<L>,
) -> Result<(), SteeringFault> {
    steering.advance_late(rt, keeper)
}

/// Makes a read, in the same way.
fn read_by<L: Named, C: Counter, R: Wait>(
    rt: &R,
    keeper: &SharedKeeper<L, C>,
    caller: &mut Caller<L>,
) -> Snapshot {
    keeper.read(rt, caller)
}
