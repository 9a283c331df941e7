//! Tests that a call whose allocation fails returns its arguments and changes nothing.
ghost use Rattle.std.specs.Prelude.{IfOk};
ghost use Rattle.tk_shared.specs.Closing.{AreDifferent};
ghost use Rattle.tk_shared.specs.Opening.{IsNamed};

use super::{OPENED_TIME, assert_same, closed, commanded, nanosecond_counter, read_by, two_of};
use std::alloc::AllocError;
use std::marker::Brand;
use std::process::Abort;
use std::sync::Wait;
use std::test::Fail;
use tk_clock::{Command, Refusal};
use tk_now::{Look, SharedCounter, SharedTicker};
use tk_shared::{
    Caller, Counter, Named, OpenError, OpenFault, Prepared, SharedKeeper, SharedReader, Ticker,
    prepare,
};

/// The number of commands. It is so great that the capacity grows several times.
const COMMANDS: u64 = 600;

/// Checks that an allocation failed and that the returned counter was read once.
fn came_back<R: Abort>(rt: &R, fault: OpenFault<Ticker>) {
    let OpenFault { error, mut counter } = fault;
    assert_same(rt, &(error, counter.read()), &(OpenError::Memory, 10));
}

/// Makes all calls that may allocate. With each request refused in turn, every answer is the same
/// as without a refusal, or `Memory`.
#[test]
fn refused_requests_change_nothing(rt: HostRuntime) {
    let desc = nanosecond_counter().expect(&rt, "a counter");
    match prepare(rt.alloc(), &rt, desc, OPENED_TIME, Ticker::new(0, 10), 2, 3) {
        Ok(prepared) => opened::<Brand, _>(&rt, prepared),
        Err(fault) => came_back(&rt, fault),
    }
}

fn opened<L: Named, R: Wait + Abort + AllocGlobal>(rt: &R, prepared: Prepared<Ticker>)
    requires named { IsNamed prepared L.page L.latch L.notice L.name L.parts L.callers }
{
    match SharedKeeper::<L, Ticker>::open(rt.alloc(), prepared) {
        Ok((keeper, callers)) => gives_and_closes(rt, keeper, callers),
        Err(fault) => came_back(rt, fault),
    }
}

fn gives_and_closes<L: Named, R: Wait + Abort + AllocGlobal>(
    rt: &R,
    keeper: SharedKeeper<L, Ticker>,
    callers: Vec<Caller<L>>,
) {
    let (mut one, two) = two_of(rt, callers);
    gives_all(rt, &keeper, &mut one);
    let accepted = one.accepted();
    let Ok(callers) = both(rt, one, two) else {
        // the request of this test itself was refused
        assert_same(rt, &accepted, &COMMANDS);
        return;
    };
    let closed = closed(rt, keeper, callers);
    assert_same(rt, &(closed.keeper.len() as u64), &accepted);
}

/// Returns the callers 0 and 1 in a vector. Since it tests their numbers, the calls before it need
/// no clause on them.
fn both<L: Named, R: Abort + AllocGlobal>(
    rt: &R,
    one: Caller<L>,
    two: Caller<L>,
) -> Result<Vec<Caller<L>>, AllocError>
    ensures { IfOk result (λ callers. AreDifferent callers.items) }
{
    assert!(rt; one.id() == 0);
    assert!(rt; two.id() == 1);
    Ok(vec![in rt.alloc(); one, two]?)
}

/// Gives all commands. Each one becomes the next entry, or it is refused because an allocation
/// failed and doesn't change the journal and the counts.
fn gives_all<L: Named, R: Wait + Abort>(
    rt: &R,
    keeper: &SharedKeeper<L, Ticker>,
    caller: &mut Caller<L>,
) {
    let mut accepted = 0u64;
    for _ in 0..COMMANDS {
        match commanded(rt, keeper, caller, Command::Update) {
            Ok(number) => {
                accepted = accepted.wrapping_add(1);
                assert_same(rt, &number, &accepted);
            }
            Err(refusal) => assert_same(rt, &refusal, &Refusal::Memory),
        }
        let seen = read_by(rt, keeper, caller).front();
        let known = (caller.front(), caller.mark(), caller.accepted());
        assert_same(
            rt,
            &(seen, known),
            &(accepted, (accepted, accepted, accepted)),
        );
    }
    // at most one request is refused
    assert!(rt; accepted >= COMMANDS - 1);
}

/// Opens a reader of a shared counter. If its request is refused, the counter wasn't read.
#[test]
fn a_shared_reader_or_no_memory(rt: HostRuntime) -> Result<(), Fail> {
    let ticker = SharedTicker::new(7, 1);
    let first = match SharedReader::new(rt.alloc(), &ticker) {
        Ok(mut reader) => reader.read(),
        Err(_) => ticker.read(&Look::first(rt.alloc())?),
    };
    assert_same(&rt, &first, &7);
    Ok(())
}
