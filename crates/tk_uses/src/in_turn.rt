//! Two threads ask for MONOTONIC, with a command between them: the later answer isn't smaller. The
//! keeper stays open.
ghost use Rattle.std.specs.Prelude.{◌≡◌, ◌%◌, ◌^◌, ◌≤ℤ◌, IfOk, IfSome};
ghost use Rattle.tk_clock.specs.Time.{nanoseconds};
ghost use Rattle.tk_shared.specs.Callers.{IsKnownBy};
ghost use Rattle.tk_shared.specs.NeverBack.{HasSeen};
ghost use Rattle.tk_shared.specs.Opening.{IsNamed};
ghost use Rattle.tk_uses.specs.InTurn.{HasCommanded, HaveAsked, HaveRisen, IsTrusted};

use crate::stop::Stop;
use std::alloc::Global;
use std::marker::Brand;
use std::sync::Wait;
use std::thread::{self, Threads};
use tk_clock::{ClockId, Command, Timespec};
use tk_counter::CounterDesc;
use tk_now::{Look, SharedCounter};
use tk_shared::{
    Caller, Counter, Named, OpenError, Prepared, SharedKeeper, SharedReader, now_never_falls,
    prepare,
};

/// A stopped counter: each reading is `READING`.
#[derive(Drop)]
pub(crate) struct Stopped<const READING: u64>;

impl<const READING: u64> SharedCounter for Stopped<READING> {
    ghost use Rattle.std.specs.Prelude.{◌≡◌};

    ghost answers = { λ _ _ answer. answer ≡ READING };

    fn read(&self, _look: &Look) -> u64 {
        READING
    }
}

/// A caller, and the time that it got.
#[derive(Drop)]
pub(crate) struct Asked<L: Named> {
    pub(crate) caller: Caller<L>,
    pub(crate) time: Timespec,
}

/// Opens clocks on a stopped counter for two callers, and prints their times.
pub(crate) fn run<R: Threads + Wait + Print + Sync>(rt: &R, alloc: Global) -> Result<(), Stop> {
    let stopped = Stopped::<1_000_000>;
    tell(rt, "two threads", rises(rt, alloc, &stopped)?)
}

/// Prints two times, or that there are none because another caller gave a command.
pub(crate) fn tell(
    rt: &impl Print,
    who: &str,
    times: Option<(Timespec, Timespec)>,
) -> Result<(), Stop> {
    match times {
        Some((first, then)) => {
            println!(rt;
                "{who}: {}.{:09}, then {}.{:09}",
                first.sec, first.nsec, then.sec, then.nsec
            )?;
        }
        None => println!(rt; "{who}: other commands came between")?,
    }
    Ok(())
}

/// Returns MONOTONIC before a command and after it, of two threads. The counter's readings are
/// known, so that nothing has to be assumed of it.
fn rises<R: Threads + Wait + Sync>(
    rt: &R,
    alloc: Global,
    stopped: &Stopped<1_000_000>,
) -> Result<Option<(Timespec, Timespec)>, Stop>
    ensures { IfOk result (λ times. IfSome times (λ t. nanoseconds t.0 ≤ℤ nanoseconds t.1)) }
{
    let prepared = prepared(rt, alloc, stopped, 2)?;
    in_turn::<Brand, _, _, _>(rt, alloc, prepared, stopped)
}

/// Prepares clocks on a stopped counter for this number of callers.
pub(crate) fn prepared<'c, R: Wait>(
    rt: &R,
    alloc: Global,
    stopped: &'c Stopped<1_000_000>,
    callers: usize,
) -> Result<Prepared<SharedReader<'c, Stopped<1_000_000>>>, Stop>
    ensures opened { IfOk result (λ prepared. let opening = prepared.journal.opening in
        opening.reading ≡ 1000000 % 2 ^ opening.counter.bits) }
{
    let desc = CounterDesc::from_hz(32, 1_000_000, 600)?;
    let real = Timespec {
        sec: 1_700_000_000,
        nsec: 0,
    };
    let counter = SharedReader::new(alloc, stopped)?;
    match prepare(alloc, rt, desc, real, counter, callers, 0) {
        Ok(prepared) => Ok(prepared),
        Err(fault) => Err(Stop::Open(fault.error)),
    }
}

/// Opens what was prepared, and returns MONOTONIC before a command and after it, of two threads.
/// `None` means that the keeper has other callers too, and one of them gave a command.
fn in_turn<L: Named + Send + Sync, C: Counter, S: SharedCounter + Sync, R: Threads + Wait + Sync>(
    rt: &R,
    alloc: Global,
    prepared: Prepared<C>,
    counter: &S,
) -> Result<Option<(Timespec, Timespec)>, Stop>
    requires named { IsNamed prepared L.page L.latch L.notice L.name L.parts L.callers }
    requires trusted { IsTrusted C.answers_after S.answers counter.now prepared.journal.opening }
    ensures { IfOk result (λ times. IfSome times (λ t.
        HaveRisen S.answers counter.now prepared.journal.opening t.0 t.1)) }
{
    let (keeper, mut callers) = match SharedKeeper::<L, C>::open(alloc, prepared) {
        Ok(opened) => opened,
        Err(fault) => return Err(Stop::Open(fault.error)),
    };
    let (Some(two), Some(one)) = (callers.pop(), callers.pop()) else {
        return Err(Stop::Open(OpenError::Count));
    };
    both_ask(rt, &keeper, one, two, counter)
}

/// Lets two threads ask for MONOTONIC, with a command of the first caller between them, and returns
/// both times. The first one's call is over before the second thread starts.
fn both_ask<L: Named + Send + Sync, C: Counter, S: SharedCounter + Sync, R: Threads + Wait + Sync>(
    rt: &R,
    keeper: &SharedKeeper<L, C>,
    one: Caller<L>,
    mut two: Caller<L>,
    counter: &S,
) -> Result<Option<(Timespec, Timespec)>, Stop>
    requires trusted { IsTrusted C.answers_after S.answers counter.now one.seen.opening }
    ensures { IfOk result (λ times. IfSome times (λ t.
        HaveRisen S.answers counter.now one.seen.opening t.0 t.1)) }
{
    let (first, ()) = thread::join(rt, move || ask(rt, keeper, one, counter), || {});
    let mut first = first?;
    keeper.command(rt, &mut first.caller, Command::Update)?;
    keeper.follow(rt, &mut two, &mut first.caller);
    let (later, ()) = thread::join(rt, move || ask(rt, keeper, two, counter), || {});
    let later = later?;
    Ok(compared(rt, keeper, counter, first, later))
}

/// Asks for MONOTONIC.
pub(crate) fn ask<L: Named, C: Counter, S: SharedCounter, R: Wait>(
    rt: &R,
    keeper: &SharedKeeper<L, C>,
    caller: Caller<L>,
    counter: &S,
) -> Result<Asked<L>, Stop>
    ensures asked { IfOk result (λ asked.
        HasSeen S.answers counter.now caller asked.caller asked.time) }
    ensures opening { IfOk result (λ asked. asked.caller.seen.opening ≡ caller.seen.opening) }
    // the caller knows all that it knew
    ensures known { IfOk result (λ asked. IsKnownBy caller asked.caller) }
{
    let mut caller = caller;
    let time = keeper.now(rt, &mut caller, counter, ClockId::Monotonic)?;
    Ok(Asked { caller, time })
}

/// Lets the second caller follow the first one, and returns both times if only one command was
/// accepted.
fn compared<L: Named, C: Counter, S: SharedCounter, R: Wait>(
    rt: &R,
    keeper: &SharedKeeper<L, C>,
    counter: &S,
    first: Asked<L>,
    later: Asked<L>,
) -> Option<(Timespec, Timespec)>
    requires asked { HaveAsked S.answers counter.now first.caller later.caller first.time later.time }
    requires commanded { HasCommanded C.answers_after first.caller }
    requires trusted { IsTrusted C.answers_after S.answers counter.now later.caller.seen.opening }
    ensures times { IfSome result (λ t. t ≡ (first.time, later.time)) }
    ensures risen { IfSome result (λ t.
        HaveRisen S.answers counter.now later.caller.seen.opening t.0 t.1) }
{
    let _ = counter;
    let (mut one, mut two) = (first.caller, later.caller);
    keeper.follow(rt, &mut two, &mut one);
    if two.front() != 1 {
        return None;
    }
    now_never_falls::<S>();
    Some((first.time, later.time))
}
