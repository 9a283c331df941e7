//! Shows three threads that share the clocks of a machine: one gives commands, two ask for the time
//! now.
ghost use Rattle.std.specs.Prelude.{◌≡◌, ℕ, IfOk};
ghost use Rattle.tk_clock.specs.Clocks.{clock_value};
ghost use Rattle.tk_clock.specs.Time.{nanoseconds};
ghost use Rattle.tk_page.specs.History.{Begins};
ghost use Rattle.tk_shared.specs.Opening.{IsNamed};

use crate::stop::Stop;
use std::alloc::Global;
use std::marker::Brand;
use std::sync::Wait;
use std::sync::atomic::{AtomicU64, Ordering};
use std::thread::{self, Threads};
use tk_clock::{ClockId, Command, ReadError, Refusal, Timespec};
use tk_counter::CounterDesc;
use tk_now::{Look, SharedCounter};
use tk_shared::{Caller, Counter, Named, OpenError, Prepared, SharedKeeper, SharedReader, prepare};

/// The number of commands of one thread.
const COMMANDS: u64 = 100;

/// The number of answers of each of the other two threads.
const ANSWERS: u64 = 1_000;

/// The counter of the machine, which all threads read. This one counts its reads, as cycles of 1
/// MHz; in a kernel `read` would be `rdtsc` between two fences.
#[derive(Drop)]
struct Machine {
    cycles: AtomicU64,
}

impl SharedCounter for Machine {
    ghost use Rattle.std.specs.Prelude.{◌<◌, ◌^◌};

    ghost answers = { λ _ _ answer. answer < 2 ^ 64 };

    fn read(&self, _look: &Look) -> u64 {
        self.cycles.fetch_add(1, Ordering::SeqCst)
    }
}

/// The results of the threads.
#[derive(Clone, Copy)]
struct Work {
    /// The number of accepted commands.
    commands: u64,
    /// The number of answers that were below the one before.
    fell: u64,
}

/// Opens the clocks for three callers, lets them work, and prints their results.
pub(crate) fn run<R: Threads + Wait + Print + Sync>(rt: &R, alloc: Global) -> Result<(), Stop> {
    let machine = Machine {
        cycles: AtomicU64::new(0),
    };
    let desc = CounterDesc::from_hz(32, 1_000_000, 600)?;
    let real = Timespec {
        sec: 1_700_000_000,
        nsec: 0,
    };
    let counter = SharedReader::new(alloc, &machine)?;
    let prepared = match prepare(alloc, rt, desc, real, counter, 3, 0) {
        Ok(prepared) => prepared,
        Err(fault) => return Err(Stop::Open(fault.error)),
    };
    let work = works::<Brand, _, _>(rt, alloc, &machine, prepared)?;
    let (commands, fell) = (work.commands, work.fell);
    println!(rt; "three threads: {commands} commands, {fell} answers below the one before")?;
    Ok(())
}

/// Opens the prepared keeper. `L` names its parts, so no value of type `L` leaves this function.
fn works<L: Named + Send + Sync, C: Counter, R: Threads + Wait + Sync>(
    rt: &R,
    alloc: Global,
    machine: &Machine,
    prepared: Prepared<C>,
) -> Result<Work, Stop>
    requires named { IsNamed prepared L.page L.latch L.notice L.name L.parts L.callers }
{
    let (keeper, mut callers) = match SharedKeeper::<L, C>::open(alloc, prepared) {
        Ok(opened) => opened,
        Err(fault) => return Err(Stop::Open(fault.error)),
    };
    all_work(rt, &keeper, machine, callers.as_mut_slice())
}

/// Lets the first caller give commands while the other two ask for the time.
fn all_work<L: Named + Send + Sync, C: Counter, R: Threads + Wait + Sync>(
    rt: &R,
    keeper: &SharedKeeper<L, C>,
    machine: &Machine,
    callers: &mut [Caller<L>],
) -> Result<Work, Stop> {
    let Some((one, others)) = callers.split_first_mut() else {
        return Err(Stop::Open(OpenError::Count));
    };
    let (commands, fell) = thread::join(
        rt,
        move || steers(rt, keeper, one),
        move || both_ask(rt, keeper, machine, others),
    );
    Ok(Work {
        commands: commands?,
        fell: fell?,
    })
}

/// Lets two callers ask at once, and returns the number of all their answers that were below the
/// one before.
fn both_ask<L: Named + Send + Sync, C: Counter, R: Threads + Wait + Sync>(
    rt: &R,
    keeper: &SharedKeeper<L, C>,
    machine: &Machine,
    callers: &mut [Caller<L>],
) -> Result<u64, Stop> {
    let Some((one, others)) = callers.split_first_mut() else {
        return Err(Stop::Open(OpenError::Count));
    };
    let Some(two) = others.first_mut() else {
        return Err(Stop::Open(OpenError::Count));
    };
    let (fell, also) = thread::join(
        rt,
        move || asks(rt, keeper, one, machine),
        move || asks(rt, keeper, two, machine),
    );
    Ok(fell?.wrapping_add(also?))
}

/// Sets the clocks to run faster and slower in turn, and returns the number of accepted commands.
fn steers<L: Named, C: Counter, R: Wait>(
    rt: &R,
    keeper: &SharedKeeper<L, C>,
    caller: &mut Caller<L>,
) -> Result<u64, Refusal> {
    for turn in 0..COMMANDS {
        let ppm = if turn % 2 == 0 { 500 } else { -500 };
        keeper.command(rt, caller, Command::Freq(ppm << 16))?;
    }
    Ok(caller.accepted())
}

/// Asks repeatedly, and returns the number of answers that were below the one before.
fn asks<L: Named, C: Counter, R: Wait>(
    rt: &R,
    keeper: &SharedKeeper<L, C>,
    caller: &mut Caller<L>,
    machine: &Machine,
) -> Result<u64, ReadError> {
    let mut fell = 0u64;
    let mut last = (0, 0);
    for _ in 0..ANSWERS {
        let time = monotonic_now(rt, keeper, caller, machine)?;
        let now = (time.sec, time.nsec);
        if now < last {
            fell = fell.wrapping_add(1);
        }
        last = now;
    }
    Ok(fell)
}

/// Returns MONOTONIC now: its value at a reading of this call, by the commands that the caller has
/// seen by then.
fn monotonic_now<L: Named, C: Counter, R: Wait>(
    rt: &R,
    keeper: &SharedKeeper<L, C>,
    caller: &mut Caller<L>,
    machine: &Machine,
) -> Result<Timespec, ReadError>
    ensures extends { Begins caller.old.seen caller.new.seen }
    ensures value { IfOk result (λ time. (reading : ℕ)
        × (nanoseconds time ≡ clock_value caller.new.seen ClockId.Monotonic reading)) }
{
    keeper.now(rt, caller, machine, ClockId::Monotonic)
}
