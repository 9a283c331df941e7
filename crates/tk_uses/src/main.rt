//! Runs the clocks of a counter of 1 MHz through settings, a timer, a sleep and a fold, and prints
//! their values on the way. At the end threads share clocks.
#![tactic(auto)]

mod in_turn;
mod numbers;
mod steered;
mod stop;
mod threads;

ghost use Rattle.std.specs.Prelude.{◌≡◌, ◌≤ℤ◌, IfOk, IfSome, MatchOption};
ghost use Rattle.tk_clock.specs.Clocks.{clock_value};
ghost use Rattle.tk_clock.specs.Monotonic.{monotonic};
ghost use Rattle.tk_clock.specs.Reach.{IsFirstReached, IsNeverReached};
ghost use Rattle.tk_clock.specs.Snapshot.{snapshot_of};
ghost use Rattle.tk_clock.specs.Time.{nanoseconds};
ghost use Rattle.tk_keeper.specs.Past.{at_front};

use numbers::bounds;
use std::alloc::Global;
use stop::Stop;
use tk_clock::{ClockId, Command, Timespec};
use tk_counter::CounterDesc;
use tk_keeper::Timekeeper;

/// The number of this caller, which the journal stores with every entry.
const WHO: u32 = 7;

fn main(rt: HostRuntime) -> Result<(), Stop> {
    let mut keeper = opened(rt.alloc())?;
    bounds(&rt, keeper.snapshot().desc())?;
    tell(&rt, &keeper, 1_000_000)?;
    settings(&rt, &mut keeper)?;
    sleep(&rt, &mut keeper)?;
    fold(&rt, &mut keeper)?;
    threads::run(&rt, rt.alloc())?;
    in_turn::run(&rt, rt.alloc())?;
    steered::run(&rt, rt.alloc())
}

/// Opens the clocks of a counter with 1 microsecond a cycle and 32-bit readings. At the reading 0
/// REALTIME is 1,700,000,000 s.
fn opened(alloc: Global) -> Result<Timekeeper, Stop> {
    let desc = CounterDesc::from_hz(32, 1_000_000, 600)?;
    Ok(Timekeeper::open(alloc, desc, 0, time(1_700_000_000, 0))?)
}

/// Sets REALTIME, steps it back by 1.25 s, and makes the clocks run 500 ppm faster, starting at 5
/// s.
fn settings(rt: &impl Print, keeper: &mut Timekeeper) -> Result<(), Stop> {
    let set = time(1_700_000_100, 500_000_000);
    act(rt, keeper, 2_000_000, Command::SetTime(set))?;
    tell(rt, keeper, 3_000_000)?;
    act(rt, keeper, 4_000_000, Command::Step(time(-2, 750_000_000)))?;
    tell(rt, keeper, 4_000_000)?;
    act(rt, keeper, 5_000_000, Command::Freq(500 << 16))?;
    tell(rt, keeper, 7_000_000)?;
    timer(rt, keeper, time(1_700_000_106, 0))
}

/// Suspends the clocks, and resumes them with a counter that has restarted. The resume gives the
/// length of the sleep, 60.25 s. An update during the sleep is refused.
fn sleep(rt: &impl Print, keeper: &mut Timekeeper) -> Result<(), Stop> {
    act(rt, keeper, 7_000_000, Command::Suspend)?;
    tell(rt, keeper, 9_000_000)?;
    timer(rt, keeper, time(1_700_000_106, 0))?;
    act(rt, keeper, 9_000_000, Command::Update)?;
    act(rt, keeper, 100, Command::Resume(time(60, 250_000_000)))?;
    tell(rt, keeper, 1_000_100)
}

/// Folds all commands except for the last two. The clocks keep their values, and stamps of the
/// fronts 3 to 5 still convert. After the fold front 2 has no snapshot, and front 6 doesn't exist
/// yet.
fn fold(rt: &impl Print, keeper: &mut Timekeeper) -> Result<(), Stop> {
    let folded = keeper.fold(2);
    println!(rt; "folded {folded} of {}", keeper.len())?;
    tell(rt, keeper, 1_000_100)?;
    for (front, stamp) in [(2, 4_500_000), (3, 6_000_000), (5, 100), (6, 100)] {
        match wall_time(keeper, front, stamp) {
            Ok(time) => println!(rt; "front {front}, {stamp}: {}.{:09}", time.sec, time.nsec)?,
            Err(why) => println!(rt; "front {front}, {stamp}: {why:?}")?,
        }
    }
    Ok(())
}

/// Applies a command, and prints its number or the refusal. In both cases MONOTONIC at the reading
/// is the same before and after.
fn act(rt: &impl Print, keeper: &mut Timekeeper, reading: u64, cmd: Command) -> Result<(), Stop>
    ensures { monotonic keeper.new.journal reading ≡ monotonic keeper.old.journal reading }
{
    match keeper.apply(WHO, reading, cmd) {
        Ok(number) => println!(rt; "at {reading}: {cmd:?} is command {number}")?,
        Err(refusal) => println!(rt; "at {reading}: {cmd:?} is refused: {refusal:?}")?,
    }
    Ok(())
}

/// Prints the reading to which a timer is set that expires at a REALTIME, and REALTIME there.
fn timer(rt: &impl Print, keeper: &Timekeeper, at: Timespec) -> Result<(), Stop> {
    match expiry(keeper, at) {
        Some(reading) => {
            let time = keeper.get(ClockId::Realtime, reading)?;
            println!(rt; "timer at {reading}: {}.{:09}", time.sec, time.nsec)?;
        }
        None => println!(rt; "no timer for {}.{:09}", at.sec, at.nsec)?,
    }
    Ok(())
}

/// Returns the first reading at which REALTIME has reached a time. A command may change it, so the
/// timer must then be set again. Returns `None` if the clocks are asleep, or if the time is further
/// off than half the counter's range.
fn expiry(keeper: &Timekeeper, at: Timespec) -> Option<u64>
    ensures reached { IfSome result (λ reading. nanoseconds at
        ≤ℤ clock_value keeper.now.journal ClockId.Realtime reading) }
    ensures first { let base = (snapshot_of keeper.now.journal).base in MatchOption result
        (IsNeverReached base ClockId.Realtime (nanoseconds at))
        (λ reading. IsFirstReached base ClockId.Realtime (nanoseconds at) reading) }
{
    keeper.snapshot().reading_at(ClockId::Realtime, at)
}

/// Returns REALTIME at a stamp that was noted at a front, by the journal as it was then.
fn wall_time(keeper: &Timekeeper, front: u64, stamp: u64) -> Result<Timespec, Stop>
    ensures { IfOk result (λ time. nanoseconds time
        ≡ clock_value (at_front front keeper.now.journal) ClockId.Realtime stamp) }
{
    let snapshot = keeper.snapshot_at(front)?;
    Ok(snapshot.get(ClockId::Realtime, stamp)?)
}

/// Prints four clocks at a reading.
fn tell(rt: &impl Print, keeper: &Timekeeper, reading: u64) -> Result<(), Stop> {
    println!(rt; "at {reading}:")?;
    for clock in [
        ClockId::Monotonic,
        ClockId::MonotonicRaw,
        ClockId::Boottime,
        ClockId::Realtime,
    ] {
        let time = keeper.get(clock, reading)?;
        println!(rt; "    {clock:?} {}.{:09}", time.sec, time.nsec)?;
    }
    Ok(())
}

fn time(sec: i64, nsec: u32) -> Timespec {
    Timespec { sec, nsec }
}
