use crate::order::{numbers_of, timex_of};
use std::alloc::{AllocError, Global};
use tk_clock::{Command, Timespec};
use tk_counter::CounterDesc;
use tk_ntp::Timex;

/// Represents an order to steered clocks, with its numbers in the ranges of their types.
#[derive(Clone, Copy)]
pub enum SteeredOrder {
    /// Opens the clocks of a counter at a reading and a time of REALTIME, with this `hz`.
    Open(CounterDesc, u64, Timespec, u32),
    /// Advances to a reading.
    Advance(u64),
    /// Advances late to a reading.
    AdvanceLate(u64),
    /// Asks the discipline at a reading.
    Ask(u64, Timex),
    /// Applies a command at a reading.
    Apply(u64, Command),
}

impl SteeredOrder {
    /// Reads an order from a line. `None` means that the line is no order to steered clocks.
    pub fn read(alloc: Global, line: &str) -> Result<Option<SteeredOrder>, AllocError> {
        let Some((word, rest)) = line.split_once(',') else {
            return Ok(None);
        };
        let numbers = numbers_of(alloc, rest)?;
        Ok(order_of(word, numbers.as_slice()))
    }
}

/// Returns the order of a word and its numbers.
fn order_of(word: &str, numbers: &[i64]) -> Option<SteeredOrder> {
    if word == "open" {
        return open_order(numbers);
    }
    let [reading, rest @ ..] = numbers else {
        return None;
    };
    let reading = u64::try_from(*reading).ok()?;
    Some(match word {
        "advance" => SteeredOrder::Advance(reading),
        "late" => SteeredOrder::AdvanceLate(reading),
        "ask" => SteeredOrder::Ask(reading, timex_of(rest)?),
        _ => SteeredOrder::Apply(reading, command_of(word, rest)?),
    })
}

fn open_order(numbers: &[i64]) -> Option<SteeredOrder> {
    let [bits, mult, shift, reading, sec, nsec, hz] = numbers else {
        return None;
    };
    let bits = u32::try_from(*bits).ok()?;
    let mult = u32::try_from(*mult).ok()?;
    let shift = u32::try_from(*shift).ok()?;
    let desc = CounterDesc::new(bits, mult, shift).ok()?;
    let reading = u64::try_from(*reading).ok()?;
    let hz = u32::try_from(*hz).ok()?;
    Some(SteeredOrder::Open(desc, reading, time_of(*sec, *nsec)?, hz))
}

/// Returns the command of a word and its numbers.
fn command_of(word: &str, numbers: &[i64]) -> Option<Command> {
    Some(match (word, numbers) {
        ("update", []) => Command::Update,
        ("suspend", []) => Command::Suspend,
        ("freq", [number]) => Command::Freq(*number),
        ("tick", [number]) => Command::Tick(*number),
        ("tai", [number]) => Command::Tai(*number),
        ("leap", [by, tai]) => Command::Leap { by: *by, tai: *tai },
        ("set", [sec, nsec]) => Command::SetTime(time_of(*sec, *nsec)?),
        ("step", [sec, nsec]) => Command::Step(time_of(*sec, *nsec)?),
        ("resume", [sec, nsec]) => Command::Resume(time_of(*sec, *nsec)?),
        _ => return None,
    })
}

fn time_of(sec: i64, nsec: i64) -> Option<Timespec> {
    let nsec = u32::try_from(nsec).ok()?;
    Some(Timespec { sec, nsec })
}
