//! Finds commands and clocks by their numbers in C.
ghost use Rattle.std.specs.Prelude.{◌≡◌};
ghost use Rattle.tk_c.specs.Named.{command_named, clock_named};

use tk_clock::{ClockId, Command, Timespec};

/// Returns the command with a number of `enum tkc_command`, or `None` if there is none.
pub(crate) fn command_named(command: u32, number: i64, nsec: u32) -> Option<Command>
    ensures { result ≡ command_named command number nsec }
{
    let time = Timespec { sec: number, nsec };
    match command {
        0 => Some(Command::Update),
        1 => Some(Command::SetTime(time)),
        2 => Some(Command::Step(time)),
        3 => Some(Command::Freq(number)),
        4 => Some(Command::Tick(number)),
        5 => Some(Command::Tai(number)),
        6 => Some(Command::Suspend),
        7 => Some(Command::Resume(time)),
        8 => Some(Command::Leap {
            by: number,
            tai: i64::from(nsec),
        }),
        _ => None,
    }
}

/// Returns the clock with a number of `enum tkc_clock_id`, or `None` if there is none. The numbers
/// are the clock ids of clock_gettime(2).
pub(crate) fn clock_named(clock: u32) -> Option<ClockId>
    ensures { result ≡ clock_named clock }
{
    match clock {
        0 => Some(ClockId::Realtime),
        1 => Some(ClockId::Monotonic),
        4 => Some(ClockId::MonotonicRaw),
        5 => Some(ClockId::RealtimeCoarse),
        6 => Some(ClockId::MonotonicCoarse),
        7 => Some(ClockId::Boottime),
        11 => Some(ClockId::Tai),
        _ => None,
    }
}
