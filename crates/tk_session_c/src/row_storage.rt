ghost use Rattle.std.specs.Prelude.{◌≡◌};
ghost use Rattle.tk_session_c.specs.Rows as spec;

use crate::request_storage::RequestStorage;
use std::mem::size_of;
use tk_clock::{ClockId, Command};
use tk_counter::CounterDesc;
use tk_script::Row;

const _: () = prove!(size_of::<RowStorage>() == 272);

/// The kinds of a row.
const COMMAND: u32 = 0;

const READ: u32 = 1;

const CHANGE: u32 = 2;

const REQUEST: u32 = 3;

/// Describes the memory that a row is written to: `struct tkc_row`. A field that its kind doesn't
/// have is 0 once it is written.
#[repr(C)]
#[derive(Clone, Copy)]
pub struct RowStorage {
    /// The reading of the present counter, in cycles.
    pub reading: u64,
    /// A command's number, as `tkc_clock_apply` takes it.
    pub number: i64,
    /// The value that a read's record states, in ns.
    pub value: u64,
    /// The reading at which the next counter starts, in cycles.
    pub first: u64,
    /// 0 for a command, 1 for a read, 2 for a change of counter, 3 for a request.
    pub kind: u32,
    /// A command, by `enum tkc_command`.
    pub command: u32,
    /// A command's nanoseconds, as `tkc_clock_apply` takes them.
    pub nsec: u32,
    /// The clock of a read, by `enum tkc_clock_id`.
    pub clock: u32,
    /// 1 if a read's record states a value, otherwise 0.
    pub has_value: u32,
    /// The bits of a reading of the next counter.
    pub bits: u32,
    /// The mult of the next counter.
    pub mult: u32,
    /// The shift of the next counter.
    pub shift: u32,
    /// A request.
    pub timex: RequestStorage,
}

impl RowStorage {
    /// Returns the memory of a row.
    pub(crate) fn of(row: &Row) -> RowStorage
        ensures { result ≡ spec.row_storage row.now }
    {
        match *row {
            Row::Act { reading, cmd } => RowStorage::of_command(reading, cmd),
            Row::Look {
                reading,
                clock,
                expected,
            } => RowStorage::of_read(reading, clock, expected),
            Row::Change {
                reading,
                desc,
                first,
            } => RowStorage::of_change(reading, desc, first),
            Row::Ask { reading, request } => RowStorage {
                timex: RequestStorage::of(&request),
                ..RowStorage::blank(REQUEST, reading)
            },
        }
    }

    /// Returns the memory of a row of a kind, in which the other fields are 0.
    fn blank(kind: u32, reading: u64) -> RowStorage
        ensures { result ≡ spec.blank kind reading }
    {
        RowStorage {
            reading,
            number: 0,
            value: 0,
            first: 0,
            kind,
            command: 0,
            nsec: 0,
            clock: 0,
            has_value: 0,
            bits: 0,
            mult: 0,
            shift: 0,
            timex: RequestStorage::none(),
        }
    }

    /// Returns the memory of a command at a reading. No row has the command `Leap`.
    fn of_command(reading: u64, cmd: Command) -> RowStorage
        ensures { result ≡ spec.command_storage reading cmd }
    {
        match cmd {
            Command::Update => RowStorage::numbered(reading, 0, 0, 0),
            Command::SetTime(time) => RowStorage::numbered(reading, 1, time.sec, time.nsec),
            Command::Step(time) => RowStorage::numbered(reading, 2, time.sec, time.nsec),
            Command::Freq(frequency) => RowStorage::numbered(reading, 3, frequency, 0),
            Command::Tick(tick) => RowStorage::numbered(reading, 4, tick, 0),
            Command::Tai(tai) => RowStorage::numbered(reading, 5, tai, 0),
            Command::Suspend => RowStorage::numbered(reading, 6, 0, 0),
            Command::Resume(time) => RowStorage::numbered(reading, 7, time.sec, time.nsec),
            Command::Leap { .. } => RowStorage::numbered(reading, 8, 0, 0),
        }
    }

    /// Returns the memory of the command with a number, and its arguments.
    fn numbered(reading: u64, command: u32, number: i64, nsec: u32) -> RowStorage
        ensures { result ≡ spec.numbered reading command number nsec }
    {
        RowStorage {
            command,
            number,
            nsec,
            ..RowStorage::blank(COMMAND, reading)
        }
    }

    /// Returns the memory of a read, with the value that its record states.
    fn of_read(reading: u64, clock: ClockId, expected: Option<u64>) -> RowStorage
        ensures { result ≡ spec.read_storage reading clock expected }
    {
        RowStorage {
            clock: clock_number(clock),
            has_value: u32::from(expected.is_some()),
            value: expected.unwrap_or(0),
            ..RowStorage::blank(READ, reading)
        }
    }

    /// Returns the memory of a change of counter.
    fn of_change(reading: u64, desc: CounterDesc, first: u64) -> RowStorage
        ensures { result ≡ spec.change_storage reading desc first }
    {
        RowStorage {
            bits: desc.bits(),
            mult: desc.mult(),
            shift: desc.shift(),
            first,
            ..RowStorage::blank(CHANGE, reading)
        }
    }
}

/// Returns the number of a clock, as in clock_gettime(2).
fn clock_number(clock: ClockId) -> u32
    ensures { result ≡ spec.clock_number clock }
{
    match clock {
        ClockId::Realtime => 0,
        ClockId::Monotonic => 1,
        ClockId::MonotonicRaw => 4,
        ClockId::RealtimeCoarse => 5,
        ClockId::MonotonicCoarse => 6,
        ClockId::Boottime => 7,
        ClockId::Tai => 11,
    }
}
