//! Describes the memory that steered clocks are written to.
ghost use Rattle.std.specs.Prelude.{◌≡◌};
ghost use Rattle.tk_c.specs.NtpStorage.{ntp_storage, discipline_storage};

use crate::counted_ntp::CountedNtp;
use crate::general_registers::store_base;
use crate::storage::BaseStorage;
use std::mem::size_of;
use tk_ntp::{DisciplineNumbers, LagNumbers, SteeredClock};

const _: () = prove!(size_of::<CountedNtp>() == size_of::<NtpStorage>());

const _: () = prove!(size_of::<DisciplineNumbers>() == size_of::<DisciplineStorage>());

const _: () = prove!(size_of::<NtpStorage>() == 224);

/// Describes the memory that a discipline is written to: `DisciplineNumbers` with its padding, in
/// the units of its fields.
#[repr(C)]
#[derive(Clone, Copy)]
pub struct DisciplineStorage {
    /// The parts of a second.
    pub hz: u32,
    /// The status.
    pub status: u32,
    /// The number of the state of the leap second.
    pub state: u32,
    /// 1 if a leap comes, otherwise 0.
    pub is_due: u8,
    /// The padding, 0 once a value is written.
    pub padding: [u8; 3],
    /// The second of REALTIME whose beginning is the leap, or 0.
    pub due: u64,
    /// The phase still to give.
    pub offset: i64,
    /// The time constant.
    pub constant: u32,
    /// The greatest error.
    pub maxerror: u32,
    /// The estimated error.
    pub esterror: u32,
    /// The tick that was asked for.
    pub tick: u32,
    /// The gain of a second.
    pub frequency: i64,
    /// The second of the last offset.
    pub reftime: u64,
    /// The rest of `adjtime`.
    pub adjust: i64,
    /// The phase of the present second.
    pub phase: i64,
}

/// Describes the memory that steered clocks are written to: `struct tkc_ntp`.
#[repr(C)]
#[derive(Clone, Copy)]
pub struct NtpStorage {
    /// The part that reads use.
    pub base: BaseStorage,
    /// The frequency as it was set, in `2^-16` ppm.
    pub frequency: i64,
    /// The tick in force, in microseconds.
    pub tick: i64,
    /// The number of accepted commands.
    pub front: u64,
    /// The discipline.
    pub ntp: DisciplineStorage,
    /// The lag.
    pub lag: LagNumbers,
    /// The length of the present second, in `2^-32` ns.
    pub length: i64,
    /// The second of REALTIME that begins next.
    pub next: u64,
    /// The reading up to which the lag is accounted for.
    pub last_account: u64,
}

/// Writes steered clocks that have accepted `front` commands, one field at a time and never two
/// neighbours in sequence. It is inline, so that the call's frame contains no copy of them.
#[inline(always)]
pub(crate) fn store_ntp(out: &mut NtpStorage, steered: &SteeredClock, front: u64)
    ensures { out.new ≡ ntp_storage front steered.now }
{
    let clock = steered.clock();
    let numbers = steered.numbers();
    store_base(&mut out.base, &clock.snapshot(front));
    out.frequency = clock.frequency();
    out.lag.high = numbers.steering.lag.high;
    out.tick = clock.tick();
    store_discipline(&mut out.ntp, &numbers.steering.ntp);
    out.next = numbers.next;
    out.lag.low = numbers.steering.lag.low;
    out.last_account = numbers.last_account;
    out.length = steered.second_length();
    out.front = front;
}

/// Writes the numbers of a discipline, never two neighbours in sequence.
#[inline(always)]
fn store_discipline(out: &mut DisciplineStorage, numbers: &DisciplineNumbers)
    ensures { out.new ≡ discipline_storage numbers.now }
{
    out.hz = numbers.hz;
    out.due = numbers.plan.due;
    out.state = numbers.plan.state;
    out.frequency = numbers.frequency;
    out.status = numbers.status;
    out.offset = numbers.offset;
    out.is_due = numbers.plan.is_due;
    out.padding = [0; 3];
    out.adjust = numbers.adjust;
    out.constant = numbers.constant;
    out.reftime = numbers.reftime;
    out.esterror = numbers.esterror;
    out.phase = numbers.phase;
    out.maxerror = numbers.maxerror;
    out.tick = numbers.tick;
}
