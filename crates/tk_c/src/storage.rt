//! Describes the memory that values are written to. Before the write it may contain any bytes.
//!
//! A storage contains the fields of its value in the value's order, so the written bytes are that
//! value.
ghost use Rattle.std.specs.Prelude.{◌≡◌};
ghost use Rattle.tk_c.specs.Storage.{counter_storage, base_storage, snapshot_storage, clock_storage};

use crate::counted::CountedClock;
use std::mem::size_of;
use tk_clock::{Clock, Snapshot};
use tk_counter::CounterDesc;

const _: () = prove!(size_of::<CounterDesc>() == size_of::<CounterStorage>());

const _: () = prove!(size_of::<Snapshot>() == size_of::<SnapshotStorage>());

const _: () = prove!(size_of::<TimeStorage>() == 16);

const _: () = prove!(size_of::<CountedClock>() == size_of::<ClockStorage>());

/// Describes the memory that a counter is written to: `struct tkc_counter`. A cycle lasts
/// `mult / 2^shift` ns.
#[repr(C)]
#[derive(Clone, Copy)]
pub struct CounterStorage {
    /// The bits of a reading, 8 to 64 once a counter is written.
    pub bits: u32,
    /// The mult of a cycle.
    pub mult: u32,
    /// The shift of a cycle.
    pub shift: u32,
}

/// Describes the part of a snapshot and of clocks that reads use, in the units of tk_clock.
#[repr(C)]
#[derive(Clone, Copy)]
pub struct BaseStorage {
    /// The counter.
    pub counter: CounterStorage,
    /// The amount that a cycle adds to MONOTONIC, in `2^-shift` ns.
    pub mult: u32,
    /// The reading of the last accepted command, or of the opening.
    pub last: u64,
    /// REALTIME minus MONOTONIC, in ns.
    pub real_offset: u64,
    /// MONOTONIC at `last`, whole seconds.
    pub sec: u64,
    /// MONOTONIC at `last`, the part below a second in `2^-shift` ns.
    pub frac: u64,
    /// MONOTONIC_RAW at `last`, whole seconds.
    pub raw_sec: u64,
    /// MONOTONIC_RAW at `last`, the part below a second in `2^-shift` ns.
    pub raw_frac: u64,
    /// BOOTTIME minus MONOTONIC, in ns.
    pub boot_offset: u64,
    /// TAI minus REALTIME, in seconds.
    pub tai: u32,
    /// 1 while the clocks are asleep, otherwise 0.
    pub asleep: u8,
    /// The padding, 0 once a value is written.
    pub padding: [u8; 3],
}

/// Describes the memory that a snapshot is written to: `struct tkc_snapshot`.
#[repr(C)]
#[derive(Clone, Copy)]
pub struct SnapshotStorage {
    /// The number of accepted commands.
    pub front: u64,
    /// The part that reads use.
    pub base: BaseStorage,
}

/// Describes the memory that clocks are written to: `struct tkc_clock`.
#[repr(C)]
#[derive(Clone, Copy)]
pub struct ClockStorage {
    /// The part that reads use.
    pub base: BaseStorage,
    /// The frequency as it was set, in `2^-16` ppm.
    pub frequency: i64,
    /// The tick, in microseconds.
    pub tick: i64,
    /// The number of accepted commands.
    pub front: u64,
}

/// Describes the memory that a time is written to: `struct tkc_time`.
#[repr(C)]
#[derive(Clone, Copy)]
pub struct TimeStorage {
    /// Whole seconds.
    pub sec: i64,
    /// The nanoseconds below a second.
    pub nsec: u32,
    /// The padding, 0 once a time is written.
    pub padding: u32,
}

impl From<CounterDesc> for CounterStorage {
    ghost from_gives = { λ counter storage. storage ≡ counter_storage counter };

    fn from(counter: CounterDesc) -> CounterStorage {
        CounterStorage {
            bits: counter.bits(),
            mult: counter.mult(),
            shift: counter.shift(),
        }
    }
}

impl From<Snapshot> for BaseStorage {
    ghost from_gives = { λ snapshot storage. storage ≡ base_storage snapshot.base };

    fn from(snapshot: Snapshot) -> BaseStorage {
        BaseStorage {
            counter: CounterStorage::from(snapshot.desc()),
            last: snapshot.last(),
            mult: snapshot.mult(),
            sec: snapshot.sec(),
            frac: snapshot.frac(),
            raw_sec: snapshot.raw_sec(),
            raw_frac: snapshot.raw_frac(),
            real_offset: snapshot.real_offset(),
            boot_offset: snapshot.boot_offset(),
            tai: snapshot.tai(),
            asleep: u8::from(snapshot.asleep()),
            padding: [0; 3],
        }
    }
}

impl From<Snapshot> for SnapshotStorage {
    ghost from_gives = { λ snapshot storage. storage ≡ snapshot_storage snapshot };

    fn from(snapshot: Snapshot) -> SnapshotStorage {
        SnapshotStorage {
            front: snapshot.front(),
            base: BaseStorage::from(snapshot),
        }
    }
}

impl From<CountedClock> for ClockStorage {
    ghost from_gives = { λ counted storage. storage ≡ clock_storage counted.front counted.clock };

    fn from(counted: CountedClock) -> ClockStorage {
        let CountedClock { clock, front } = counted;
        ClockStorage {
            base: BaseStorage::from(clock.snapshot(front)),
            frequency: clock.frequency(),
            tick: clock.tick(),
            front,
        }
    }
}
