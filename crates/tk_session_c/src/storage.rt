//! Describes the memory that a text or a snapshot is written to. Before the write it may contain any
//! bytes.
//!
//! The storage of a snapshot contains the value's fields in its order, so the written bytes are that
//! value.
ghost use Rattle.std.specs.Prelude.{◌≡◌, ◌≤◌, length};
ghost use Rattle.tk_session_c.specs.Storage.{base_storage, counter_storage, snapshot_storage, with_text};

use std::mem::size_of;
use tk_clock::Snapshot;
use tk_counter::CounterDesc;
use tk_session::TEXT_ROOM;

const _: () = prove!(size_of::<TextStorage>() == 296);

const _: () = prove!(size_of::<CounterDesc>() == size_of::<CounterStorage>());

const _: () = prove!(size_of::<Snapshot>() == size_of::<SnapshotStorage>());

/// Describes the memory that a text is written to: `struct tkc_text`.
#[repr(C)]
#[derive(Clone, Copy)]
pub struct TextStorage {
    /// The length of the text, at most 288 once one is written.
    pub len: usize,
    /// The text, and bytes after it that no call writes.
    pub bytes: [u8; TEXT_ROOM],
}

/// Describes the memory that a counter is written to. A cycle lasts `mult / 2^shift` ns.
#[repr(C)]
#[derive(Clone, Copy)]
pub struct CounterStorage {
    /// The bits of a reading, 8 to 64 once a counter is written.
    pub bits: u32,
    /// The mult of a cycle.
    pub mult: u32,
    /// The shift of a cycle.
    pub shift: u32,
}

/// Describes the part of a snapshot that reads use, in the units of tk_clock.
#[repr(C)]
#[derive(Clone, Copy)]
pub struct BaseStorage {
    /// The counter.
    pub counter: CounterStorage,
    /// The amount that a cycle adds to MONOTONIC, in `2^-shift` ns.
    pub mult: u32,
    /// The reading of the last accepted command, or of the opening.
    pub last: u64,
    /// REALTIME minus MONOTONIC, in ns.
    pub real_offset: u64,
    /// MONOTONIC at `last`, whole seconds.
    pub sec: u64,
    /// MONOTONIC at `last`, the part below a second in `2^-shift` ns.
    pub frac: u64,
    /// MONOTONIC_RAW at `last`, whole seconds.
    pub raw_sec: u64,
    /// MONOTONIC_RAW at `last`, the part below a second in `2^-shift` ns.
    pub raw_frac: u64,
    /// BOOTTIME minus MONOTONIC, in ns.
    pub boot_offset: u64,
    /// TAI minus REALTIME, in seconds.
    pub tai: u32,
    /// 1 while the clocks are asleep, otherwise 0.
    pub asleep: u8,
    /// The padding, 0 once a value is written.
    pub padding: [u8; 3],
}

/// Describes the memory that a snapshot is written to: `struct tkc_snapshot`.
#[repr(C)]
#[derive(Clone, Copy)]
pub struct SnapshotStorage {
    /// The number of accepted commands.
    pub front: u64,
    /// The part that reads use.
    pub base: BaseStorage,
}

impl TextStorage {
    /// Writes a text. The bytes after it don't change.
    #[inline(never)]
    pub(crate) fn write(&mut self, text: &[u8])
        requires { length text.now ≤ 288 }
        ensures { self.new ≡ with_text self.old text.now }
    {
        self.bytes[..text.len()].copy_from_slice(text);
        self.len = text.len();
    }
}

/// Writes a snapshot.
pub(crate) fn write_snapshot(out: &mut SnapshotStorage, snapshot: &Snapshot)
    ensures { out.new ≡ snapshot_storage snapshot.now }
{
    out.front = snapshot.front();
    write_base(&mut out.base, snapshot);
}

/// Writes the part that reads use.
fn write_base(out: &mut BaseStorage, snapshot: &Snapshot)
    ensures { out.new ≡ base_storage snapshot.now.base }
{
    out.counter = counter_in(snapshot.desc());
    out.mult = snapshot.mult();
    out.last = snapshot.last();
    out.real_offset = snapshot.real_offset();
    out.sec = snapshot.sec();
    out.frac = snapshot.frac();
    out.raw_sec = snapshot.raw_sec();
    out.raw_frac = snapshot.raw_frac();
    out.boot_offset = snapshot.boot_offset();
    out.tai = snapshot.tai();
    out.asleep = u8::from(snapshot.asleep());
    out.padding = [0; 3];
}

/// Returns the numbers of a counter.
fn counter_in(desc: CounterDesc) -> CounterStorage
    ensures { result ≡ counter_storage desc }
{
    CounterStorage {
        bits: desc.bits(),
        mult: desc.mult(),
        shift: desc.shift(),
    }
}
