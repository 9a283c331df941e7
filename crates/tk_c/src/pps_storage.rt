//! Describes the memory that the state of a signal is written to.
ghost use Rattle.std.specs.Prelude.{◌≡◌};
ghost use Rattle.tk_ntp.specs.Pps.{no_signal};
ghost use Rattle.tk_c.specs.Pps.{pps_storage};

use std::mem::size_of;
use tk_ntp::Pps;

const _: () = prove!(size_of::<Pps>() == size_of::<PpsStorage>());

const _: () = prove!(size_of::<PpsStorage>() == 80);

/// The length of an interval of a signal without a pulse: 4 s.
const LEAST_SHIFT: u32 = 2;

/// Describes the memory that the state of a signal is written to: `struct tkc_pps`, in the units of
/// the fields of `Pps`. It has no padding.
#[repr(C)]
#[derive(Clone, Copy)]
pub struct PpsStorage {
    /// The seconds that may begin before the signal counts as lost.
    pub valid: u32,
    /// The length of an interval.
    pub shift: u32,
    /// The mean jitter.
    pub jitter: u32,
    /// The mean wander.
    pub stabil: u32,
    /// The correction of the last pulse.
    pub correction: i64,
    /// The good intervals minus the bad ones.
    pub balance: i64,
    /// The frequency of the last interval.
    pub frequency: i64,
    /// MONOTONIC_RAW at the beginning of the interval.
    pub start: u64,
    /// The number of intervals.
    pub calcnt: u64,
    /// The number of corrections with too much jitter.
    pub jitcnt: u64,
    /// The number of frequencies with too much wander.
    pub stbcnt: u64,
    /// The number of intervals that were too long.
    pub errcnt: u64,
}

/// Writes the state of a signal without a pulse.
pub(crate) fn store_no_signal(out: &mut PpsStorage)
    ensures { out.new ≡ pps_storage no_signal }
{
    out.valid = 0;
    out.shift = LEAST_SHIFT;
    out.jitter = 0;
    out.stabil = 0;
    out.correction = 0;
    out.balance = 0;
    out.frequency = 0;
    out.start = 0;
    out.calcnt = 0;
    out.jitcnt = 0;
    out.stbcnt = 0;
    out.errcnt = 0;
}
