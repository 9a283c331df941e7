//! Names the bits of `modes` and of `status` (include/uapi/linux/timex.h).
ghost use Rattle.std.specs.Prelude.{◌≡◌};
ghost use Rattle.tk_ntp.specs.Bits.{has, without};

/// `offset` is given.
pub const ADJ_OFFSET: u32 = 0x1;
/// `freq` is given.
pub const ADJ_FREQUENCY: u32 = 0x2;
/// `maxerror` is given.
pub const ADJ_MAXERROR: u32 = 0x4;
/// `esterror` is given.
pub const ADJ_ESTERROR: u32 = 0x8;
/// `status` is given.
pub const ADJ_STATUS: u32 = 0x10;
/// `constant` is the time constant.
pub const ADJ_TIMECONST: u32 = 0x20;
/// `constant` is the TAI offset.
pub const ADJ_TAI: u32 = 0x80;
/// REALTIME is stepped by the time in `sec` and `sub`.
pub const ADJ_SETOFFSET: u32 = 0x100;
/// Offsets and times are in microseconds.
pub const ADJ_MICRO: u32 = 0x1000;
/// Offsets and times are in nanoseconds.
pub const ADJ_NANO: u32 = 0x2000;
/// `tick` is given.
pub const ADJ_TICK: u32 = 0x4000;
/// The request is the old call `adjtime`, together with `ADJ_OFFSET`.
pub const ADJ_ADJTIME: u32 = 0x8000;
/// The old call `adjtime` only reads.
pub const ADJ_READONLY: u32 = 0x2000;

/// Offsets steer the clock.
pub const STA_PLL: u32 = 0x1;
/// The frequencies that the pulses of a signal show are taken.
pub const STA_PPSFREQ: u32 = 0x2;
/// The corrections that the pulses of a signal show are taken.
pub const STA_PPSTIME: u32 = 0x4;
/// Offsets that come at least 256 s after the last one steer by the FLL too.
pub const STA_FLL: u32 = 0x8;
/// A second is to be inserted at the end of the day.
pub const STA_INS: u32 = 0x10;
/// The last second of the day is to be deleted.
pub const STA_DEL: u32 = 0x20;
/// The clock is not synchronized.
pub const STA_UNSYNC: u32 = 0x40;
/// Offsets leave the frequency as it is.
pub const STA_FREQHOLD: u32 = 0x80;
/// A pulse has come in the last seconds (read only).
pub const STA_PPSSIGNAL: u32 = 0x100;
/// The last pulse came at a wrong time, or its correction was far from the one before (read only).
pub const STA_PPSJITTER: u32 = 0x200;
/// The last pulse showed a frequency far from the one before (read only).
pub const STA_PPSWANDER: u32 = 0x400;
/// The last pulse ended an interval that was too long (read only).
pub const STA_PPSERROR: u32 = 0x800;
/// The clock's hardware is at fault (read only).
pub const STA_CLOCKERR: u32 = 0x1000;
/// Offsets and times are in nanoseconds (read only).
pub const STA_NANO: u32 = 0x2000;
/// The last offset steered by the FLL (read only).
pub const STA_MODE: u32 = 0x4000;
/// Contains the bits that no request changes by its status.
pub(crate) const STA_RONLY: u32 = 0xff00;

/// Returns whether a word has a bit of a mask.
pub(crate) fn has(word: u32, mask: u32) -> bool
    ensures { result ≡ has word mask }
{
    word & mask != 0
}

/// Returns a word without the bits of a mask.
pub(crate) fn without(word: u32, mask: u32) -> u32
    ensures { result ≡ without word mask }
{
    word & !mask
}
