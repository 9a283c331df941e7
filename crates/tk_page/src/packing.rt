//! The page's eight words, into which the ten words of a snapshot are packed.
//!
//! A read loads every word of the page, and a publication compares every word with the new one. So
//! the four words of a snapshot that have at most 32 bits share two words of the page.
ghost use Rattle.std.specs.Prelude.{◌≡◌, Some};
ghost use Rattle.tk_clock.specs.Words.{words_of, restored};
ghost use Rattle.tk_page.specs.Packing.{packed, unpacked};

use tk_clock::{SNAPSHOT_WORDS, Snapshot};

/// The number of words of a page.
pub const PAGE_WORDS: usize = 8;

/// The words of a page:
///
/// - 0, 1, 3, 5, 6 and 7: words 0, 1, 3, 5, 6 and 8 of a snapshot
/// - 2: word 2, the multiplier, and above its 32 bits word 7, the TAI offset
/// - 4: word 4, the seconds of MONOTONIC, and above 32 bits word 9, the seconds of MONOTONIC_RAW
pub type Words = [u64; PAGE_WORDS];

/// The value of the lowest bit of a word's upper half.
const UPPER: u64 = 1 << 32;

/// Packs a snapshot's words.
#[inline(always)]
pub(crate) fn pack(snapshot: &Snapshot) -> Words
    ensures value { result ≡ packed (words_of snapshot.now) }
    ensures back { restored snapshot.now.base.counter (unpacked (packed (words_of snapshot.now)))
        ≡ Some snapshot.now }
{
    let [
        front,
        last,
        _,
        frac,
        sec,
        real_offset,
        boot_offset,
        tai,
        raw_frac,
        raw_sec,
    ] = snapshot.words();
    [
        front,
        last,
        tai * UPPER + u64::from(snapshot.mult()),
        frac,
        raw_sec * UPPER + sec,
        real_offset,
        boot_offset,
        raw_frac,
    ]
}

/// Returns the snapshot's words that are packed in a page's words.
#[inline(always)]
pub(crate) fn unpack(words: &Words) -> [u64; SNAPSHOT_WORDS]
    ensures value { result ≡ unpacked words.now }
{
    let &[
        front,
        last,
        rates,
        frac,
        seconds,
        real_offset,
        boot_offset,
        raw_frac,
    ] = words;
    [
        front,
        last,
        rates % UPPER,
        frac,
        seconds % UPPER,
        real_offset,
        boot_offset,
        rates / UPPER,
        raw_frac,
        seconds / UPPER,
    ]
}
