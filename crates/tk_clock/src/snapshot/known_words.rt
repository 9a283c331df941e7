ghost use Rattle.std.specs.Prelude.{◌≡◌, length, true, Some, IsSome};
ghost use Rattle.tk_counter.specs.Counter.{IsCounter};
ghost use Rattle.tk_clock.specs.Words.{words_of, restored, are_in_range, snapshot_of_words};

use super::{SNAPSHOT_WORDS, Snapshot};
use crate::amount::Amount;
use crate::read_base::ReadBase;
use tk_counter::CounterDesc;

impl Snapshot {
    /// Restores a snapshot, without a test, from ten 64-bit words that are known to describe one.
    ///
    /// It returns the same snapshot as `from_words`. The caller must prove that the words describe
    /// a snapshot, as the rule of a page does.
    pub fn from_known_words(desc: CounterDesc, words: [u64; SNAPSHOT_WORDS]) -> Snapshot
        requires known { IsSome (restored desc words) }
        ensures value { restored desc words ≡ Some result }
        ensures again { words_of result ≡ words }
    {
        describes(&desc);
        Snapshot {
            front: words[0],
            base: base_of_words(desc, &words),
        }
    }
}

/// Proves that a description describes a counter. It does nothing when it runs: only its contract
/// is used.
fn describes(desc: &CounterDesc)
    ensures { IsCounter desc.now }
{
    let _ = desc.bits();
}

/// Returns the clocks that words 1 to 9 describe.
pub(super) fn base_of_words(desc: CounterDesc, words: &[u64; SNAPSHOT_WORDS]) -> ReadBase
    requires range { are_in_range desc words.now ≡ true }
    requires counter { IsCounter desc }
    ensures value { result ≡ (snapshot_of_words desc words.now).base }
    ensures ten { length words.now ≡ 10 }
{
    let &[
        _,
        last,
        mult,
        frac,
        sec,
        real_offset,
        boot_offset,
        tai,
        raw_frac,
        raw_sec,
    ] = words;
    ReadBase {
        desc,
        last,
        mult: mult as u32,
        monotonic: Amount { sec, frac },
        raw: Amount {
            sec: raw_sec,
            frac: raw_frac,
        },
        real_offset,
        boot_offset,
        tai: (tai / 2) as u32,
        asleep: tai % 2 == 1,
    }
}
