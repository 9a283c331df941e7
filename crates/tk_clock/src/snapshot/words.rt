ghost use Rattle.std.specs.Prelude.{◌≡◌, length, Some, IfSome};
ghost use Rattle.tk_counter.specs.Counter.{IsCounter};
ghost use Rattle.tk_clock.specs.Words.{words_of, restored, are_in_range};

use super::Snapshot;
use super::known_words::base_of_words;
use crate::command::Command;
use crate::limits::{MONOTONIC_END, RAW_END, TAI_OFFSET_LIMIT};
use tk_counter::CounterDesc;

/// The number of 64-bit words of a snapshot.
pub const SNAPSHOT_WORDS: usize = 10;

impl Snapshot {
    /// Encodes the snapshot as ten 64-bit words, from which `from_words` restores it.
    ///
    /// - 0: the front
    /// - 1: the last reading, in cycles
    /// - 2: the multiplier, in `2^-shift` ns a cycle
    /// - 3 and 4: MONOTONIC at the last reading: the part below a second, in `2^-shift` ns, and
    ///   whole seconds
    /// - 5 and 6: REALTIME minus MONOTONIC and BOOTTIME minus MONOTONIC, in ns
    /// - 7: the TAI offset in seconds times 2, plus 1 while asleep
    /// - 8 and 9: MONOTONIC_RAW, as words 3 and 4
    ///
    /// The words don't contain the counter's description, which `from_words` needs too.
    pub fn words(&self) -> [u64; SNAPSHOT_WORDS]
        ensures value { result ≡ words_of self.now }
        ensures back { restored self.now.base.counter (words_of self.now) ≡ Some self.now }
    {
        self.base.words(self.front)
    }

    /// Restores a snapshot of the counter `desc` from ten 64-bit words in the order of `words`.
    ///
    /// Returns `None` if REALTIME, BOOTTIME or TAI would be at its limit at the last reading, or if
    /// a word is out of its range. Words 0, 5 and 6 may have any value. The other ranges are:
    ///
    /// - 1: up to the mask
    /// - 2: 1 to the fastest multiplier, `mult + max_adj`
    /// - 3 and 8: below a second
    /// - 4: below 946,080,000
    /// - 7: up to 200,001, which is a TAI offset of 100,000 s
    /// - 9: below 1,060,000,000
    pub fn from_words(desc: CounterDesc, words: [u64; SNAPSHOT_WORDS]) -> Option<Snapshot>
        ensures value { result ≡ restored desc words }
        ensures again { IfSome result (λ snapshot. words_of snapshot ≡ words) }
    {
        if !are_in_range(&desc, &words) {
            return None;
        }
        let base = base_of_words(desc, &words);
        if base.is_past_limit(Command::Update) {
            return None;
        }
        Some(Snapshot {
            front: words[0],
            base,
        })
    }
}

/// Returns whether all words are in their ranges.
#[tactic(auto, unfolding(crate::specs::Words::are_in_range))]
fn are_in_range(desc: &CounterDesc, words: &[u64; SNAPSHOT_WORDS]) -> bool
    ensures value { result ≡ are_in_range desc.now words.now }
    ensures counter { IsCounter desc.now }
    ensures ten { length words.now ≡ 10 }
{
    words[1] <= desc.mask()
        && words[2] >= 1
        && words[2] <= u64::from(desc.mult()) + u64::from(desc.max_adj())
        && words[3] < desc.second()
        && words[4] < MONOTONIC_END
        && words[7] / 2 <= TAI_OFFSET_LIMIT as u64
        && words[8] < desc.second()
        && words[9] < RAW_END
}
