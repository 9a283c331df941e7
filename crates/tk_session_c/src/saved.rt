//! Converts the clocks of a session to words that contain their counter.
ghost use Rattle.std.specs.Prelude.{◌≡◌};
ghost use Rattle.tk_session_c.specs.Saved.{IsSaved, clock_words};

use crate::number_words::{NUMBER_WORDS, number_words};
use tk_session::Session;

/// The number of 64-bit words of clocks that no discipline steers, with their counter.
const CLOCK_WORDS: usize = 15;

/// The most 64-bit words of a session's clocks: those of steered clocks.
pub const SAVED_WORDS: usize = CLOCK_WORDS + NUMBER_WORDS;

/// Writes the clocks after the last record as words, and returns the number of words: 15 as
/// `tkc_clock_save` does, or 33 as `tkc_ntp_save` does if a discipline steers the clocks. The words
/// after them don't change.
///
/// Before the first record it writes no word and returns 0.
#[unsafe(no_mangle)]
pub extern "C" fn tkc_session_save(words: &mut [u64; SAVED_WORDS], session: &Session) -> u32
    ensures { IsSaved session.now words.old words.new result }
{
    if session.records() == 0 {
        return 0;
    }
    words[..CLOCK_WORDS].copy_from_slice(&clock_words(session));
    if !session.is_steered() {
        return CLOCK_WORDS as u32;
    }
    words[CLOCK_WORDS..].copy_from_slice(&number_words(&session.course().numbers()));
    SAVED_WORDS as u32
}

/// Returns the words of the clocks: the ten words of their snapshot; bits, mult and shift of their
/// counter; the frequency in `2^-16` ppm as it was set, and the tick in microseconds, both in two's
/// complement.
fn clock_words(session: &Session) -> [u64; CLOCK_WORDS]
    ensures { result ≡ clock_words session.now }
{
    let snapshot = session.snapshot();
    let clock = session.clocks().clock();
    let counter = snapshot.desc();
    let [t0, t1, t2, t3, t4, t5, t6, t7, t8, t9] = snapshot.words();
    [
        t0,
        t1,
        t2,
        t3,
        t4,
        t5,
        t6,
        t7,
        t8,
        t9,
        u64::from(counter.bits()),
        u64::from(counter.mult()),
        u64::from(counter.shift()),
        clock.frequency().cast_unsigned(),
        clock.tick().cast_unsigned(),
    ]
}
