//! Converts steered clocks to words that contain their counter, and such words back to steered
//! clocks.
ghost use Rattle.std.specs.Prelude.{◌≡◌};
ghost use Rattle.tk_c.specs.CountedNtp.{whole};
ghost use Rattle.tk_c.specs.SavedNtp.{saved_ntp, IsNtpRestored, IsNtpLoaded, LoadsAsNtp};

use crate::code::Code;
use crate::counted_ntp::CountedNtp;
use crate::ntp_storage::{NtpStorage, store_ntp};
use crate::number_words::{NUMBER_WORDS, numbers_of_words, store_numbers};
use crate::saved::{SAVED_WORDS, clock_of_words, tkc_clock_save};
use tk_ntp::SteeredClock;

/// The number of 64-bit words of steered clocks with their counter.
pub const NTP_SAVED_WORDS: usize = SAVED_WORDS + NUMBER_WORDS;

/// Writes steered clocks as 33 words: the 15 of `tkc_clock_save` for their clocks, where word 0 is
/// the number of accepted commands; and the 18 numbers of `Course::numbers`, in the order of
/// their fields, those with a sign in two's complement. `tkc_ntp_load` makes the same clocks from
/// the words.
#[unsafe(no_mangle)]
pub extern "C" fn tkc_ntp_save(words: &mut [u64; NTP_SAVED_WORDS], ntp: &CountedNtp)
    ensures value { words.new ≡ saved_ntp (whole ntp.now) }
    ensures back { LoadsAsNtp words.new (whole ntp.now) }
{
    let Some(first) = words.first_chunk_mut() else {
        unreachable!()
    };
    tkc_clock_save(first, &ntp.clocks);
    let Some(rest) = words.last_chunk_mut() else {
        unreachable!()
    };
    store_numbers(rest, ntp.course.numbers());
}

/// Writes the steered clocks that 33 words represent to `out`. The words may have any values.
///
/// # Errors
///
/// Returns `Code::BadWords`, and doesn't write `out`, if `tkc_clock_load` refuses words 0 to 14, if
/// a number of words 15 to 32 doesn't fit in the bits of its field, or if
/// `SteeredClock::from_numbers` refuses these numbers.
#[unsafe(no_mangle)]
pub extern "C" fn tkc_ntp_load(out: &mut NtpStorage, words: &[u64; NTP_SAVED_WORDS]) -> u32
    ensures { IsNtpLoaded words.now out.old out.new result }
{
    let Some(first) = words.first_chunk() else {
        unreachable!()
    };
    let Some(rest) = words.last_chunk() else {
        unreachable!()
    };
    restore(out, first, rest)
}

/// Writes the steered clocks that the words of their clocks and of their numbers represent to `out`,
/// as `tkc_ntp_load` does.
fn restore(out: &mut NtpStorage, first: &[u64; SAVED_WORDS], rest: &[u64; NUMBER_WORDS]) -> u32
    ensures { IsNtpRestored first.now rest.now out.old out.new result }
{
    let Some(clock) = clock_of_words(first) else {
        return Code::BadWords.number();
    };
    let Some(numbers) = numbers_of_words(rest) else {
        return Code::BadWords.number();
    };
    // (by reference: the clocks are many words, which no call may copy)
    match &SteeredClock::from_numbers(clock.clock, numbers) {
        Ok(steered) => {
            store_ntp(out, steered, clock.front);
            Code::Done.number()
        }
        Err(_) => Code::BadWords.number(),
    }
}
