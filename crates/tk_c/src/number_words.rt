//! Converts the numbers of steered clocks to 64-bit words, and such words back to numbers.
ghost use Rattle.std.specs.Prelude.{◌≡◌, Some};
ghost use Rattle.tk_c.specs.SavedNtp.{number_words, numbers_of_words};

use tk_ntp::{DisciplineNumbers, LagNumbers, LeapNumbers, SteeredNumbers, SteeringNumbers};

/// The number of words.
pub(crate) const NUMBER_WORDS: usize = 18;

/// Writes the words of the numbers, in the order of their fields. Those with a sign are in two's
/// complement. No two neighbours are written in sequence (general_registers.rt).
#[inline(always)]
pub(crate) fn store_numbers(words: &mut [u64; NUMBER_WORDS], numbers: SteeredNumbers)
    ensures value { words.new ≡ number_words numbers }
    ensures back { numbers_of_words (number_words numbers) ≡ Some numbers }
{
    let SteeringNumbers { ntp, lag } = numbers.steering;
    words[0] = u64::from(ntp.hz);
    words[2] = u64::from(ntp.plan.state);
    words[4] = ntp.plan.due;
    words[6] = u64::from(ntp.constant);
    words[8] = u64::from(ntp.esterror);
    words[10] = ntp.frequency.cast_unsigned();
    words[12] = ntp.adjust.cast_unsigned();
    words[14] = lag.high;
    words[16] = numbers.next;
    words[1] = u64::from(ntp.status);
    words[3] = u64::from(ntp.plan.is_due);
    words[5] = ntp.offset.cast_unsigned();
    words[7] = u64::from(ntp.maxerror);
    words[9] = u64::from(ntp.tick);
    words[11] = ntp.reftime;
    words[13] = ntp.phase.cast_unsigned();
    words[15] = lag.low;
    words[17] = numbers.last_account;
}

/// Returns the numbers that words represent, or `None` if a word doesn't fit in its number's bits.
#[tactic(auto, unfolding(crate::specs::SavedNtp::are_narrow))]
#[inline(always)]
pub(crate) fn numbers_of_words(words: &[u64; NUMBER_WORDS]) -> Option<SteeredNumbers>
    ensures { result ≡ numbers_of_words words.now }
{
    let plan = LeapNumbers {
        state: u32::try_from(words[2]).ok()?,
        is_due: u8::try_from(words[3]).ok()?,
        due: words[4],
    };
    let ntp = DisciplineNumbers {
        hz: u32::try_from(words[0]).ok()?,
        status: u32::try_from(words[1]).ok()?,
        plan,
        offset: words[5].cast_signed(),
        constant: u32::try_from(words[6]).ok()?,
        maxerror: u32::try_from(words[7]).ok()?,
        esterror: u32::try_from(words[8]).ok()?,
        tick: u32::try_from(words[9]).ok()?,
        frequency: words[10].cast_signed(),
        reftime: words[11],
        adjust: words[12].cast_signed(),
        phase: words[13].cast_signed(),
    };
    let lag = LagNumbers {
        high: words[14],
        low: words[15],
    };
    Some(SteeredNumbers {
        steering: SteeringNumbers { ntp, lag },
        next: words[16],
        last_account: words[17],
    })
}
