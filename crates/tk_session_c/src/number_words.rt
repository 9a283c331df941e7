//! Converts the numbers of steered clocks to 64-bit words.
ghost use Rattle.std.specs.Prelude.{◌≡◌};
ghost use Rattle.tk_session_c.specs.Saved.{number_words};

use tk_ntp::{SteeredNumbers, SteeringNumbers};

/// The number of words.
pub(crate) const NUMBER_WORDS: usize = 18;

/// Returns the words of the numbers, in the order of their fields. Those with a sign are in two's
/// complement.
pub(crate) fn number_words(numbers: &SteeredNumbers) -> [u64; NUMBER_WORDS]
    ensures { result ≡ number_words numbers.now }
{
    let SteeringNumbers { ntp, lag } = numbers.steering;
    [
        u64::from(ntp.hz),
        u64::from(ntp.status),
        u64::from(ntp.plan.state),
        u64::from(ntp.plan.is_due),
        ntp.plan.due,
        ntp.offset.cast_unsigned(),
        u64::from(ntp.constant),
        u64::from(ntp.maxerror),
        u64::from(ntp.esterror),
        u64::from(ntp.tick),
        ntp.frequency.cast_unsigned(),
        ntp.reftime,
        ntp.adjust.cast_unsigned(),
        ntp.phase.cast_unsigned(),
        lag.high,
        lag.low,
        numbers.next,
        numbers.last_account,
    ]
}
