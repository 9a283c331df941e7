ghost use Rattle.std.specs.Prelude.{◌≡◌, ◌≤◌, length};
ghost use Rattle.tk_script.specs.Word.{clock_of, refusal_name, state_name};

use crate::fields::has_word;
use tk_clock::{ClockId, Refusal};
use tk_ntp::TimeState;

/// Returns the clock with this name in a script. `None` means that there is none.
#[inline(always)]
pub fn clock_word(word: &[u8]) -> Option<ClockId>
    ensures { result ≡ clock_of word.now }
{
    if has_word(word, b"monotonic") {
        Some(ClockId::Monotonic)
    } else if has_word(word, b"realtime") {
        Some(ClockId::Realtime)
    } else if has_word(word, b"tai") {
        Some(ClockId::Tai)
    } else if has_word(word, b"boottime") {
        Some(ClockId::Boottime)
    } else if has_word(word, b"monotonic_coarse") {
        Some(ClockId::MonotonicCoarse)
    } else if has_word(word, b"realtime_coarse") {
        Some(ClockId::RealtimeCoarse)
    } else if has_word(word, b"monotonic_raw") {
        Some(ClockId::MonotonicRaw)
    } else {
        None
    }
}

/// Returns a refusal's name.
pub(crate) fn word_of_refusal(refusal: Refusal) -> &'static [u8]
    ensures name { result.now ≡ refusal_name refusal }
    ensures short { length result.now ≤ 7 }
{
    match refusal {
        Refusal::Full => b"full",
        Refusal::Asleep => b"asleep",
        Refusal::Awake => b"awake",
        Refusal::Invalid => b"invalid",
        Refusal::Behind => b"behind",
        Refusal::Range => b"range",
        Refusal::Memory => b"memory",
    }
}

/// Returns the name of the state in a reply.
pub(crate) fn word_of_state(state: TimeState) -> &'static [u8]
    ensures name { result.now ≡ state_name state }
    ensures short { length result.now ≤ 5 }
{
    match state {
        TimeState::Ok => b"ok",
        TimeState::Ins => b"ins",
        TimeState::Del => b"del",
        TimeState::Oop => b"oop",
        TimeState::Wait => b"wait",
        TimeState::Error => b"error",
    }
}
