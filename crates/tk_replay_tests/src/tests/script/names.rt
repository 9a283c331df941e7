use super::assert_same;
use tk_clock::ClockId;
use tk_script::{clock_word, number};

#[test]
fn parses_numbers(rt: HostRuntime) {
    for (field, want) in [
        (b"007".as_slice(), Some(7)),
        (b"0", Some(0)),
        (b"18446744073709551615", Some(u64::MAX)),
        (
            b"000000000000000000000018446744073709551615",
            Some(u64::MAX),
        ),
        (b"18446744073709551616", None),
        (b"100000000000000000000000000000000000000000", None),
        (b"", None),
        (b"+1", None),
        (b" 1", None),
        (b"1 ", None),
        (b"-1", None),
        (b"1a", None),
        (b"1:", None),
        (b"/1", None),
        (b"\xd9\xa1", None),
    ] {
        assert_same(&rt, &number(field), &want);
    }
}

#[test]
fn parses_clock_words(rt: HostRuntime) {
    for (word, want) in [
        (b"realtime".as_slice(), Some(ClockId::Realtime)),
        (b"monotonic", Some(ClockId::Monotonic)),
        (b"boottime", Some(ClockId::Boottime)),
        (b"tai", Some(ClockId::Tai)),
        (b"realtime_coarse", Some(ClockId::RealtimeCoarse)),
        (b"monotonic_coarse", Some(ClockId::MonotonicCoarse)),
        (b"monotonic_raw", Some(ClockId::MonotonicRaw)),
    ] {
        assert_same(&rt, &clock_word(word), &want);
    }
    let unknown: [&[u8]; 5] = [b"foo", b"Monotonic", b"monotonic ", b"boottime_coarse", b""];
    for word in unknown {
        assert_same(&rt, &clock_word(word), &None);
    }
}
