use super::{
    FASTER_WORDS, OPENED_REAL, OPENED_WORDS, THOUSAND, applied, assert_same, entry_of,
    has_no_front, opened, reads_at, steered, time, updated, words_at,
};
use tk_clock::{ClockId, Command, Entry};
use tk_keeper::FrontError;

#[test]
fn each_front_keeps_its_own_clocks(rt: HostRuntime) {
    let keeper = steered(&rt, rt.alloc());
    let at = 1_000_000_000;
    assert_same(&rt, &words_at(&keeper, 0), &Ok(OPENED_WORDS));
    assert_same(&rt, &words_at(&keeper, 1), &Ok(FASTER_WORDS));
    for (front, reading, value) in [
        (0, at, time(1, 0)),
        (1, at, time(1, 499_963)),
        (2, at, time(1, 499_963)),
        (2, at + 1, time(1, 499_964)),
    ] {
        reads_at(&rt, &keeper, front, &[(ClockId::Monotonic, reading, value)]);
    }
    has_no_front(&rt, &keeper, 3, FrontError::Unknown);
}

#[test]
fn fronts_round_a_kept_state_are_exact(rt: HostRuntime) {
    let keeper = updated(&rt, rt.alloc(), 600, 1_000);
    for (front, nanos) in [
        (0u64, 0),
        (1, 1_000),
        (255, 255_000),
        (256, 256_000),
        (257, 257_000),
        (511, 511_000),
        (512, 512_000),
        (513, 513_000),
        (600, 600_000),
    ] {
        let (last, units) = (u64::from(nanos), front.wrapping_mul(THOUSAND));
        let words = [
            front,
            last,
            16_777_216,
            units,
            0,
            OPENED_REAL,
            0,
            0,
            units,
            0,
        ];
        assert_same(&rt, &words_at(&keeper, front), &Ok(words));
        let values = [
            (ClockId::MonotonicCoarse, 0, time(0, nanos)),
            (ClockId::MonotonicRaw, last, time(0, nanos)),
        ];
        reads_at(&rt, &keeper, front, &values);
    }
    has_no_front(&rt, &keeper, 601, FrontError::Unknown);
}

#[test]
fn the_entries_are_found_by_their_numbers(rt: HostRuntime) {
    let mut keeper = opened(&rt, rt.alloc());
    let entry = Entry {
        who: 0,
        reading: 7,
        cmd: Command::Tai(37),
    };
    assert_same(&rt, &applied(&rt, &mut keeper, 7, entry.cmd), &Ok(1));
    for (number, found) in [(0, None), (1, Some(entry)), (2, None)] {
        assert_same(&rt, &entry_of(&keeper, number), &found);
    }
}
