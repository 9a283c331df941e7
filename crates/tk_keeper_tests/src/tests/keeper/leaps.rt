use super::{answers, assert_same, entry_of, folds, opened, reads_at, time, words_at};
use tk_clock::Command::{Leap, Tai, Update};
use tk_clock::{ClockId, Command, Entry};

/// An insertion, at which REALTIME shows a second once more.
const INSERTS: Command = Leap { by: -1, tai: 38 };

/// A deletion.
const DELETES: Command = Leap { by: 1, tai: 37 };

#[test]
fn a_leap_second_is_one_entry(rt: HostRuntime) {
    let mut keeper = opened(&rt, rt.alloc());
    let steps = [
        (0, Tai(37), Ok(1)),
        (500, Update, Ok(2)),
        (1_000, INSERTS, Ok(3)),
        (2_000, DELETES, Ok(4)),
    ];
    answers(&rt, &mut keeper, &steps);
    let entry = Entry {
        who: 0,
        reading: 1_000,
        cmd: INSERTS,
    };
    assert_same(&rt, &entry_of(&keeper, 3), &Some(entry));
    for (front, reading, nsec, real) in [
        (2, 1_000, 1_000, 1_700_000_000),
        (3, 1_000, 1_000, 1_699_999_999),
        (3, 2_000, 2_000, 1_699_999_999),
        (4, 2_000, 2_000, 1_700_000_000),
    ] {
        let values = [
            (ClockId::Realtime, reading, time(real, nsec)),
            (ClockId::Tai, reading, time(1_700_000_037, nsec)),
        ];
        reads_at(&rt, &keeper, front, &values);
    }
    let words = words_at(&keeper, 4);
    folds(&rt, &mut keeper, 0, 4);
    assert_same(&rt, &words_at(&keeper, 4), &words);
}
