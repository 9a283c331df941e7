use super::{answers, has_words, opened, reads, time};
use tk_clock::{ClockId, Command, Refusal};

#[test]
fn a_suspension_moves_realtime_and_boottime(rt: HostRuntime) {
    let mut clock = opened(&rt);
    answers(&rt, &mut clock, 1_000, Command::Suspend, Ok(()));
    has_words(
        &rt,
        &clock,
        1,
        &[
            1,
            1_000,
            16_777_216,
            16_777_216_000,
            0,
            1_700_000_000_000_000_000,
            0,
            1,
            16_777_216_000,
            0,
        ],
    );
    answers(
        &rt,
        &mut clock,
        2_000,
        Command::Update,
        Err(Refusal::Asleep),
    );
    let away = Command::Resume(time(5, 500_000_000));
    answers(&rt, &mut clock, 5, away, Ok(()));
    has_words(
        &rt,
        &clock,
        2,
        &[
            2,
            5,
            16_777_216,
            16_777_216_000,
            0,
            1_700_000_005_500_000_000,
            5_500_000_000,
            0,
            16_777_216_000,
            0,
        ],
    );
    for (id, reading, value) in [
        (ClockId::Monotonic, 5, time(0, 1_000)),
        (ClockId::Realtime, 5, time(1_700_000_005, 500_001_000)),
        (ClockId::Boottime, 5, time(5, 500_001_000)),
        (ClockId::Monotonic, 15, time(0, 1_010)),
    ] {
        reads(&rt, &clock, id, reading, value);
    }
}
