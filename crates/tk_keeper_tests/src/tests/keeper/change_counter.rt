use super::{
    answers, applies, assert_same, entry_of, has_no_front, length, opened, parts, reads_at,
    reads_monotonic, reserves, snapshot_of, steered, time, updated, words_at, words_of,
};
use std::alloc::Allocator;
use std::process::Abort;
use tk_clock::ClockId::{Monotonic, MonotonicCoarse};
use tk_clock::Command::{Suspend, Update};
use tk_clock::Refusal;
use tk_counter::CounterDesc;
use tk_keeper::{FrontError, Timekeeper, TraceError};
use tk_test_support::{Heap, OPENED_REAL};

/// Returns a counter of half a nanosecond a cycle, with 64-bit readings.
fn half_counter(rt: &impl Abort) -> CounterDesc {
    CounterDesc::new(64, 8_388_608, 24).expect(rt, "a counter")
}

/// Returns a counter of about 0.698 nanoseconds a cycle, with the shift 32 and 64-bit readings.
fn fine_counter(rt: &impl Abort) -> CounterDesc {
    CounterDesc::new(64, 3_000_000_000, 32).expect(rt, "a counter")
}

/// Changes the counter, and checks the answer. A refused change must leave the keeper unchanged.
fn changes<A: Allocator + Copy>(
    rt: &impl Abort,
    keeper: &mut Timekeeper<A>,
    reading: u64,
    to: (CounterDesc, u64),
    answer: Result<u64, Refusal>,
) {
    let (desc, first) = to;
    let before = (parts(keeper), keeper.folded());
    assert_same(rt, &changed(keeper, reading, desc, first), &answer);
    if answer.is_err() {
        let after = (parts(keeper), keeper.folded());
        assert_same(rt, &after, &before);
    }
}

/// Changes the counter. It states nothing of the journal.
pub(super) fn changed<A: Allocator + Copy>(
    keeper: &mut Timekeeper<A>,
    reading: u64,
    desc: CounterDesc,
    first: u64,
) -> Result<u64, Refusal> {
    keeper.change_counter(reading, desc, first)
}

#[test]
fn a_change_of_counter_folds_the_journal(rt: HostRuntime) {
    let mut keeper = steered(&rt, rt.alloc());
    changes(
        &rt,
        &mut keeper,
        1_000_000_001,
        (fine_counter(&rt), 5),
        Ok(3),
    );
    is_changed(&rt, &keeper);
    answers(&rt, &mut keeper, &[(1_000_005, Update, Ok(4))]);
    assert_same(&rt, &entry_of(&keeper, 4).is_some(), &true);
    reads_at(
        &rt,
        &keeper,
        3,
        &[(Monotonic, 1_000_005, time(1, 1_198_107))],
    );
    has_folded(&rt, &keeper, &[3, 4, 2], &[5, 0, 0]);
}

/// Checks a journal that was folded by a change to `fine_counter`, as its third command.
fn is_changed(rt: &impl Abort, keeper: &Timekeeper) {
    assert_same(rt, &(length(keeper), keeper.folded()), &(3, 3));
    assert_same(rt, &snapshot_of(keeper).desc(), &fine_counter(rt));
    let entries = (entry_of(keeper, 2), entry_of(keeper, 3));
    assert_same(rt, &entries, &(None, None));
    has_no_front(rt, keeper, 2, FrontError::Folded);
    has_no_front(rt, keeper, 4, FrontError::Unknown);
    reads_monotonic(rt, keeper, 5, time(1, 499_964));
}

/// Checks that the third item of a trace has a folded front.
pub(super) fn has_folded(
    rt: &impl Abort,
    keeper: &Timekeeper,
    fronts: &[u64; 3],
    stamps: &[u64; 3],
) {
    let traced = keeper.trace(fronts, stamps, Monotonic);
    assert_same(rt, &traced.err(), &Some(TraceError::Folded { index: 2 }));
}

#[test]
fn fronts_after_a_change_of_counter_are_exact(rt: HostRuntime) {
    let mut keeper = updated(&rt, rt.alloc(), 255, 1_000);
    changes(&rt, &mut keeper, 255_000, (half_counter(&rt), 0), Ok(256));
    for number in 257..=600_u64 {
        let reading = 1_000_u64.wrapping_mul(number.wrapping_sub(256));
        answers(&rt, &mut keeper, &[(reading, Update, Ok(number))]);
    }
    for (front, nanos) in [
        (256, 255_000),
        (257, 255_500),
        (511, 382_500),
        (512, 383_000),
        (513, 383_500),
        (600, 427_000),
    ] {
        reads_at(&rt, &keeper, front, &[(MonotonicCoarse, 0, time(0, nanos))]);
    }
}

#[test]
fn a_refused_change_of_counter_changes_nothing(rt: HostRuntime) {
    let mut keeper = steered(&rt, rt.alloc());
    let desc = half_counter(&rt);
    for (reading, refusal) in [
        (4_294_967_296, Refusal::Invalid),
        (999_999_999, Refusal::Behind),
    ] {
        changes(&rt, &mut keeper, reading, (desc, 0), Err(refusal));
    }
    assert_same(&rt, &words_at(&keeper, 2), &Ok(words_of(&keeper)));
    // asleep, a reading that is behind is taken
    answers(&rt, &mut keeper, &[(1_000_000_000, Suspend, Ok(3))]);
    changes(&rt, &mut keeper, 0, (desc, 9), Ok(4));
    let snapshot = snapshot_of(&keeper);
    assert_same(&rt, &(snapshot.asleep(), snapshot.last()), &(true, 9));
}

#[test]
fn a_change_of_counter_takes_no_memory(rt: HostRuntime) {
    let heap = Heap::new(rt.alloc());
    let mut keeper = opened(&rt, &heap);
    assert_same(&rt, &reserves(&mut keeper, 600), &Ok(()));
    heap.refuse_all();
    let spare = keeper.spare();
    changes(&rt, &mut keeper, 7, (half_counter(&rt), 0), Ok(1));
    assert_same(&rt, &(keeper.spare().wrapping_add(1) >= spare), &true);
    for number in 2..=spare as u64 {
        assert_same(&rt, &applies(&mut keeper, number, Update), &Ok(number));
    }
}

#[test]
fn a_full_journal_accepts_a_change_of_counter(rt: HostRuntime) {
    let mut keeper = updated(&rt, rt.alloc(), 1_048_576, 0);
    answers(&rt, &mut keeper, &[(0, Update, Err(Refusal::Full))]);
    changes(&rt, &mut keeper, 3, (half_counter(&rt), 0), Ok(1_048_577));
    answers(&rt, &mut keeper, &[(2, Update, Ok(1_048_578))]);
    reads_monotonic(&rt, &keeper, 2, time(0, 4));
    assert_same(&rt, &snapshot_of(&keeper).real_offset(), &OPENED_REAL);
}
