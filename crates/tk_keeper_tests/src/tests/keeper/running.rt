use super::change_counter::{changed, has_folded};
use super::{
    ASLEEP_WORDS, AWAKE_WORDS, FASTER_WORDS, answers, applies, assert_same, entry_of, folds,
    has_no_front, length, length_and_words, opened, reads_monotonic, steered, time, words_at,
    words_of,
};
use std::alloc::{Allocator, Global};
use std::process::Abort;
use tk_clock::Command::{Freq, Resume, SetTime, Suspend, Tick, Update};
use tk_clock::{Clock, Refusal, SNAPSHOT_WORDS, Snapshot};
use tk_keeper::{FrontError, Timekeeper};
use tk_test_support::{Heap, OPENED_TIME, OPENED_WORDS, nanosecond_counter};

/// The most commands that are counted.
const MOST: u64 = 9_223_372_036_854_775_807;

/// Returns the clocks with these words and this frequency, at the usual tick.
fn clocks(rt: &impl Abort, words: [u64; SNAPSHOT_WORDS], frequency: i64) -> Clock {
    let desc = nanosecond_counter().expect(rt, "a counter");
    let snapshot = Snapshot::from_words(desc, words).expect(rt, "a snapshot");
    Clock::from_snapshot(snapshot, frequency, 10_000).expect(rt, "running clocks")
}

/// Returns the words of the clocks that a keeper was opened for, at their front.
fn given_words<A: Allocator + Copy>(keeper: &Timekeeper<A>) -> Option<[u64; SNAPSHOT_WORDS]> {
    let given = keeper.given()?;
    Some(given.clock.snapshot(given.front).words())
}

/// Returns a timekeeper of clocks that run under this front. It states nothing of the journal, to
/// keep the proof of each test short.
fn opened_from<A: Allocator + Copy>(
    rt: &impl Abort,
    alloc: A,
    clock: Clock,
    front: u64,
) -> Timekeeper<A> {
    Timekeeper::open_from(alloc, clock, front).expect(rt, "a keeper")
}

/// Returns a timekeeper of the clocks with the words `FASTER_WORDS` under the front 700, and its
/// words.
fn faster(rt: &impl Abort, alloc: Global) -> (Timekeeper, [u64; SNAPSHOT_WORDS]) {
    let clock = clocks(rt, FASTER_WORDS, 32_768_000);
    let mut words = FASTER_WORDS;
    words[0] = 700;
    (opened_from(rt, alloc, clock, 700), words)
}

#[test]
fn clocks_that_run_go_on_under_their_front(rt: HostRuntime) {
    let (mut keeper, words) = faster(&rt, rt.alloc());
    goes_on(&rt, &mut keeper, words);
}

fn goes_on(rt: &impl Abort, keeper: &mut Timekeeper, words: [u64; SNAPSHOT_WORDS]) {
    assert_same(rt, &length_and_words(keeper), &(700, words));
    assert_same(rt, &words_at(keeper, 700), &Ok(words));
    let first = (keeper.folded(), entry_of(keeper, 700));
    assert_same(rt, &first, &(700, None));
    has_no_front(rt, keeper, 699, FrontError::Folded);
    has_no_front(rt, keeper, 701, FrontError::Unknown);

    answers(rt, keeper, &[(1_000_000_000, Update, Ok(701))]);
    reads_monotonic(rt, keeper, 1_000_000_000, time(1, 499_963));
    assert_same(rt, &entry_of(keeper, 701).is_some(), &true);
    has_folded(rt, keeper, &[701, 700, 699], &[0, 9, 9]);
}

#[test]
fn a_keeper_states_the_clocks_that_it_was_opened_for(rt: HostRuntime) {
    let plain = opened(&rt, rt.alloc());
    assert_same(&rt, &given_words(&plain), &None);
    let (mut keeper, words) = faster(&rt, rt.alloc());
    states_given(&rt, &mut keeper, words);
}

fn states_given(rt: &impl Abort, keeper: &mut Timekeeper, words: [u64; SNAPSHOT_WORDS]) {
    answers(rt, keeper, &[(1_000_000_000, Update, Ok(701))]);
    assert_same(rt, &given_words(keeper), &Some(words));
    folds(rt, keeper, 0, 701);
    assert_same(rt, &given_words(keeper), &Some(words));
    let desc = nanosecond_counter().expect(rt, "a counter");
    let answer = changed(keeper, 1_000_000_000, desc, 5);
    assert_same(rt, &answer, &Ok(702));
    assert_same(rt, &given_words(keeper), &Some(words));
}

#[test]
fn clocks_that_sleep_go_on_asleep(rt: HostRuntime) {
    let clock = clocks(&rt, ASLEEP_WORDS, 0);
    let mut keeper = opened_from(&rt, rt.alloc(), clock, 1);
    answers(
        &rt,
        &mut keeper,
        &[
            (2_000, Update, Err(Refusal::Asleep)),
            (5, Resume(time(5, 500_000_000)), Ok(2)),
        ],
    );
    assert_same(&rt, &length_and_words(&keeper), &(2, AWAKE_WORDS));
}

#[test]
fn restored_clocks_go_on_as_the_first_ones(rt: HostRuntime) {
    let mut first = steered(&rt, rt.alloc());
    let clock = clocks(&rt, words_of(&first), -32_768_000);
    let mut again = opened_from(&rt, rt.alloc(), clock, 2);
    let commands = [
        (2_000_000_000, Tick(9_000), Ok(3)),
        (2_500_000_000, SetTime(time(1_800_000_000, 7)), Ok(4)),
        (2_400_000_000, Update, Err(Refusal::Behind)),
        (3_000_000_000, Freq(0), Ok(5)),
        (3_000_000_001, Suspend, Ok(6)),
    ];
    answers(&rt, &mut first, &commands);
    answers(&rt, &mut again, &commands);
    for front in 2..=6 {
        assert_same(&rt, &words_at(&again, front), &words_at(&first, front));
    }
}

#[test]
fn clocks_opened_with_an_uptime_have_no_command_yet(rt: HostRuntime) {
    let desc = nanosecond_counter().expect(&rt, "a counter");
    let clock = Clock::open_at(desc, 9, OPENED_TIME, time(60, 5)).expect(&rt, "clocks");
    let mut keeper = opened_from(&rt, rt.alloc(), clock, 0);
    assert_same(&rt, &(length(&keeper), keeper.folded()), &(0, 0));
    reads_monotonic(&rt, &keeper, 9, time(60, 5));
    answers(&rt, &mut keeper, &[(10, Update, Ok(1))]);
    reads_monotonic(&rt, &keeper, 10, time(60, 6));
}

#[test]
fn a_front_is_at_most_the_number_of_counted_commands(rt: HostRuntime) {
    let clock = clocks(&rt, OPENED_WORDS, 0);
    for front in [MOST + 1, u64::MAX] {
        let refused = Timekeeper::open_from(rt.alloc(), clock, front).err();
        assert_same(&rt, &refused, &Some(Refusal::Invalid));
    }
    let mut keeper = opened_from(&rt, rt.alloc(), clock, MOST - 1);
    answers(
        &rt,
        &mut keeper,
        &[(0, Update, Ok(MOST)), (0, Update, Err(Refusal::Full))],
    );
    let full = opened_from(&rt, rt.alloc(), clock, MOST);
    assert_same(&rt, &length(&full), &(MOST as usize));
}

#[test]
fn a_keeper_of_running_clocks_is_opened_without_memory(rt: HostRuntime) {
    let heap = Heap::new(rt.alloc());
    heap.refuse_all();
    let clock = clocks(&rt, FASTER_WORDS, 32_768_000);
    let mut keeper = opened_from(&rt, &heap, clock, 255);
    assert_same(&rt, &keeper.spare(), &0);
    let refused = applies(&mut keeper, 1, Update);
    assert_same(&rt, &refused, &Err(Refusal::Memory));
    let _ = heap.grant_all();
    assert_same(&rt, &applies(&mut keeper, 1, Update), &Ok(256));
}
