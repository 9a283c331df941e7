use super::runs::run_all;
use super::{
    applied, applies, assert_same, length, length_and_words, opened, reserves, updated, updates,
};
use linked_list_allocator::LocalHeap;
use std::alloc::Global;
use std::process::Abort;
use tk_clock::{Command, Entry, Refusal};
use tk_keeper::Timekeeper;
use tk_test_support::Heap;

/// The number of requests that are refused in turn, which is more than the number that a test
/// makes.
const MOST: u64 = 100;

/// Grants all requests. Returns whether there was no request of the number `request`, so that none
/// was refused. Checks that there were more than `least` requests, and fewer than `MOST`.
fn grant_all(rt: &impl Abort, heap: &Heap<Global>, request: u64, least: u64) -> bool {
    let granted = heap.grant_all();
    let is_right = if granted {
        request > least
    } else {
        request < MOST
    };
    assert_same(rt, &(request, is_right), &(request, true));
    granted
}

/// Checks that a command within `spare()` succeeds, and that `spare()` is this number after it.
fn spends(rt: &impl Abort, keeper: &mut Timekeeper<&Heap<Global>>, reading: u64, spare: usize) {
    let answer = applies(keeper, reading, Command::Update);
    assert_same(rt, &(answer, keeper.spare()), &(Ok(reading), spare));
}

/// Checks that a command without memory is refused, and that nothing changes.
fn is_refused(rt: &impl Abort, keeper: &mut Timekeeper<&Heap<Global>>, reading: u64) {
    let before = length_and_words(keeper);
    let refused = applies(keeper, reading, Command::Update);
    assert_same(rt, &(refused, keeper.spare()), &(Err(Refusal::Memory), 0));
    assert_same(rt, &length_and_words(keeper), &before);
}

#[test]
fn spare_commands_go_through_while_every_request_is_refused(rt: HostRuntime) {
    let heap = Heap::new(rt.alloc());
    let mut keeper = opened(&rt, &heap);
    assert_same(&rt, &keeper.spare(), &0);
    assert_same(&rt, &reserves(&mut keeper, 1_000), &Ok(()));
    heap.refuse_all();
    let spare = keeper.spare();
    assert_same(&rt, &(spare >= 1_000), &true);
    let next = (spare as u64).wrapping_add(1);
    spends_all(&rt, &mut keeper, spare, next);
    heap.grant_all();
    let answer = applies(&mut keeper, next, Command::Update);
    assert_same(&rt, &answer, &Ok(next));
}

/// Checks that all commands within `spare()` succeed, and that the next one is refused.
fn spends_all(rt: &impl Abort, keeper: &mut Timekeeper<&Heap<Global>>, spare: usize, next: u64) {
    for number in 1..=spare {
        spends(rt, keeper, number as u64, spare - number);
    }
    is_refused(rt, keeper, next);
    is_refused(rt, keeper, next);
    let wrong = applies(keeper, 4_294_967_296, Command::Update);
    assert_same(rt, &wrong, &Err(Refusal::Invalid));
}

#[test]
fn each_growth_refused_in_turn_refuses_one_command(rt: HostRuntime) {
    let heap = Heap::new(rt.alloc());
    for request in 1..=MOST {
        let mut keeper = opened(&rt, &heap);
        heap.refuse(request);
        for number in 1..=600 {
            let answer = applied(&rt, &mut keeper, number, Command::Update);
            assert_same(&rt, &(request, answer), &(request, Ok(number)));
        }
        grant_all(&rt, &heap, request, 4);
    }
}

#[test]
fn each_growth_refused_in_turn_leaves_the_journal(rt: HostRuntime) {
    let heap = Heap::new(rt.alloc());
    for request in 1..=MOST {
        let mut keeper = updated(&rt, &heap, 255, 1);
        grows(&rt, &heap, &mut keeper, request);
    }
}

/// Asks for capacity while a request is refused, and checks that the journal is unchanged.
fn grows(
    rt: &impl Abort,
    heap: &Heap<Global>,
    keeper: &mut Timekeeper<&Heap<Global>>,
    request: u64,
) {
    let before = length_and_words(keeper);
    let spare = keeper.spare();
    heap.refuse(request);
    let answer = reserves(keeper, 1_000);
    let granted = grant_all(rt, heap, request, 2);
    if answer == Err(Refusal::Memory) {
        assert_same(rt, &(granted, keeper.spare() >= spare), &(false, true));
        assert_same(rt, &length_and_words(keeper), &before);
        assert_same(rt, &reserves(keeper, 1_000), &Ok(()));
    }
    assert_same(rt, &length_and_words(keeper), &before);
    assert_same(rt, &(keeper.spare() >= 1_000), &true);
}

#[test]
fn each_growth_refused_in_turn_applies_nothing_of_a_run(rt: HostRuntime) {
    let heap = Heap::new(rt.alloc());
    let event = Entry {
        who: 3,
        reading: 1_000,
        cmd: Command::Update,
    };
    let events = [event; 300];
    for request in 1..=MOST {
        let mut keeper = opened(&rt, &heap);
        heap.refuse(request);
        let answers = runs_whole(&rt, &mut keeper, &events);
        answers_each(&rt, answers.as_slice());
        assert_same(&rt, &(answers.len(), length(&keeper)), &(300, 300));
        grant_all(&rt, &heap, request, 3);
    }
}

/// Applies events. If an allocation failed, checks that none is applied, and applies them again.
fn runs_whole<'h>(
    rt: &impl Abort,
    keeper: &mut Timekeeper<&'h Heap<Global>>,
    events: &[Entry],
) -> Vec<Result<u64, Refusal>, &'h Heap<Global>> {
    let before = length_and_words(keeper);
    match run_all(keeper, events) {
        Ok(answers) => answers,
        Err(refusal) => {
            assert_same(rt, &refusal, &Refusal::Memory);
            assert_same(rt, &length_and_words(keeper), &before);
            run_all(keeper, events).expect(rt, "memory")
        }
    }
}

/// Checks that the answers are the numbers of commands from 1.
fn answers_each(rt: &impl Abort, answers: &[Result<u64, Refusal>]) {
    for (place, answer) in answers.iter().enumerate() {
        assert_same(rt, answer, &Ok(place as u64 + 1));
    }
}

#[test]
fn room_for_three_holds_three(rt: HostRuntime) {
    let heap = Heap::new(rt.alloc());
    let mut keeper = opened(&rt, &heap);
    assert_same(&rt, &reserves(&mut keeper, 3), &Ok(()));
    assert_same(&rt, &(keeper.spare() >= 3), &true);
    heap.refuse_all();
    updates(&rt, &mut keeper, 3, 1);
}

#[test]
fn one_event_runs_in_little_memory(rt: HostRuntime) {
    let heap = LocalHeap::new(rt.alloc(), 65_536).expect(&rt, "memory");
    let mut keeper = opened(&rt, &heap);
    let event = Entry {
        who: 3,
        reading: 1_000,
        cmd: Command::Update,
    };
    match run_all(&mut keeper, &[event]) {
        Ok(answers) => assert_same(&rt, &answers.as_slice(), &[Ok(1)].as_slice()),
        Err(refusal) => assert_same(&rt, &Some(refusal), &None),
    }
}

#[test]
fn room_for_a_whole_journal_is_there_at_once(rt: HostRuntime) {
    let mut keeper = opened(&rt, rt.alloc());
    assert_same(&rt, &reserves(&mut keeper, 1_048_576), &Ok(()));
    assert_same(&rt, &(keeper.spare() >= 1_048_576), &true);
}
