use super::{CALLER, assert_alike, assert_replays, assert_same, offset, opened, plain};
use std::alloc::Allocator;
use std::process::Abort;
use tk_clock::{Command, Refusal};
use tk_ntp::{SECOND_ENTRIES_LIMIT, SteeredClock};
use tk_steered::Steered;
use tk_test_support::Heap;

/// The reading of the end of the seconds that the tests let begin: 20 minutes.
const END: u64 = 1_200_000_000_000;

/// Advances clocks to the end, and again after a refusal. Returns the number of refusals.
fn advance_to_the_end<A: Allocator + Copy>(rt: &impl Abort, steered: &mut Steered<A>) -> u64 {
    for refusals in 0..100 {
        let before = steered.clock().numbers().next;
        match steered.advance(CALLER, END) {
            Ok(()) => return refusals,
            Err(refusal) => assert_same(rt, &refusal, &Refusal::Memory),
        }
        assert_same(rt, &(before <= steered.clock().numbers().next), &true);
    }
    100
}

/// Returns clocks without a journal that were asked for an offset and advanced to the end.
fn wanted(rt: &impl Abort) -> SteeredClock {
    let mut plain = plain(rt);
    let _reply = plain.adjtimex(0, &offset(400_000));
    assert_same(rt, &plain.advance(END), &Ok(()));
    plain
}

#[test]
fn seconds_wait_for_memory_that_was_refused(rt: HostRuntime) {
    let wanted = wanted(&rt);
    for number in 1..60 {
        let heap = Heap::new(rt.alloc());
        let mut steered = opened(&rt, &heap);
        let _reply = steered.adjtimex(CALLER, 0, &offset(400_000));
        heap.refuse(number);
        let refusals = advance_to_the_end(&rt, &mut steered);
        assert_alike(&rt, &steered.clock(), &wanted);
        assert_replays(&rt, &steered);
        if heap.grant_all() {
            assert_same(&rt, &(number > 3, refusals), &(true, 0));
            return;
        }
        assert_same(&rt, &refusals, &1);
    }
    assert_same(&rt, &true, &false);
}

#[test]
fn a_call_without_memory_changes_nothing_of_its_own(rt: HostRuntime) {
    let heap = Heap::new(rt.alloc());
    let mut steered = opened(&rt, &heap);
    heap.refuse_all();
    let found = steered.adjtimex(CALLER, 0, &offset(400_000));
    assert_same(&rt, &found, &Err(Refusal::Memory));
    let found = steered.apply(CALLER, 0, Command::Update);
    assert_same(&rt, &found, &Err(Refusal::Memory));
    assert_alike(&rt, &steered.clock(), &plain(&rt));
    assert_same(&rt, &steered.keeper().len(), &0);
}

#[test]
fn seconds_wait_for_a_fold_of_a_full_journal(rt: HostRuntime) {
    let mut steered = opened(&rt, rt.alloc());
    let _reply = steered.adjtimex(CALLER, 0, &offset(400_000));
    let left = 20 * SECOND_ENTRIES_LIMIT;
    for _ in steered.keeper().len()..tk_keeper::LISTED_LIMIT - left {
        let updated = steered.apply(CALLER, 0, Command::Update);
        assert_same(&rt, &updated.is_ok(), &true);
    }
    assert_same(&rt, &steered.advance(CALLER, END), &Err(Refusal::Full));
    let stopped = steered.clock().numbers().next;
    assert_same(
        &rt,
        &(stopped > 1_700_000_010 && stopped < 1_700_001_000),
        &true,
    );
    // the second that was refused is the next one, and can't begin either
    assert_same(&rt, &steered.advance(CALLER, END), &Err(Refusal::Full));
    assert_same(&rt, &steered.clock().numbers().next, &stopped);
    let _folded = steered.fold(0);
    assert_same(&rt, &steered.advance(CALLER, END), &Ok(()));
    assert_alike(&rt, &steered.clock(), &wanted(&rt));
}
