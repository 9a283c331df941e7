use super::{assert_same, entry_of, length, opened};
use std::alloc::Allocator;
use tk_clock::{Command, Entry, Refusal};
use tk_keeper::Timekeeper;

fn event(reading: u64, cmd: Command) -> Entry {
    Entry {
        who: 3,
        reading,
        cmd,
    }
}

/// Applies events. It states nothing of the journal, to keep the proof of each test short.
pub(super) fn run_all<A: Allocator + Copy>(
    keeper: &mut Timekeeper<A>,
    events: &[Entry],
) -> Result<Vec<Result<u64, Refusal>, A>, Refusal> {
    keeper.run(events)
}

#[test]
fn a_run_goes_on_after_a_refusal(rt: HostRuntime) {
    let mut keeper = opened(&rt, rt.alloc());
    let events = [
        event(100, Command::Update),
        event(99, Command::Update),
        event(200, Command::Tai(37)),
    ];
    match run_all(&mut keeper, &events) {
        Ok(answers) => {
            let wanted = [Ok(1), Err(Refusal::Behind), Ok(2)];
            assert_same(&rt, &answers.as_slice(), &wanted.as_slice());
        }
        Err(refusal) => assert_same(&rt, &Some(refusal), &None),
    }
    assert_same(&rt, &length(&keeper), &2);
    let last = event(200, Command::Tai(37));
    assert_same(&rt, &entry_of(&keeper, 2), &Some(last));
}

#[test]
fn a_run_may_have_more_events_than_a_journal_lists(rt: HostRuntime) {
    let events = Vec::from_elem(rt.alloc(), event(0, Command::Update), 1_048_577).expect(
        &rt, "memory",
    );
    let mut keeper = opened(&rt, rt.alloc());
    match run_all(&mut keeper, events.as_slice()) {
        Ok(answers) => {
            assert_same(&rt, &answers.len(), &1_048_577);
            assert_same(&rt, &answers.get(1_048_575), &Some(&Ok(1_048_576)));
            assert_same(&rt, &answers.last(), &Some(&Err(Refusal::Full)));
        }
        Err(refusal) => assert_same(&rt, &Some(refusal), &None),
    }
    assert_same(&rt, &length(&keeper), &1_048_576);
}
