//! Tests four callers, in a thread each, and every kind of command.
ghost use Rattle.tk_shared.specs.Closing.{AreDifferent};
ghost use Rattle.tk_shared.specs.Opening.{IsNamed};

use super::{
    OPENED_TIME, assert_same, closed, commanded, glanced, last_two, nanosecond_counter, opened,
    read_by, ready, time,
};
use std::alloc::{AllocError, Global};
use std::marker::Brand;
use std::process::Abort;
use std::sync::Wait;
use std::thread::{Threads, join};
use tk_clock::{Command, Entry, Refusal, Snapshot};
use tk_keeper::Timekeeper;
use tk_shared::{Caller, Named, Prepared, SharedKeeper, Ticker};

/// The number of commands of a caller, and the number between two of its reads.
const COMMANDS: u64 = 50_000;

const READ_EVERY: u64 = 250;

/// The cycles from one reading of the ticker to the next.
const STEP: u64 = 1_000;

/// One of every kind, in turn.
fn command_of(turn: u64) -> Command {
    match turn % 10 {
        0 => Command::Update,
        1 => Command::SetTime(time(2_000_000_000, 5)),
        2 => Command::Step(time(-1, 999_999_998)),
        3 => Command::Freq((turn % 40_000) as i64 - 20_000),
        4 => Command::Tick(9_000 + (turn % 2_000) as i64),
        5 => Command::Tai((turn % 100) as i64),
        6 => Command::Suspend,
        7 => Command::Resume(time(0, 3)),
        8 => Command::Leap {
            by: 1 - (turn % 3) as i64,
            tai: 37,
        },
        _ => Command::Tick(12_000),
    }
}

/// The results of a caller: the number of accepted commands, the snapshots that it read, and
/// whether all was in order.
#[derive(Drop)]
struct Seen {
    accepted: u64,
    snapshots: Vec<Snapshot>,
    is_good: bool,
}

/// Gives all commands, with reads between.
fn all_commands<L: Named, R: Wait>(
    rt: &R,
    alloc: Global,
    keeper: &SharedKeeper<L, Ticker>,
    caller: &mut Caller<L>,
) -> Seen {
    let mut seen = Seen {
        accepted: 0,
        snapshots: Vec::new(alloc),
        is_good: true,
    };
    for turn in 0..COMMANDS {
        let (front, mark) = (caller.front(), caller.mark());
        match commanded(rt, keeper, caller, command_of(turn)) {
            Ok(number) => {
                let now = (caller.front(), caller.mark());
                seen.is_good = seen.is_good && front < number && mark < number;
                seen.is_good = seen.is_good && now == (number, number);
            }
            Err(refusal) => {
                let known = matches!(refusal, Refusal::Asleep | Refusal::Awake | Refusal::Invalid);
                seen.is_good = seen.is_good && known && caller.mark() == mark;
            }
        }
        if turn % READ_EVERY == 0 && reads_both(rt, keeper, caller, &mut seen).is_err() {
            seen.is_good = false;
            break;
        }
    }
    seen.accepted = caller.accepted();
    seen
}

/// Stores the snapshot of a read, and the snapshot of a fast read if it returns one.
fn reads_both<L: Named, R: Wait>(
    rt: &R,
    keeper: &SharedKeeper<L, Ticker>,
    caller: &mut Caller<L>,
    seen: &mut Seen,
) -> Result<(), AllocError> {
    let front = caller.front();
    let snapshot = read_by(rt, keeper, caller);
    seen.is_good = seen.is_good && front <= snapshot.front() && caller.front() == snapshot.front();
    seen.snapshots.push(snapshot)?;
    if let Ok(snapshot) = glanced(keeper, caller) {
        seen.is_good = seen.is_good && caller.mark() == snapshot.front();
        seen.snapshots.push(snapshot)?;
    }
    Ok(())
}

/// Lets two callers act at once.
fn two_callers<L: Named + Send + Sync, R: Threads + Wait + Sync>(
    rt: &R,
    alloc: Global,
    keeper: &SharedKeeper<L, Ticker>,
    one: &mut Caller<L>,
    two: &mut Caller<L>,
) -> (Seen, Seen) {
    join(
        rt,
        move || all_commands(rt, alloc, keeper, one),
        move || all_commands(rt, alloc, keeper, two),
    )
}

/// Applies the same journal again, command by command, at the ticker's readings.
fn applied_again<R: Abort>(rt: &R, alloc: Global, keeper: &Timekeeper) -> Timekeeper {
    let mut again = opened_again(rt, alloc);
    for number in 1..=keeper.len() as u64 {
        let entry = keeper.entry(number).expect(rt, "an entry");
        let answer = applied(&mut again, &entry);
        assert_same(rt, &(answer, entry.reading % STEP), &(Ok(number), 0));
    }
    again
}

/// Opens clocks as the shared keeper's were opened.
fn opened_again<R: Abort>(rt: &R, alloc: Global) -> Timekeeper {
    let desc = nanosecond_counter().expect(rt, "a counter");
    let again = Timekeeper::open(alloc, desc, 0, OPENED_TIME);
    again.ok().expect(rt, "a keeper")
}

/// Applies an entry. Tests need nothing of its contract.
fn applied(keeper: &mut Timekeeper, entry: &Entry) -> Result<u64, Refusal> {
    keeper.apply(entry.who, entry.reading, entry.cmd)
}

/// Checks that every snapshot that was read is the snapshot at its front, and that the clocks of
/// the journal that was applied again are those of the journal.
fn agrees<R: Abort>(rt: &R, alloc: Global, keeper: &Timekeeper, seen: &Seen) {
    let again = applied_again(rt, alloc, keeper);
    assert_same(rt, &again.snapshot().words(), &keeper.snapshot().words());
    for snapshot in seen.snapshots.iter() {
        let past = again.snapshot_at(snapshot.front());
        let words = past.ok().expect(rt, "a front").words();
        assert_same(rt, &words, &snapshot.words());
    }
}

#[test]
fn four_callers_share_one_history(rt: HostRuntime) {
    let prepared = ready(&rt, rt.alloc(), Ticker::new(0, STEP), 4);
    four::<Brand, _>(&rt, rt.alloc(), prepared);
}

fn four<L: Named + Send + Sync, R: Threads + Wait + Abort + Sync>(
    rt: &R,
    alloc: Global,
    prepared: Prepared<Ticker>,
)
    requires named { IsNamed prepared L.page L.latch L.notice L.name L.parts L.callers }
{
    let (keeper, callers) = opened::<L, Ticker>(rt, alloc, prepared);
    let (callers, saw) = four_act(rt, alloc, &keeper, callers);
    let closed = closed(rt, keeper, callers);
    all_agree(rt, alloc, &closed.keeper, &saw);
}

/// Lets the four callers of a vector act at once. Returns them in a vector, and their results.
fn four_act<L: Named + Send + Sync, R: Threads + Wait + Abort + Sync>(
    rt: &R,
    alloc: Global,
    keeper: &SharedKeeper<L, Ticker>,
    mut callers: Vec<Caller<L>>,
) -> (Vec<Caller<L>>, [Seen; 4])
    ensures { AreDifferent result.0.items }
{
    let (mut three, mut two) = last_two(rt, &mut callers);
    let (mut one, mut zero) = last_two(rt, &mut callers);
    let saw = all_act(rt, alloc, keeper, &mut zero, &mut one, &mut two, &mut three);
    (gathered(rt, alloc, zero, one, two, three), saw)
}

fn all_act<L: Named + Send + Sync, R: Threads + Wait + Sync>(
    rt: &R,
    alloc: Global,
    keeper: &SharedKeeper<L, Ticker>,
    zero: &mut Caller<L>,
    one: &mut Caller<L>,
    two: &mut Caller<L>,
    three: &mut Caller<L>,
) -> [Seen; 4] {
    let ((first, second), (third, fourth)) = join(
        rt,
        move || two_callers(rt, alloc, keeper, zero, one),
        move || two_callers(rt, alloc, keeper, two, three),
    );
    [first, second, third, fourth]
}

/// Returns the callers 0 to 3 in a vector. Since it tests their numbers, the calls before it need
/// no clause on them.
fn gathered<L: Named>(
    rt: &impl Abort,
    alloc: Global,
    zero: Caller<L>,
    one: Caller<L>,
    two: Caller<L>,
    three: Caller<L>,
) -> Vec<Caller<L>>
    ensures { AreDifferent result.items }
{
    assert!(rt; zero.id() == 0);
    assert!(rt; one.id() == 1);
    assert!(rt; two.id() == 2);
    assert!(rt; three.id() == 3);
    vec![in alloc; zero, one, two, three]
        .ok()
        .expect(rt, "memory")
}

/// Checks that all results of the callers were in order, and that the snapshots belong to the
/// journal, which contains all accepted commands and no others.
fn all_agree<R: Abort>(rt: &R, alloc: Global, keeper: &Timekeeper, saw: &[Seen]) {
    let mut accepted = 0u64;
    for seen in saw {
        assert!(rt; seen.is_good);
        accepted = accepted.wrapping_add(seen.accepted);
        agrees(rt, alloc, keeper, seen);
    }
    assert_same(rt, &(keeper.len() as u64), &accepted);
}
