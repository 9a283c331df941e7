//! Tests that reads return while a command holds the lock.
ghost use Rattle.tk_shared.specs.Opening.{IsNamed};

use super::{assert_same, commanded, glanced, open_two, read_by, ready};
use std::alloc::Global;
use std::marker::Brand;
use std::process::Abort;
use std::sync::Wait;
use std::sync::atomic::{AtomicU64, Ordering};
use std::thread::{self, Threads, join};
use tk_clock::{Command, Refusal};
use tk_now::Look;
use tk_shared::{Caller, Counter, Named, Prepared, SharedKeeper};

/// The number of times that a thread checks for the other one before it gives up.
const TURNS: u32 = 50_000_000;

/// Waits, in a command, until reads have returned. Its reading shows whether they have.
#[derive(Drop)]
struct Waits<'a> {
    inside: &'a AtomicU64,
    answered: &'a AtomicU64,
}

impl Counter for Waits<'_> {
    ghost use Rattle.std.specs.Prelude.{◌≤◌};

    ghost answers = { λ _ answer. answer ≤ 2 };

    ghost answers_after = { λ _ _ answer. answer ≤ 2 };

    fn read(&mut self) -> u64 {
        0
    }

    fn read_after(&mut self, _look: &Look) -> u64 {
        self.inside.store(1, Ordering::SeqCst);
        if is_set(self.answered) { 1 } else { 2 }
    }
}

/// Waits until the flag is set. Returns whether it was set in time.
fn is_set(flag: &AtomicU64) -> bool {
    for _ in 0..TURNS {
        if flag.load(Ordering::SeqCst) == 1 {
            return true;
        }
        thread::yield_now();
    }
    false
}

/// Gives an Update, and returns the reading of the clocks after it.
fn updates<L: Named, C: Counter, R: Wait>(
    rt: &R,
    keeper: &SharedKeeper<L, C>,
    caller: &mut Caller<L>,
) -> (Result<u64, Refusal>, u64) {
    let done = commanded(rt, keeper, caller, Command::Update);
    (done, read_by(rt, keeper, caller).last())
}

/// Makes both reads while a command holds the lock, which is released after them. Returns whether
/// it was held, and the numbers of commands that they found.
fn reads<L: Named, C: Counter, R: Wait>(
    rt: &R,
    keeper: &SharedKeeper<L, C>,
    caller: &mut Caller<L>,
    inside: &AtomicU64,
    answered: &AtomicU64,
) -> (bool, Option<u64>, u64) {
    let entered = is_set(inside);
    let fast = match glanced(keeper, caller) {
        Ok(seen) => Some(seen.front()),
        Err(_) => None,
    };
    let front = read_by(rt, keeper, caller).front();
    answered.store(1, Ordering::SeqCst);
    (entered, fast, front)
}

#[test]
fn reads_are_answered_while_a_command_holds_the_lock(rt: HostRuntime) {
    let inside = AtomicU64::new(0);
    let answered = AtomicU64::new(0);
    let counter = Waits {
        inside: &inside,
        answered: &answered,
    };
    let prepared = ready(&rt, rt.alloc(), counter, 2);
    beside::<Brand, _>(&rt, rt.alloc(), prepared, &inside, &answered);
}

fn beside<'a, L: Named + Send + Sync, R: Threads + Wait + Abort + Sync>(
    rt: &R,
    alloc: Global,
    prepared: Prepared<Waits<'a>>,
    inside: &AtomicU64,
    answered: &AtomicU64,
)
    requires named { IsNamed prepared L.page L.latch L.notice L.name L.parts L.callers }
{
    let (keeper, mut one, mut two) = open_two::<L, Waits<'a>>(rt, alloc, prepared);
    both_act(rt, &keeper, &mut one, &mut two, inside, answered);
}

/// Lets the second caller read while a command of the first one holds the lock.
fn both_act<L: Named + Send + Sync, C: Counter, R: Threads + Wait + Abort + Sync>(
    rt: &R,
    keeper: &SharedKeeper<L, C>,
    one: &mut Caller<L>,
    two: &mut Caller<L>,
    inside: &AtomicU64,
    answered: &AtomicU64,
) {
    let ((done, last), (entered, fast, front)) = join(
        rt,
        move || updates(rt, keeper, one),
        move || reads(rt, keeper, two, inside, answered),
    );
    assert_same(rt, &(entered, done, last), &(true, Ok(1), 1));
    assert_same(rt, &(fast, front), &(Some(0), 0));
}
