//! Times reads and publications of a latch.
ghost use Rattle.std.specs.Prelude.{◌≡◌};

use crate::latch_desk::LatchDesk;
use crate::timing::{at_once, timed};
use std::alloc::Global;
use std::sync::atomic::{AtomicBool, Ordering};
use std::thread::{self, Threads};
use std::time::{Clock as Hours, Duration, Instant};
use tk_latch::{Latch, LatchReader};
use tk_test_support::{Effort, Turn, weight};

/// The number of reads in a full turn; the next constant is the number of publications.
const READS: u64 = 10_000_000;

const PUBLICATIONS: u64 = 1_000_000;

/// Reads `count` times, and returns the sum of the weights. A read that fails because of a
/// publication adds `usual` instead.
fn reads(latch: &Latch, reader: &mut LatchReader, usual: u64, count: u64) -> u64
    requires { reader.old.latch ≡ latch.now }
    ensures { reader.new.latch ≡ reader.old.latch }
{
    let mut sum = 0u64;
    for _ in 0..count {
        let read = match reader.try_read(latch) {
            Ok(snapshot) => weight(&snapshot),
            Err(_) => usual,
        };
        sum = sum.wrapping_add(read);
    }
    sum
}

/// Times `count` reads. Returns `None` if the host's clock fails.
fn timed_reads<R: Hours>(
    rt: &R,
    latch: &Latch,
    reader: &mut LatchReader,
    usual: u64,
    count: u64,
) -> Option<Turn>
    requires { reader.old.latch ≡ latch.now }
{
    timed(rt, count, || reads(latch, reader, usual, count))
}

/// Times reads while nobody publishes. Returns `None` if a call fails.
pub fn quiet<R: Hours>(rt: &R, alloc: Global, effort: Effort) -> Option<Turn> {
    let (latch, mut desk, mut reader) = LatchDesk::open(alloc)?;
    if desk.update(&latch) {
        timed_reads(rt, &latch, &mut reader, 0, effort.of(READS))
    } else {
        None
    }
}

/// Publishes a thousand times a second until `enough` is set.
fn publishes_slowly<R: Hours>(rt: &R, latch: &Latch, desk: &mut LatchDesk, enough: &AtomicBool)
    requires { desk.old.latch ≡ latch.now }
{
    for _ in 0..PUBLICATIONS {
        if enough.load(Ordering::SeqCst) || !desk.update(latch) {
            return;
        }
        thread::sleep(rt, Duration::from_millis(1));
    }
}

/// Times reads while another thread publishes a thousand times a second. Returns `None` if a call
/// fails.
pub fn beside<R: Threads + Hours + Sync>(rt: &R, alloc: Global, effort: Effort) -> Option<Turn> {
    let (latch, mut desk, mut reader) = LatchDesk::open(alloc)?;
    let usual = reads(&latch, &mut reader, 0, 1);
    let (latch, count) = (&latch, effort.of(READS));
    at_once(
        rt,
        move |enough: &AtomicBool| publishes_slowly(rt, latch, &mut desk, enough),
        move || timed_reads(rt, latch, &mut reader, usual, count),
    )
}

/// Updates and publishes `count` times. Returns whether nothing is refused.
fn publications(latch: &Latch, desk: &mut LatchDesk, count: u64) -> bool
    requires { desk.old.latch ≡ latch.now }
{
    for _ in 0..count {
        if !desk.update(latch) {
            return false;
        }
    }
    true
}

/// Times updates of clocks with their publications. Returns `None` if a call fails.
pub fn publishing<R: Hours>(rt: &R, alloc: Global, effort: Effort) -> Option<Turn> {
    let (latch, mut desk, mut reader) = LatchDesk::open(alloc)?;
    timed_publications(rt, &latch, &mut desk, &mut reader, effort.of(PUBLICATIONS))
}

/// Times `count` updates with their publications, and reads the last one. Returns `None` if a call
/// fails.
fn timed_publications<R: Hours>(
    rt: &R,
    latch: &Latch,
    desk: &mut LatchDesk,
    reader: &mut LatchReader,
    count: u64,
) -> Option<Turn>
    requires desk { desk.old.latch ≡ latch.now }
    requires reader { reader.old.latch ≡ latch.now }
{
    let start = Instant::now(rt).ok()?;
    if !publications(latch, desk, count) {
        return None;
    }
    let time = start.elapsed(rt).ok()?;
    let read = reads(latch, reader, 0, 1);
    let check = read.wrapping_mul(31).wrapping_add(reader.mark());
    Some(Turn { time, count, check })
}
