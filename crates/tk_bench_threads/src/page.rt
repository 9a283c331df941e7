//! Times reads and publications of a page.
ghost use Rattle.std.specs.Prelude.{◌≡◌};

use crate::timing::{at_once, timed};
use std::alloc::Global;
use std::sync::Wait;
use std::sync::atomic::{AtomicBool, Ordering};
use std::thread::{self, Threads};
use std::time::{Clock as Hours, Duration, Instant};
use tk_clock::Command;
use tk_page::{Page, Viewer};
use tk_test_support::{Effort, PageDesk, Turn, opened_page, reading_of, weight};

/// The number of reads in a full turn; the next constant is the number of publications.
const READS: u64 = 10_000_000;

const PUBLICATIONS: u64 = 1_000_000;

/// Updates the clocks, a step after the last update, and publishes them. Returns whether the update
/// is accepted.
fn update<R: Wait>(rt: &R, page: &Page, desk: &mut PageDesk) -> bool
    requires { desk.old.page ≡ page.now }
    ensures { desk.new.page ≡ desk.old.page }
{
    let reading = reading_of(desk.front().wrapping_add(1));
    desk.command(rt, page, reading, Command::Update).is_ok()
}

/// Reads `count` times, and returns the sum of the weights.
fn reads<R: Wait>(rt: &R, page: &Page, viewer: &mut Viewer, count: u64) -> u64
    requires { viewer.old.page ≡ page.now }
    ensures { viewer.new.page ≡ viewer.old.page }
{
    let mut sum = 0u64;
    for _ in 0..count {
        sum = sum.wrapping_add(weight(&viewer.read(rt, page)));
    }
    sum
}

/// Times `count` reads. Returns `None` if the host's clock fails.
fn timed_reads<R: Wait + Hours>(
    rt: &R,
    page: &Page,
    viewer: &mut Viewer,
    count: u64,
) -> Option<Turn>
    requires { viewer.old.page ≡ page.now }
{
    timed(rt, count, || reads(rt, page, viewer, count))
}

/// Times reads while nobody publishes. Returns `None` if a call fails.
pub fn quiet<R: Wait + Hours>(rt: &R, alloc: Global, effort: Effort) -> Option<Turn> {
    let (page, mut desk, mut viewer) = opened_page(rt, alloc)?;
    if update(rt, &page, &mut desk) {
        timed_reads(rt, &page, &mut viewer, effort.of(READS))
    } else {
        None
    }
}

/// Publishes a thousand times a second until `enough` is set.
fn publishes_slowly<R: Wait + Hours>(rt: &R, page: &Page, desk: &mut PageDesk, enough: &AtomicBool)
    requires { desk.old.page ≡ page.now }
{
    for _ in 0..PUBLICATIONS {
        if enough.load(Ordering::SeqCst) || !update(rt, page, desk) {
            return;
        }
        thread::sleep(rt, Duration::from_millis(1));
    }
}

/// Times reads while another thread publishes a thousand times a second. Returns `None` if a call
/// fails.
pub fn beside<R: Threads + Wait + Hours + Sync>(
    rt: &R,
    alloc: Global,
    effort: Effort,
) -> Option<Turn> {
    let (page, mut desk, mut viewer) = opened_page(rt, alloc)?;
    let (page, count) = (&page, effort.of(READS));
    at_once(
        rt,
        move |enough: &AtomicBool| publishes_slowly(rt, page, &mut desk, enough),
        move || timed_reads(rt, page, &mut viewer, count),
    )
}

/// Updates and publishes `count` times. Returns whether all updates are accepted.
fn publications<R: Wait>(rt: &R, page: &Page, desk: &mut PageDesk, count: u64) -> bool
    requires { desk.old.page ≡ page.now }
{
    for _ in 0..count {
        if !update(rt, page, desk) {
            return false;
        }
    }
    true
}

/// Times updates of clocks with their publications. Returns `None` if a call fails.
pub fn publishing<R: Wait + Hours>(rt: &R, alloc: Global, effort: Effort) -> Option<Turn> {
    let (page, mut desk, mut viewer) = opened_page(rt, alloc)?;
    timed_publications(rt, &page, &mut desk, &mut viewer, effort.of(PUBLICATIONS))
}

/// Times `count` updates with their publications, and reads the last one. Returns `None` if a call
/// fails.
fn timed_publications<R: Wait + Hours>(
    rt: &R,
    page: &Page,
    desk: &mut PageDesk,
    viewer: &mut Viewer,
    count: u64,
) -> Option<Turn>
    requires desk { desk.old.page ≡ page.now }
    requires viewer { viewer.old.page ≡ page.now }
{
    let start = Instant::now(rt).ok()?;
    if !publications(rt, page, desk, count) {
        return None;
    }
    let time = start.elapsed(rt).ok()?;
    let read = reads(rt, page, viewer, 1);
    let check = read.wrapping_mul(31).wrapping_add(viewer.front());
    Some(Turn { time, count, check })
}
