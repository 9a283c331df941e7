//! Tests one publisher and its viewers, in a thread each.
ghost use Rattle.std.specs.Prelude.{◌≡◌};

use super::{OPENED_REAL, assert_same};
use std::process::Abort;
use std::sync::Wait;
use std::sync::atomic::{AtomicBool, Ordering};
use std::thread::{self, Threads, join};
use tk_clock::Command;
use tk_page::{Page, Viewer};
use tk_test_support::{PageDesk, opened_page};

/// The number of publications.
const ALL: u64 = 200_000;

/// The number of reads beside a publisher that doesn't stop before they have ended.
const READS: u64 = 100_000;

/// The cycles from one publication to the next, at 1 ns each. The counter wraps on the way.
const STEP: u64 = 100_000;

/// Returns the reading of a publication.
fn reading_of(number: u64) -> u64 {
    number.wrapping_mul(STEP) & 0xffff_ffff
}

/// Returns the words of a publication.
fn words_of(number: u64) -> [u64; 10] {
    let nanos = number.wrapping_mul(STEP);
    let (sec, frac) = (nanos / 1_000_000_000, nanos % 1_000_000_000 * 16_777_216);
    let reading = reading_of(number);
    [
        number,
        reading,
        16_777_216,
        frac,
        sec,
        OPENED_REAL,
        0,
        0,
        frac,
        sec,
    ]
}

/// Makes all publications.
fn publish_all<R: Wait + Abort>(rt: &R, page: &Page, desk: PageDesk)
    requires { desk.page ≡ page.now }
{
    let mut desk = desk;
    for number in 1..=ALL {
        let answer = desk.command(rt, page, reading_of(number), Command::Update);
        assert_same(rt, &answer, &Ok(number));
    }
}

/// Reads until it sees the last publication. All snapshots must be whole, and none may be older
/// than the one before.
fn watch<R: Wait + Abort>(rt: &R, page: &Page, viewer: Viewer) -> Viewer
    requires { viewer.page ≡ page.now }
    ensures { result.page ≡ page.now }
{
    let mut viewer = viewer;
    for _ in 0..1_000_000_000u64 {
        let front = viewer.front();
        let snapshot = viewer.read(rt, page);
        assert!(rt; front <= snapshot.front());
        assert_same(rt, &snapshot.words(), &words_of(snapshot.front()));
        if snapshot.front() == ALL {
            break;
        }
        if snapshot.front() == front {
            thread::yield_now();
        }
    }
    viewer
}

/// Lets two viewers read at the same time.
fn watch_both<R: Threads + Wait + Abort + Sync>(
    rt: &R,
    page: &Page,
    one: Viewer,
    two: Viewer,
) -> (Viewer, Viewer)
    requires one { one.page ≡ page.now }
    requires two { two.page ≡ page.now }
    ensures one { result.0.page ≡ page.now }
    ensures two { result.1.page ≡ page.now }
{
    join(
        rt,
        move ||
            requires { one.page ≡ page.now }
            ensures { result.page ≡ page.entry.now }
        { watch(rt, page, one) },
        move ||
            requires { two.page ≡ page.now }
            ensures { result.page ≡ page.entry.now }
        { watch(rt, page, two) },
    )
}

/// Makes all publications while a viewer reads.
fn publish_beside<R: Threads + Wait + Abort + Sync>(
    rt: &R,
    page: &Page,
    desk: PageDesk,
    viewer: Viewer,
) -> Viewer
    requires desk { desk.page ≡ page.now }
    requires viewer { viewer.page ≡ page.now }
    ensures { result.page ≡ page.now }
{
    join(
        rt,
        move ||
            requires { desk.page ≡ page.now }
        { publish_all(rt, page, desk) },
        move ||
            requires { viewer.page ≡ page.now }
            ensures { result.page ≡ page.entry.now }
        { watch(rt, page, viewer) },
    )
    .1
}

#[test]
fn readers_see_whole_publications_while_they_are_made(rt: HostRuntime) {
    let (page, desk, viewer) = opened_page(&rt, rt.alloc()).expect(&rt, "a page");
    let (one, others) = viewer.split(&page);
    let (two, three) = others.split(&page);
    let (host, shared) = (&rt, &page);
    let (one, (two, three)) = join(
        host,
        move ||
            requires { (desk.page ≡ shared.now) × (one.page ≡ shared.now) }
            ensures { result.page ≡ shared.entry.now }
        { publish_beside(host, shared, desk, one) },
        move ||
            requires { (two.page ≡ shared.now) × (three.page ≡ shared.now) }
            ensures { (result.0.page ≡ shared.entry.now) × (result.1.page ≡ shared.entry.now) }
        { watch_both(host, shared, two, three) },
    );
    assert_same(
        &rt,
        &(one.front(), two.front(), three.front()),
        &(ALL, ALL, ALL),
    );
    let joined = one.join(two, &page).join(three, &page);
    assert_same(&rt, &joined.front(), &ALL);
}

/// Publishes without a pause until `enough` is set.
fn publish_on<R: Wait + Abort>(rt: &R, page: &Page, desk: PageDesk, enough: &AtomicBool)
    requires { desk.page ≡ page.now }
{
    let mut desk = desk;
    for number in 1..=u64::MAX {
        let answer = desk.command(rt, page, reading_of(number), Command::Update);
        assert_same(rt, &answer, &Ok(number));
        if enough.load(Ordering::SeqCst) {
            break;
        }
    }
}

/// Reads `READS` times, and then sets `enough`.
fn read_enough<R: Wait + Abort>(rt: &R, page: &Page, viewer: Viewer, enough: &AtomicBool)
    requires { viewer.page ≡ page.now }
{
    let mut viewer = viewer;
    for _ in 0..READS {
        let snapshot = viewer.read(rt, page);
        assert_same(rt, &snapshot.words(), &words_of(snapshot.front()));
    }
    enough.store(true, Ordering::SeqCst);
}

#[test]
fn reads_end_beside_a_publisher_that_goes_on(rt: HostRuntime) {
    let (page, desk, viewer) = opened_page(&rt, rt.alloc()).expect(&rt, "a page");
    let enough = AtomicBool::new(false);
    let (host, shared, enough) = (&rt, &page, &enough);
    join(
        host,
        move ||
            requires { desk.page ≡ shared.now }
        { publish_on(host, shared, desk, enough) },
        move ||
            requires { viewer.page ≡ shared.now }
        { read_enough(host, shared, viewer, enough) },
    );
}
