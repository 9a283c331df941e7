//! Tests readings of a shared counter, one thread at a time and among commands of another thread.
ghost use Rattle.std.specs.Prelude.{◌≡◌, None, length};

use std::sync::atomic::{AtomicU64, Ordering};
use std::thread::{Threads, join};
use std::time::Instant;
use tk_now::{
    HostCounter, Look, Notice, NoticeReader, NoticeWriter, SharedCounter, SharedTicker, Timed,
};

/// The number of commands, of which every third is refused.
const COMMANDS: u64 = 100_000;

/// The number of readings that a reader asks for.
const READINGS: u64 = 200_000;

/// Gives all commands, and stores the reading of the latest accepted one in `latest`. Returns
/// whether every command's reading was above all readings that any thread had when the command was
/// announced.
fn gives_all(
    notice: &Notice,
    mut writer: NoticeWriter,
    counter: &SharedTicker,
    latest: &AtomicU64,
    greatest: &AtomicU64,
) -> bool
    requires notice { writer.notice ≡ notice.now }
    requires idle { writer.since ≡ None }
    requires opened { length writer.commands ≡ 1 }
{
    let mut is_good = true;
    for number in 0..COMMANDS {
        let before = greatest.load(Ordering::SeqCst);
        writer.announce(notice);
        let reading = writer.read(counter);
        is_good = is_good && before < reading;
        if number % 3 == 0 {
            writer.withdraw(notice);
        } else {
            latest.store(reading, Ordering::SeqCst);
            writer.accept(notice, reading);
        }
    }
    is_good
}

/// Takes readings. Returns whether every reading was above all readings that any thread had when
/// the call began, and above the reading of the latest command at that time.
fn takes_all(
    notice: &Notice,
    mut reader: NoticeReader,
    counter: &SharedTicker,
    latest: &AtomicU64,
    greatest: &AtomicU64,
) -> bool
    requires { reader.notice ≡ notice.now }
{
    let mut is_good = true;
    for _ in 0..READINGS {
        let before = greatest
            .load(Ordering::SeqCst)
            .max(latest.load(Ordering::SeqCst));
        if let Ok(Timed { place: _, reading }) = reader.time(notice, counter) {
            is_good = is_good && before < reading;
            greatest.fetch_max(reading, Ordering::SeqCst);
        }
    }
    is_good
}

/// Takes readings on two threads.
fn takes_beside<R: Threads + Sync>(
    rt: &R,
    notice: &Notice,
    one: NoticeReader,
    other: NoticeReader,
    counter: &SharedTicker,
    latest: &AtomicU64,
    greatest: &AtomicU64,
) -> bool
    requires one { one.notice ≡ notice.now }
    requires other { other.notice ≡ notice.now }
{
    let (this, that) = join(
        rt,
        move || -> bool
            requires { one.notice ≡ notice.now }
        { takes_all(notice, one, counter, latest, greatest) },
        move || -> bool
            requires { other.notice ≡ notice.now }
        { takes_all(notice, other, counter, latest, greatest) },
    );
    this && that
}

#[test]
fn readings_never_fall_while_commands_are_given(rt: HostRuntime) {
    let counter = SharedTicker::new(1, 1);
    let (latest, greatest) = (AtomicU64::new(0), AtomicU64::new(0));
    let (notice, mut writer) = Notice::open(rt.alloc(), 0).expect(&rt, "memory");
    let one = notice.reader(&mut writer);
    let other = notice.reader(&mut writer);
    let (notice, counter, latest, greatest) = (&notice, &counter, &latest, &greatest);
    let rt = &rt;
    let (given, taken) = join(
        rt,
        move || -> bool
            requires { (writer.notice ≡ notice.now) × (writer.since ≡ None)
                × (length writer.commands ≡ 1) }
        { gives_all(notice, writer, counter, latest, greatest) },
        move || -> bool
            requires { (one.notice ≡ notice.now) × (other.notice ≡ notice.now) }
        { takes_beside(rt, notice, one, other, counter, latest, greatest) },
    );
    assert!(rt; given && taken);
}

#[test]
fn a_place_is_the_number_of_accepted_commands(rt: HostRuntime) {
    let counter = SharedTicker::new(10, 5);
    let (notice, mut writer) = Notice::open(rt.alloc(), 10).expect(&rt, "memory");
    let mut reader = notice.reader(&mut writer);
    let opened = reader.time(&notice, &counter);
    assert!(rt;
        opened
            == Ok(Timed {
                place: 0,
                reading: 10
            })
    );
    writer.announce(&notice);
    let busy = reader.time(&notice, &counter);
    assert!(rt; busy.is_err());
    let reading = writer.read(&counter);
    assert!(rt; reading == 20);
    writer.accept(&notice, reading);
    assert!(rt;
        reader.time(&notice, &counter)
            == Ok(Timed {
                place: 1,
                reading: 25
            })
    );
    writer.announce(&notice);
    writer.withdraw(&notice);
    assert!(rt;
        reader.time(&notice, &counter)
            == Ok(Timed {
                place: 1,
                reading: 30
            })
    );
    writer.take_in(&notice, reader);
}

#[test]
fn a_peek_shows_the_next_reading(rt: HostRuntime) {
    let counter = SharedTicker::new(10, 5);
    let look = Look::first(rt.alloc()).expect(&rt, "memory");
    for reading in [10, 15, 20] {
        assert!(rt; counter.peek(&look) == reading && counter.peek(&look) == reading);
        assert!(rt; counter.read(&look) == reading);
    }
}

#[test]
fn the_hosts_clock_advances(rt: HostRuntime) {
    let start = Instant::now(&rt).expect(&rt, "a time");
    let counter = HostCounter::new(&rt, start);
    let (notice, mut writer) = Notice::open(rt.alloc(), 0).expect(&rt, "memory");
    let mut reader = notice.reader(&mut writer);
    let mut before = 0;
    for _ in 0..1000 {
        let timed = reader.time(&notice, &counter).expect(&rt, "a reading");
        assert!(rt; before <= timed.reading);
        before = timed.reading;
    }
    assert!(rt; 0 < before && before < 60_000_000_000);
}
