//! Tests publications that change some of the words: only the front, the front and one other word,
//! and all words.
ghost use Rattle.std.specs.Prelude.{◌≡◌, ◌≤◌, length, slice_index, suc, true, IfSome};

use super::{OPENED_REAL, assert_same, nanosecond_counter};
use std::process::Abort;
use tk_clock::Snapshot;
use tk_counter::CounterDesc;
use tk_latch::{Latch, LatchReader, LatchWriter};

/// The number of publications in a test.
pub(super) const PUBLICATIONS: u64 = 200_000;

/// The number of publications after which a single word changes again.
const TURN: u64 = 11;

/// The number of publications after which all words change.
const ALL_CHANGE: u64 = 1_000;

/// Returns the number of changes of the word at `place` up to a publication. The words 1 to 9 take
/// turns, and in the rest of a turn only the front changes.
fn changes(number: u64, place: u64) -> u64
    requires number { number ≤ PUBLICATIONS }
    requires place { place ≤ 9 }
    ensures { result ≤ 18_383 }
{
    (number + TURN - place) / TURN + number / ALL_CHANGE
}

/// Returns the words of the publication with a number.
pub(super) fn words_at(number: u64) -> [u64; 10]
    requires { number ≤ PUBLICATIONS }
    ensures { slice_index result 0 ≡ number }
{
    [
        number,
        changes(number, 1),
        16_777_216 + changes(number, 2),
        changes(number, 3),
        changes(number, 4),
        OPENED_REAL + changes(number, 5),
        changes(number, 6),
        changes(number, 7),
        changes(number, 8),
        changes(number, 9),
    ]
}

/// Returns the publication with a number.
pub(super) fn publication(desc: CounterDesc, number: u64) -> Option<Snapshot>
    requires { number ≤ PUBLICATIONS }
    ensures { IfSome result (λ snapshot.
        (snapshot.front ≡ number) × (snapshot.base.counter ≡ desc)) }
{
    Snapshot::from_words(desc, words_at(number))
}

/// Returns the counter, and the publication at the opening.
pub(super) fn opening(rt: &impl Abort) -> (CounterDesc, Snapshot)
    ensures { (result.1.front ≡ 0) × (result.1.base.counter ≡ result.0) }
{
    let desc = nanosecond_counter().expect(rt, "a counter");
    let snapshot = publication(desc, 0).expect(rt, "the opening");
    (desc, snapshot)
}

/// Returns the number of words in which the publication with a number differs from the one before.
fn differences(number: u64) -> usize
    requires before { 1 ≤ number }
    requires listed { number ≤ PUBLICATIONS }
{
    let (former, words) = (words_at(number - 1), words_at(number));
    let mut count = 0;
    for place in 0..10 {
        if former[place] != words[place] {
            count += 1;
        }
    }
    count
}

/// Returns whether a read finds the words of the publication with a number.
fn reads(latch: &Latch, reader: &mut LatchReader, number: u64) -> bool
    requires latch { reader.old.latch ≡ latch.now }
    requires listed { number ≤ PUBLICATIONS }
    ensures { reader.new.latch ≡ reader.old.latch }
{
    match reader.try_read(latch) {
        Ok(snapshot) => snapshot.words() == words_at(number),
        Err(_) => false,
    }
}

/// Makes the publication with a number, and returns whether it succeeded.
pub(super) fn publishes(
    latch: &Latch,
    writer: &mut LatchWriter,
    desc: CounterDesc,
    number: u64,
) -> bool
    requires latch { writer.old.latch ≡ latch.now }
    requires counter { desc ≡ latch.now.counter }
    requires next { length writer.old.publications ≡ number }
    requires listed { number ≤ PUBLICATIONS }
    ensures latch { writer.new.latch ≡ writer.old.latch }
    ensures next { result ≡ true → length writer.new.publications ≡ suc number }
{
    match publication(desc, number) {
        Some(snapshot) => writer.publish(latch, snapshot).is_ok(),
        None => false,
    }
}

/// Makes all publications in order, and reads after each. Returns whether all reads found the
/// publication's words.
fn reads_each(
    latch: &Latch,
    mut writer: LatchWriter,
    mut reader: LatchReader,
    desc: CounterDesc,
) -> bool
    requires writer { writer.latch ≡ latch.now }
    requires reader { reader.latch ≡ latch.now }
    requires counter { desc ≡ latch.now.counter }
    requires opened { length writer.publications ≡ 1 }
{
    for number in 1..=PUBLICATIONS {
        if !publishes(latch, &mut writer, desc, number) || !reads(latch, &mut reader, number) {
            return false;
        }
    }
    true
}

#[test]
fn each_changed_word_is_published(rt: HostRuntime) {
    let (desc, opening) = opening(&rt);
    let opened = Latch::open(rt.alloc(), opening, 1);
    let (latch, writer, mut readers) = opened.expect(&rt, "a latch");
    let reader = readers.pop().expect(&rt, "a reader");
    assert!(rt; reads_each(&latch, writer, reader, desc));
}

#[test]
fn the_publications_change_one_word_two_words_or_all(rt: HostRuntime) {
    for (number, count) in [
        (1, 2),
        (9, 2),
        (10, 1),
        (11, 1),
        (12, 2),
        (999, 2),
        (1_000, 10),
    ] {
        assert_same(&rt, &(number, differences(number)), &(number, count));
    }
}
