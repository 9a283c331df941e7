ghost use Rattle.std.specs.Prelude.{◌≡◌};

use super::{OPENED_WORDS, TAI_WORDS, UPDATED_WORDS, assert_same, opened, words_and_mark};
use std::process::Abort;
use tk_clock::Command;
use tk_latch::{Latch, LatchReader};

/// Checks the words that a reader finds, and its mark.
fn finds(rt: &impl Abort, latch: &Latch, reader: &mut LatchReader, words: &[u64; 10], mark: u64)
    requires { reader.old.latch ≡ latch.now }
    ensures { reader.new.latch ≡ reader.old.latch }
{
    let read = words_and_mark(latch, reader);
    assert_same(rt, &read, &Some((*words, mark)));
}

#[test]
fn the_words_of_each_publication_are_read(rt: HostRuntime) {
    let mut clock = opened(&rt);
    let opening = Latch::open(rt.alloc(), clock.snapshot(0), 2);
    let (latch, mut writer, mut readers) = opening.expect(&rt, "a latch");
    let mut reader = readers.pop().expect(&rt, "a reader");
    let mut late = readers.pop().expect(&rt, "a reader");
    finds(&rt, &latch, &mut reader, &OPENED_WORDS, 0);
    clock.apply(100, Command::Update).expect(&rt, "an update");
    let published = writer.publish(&latch, clock.snapshot(1));
    published.expect(&rt, "a publication");
    assert_same(&rt, &reader.mark(), &0);
    finds(&rt, &latch, &mut reader, &UPDATED_WORDS, 1);
    clock.apply(300, Command::Tai(37)).expect(&rt, "a command");
    let published = writer.publish(&latch, clock.snapshot(2));
    published.expect(&rt, "a publication");
    latch.tell(&mut writer, &mut late);
    assert_same(&rt, &late.mark(), &2);
    finds(&rt, &latch, &mut late, &TAI_WORDS, 2);
    finds(&rt, &latch, &mut reader, &TAI_WORDS, 2);
}
