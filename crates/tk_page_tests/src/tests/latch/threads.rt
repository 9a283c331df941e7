ghost use Rattle.std.specs.Prelude.{◌≡◌, length, All};
ghost use Rattle.std.specs.Thread.{IsSync};

use super::changes::{PUBLICATIONS, opening, publishes, words_at};
use std::thread::{Threads, join, map_vec};
use tk_counter::CounterDesc;
use tk_latch::{Latch, LatchReader, LatchWriter, Moved};

/// Makes all publications in order, and returns whether all succeeded.
fn publishes_all(latch: &Latch, mut writer: LatchWriter, desc: CounterDesc) -> bool
    requires latch { writer.latch ≡ latch.now }
    requires counter { desc ≡ latch.now.counter }
    requires opened { length writer.publications ≡ 1 }
{
    for number in 1..=PUBLICATIONS {
        if !publishes(latch, &mut writer, desc, number) {
            return false;
        }
    }
    true
}

/// Reads until it has read the last publication. Returns whether all were whole, and none was older
/// than one that the reader knew of.
fn reads_all(latch: &Latch, mut reader: LatchReader) -> bool
    requires { reader.latch ≡ latch.now }
{
    let mut is_good = true;
    for _ in 0..u64::MAX {
        let mark = reader.mark();
        match reader.try_read(latch) {
            Ok(snapshot) => {
                let front = snapshot.front();
                is_good = is_good && mark <= front && reader.mark() == front;
                is_good = is_good && front <= PUBLICATIONS && snapshot.words() == words_at(front);
                if front >= PUBLICATIONS {
                    return is_good;
                }
            }
            Err(Moved { first, last }) => {
                is_good = is_good && first < last && mark <= first / 2 && reader.mark() == last / 2;
            }
        }
    }
    false
}

/// Reads on a thread for each reader.
fn read_on_each<R: Threads + Sync>(rt: &R, latch: &Latch, readers: Vec<LatchReader>) -> bool
    requires { All (λ r. r.latch ≡ latch.now) readers.items }
{
    let reads = |reader: LatchReader| -> bool
        requires { reader.latch ≡ latch.now }
    { reads_all(latch, reader) };
    match map_vec(rt, readers, &reads) {
        Ok(read) => read.iter().all(|is_good| *is_good),
        Err(_) => false,
    }
}

/// Publishes on one thread, and reads on the others.
fn race<R: Threads + Sync>(
    rt: &R,
    latch: &Latch,
    writer: LatchWriter,
    desc: CounterDesc,
    readers: Vec<LatchReader>,
) -> bool
    requires writer { writer.latch ≡ latch.now }
    requires counter { desc ≡ latch.now.counter }
    requires opened { length writer.publications ≡ 1 }
    requires readers { All (λ r. r.latch ≡ latch.now) readers.items }
{
    let (published, read) = join(
        rt,
        move || -> bool
            requires { (writer.latch ≡ latch.now) × (desc ≡ latch.now.counter)
                × (length writer.publications ≡ 1) }
        { publishes_all(latch, writer, desc) },
        move || -> bool
            requires { IsSync R.row × All (λ r. r.latch ≡ latch.now) readers.items }
        { read_on_each(rt, latch, readers) },
    );
    published && read
}

#[test]
fn three_readers_beside_a_writer_read_whole_publications(rt: HostRuntime) {
    let (desc, opening) = opening(&rt);
    let opened = Latch::open(rt.alloc(), opening, 3);
    let (latch, writer, readers) = opened.expect(&rt, "a latch");
    assert!(rt; race(&rt, &latch, writer, desc, readers));
}
