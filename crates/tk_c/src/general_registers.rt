//! Copies values of several words by general registers alone.
//!
//! If two neighbouring words are copied unchanged, one after the other, the rattle backend copies
//! both with one SSE register. An interrupt in a kernel must not use these registers, and kernels
//! take the archive of that backend. So the functions here copy the words in another order, or
//! compute every second one anew. LLVM copies in its own order, and folds the arithmetic.
//!
//! `tests/c/sse_calls` prints the calls of a library that use SSE registers. `tools/check_c` fails
//! if the rattle backend's library has others than include/tkcore.h says.
ghost use Rattle.std.specs.Prelude.{◌≡◌, ◌++◌, take};
ghost use Rattle.tk_c.specs.Storage.{base_storage, snapshot_storage};

use crate::saved::SAVED_WORDS;
use crate::storage::{BaseStorage, CounterStorage, SnapshotStorage};
use tk_clock::{SNAPSHOT_WORDS, Snapshot};

/// Writes a snapshot, one field at a time and never two neighbours in sequence.
#[inline(always)]
pub(crate) fn store_snapshot(out: &mut SnapshotStorage, snapshot: Snapshot)
    ensures { out.new ≡ snapshot_storage snapshot }
{
    out.front = snapshot.front();
    store_base(&mut out.base, &snapshot);
}

/// Writes the part that reads use, one field at a time and never two neighbours in sequence.
#[inline(always)]
pub(crate) fn store_base(out: &mut BaseStorage, snapshot: &Snapshot)
    ensures { out.new ≡ base_storage snapshot.now.base }
{
    out.counter = CounterStorage::from(snapshot.desc());
    out.last = snapshot.last();
    out.mult = snapshot.mult();
    out.sec = snapshot.sec();
    out.raw_sec = snapshot.raw_sec();
    out.boot_offset = snapshot.boot_offset();
    out.real_offset = snapshot.real_offset();
    out.frac = snapshot.frac();
    out.raw_frac = snapshot.raw_frac();
    out.tai = snapshot.tai();
    out.asleep = u8::from(snapshot.asleep());
    out.padding = [0; 3];
}

/// Loads ten words, and computes every second one anew.
#[inline(always)]
pub(crate) fn loaded(words: &[u64; SNAPSHOT_WORDS]) -> [u64; SNAPSHOT_WORDS]
    ensures { result ≡ words.now }
{
    let &[t0, t1, t2, t3, t4, t5, t6, t7, t8, t9] = words;
    [
        t0,
        computed(t1),
        t2,
        computed(t3),
        t4,
        computed(t5),
        t6,
        computed(t7),
        t8,
        computed(t9),
    ]
}

/// Loads the first ten of the words of saved clocks.
#[inline(always)]
pub(crate) fn first_ten(words: &[u64; SAVED_WORDS]) -> [u64; SNAPSHOT_WORDS]
    ensures { result ≡ take 10 words.now }
{
    let &[t0, t1, t2, t3, t4, t5, t6, t7, t8, t9, ..] = words;
    loaded(&[t0, t1, t2, t3, t4, t5, t6, t7, t8, t9])
}

/// Returns the number, computed as twice its half plus the remainder.
#[inline(always)]
fn computed(number: u64) -> u64
    ensures { result ≡ number }
{
    number / 2 * 2 + number % 2
}

/// Stores ten words one by one, without neighbours in a row.
pub(crate) fn store(words: &mut [u64; SNAPSHOT_WORDS], source: &[u64; SNAPSHOT_WORDS])
    ensures { words.new ≡ source.now }
{
    let &[t0, t1, t2, t3, t4, t5, t6, t7, t8, t9] = source;
    words[0] = t0;
    words[2] = t2;
    words[4] = t4;
    words[6] = t6;
    words[8] = t8;
    words[1] = t1;
    words[3] = t3;
    words[5] = t5;
    words[7] = t7;
    words[9] = t9;
}

/// Stores the ten words of a snapshot and five more, without neighbours in a row.
pub(crate) fn store_saved(
    words: &mut [u64; SAVED_WORDS],
    first: &[u64; SNAPSHOT_WORDS],
    rest: &[u64; SAVED_WORDS - SNAPSHOT_WORDS],
)
    ensures { words.new ≡ first.now ++ rest.now }
{
    let &[t0, t1, t2, t3, t4, t5, t6, t7, t8, t9] = first;
    let &[t10, t11, t12, t13, t14] = rest;
    words[0] = t0;
    words[2] = t2;
    words[4] = t4;
    words[6] = t6;
    words[8] = t8;
    words[10] = t10;
    words[12] = t12;
    words[14] = t14;
    words[1] = t1;
    words[3] = t3;
    words[5] = t5;
    words[7] = t7;
    words[9] = t9;
    words[11] = t11;
    words[13] = t13;
}
