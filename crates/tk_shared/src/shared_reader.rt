ghost use Rattle.std.specs.Prelude.{◌≡◌, IfOk};

use crate::counter::Counter;
use std::alloc::{AllocError, Allocator};
use tk_now::{Look, SharedCounter};

/// Reads a counter that many threads share, for a keeper's commands.
///
/// Commands then take their readings from the counter that `SharedKeeper::now` reads.
#[derive(Drop)]
pub struct SharedReader<'c, S: SharedCounter> {
    counter: &'c S,
    /// The look for the opening's read, which comes before any announcement.
    first: Look,
}

impl<'c, S: SharedCounter> SharedReader<'c, S> {
    /// Returns a reader of `counter`.
    ///
    /// It allocates a word, and frees it again.
    ///
    /// # Errors
    ///
    /// `AllocError` if the allocation fails.
    pub fn new<A: Allocator>(alloc: A, counter: &'c S) -> Result<SharedReader<'c, S>, AllocError>
        ensures { IfOk result (λ reader. reader.counter.now ≡ counter.now) }
    {
        let first = Look::first(alloc)?;
        Ok(SharedReader { counter, first })
    }
}

impl<'c, S: SharedCounter + Sync> Counter for SharedReader<'c, S> {
    ghost use Rattle.tk_now.specs.Views.{moment_of};

    ghost answers = { λ reader answer.
        S.answers reader.counter.now (moment_of reader.first) answer };

    ghost answers_after = { λ reader from answer. S.answers reader.counter.now from answer };

    fn read(&mut self) -> u64 {
        self.counter.read(&self.first)
    }

    fn read_after(&mut self, look: &Look) -> u64 {
        self.counter.read(look)
    }
}
