ghost use Rattle.std.specs.Prelude.{◌≡◌, length};

use std::alloc::{AllocError, Allocator};
use tk_clock::ClockId;
use tk_keeper::Timekeeper;

/// Contains the input of a call: it converts the stamp at each index to one clock's time, by the
/// journal at the front with the same index.
pub(crate) struct Input<'a, A: Allocator> {
    /// The keeper with the journal.
    pub(crate) keeper: &'a Timekeeper<A>,
    /// The fronts of all items: the numbers of commands accepted before them.
    pub(crate) fronts: &'a [u64],
    /// The stamps of all items, in cycles.
    pub(crate) stamps: &'a [u64],
    /// The clock to read at each stamp.
    pub(crate) clock: ClockId,
    ghost paired: { length fronts.now ≡ length stamps.now },
}

impl<'a, A: Allocator> Clone for Input<'a, A> {
    fn clone(&self) -> Result<Input<'a, A>, AllocError> {
        Ok(*self)
    }
}

impl<'a, A: Allocator> Copy for Input<'a, A> {}
