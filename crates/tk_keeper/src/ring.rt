//! A queue whose items never move, except when it grows. Removing from the front takes the same
//! time for any number of items, because later pushes release them one by one.
ghost use Rattle.std.specs.Prelude.{[], ◌≡◌, ◌+◌, ◌-◌, ◌<◌, ◌≤◌, ◌∷◌, ◌++◌, drop, length, slice_get, slice_index_or, OnOk};

use std::alloc::{AllocError, Allocator};
use std::collections::VecDeque;
use std::marker::Model;

/// Holds items in order. They are pushed at the back, and removed from the front.
#[derive(Drop)]
pub(crate) struct Ring<T, A: Allocator> {
    /// The items, after those that are removed but not yet released.
    all: VecDeque<T, A>,
    /// The number of removed items that are not yet released.
    gone: usize,
}

impl<T, A: Allocator> Model for Ring<T, A> {
    ghost use Rattle.std.specs.Prelude.{◌≤◌, drop, length};
    ghost use Rattle.std.specs.VecDeque.{deque_capacity};
    ghost use Rattle.tk_keeper.specs.Ring.{Listed};

    ghost Value = { Listed T };

    ghost view = { λ a. record {
      items = drop a.gone a.all.items;
      capacity = deque_capacity a.all;
    } };

    ghost invariant = { λ a. a.gone ≤ length a.all.items };
}

impl<T: Copy, A: Allocator> Ring<T, A> {
    /// Returns an empty ring.
    pub(crate) fn new(alloc: A) -> Ring<T, A>
        ensures items { result.items ≡ [] }
        ensures capacity { result.capacity ≡ 0 }
    {
        Ring {
            all: VecDeque::from_vec(Vec::new(alloc)),
            gone: 0,
        }
    }

    /// Returns the allocator that the ring was made with.
    pub(crate) fn allocator(&self) -> &A {
        self.all.allocator()
    }

    /// Returns the number of items.
    pub(crate) fn len(&self) -> usize
        ensures { result ≡ length self.now.items }
    {
        self.all.len() - self.gone
    }

    /// Returns the number of further items that can be pushed without an allocation.
    pub(crate) fn spare(&self) -> usize
        ensures { result ≡ self.now.capacity - length self.now.items }
    {
        self.all.capacity() - self.len()
    }

    /// Returns the item at a place, counted from 0.
    pub(crate) fn row(&self, place: usize) -> &T
        requires { place < length self.now.items }
        ensures { result.now ≡ slice_index_or self.now.items place result.now }
    {
        &self.all[self.gone + place]
    }

    /// Returns the item at a place, counted from 0, or `None` if the ring has no such item.
    pub(crate) fn get(&self, place: usize) -> Option<T>
        ensures { result ≡ slice_get self.now.items place }
    {
        if place < self.len() {
            return Some(*self.row(place));
        }
        None
    }

    /// Adds an item at the back. Releases one of the removed items, if there is one.
    pub(crate) fn push(&mut self, item: T)
        requires { length self.old.items < self.old.capacity }
        ensures items { self.new.items ≡ self.old.items ++ item ∷ [] }
        ensures len { length self.new.items ≡ length self.old.items + 1 }
        ensures capacity { self.new.capacity ≡ self.old.capacity }
    {
        if self.gone > 0 {
            self.all.pop_front();
            self.gone -= 1;
        }
        self.all.push_back_reserved(item);
    }

    /// Removes the first `places` items.
    pub(crate) fn discard(&mut self, places: usize)
        requires { places ≤ length self.old.items }
        ensures items { self.new.items ≡ drop places self.old.items }
        ensures capacity { self.new.capacity ≡ self.old.capacity }
    {
        self.gone += places;
    }

    /// Reserves memory for `extra` more items. Fails if it can't be allocated.
    pub(crate) fn reserve(&mut self, extra: usize) -> Result<(), AllocError>
        ensures items { self.new.items ≡ self.old.items }
        ensures len { length self.new.items ≡ length self.old.items }
        ensures capacity { self.old.capacity ≤ self.new.capacity }
        ensures ok { OnOk result (length self.old.items + extra ≤ self.new.capacity) }
    {
        self.all.reserve(extra.saturating_sub(self.gone))
    }
}
