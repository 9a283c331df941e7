use std::alloc::{AllocError, Allocator};
use std::sync::atomic::{AtomicU64, Ordering};

/// The state in which every request is forwarded.
const NONE: u64 = u64::MAX;

/// The state in which every request is refused.
const ALL: u64 = 0;

/// Forwards requests to another allocator, except for the ones that it was set to refuse.
///
/// Threads may share it. If several allocate at once, the number of refused requests is
/// unspecified, and so is which ones are refused.
pub struct Heap<B: Allocator> {
    inner: B,
    /// `NONE`, `ALL`, or the number of the request to refuse, counted from 1 for the next one.
    refused: AtomicU64,
}

impl<B: Allocator> Heap<B> {
    /// Creates a heap that forwards to another allocator. It refuses nothing yet.
    pub fn new(inner: B) -> Heap<B> {
        Heap {
            inner,
            refused: AtomicU64::new(NONE),
        }
    }

    /// Refuses every following request, until `grant_all` or `refuse` is called.
    pub fn refuse_all(&self) {
        self.refused.store(ALL, Ordering::SeqCst);
    }

    /// Refuses one of the following requests: the next one if `number` is 1. If `number` is 0,
    /// refuses every request; if it is `u64::MAX`, none.
    pub fn refuse(&self, number: u64) {
        self.refused.store(number, Ordering::SeqCst);
    }

    /// Forwards every following request. Returns whether a refusal was still set: `false` means
    /// that the chosen request was refused, or that none was chosen.
    pub fn grant_all(&self) -> bool {
        self.refused.swap(NONE, Ordering::SeqCst) != NONE
    }
}

impl<B: Allocator> Drop for Heap<B> {
    fn drop(self) {
        let Self {
            inner: _,
            refused: _,
        } = self;
    }
}

/// Returns whether to refuse this request, and counts it.
fn refuses(refused: &AtomicU64) -> bool {
    match refused.load(Ordering::SeqCst) {
        NONE => false,
        ALL => true,
        1 => {
            refused.store(NONE, Ordering::SeqCst);
            true
        }
        number => {
            refused.store(number - 1, Ordering::SeqCst);
            false
        }
    }
}

unsafe impl<B: Allocator> Allocator for Heap<B> {
    ghost dealloc_token = { λ heap ty ptr. B.dealloc_token heap.inner ty ptr };

    fn allocate(&self, size: usize, align: usize) -> Result<*mut u8, AllocError> {
        if refuses(&self.refused) {
            return Err(AllocError);
        }
        self.inner.allocate(size, align)
    }

    unsafe fn deallocate(&self, ptr: *mut u8, size: usize, align: usize) {
        self.inner.deallocate(ptr, size, align);
    }
}
