//! Provides the common parts of calls with a number of workers: the greatest number, and the hook
//! that workers call before and after each piece of their work.
//!
//! Work that is distributed among threads comes in numbered pieces. The worker calls its `Gate` on
//! the worker's thread. So a caller can count the pieces, show progress, or hold a piece back until
//! another has begun. Callers that need none of this pass `NoGate`.

/// The greatest number of workers.
pub const WORKERS_LIMIT: usize = 64;

/// Receives a call before and after each piece of work, on the thread of its worker.
pub trait Gate {
    /// Runs before a worker begins the piece with this number, counted from 0. The worker does no
    /// part of the piece before this call returns.
    fn before(&self, piece: usize);

    /// Runs after the same worker has done the whole piece.
    fn after(&self, piece: usize);
}

/// A gate whose two functions do nothing.
#[derive(Clone, Copy, Debug)]
pub struct NoGate;

impl Gate for NoGate {
    fn before(&self, _piece: usize) {}

    fn after(&self, _piece: usize) {}
}
