//! A gate that notes its calls.

use super::assert_same;
use std::process::Abort;
use std::sync::atomic::{AtomicU64, Ordering};
use tk_replay::Gate;

/// Records in bits which of 40 pieces were begun and ended, whether a call was wrong, and the
/// greatest number of pieces between the two calls.
#[derive(Drop)]
pub(super) struct Notes {
    before: AtomicU64,
    after: AtomicU64,
    wrong: AtomicU64,
    now: AtomicU64,
    most: AtomicU64,
}

/// The bit of a piece; none above the 40.
fn bit_of(piece: usize) -> u64 {
    if piece < 40 { 1 << piece } else { 0 }
}

impl Notes {
    pub(super) fn new() -> Notes {
        Notes {
            before: AtomicU64::new(0),
            after: AtomicU64::new(0),
            wrong: AtomicU64::new(0),
            now: AtomicU64::new(0),
            most: AtomicU64::new(0),
        }
    }

    /// Records a call as wrong unless the piece was begun and ended as expected.
    fn expect(&self, bit: u64, was_begun: bool, was_ended: bool) {
        let is_begun = self.before.load(Ordering::SeqCst) & bit != 0;
        let is_ended = self.after.load(Ordering::SeqCst) & bit != 0;
        if bit == 0 || is_begun != was_begun || is_ended != was_ended {
            self.wrong.store(1, Ordering::SeqCst);
        }
    }
}

impl Gate for Notes {
    fn before(&self, piece: usize) {
        let bit = bit_of(piece);
        self.expect(bit, false, false);
        self.before.fetch_or(bit, Ordering::SeqCst);
        let now = self.now.fetch_add(1, Ordering::SeqCst).saturating_add(1);
        self.most.fetch_max(now, Ordering::SeqCst);
    }

    fn after(&self, piece: usize) {
        let bit = bit_of(piece);
        self.expect(bit, true, false);
        self.after.fetch_or(bit, Ordering::SeqCst);
        self.now.fetch_sub(1, Ordering::SeqCst);
    }
}

/// Stops the test unless the gate was called once before and once after each piece up to `count`
/// and for no other, and at most one piece for each worker was between the two at once.
pub(super) fn assert_called_once(rt: &impl Abort, gate: &Notes, count: usize, workers: usize) {
    let all = (1 << count.min(63)) - 1;
    assert_same(rt, &gate.before.load(Ordering::SeqCst), &all);
    assert_same(rt, &gate.after.load(Ordering::SeqCst), &all);
    assert_same(rt, &gate.wrong.load(Ordering::SeqCst), &0);
    assert_same(rt, &gate.now.load(Ordering::SeqCst), &0);
    assert!(rt; gate.most.load(Ordering::SeqCst) <= workers as u64);
}
