ghost use Rattle.std.specs.Prelude.{◌≡◌, IfSome};

use std::alloc::Global;
use std::marker::Model;
use tk_clock::{Clock, Command};
use tk_latch::{Latch, LatchReader, LatchWriter};
use tk_test_support::{OPENED_TIME, nanosecond_counter, reading_of};

/// Updates clocks and publishes every update in a latch.
///
/// Contracts see it as its writer: the latch, and the publications in it.
#[derive(Drop)]
pub struct LatchDesk {
    clock: Clock,
    writer: LatchWriter,
    front: u64,
}

impl Model for LatchDesk {
    ghost use Rattle.std.specs.Prelude.{◌≡◌, ◌+◌, length};
    ghost use Rattle.tk_latch.specs.Latch.{Published};

    ghost Value = { Published };

    ghost view = { λ d. d.writer };

    ghost invariant = { λ d.
        (d.clock.base.counter ≡ d.writer.latch.counter)
        × (d.front + 1 ≡ length d.writer.publications) };
}

impl LatchDesk {
    /// Opens clocks and a latch of their snapshot, and returns the latch, its desk and one reader.
    /// Returns `None` if a call fails.
    pub fn open(alloc: Global) -> Option<(Latch, LatchDesk, LatchReader)>
        ensures desk { IfSome result (λ opened. opened.1.latch ≡ opened.0) }
        ensures reader { IfSome result (λ opened. opened.2.latch ≡ opened.0) }
    {
        let clock = Clock::open(nanosecond_counter().ok()?, 0, OPENED_TIME).ok()?;
        let (latch, writer, mut readers) = Latch::open(alloc, clock.snapshot(0), 1).ok()?;
        let reader = readers.pop()?;
        let desk = LatchDesk {
            clock,
            writer,
            front: 0,
        };
        Some((latch, desk, reader))
    }

    /// Updates the clocks, a step after the last update, and publishes them. Returns whether neither
    /// the update nor the publication is refused.
    pub fn update(&mut self, latch: &Latch) -> bool
        requires latch { self.old.latch ≡ latch.now }
        ensures latch { self.new.latch ≡ self.old.latch }
    {
        let Some(front) = self.front.checked_add(1) else {
            return false;
        };
        if !updated(&mut self.clock, reading_of(front)) {
            return false;
        }
        let snapshot = self.clock.snapshot(front);
        let is_published = self.writer.publish(latch, snapshot).is_ok();
        if is_published {
            self.front = front;
        }
        is_published
    }
}

/// Updates clocks. Returns whether the update is accepted. The desk needs only the counter of the
/// command's contract.
#[inline(always)]
fn updated(clock: &mut Clock, reading: u64) -> bool
    ensures counter { clock.new.base.counter ≡ clock.old.base.counter }
{
    clock.apply(reading, Command::Update).is_ok()
}
