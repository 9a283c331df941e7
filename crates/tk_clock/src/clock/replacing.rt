//! Replaces clocks one field at a time.
//!
//! If two neighbouring words are copied unchanged, one after the other, the rattle backend copies
//! both with one SSE register, which a kernel's interrupt must not use. So no two neighbours are
//! written in sequence.
ghost use Rattle.std.specs.Prelude.{◌≡◌};

use super::Clock;
use crate::read_base::ReadBase;

impl Clock {
    /// Replaces the clocks by others.
    #[inline(always)]
    pub(super) fn replace(&mut self, now: Clock)
        ensures { self.new ≡ now }
    {
        self.frequency = now.frequency;
        replace_base(&mut self.base, now.base);
        self.tick = now.tick;
    }
}

/// Replaces a base by another one.
#[inline(always)]
fn replace_base(base: &mut ReadBase, now: ReadBase)
    ensures { base.new ≡ now }
{
    base.desc = now.desc;
    base.last = now.last;
    base.mult = now.mult;
    base.monotonic.sec = now.monotonic.sec;
    base.raw.sec = now.raw.sec;
    base.boot_offset = now.boot_offset;
    base.real_offset = now.real_offset;
    base.monotonic.frac = now.monotonic.frac;
    base.raw.frac = now.raw.frac;
    base.tai = now.tai;
    base.asleep = now.asleep;
}
