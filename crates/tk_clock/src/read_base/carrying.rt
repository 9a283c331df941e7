//! Makes the read base that goes on over another counter.
ghost use Rattle.std.specs.Prelude.{◌≡◌, ◌≤◌};
ghost use Rattle.tk_counter.specs.Counter.{mask, fastest};
ghost use Rattle.tk_clock.specs.ChangeCounter.{base_over};

use super::ReadBase;
use tk_counter::CounterDesc;

impl ReadBase {
    /// Returns the base over the counter `desc`, which counts starting at its reading `first`, with
    /// another multiplier (`tk_setup_internals`). Both amounts keep their nanoseconds.
    pub fn carried_over(&self, desc: CounterDesc, first: u64, mult: u32) -> ReadBase
        requires first { first ≤ mask desc }
        requires some { 1 ≤ mult }
        requires most { mult ≤ fastest desc }
        ensures { result ≡ base_over self.now desc first mult }
    {
        ReadBase {
            desc,
            last: first,
            mult,
            monotonic: self.monotonic.rescaled(&self.desc, &desc),
            raw: self.raw.rescaled(&self.desc, &desc),
            ..*self
        }
    }
}
