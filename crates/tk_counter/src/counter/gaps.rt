ghost use Rattle.std.specs.Prelude.{◌≡◌, ℕ, ◌-◌, ◌%◌, ◌^◌, ◌<◌, ◌≤◌, ◌↔◌, IsTrue};

use super::CounterDesc;

impl CounterDesc {
    ghost use Rattle.tk_counter.specs.Counter.{half, gap};

    /// Returns the cycles from one reading to a later one: `(now - last) & mask`, in wrapping
    /// 64-bit arithmetic.
    ///
    /// Both readings may have any 64 bits. If the counter counted at most `half` cycles between
    /// them, the gap is the true number of cycles.
    pub fn gap(&self, last: u64, now: u64) -> u64
        ensures value { result ≡ gap self.now last now }
        ensures counted { (t t' : ℕ) → t ≤ t' → t' - t ≤ half self.now →
            last ≡ t % 2 ^ self.now.bits → now ≡ t' % 2 ^ self.now.bits → result ≡ t' - t }
    {
        now.wrapping_sub(last) & self.mask()
    }

    /// Returns whether a gap of any number of cycles leads back: whether it is above `half`.
    pub fn is_behind(&self, gap: u64) -> bool
        ensures { IsTrue result ↔ (half self.now < gap) }
    {
        let mask = self.mask();
        gap > mask || mask - gap < gap
    }
}
