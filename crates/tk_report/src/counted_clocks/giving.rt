//! Takes commands from whoever steers the clocks.
use super::CountedClocks;
use tk_clock::{COUNTED_LIMIT, Clock, Clocks, Entry, Refusal};

/// There is room for commands while the clocks accept them over their counter and can count them.
impl Clocks for CountedClocks {
    ghost use Rattle.tk_report.specs.Room.{HasCounted, HasRoom, IsShort, clocks_in};
    ghost use Rattle.tk_report.specs.Counting.{joins as joins_in, needs_less as needs_less_in, stays as stays_in};

    ghost state = { clocks_in };

    ghost is_after = { HasCounted };

    ghost has_room = { HasRoom };

    ghost is_short = { IsShort };

    ghost stays = { stays_in };

    ghost needs_less = { needs_less_in };

    ghost joins = { joins_in };

    #[inline(always)]
    fn clock(&self) -> &Clock {
        &self.clock
    }

    #[inline(always)]
    fn is_ready(&self, count: usize) -> bool {
        let count = count as u64;
        let listed = self.count - self.since;
        self.most >= count && listed <= self.most - count && self.count <= COUNTED_LIMIT - count
    }

    #[inline(always)]
    fn ready(&mut self, count: usize) -> Result<(), Refusal> {
        if self.is_ready(count) {
            return Ok(());
        }
        Err(Refusal::Full)
    }

    #[inline(always)]
    fn give(&mut self, entry: Entry) -> Result<(), Refusal> {
        self.clock.apply(entry.reading, entry.cmd)?;
        self.count += 1;
        Ok(())
    }
}
