//! Lets clocks pass a tick of a kernel.
ghost use Rattle.std.specs.Prelude.{◌≡◌};
ghost use Rattle.tk_ntp.specs.Keeping.{IsTickedTo};

use super::Course;
use super::advancing::SECOND_ENTRIES_LIMIT;
use tk_clock::{Clocks, Command, Refusal};

impl Course {
    /// Lets each second of REALTIME up to `reading` begin late, and updates the clocks there, as a
    /// kernel does at each tick (`timekeeping_advance` in kernel/time/timekeeping.c). The commands
    /// are those of the caller `who`.
    ///
    /// It does what `advance` of late seconds and then `apply` of an update do. At most ticks no
    /// second is due, and then the update is the test of the reading.
    ///
    /// # Errors
    ///
    /// - The errors of `SteeredClock::advance`. Nothing changes then.
    /// - The errors of `Clocks::ready`, for the entries of a second or of the update. The seconds
    ///   before have begun.
    #[inline(always)]
    pub fn tick<C: Clocks>(&mut self, clocks: &mut C, who: u32, reading: u64) -> Result<(), Refusal>
        ensures { IsTickedTo C.state C.is_after C.has_room C.is_short who reading clocks.old self.old
            result clocks.new self.new }
    {
        if self.is_soon(clocks.clock(), reading) && clocks.is_ready(SECOND_ENTRIES_LIMIT) {
            return self.apply_settled(clocks, who, reading);
        }
        self.tick_late(clocks, who, reading)
    }

    /// Does what `tick` does. It is out of line, so that most ticks don't reserve its stack.
    #[inline(never)]
    fn tick_late<C: Clocks>(
        &mut self,
        clocks: &mut C,
        who: u32,
        reading: u64,
    ) -> Result<(), Refusal>
        ensures { IsTickedTo C.state C.is_after C.has_room C.is_short who reading clocks.old self.old
            result clocks.new self.new }
    {
        self.advance(clocks, true, who, reading)?;
        self.apply(clocks, who, reading, Command::Update)
    }
}
