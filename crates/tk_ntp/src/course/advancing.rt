//! Lets the seconds of REALTIME begin, each with the commands that it needs.
ghost use Rattle.std.specs.Prelude.{◌≡◌, ◌<◌, Bool, MatchResult};
ghost use Rattle.tk_clock.specs.Limits.{clock_end};
ghost use Rattle.tk_ntp.specs.Advance.{seconds_left, with_next_second};
ghost use Rattle.tk_ntp.specs.Course.{seen};
ghost use Rattle.tk_ntp.specs.Entries.{given_at, second_begun, second_entries, with_second};
ghost use Rattle.tk_ntp.specs.Keeping.{HasArrivedOr, IsAdvancedTo};
ghost use Rattle.tk_ntp.specs.Late.{late_start};
ghost use Rattle.tk_ntp.specs.Second.{leap_at};

use super::Course;
use crate::leap::Leap;
use tk_clock::{Clock, Clocks, Refusal};

/// The most entries that a second of REALTIME makes as it begins, and that a command makes: one,
/// and one each for the tick and the frequency.
pub const SECOND_ENTRIES_LIMIT: usize = 3;

impl Course {
    /// Lets each second of REALTIME up to `reading` begin, in order, and gives its commands as those
    /// of the caller `who`: each at its own reading (`SteeredClock::advance`), or all at `reading`
    /// if they begin late (`SteeredClock::advance_late`).
    ///
    /// # Errors
    ///
    /// - The errors of `SteeredClock::advance`. Nothing changes then.
    /// - The errors of `Clocks::ready`, for the entries of a second. The seconds before it have
    ///   begun, and it hasn't.
    pub fn advance<C: Clocks>(
        &mut self,
        clocks: &mut C,
        is_late: bool,
        who: u32,
        reading: u64,
    ) -> Result<(), Refusal>
        ensures { IsAdvancedTo C.state C.is_after C.has_room C.is_short is_late who reading clocks.old
            self.old result clocks.new self.new }
    {
        self.test(clocks.clock(), reading)?;
        self.begin_seconds(clocks, is_late, who, reading)
    }

    /// Lets each second of REALTIME up to a reading begin, late or not.
    fn begin_seconds<C: Clocks>(
        &mut self,
        clocks: &mut C,
        is_late: bool,
        who: u32,
        reading: u64,
    ) -> Result<(), Refusal>
        ensures { HasArrivedOr C.state C.is_after C.has_room C.is_short is_late who reading clocks.old
            self.old result clocks.new self.new }
    {
        'seconds: while let Some(at) = self.due(clocks.clock(), reading) {
            clocks.ready(SECOND_ENTRIES_LIMIT)?;
            self.begin(clocks, is_late, who, reading, at);
        }
        Ok(())
    }

    /// Lets the next second of REALTIME, due at the reading `at`, begin, with the commands that it
    /// needs.
    fn begin<C: Clocks>(&mut self, clocks: &mut C, is_late: bool, who: u32, reading: u64, at: u64)
        requires early { self.old.next < clock_end }
        requires room { C.has_room 3 clocks.old }
        ensures seen { seen (C.state clocks.new) self.new
            ≡ second_begun is_late reading at (seen (C.state clocks.old) self.old) }
        ensures entries { C.is_after clocks.old
            (second_entries is_late who reading at (seen (C.state clocks.old) self.old))
            clocks.new }
        ensures fewer { seconds_left (seen (C.state clocks.new) self.new)
            < seconds_left (seen (C.state clocks.old) self.old) }
    {
        let leap = self.pass_second(clocks.clock(), is_late, reading, at);
        let given = given_at(is_late, reading, at);
        self.leap(clocks, who, given, leap);
        self.steer(clocks, who, given);
    }

    /// Lets the discipline's next second, due at the reading `at`, begin, and returns its leap. It
    /// gives no command.
    fn pass_second(&mut self, clock: &Clock, is_late: bool, reading: u64, at: u64) -> Leap
        requires { self.old.next < clock_end }
        ensures seen { seen clock.now self.new
            ≡ with_second is_late reading at (seen clock.now self.old) }
        ensures leap { result ≡ leap_at self.old.steering.ntp self.old.next }
    {
        if !is_late {
            return self.begin_next(clock, at);
        }
        let start = self.late_start(clock, at);
        let leap = self.begin_next(clock, start);
        self.account(clock, reading);
        leap
    }

    /// Lets the discipline's next second begin at a reading, and returns its leap. It gives no
    /// command.
    pub(crate) fn begin_next(&mut self, clock: &Clock, reading: u64) -> Leap
        requires { self.old.next < clock_end }
        ensures seen { seen clock.now self.new
            ≡ with_next_second reading (seen clock.now self.old) }
        ensures leap { result ≡ leap_at self.old.steering.ntp self.old.next }
    {
        let now = clock.snapshot(0);
        let cycles = now.desc().gap(self.last_account, reading);
        let leap = self
            .steering
            .begin(now.desc(), now.mult(), cycles, self.next);
        self.next += 1;
        self.last_account = reading;
        leap
    }

    /// Returns the reading at which a late second begins: its own, or the last account if that is
    /// later.
    fn late_start(&self, clock: &Clock, at: u64) -> u64
        ensures { result ≡ late_start at (seen clock.now self.now) }
    {
        if self.is_behind(clock, at) {
            self.last_account
        } else {
            at
        }
    }
}

/// Returns the reading of the commands of a second that is due at the reading `at`.
fn given_at(is_late: bool, reading: u64, at: u64) -> u64
    ensures { result ≡ given_at is_late reading at }
{
    if is_late { reading } else { at }
}
