//! The clocks of a report that list no command.
ghost use Rattle.std.specs.Prelude.{◌≡◌, ◌<◌, unsigned_abs};
ghost use Rattle.tk_clock.specs.declared.clock_id.ClockId.TheVariants.{Monotonic};
ghost use Rattle.tk_clock.specs.Limits.{clock_end, counted_most, listed_most};
ghost use Rattle.tk_clock.specs.State.{base_value};
ghost use Rattle.tk_keeper.specs.Read.{IsTimeOf};
ghost use Rattle.tk_report.specs.Beginnings.{start_of};
ghost use Rattle.tk_report.specs.CountedClocks.{ForKept, IsKept, IsReplied, most_of};
ghost use Rattle.tk_report.specs.Folding.{rule_of};
ghost use Rattle.tk_report.specs.Report.{change_reply, event, reply_by};
ghost use Rattle.tk_script.specs.Start.{IsOpenable, journal_at};

mod giving;

use crate::plain_start::PlainStart;
use std::marker::Model;
use tk_clock::{COUNTED_LIMIT, Clock, Command, Refusal, Snapshot, Timespec};
use tk_counter::CounterDesc;
use tk_keeper::{LISTED_LIMIT, time_of};

/// Keeps the clocks of a script, and counts the commands that they accept. It lists none, because
/// no line of a report shows what a journal lists. So a command takes less time than one that is
/// listed, and no memory.
#[repr(C)]
#[derive(Clone, Copy)]
pub struct CountedClocks {
    clock: Clock,
    /// The number of accepted commands, those before the script included.
    count: u64,
    /// The number of commands before the present counter: those before the script's beginning, or
    /// the number of the counter's change.
    since: u64,
    /// The most commands that are accepted over one counter.
    most: u64,
}

impl Model for CountedClocks {
    ghost use Rattle.std.specs.Prelude.{◌≤◌};
    ghost use Rattle.tk_report.specs.Beginnings.{start_of};
    ghost use Rattle.tk_report.specs.CountedClocks.{Counted};

    ghost Value = { Counted };

    ghost view = { λ a. record {
      clock = a.clock;
      count = a.count;
      since = a.since;
      most = a.most;
    } };

    ghost invariant = { λ a. a.since ≤ a.count };

    ghost inverse = { λ s. record {
      clock = s.clock;
      count = s.count;
      since = s.since;
      most = s.most;
    } };
}

impl CountedClocks {
    /// Begins the clocks of a script. Without `keep`, they accept 1,048,576 commands over one
    /// counter, as many as a journal lists.
    pub fn begin(start: PlainStart, keep: Option<u64>) -> CountedClocks
        requires { IsOpenable (start_of start) }
        ensures { IsKept keep result (journal_at (start_of start)) }
    {
        let (clock, count) = start.clocks();
        CountedClocks {
            clock,
            count,
            since: count,
            most: most_by(keep),
        }
    }

    /// Begins with clocks that have accepted `count` commands. They accept 1,048,576 more over their
    /// counter.
    pub fn of(clock: Clock, count: u64) -> CountedClocks
        ensures { result ≡ record {
          clock = clock;
          count = count;
          since = count;
          most = listed_most;
        } }
    {
        CountedClocks {
            clock,
            count,
            since: count,
            most: LISTED_LIMIT as u64,
        }
    }

    /// Returns the clocks.
    #[inline(always)]
    pub fn clock(&self) -> &Clock
        ensures { result.now ≡ self.now.clock }
    {
        &self.clock
    }

    /// Returns the number of accepted commands.
    #[inline(always)]
    pub fn count(&self) -> u64
        ensures { result ≡ self.now.count }
    {
        self.count
    }

    /// Returns the number of commands that were accepted before the present counter, or before the
    /// clocks began.
    #[inline(always)]
    pub fn since(&self) -> u64
        ensures { result ≡ self.now.since }
    {
        self.since
    }

    /// Returns the most commands that the clocks accept over one counter.
    #[inline(always)]
    pub fn most(&self) -> u64
        ensures { result ≡ self.now.most }
    {
        self.most
    }

    /// Returns the snapshot of the clocks. Its front is the number of accepted commands.
    #[inline(always)]
    pub fn snapshot(&self) -> Snapshot
        ensures { result ≡ record { front = self.now.count; base = self.now.clock.base } }
    {
        self.clock.snapshot(self.count)
    }

    /// Applies a command and returns its number, or the first test that it fails.
    #[inline(always)]
    pub fn apply(&mut self, reading: u64, cmd: Command) -> Result<u64, Refusal>
        requires { self.old.count < counted_most }
        ensures { ForKept self.old (λ keep journal. IsReplied keep reading result self.new
            (reply_by (rule_of keep) journal (event reading cmd))) }
    {
        if self.count - self.since >= self.most {
            return Err(Refusal::Full);
        }
        self.clock.apply(reading, cmd)?;
        self.count += 1;
        Ok(self.count)
    }

    /// Returns MONOTONIC at the last accepted command's reading, or at the opening, as
    /// `Timekeeper::monotonic` does.
    #[inline(always)]
    pub fn monotonic(&self) -> Timespec
        ensures value { let base = self.now.clock.base in
            IsTimeOf (base_value base Monotonic base.last) result }
        ensures below { unsigned_abs result.sec < clock_end }
    {
        let now = self.snapshot();
        // BOOTTIME is below its limit, and MONOTONIC isn't ahead of it
        let _ = (self.clock.tick(), now.boot_offset());
        time_of(now.sec(), now.frac(), now.desc().shift())
    }

    /// Changes the counter, as `Timekeeper::change_counter` does.
    pub fn change_counter(
        &mut self,
        reading: u64,
        desc: CounterDesc,
        first: u64,
    ) -> Result<u64, Refusal>
        ensures { ForKept self.old (λ keep journal. IsReplied keep first result self.new
            (change_reply journal reading desc first)) }
    {
        if self.count >= COUNTED_LIMIT {
            return Err(Refusal::Full);
        }
        self.clock.change_counter(reading, desc, first)?;
        self.count += 1;
        self.since = self.count;
        Ok(self.count)
    }
}

/// Returns the most commands that are accepted over one counter.
fn most_by(keep: Option<u64>) -> u64
    ensures { result ≡ most_of keep }
{
    match keep {
        None => LISTED_LIMIT as u64,
        Some(_) => COUNTED_LIMIT,
    }
}
