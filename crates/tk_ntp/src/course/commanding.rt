//! Applies commands, after the seconds up to their reading have begun.
ghost use Rattle.std.specs.Prelude.{◌≡◌, ◌+◌, ◌≤◌, ℕ, true};
ghost use Rattle.tk_counter.specs.Counter.{mask};
ghost use Rattle.tk_clock.specs.Command.{is_resume};
ghost use Rattle.tk_clock.specs.declared.command.Command.TheVariants.{Update};
ghost use Rattle.tk_clock.specs.Limits.{clock_end};
ghost use Rattle.tk_clock.specs.State.{State};
ghost use Rattle.tk_ntp.specs.Asked.{second_after, after_command, restarted};
ghost use Rattle.tk_ntp.specs.Course.{seen};
ghost use Rattle.tk_ntp.specs.Entries.{entries_after, restart_entries};
ghost use Rattle.tk_ntp.specs.Staged.{IsSettled};
ghost use Rattle.tk_ntp.specs.Keeping.{IsAppliedTo, IsCommandedTo, IsDirectTo, IsFollowedTo, IsPlainTo};

use super::Course;
use super::advancing::SECOND_ENTRIES_LIMIT;
use super::asking::{request_of, without_reply};
use super::giving::give;
use tk_clock::{Clock, ClockId, Clocks, Command, Refusal};
use tk_counter::{CounterDesc, NANOS_PER_SECOND};

impl Course {
    /// Applies a command at a reading, as `SteeredClock::apply` does, and gives its commands as those
    /// of the caller `who`.
    ///
    /// # Errors
    ///
    /// - The errors of `SteeredClock::apply`.
    /// - The errors of `Clocks::ready`, for the entries of a second or of the command. The seconds
    ///   before have begun.
    #[inline(always)]
    pub fn apply<C: Clocks>(
        &mut self,
        clocks: &mut C,
        who: u32,
        reading: u64,
        cmd: Command,
    ) -> Result<(), Refusal>
        ensures { IsAppliedTo C.state C.is_after C.has_room C.is_short who reading cmd clocks.old
            self.old result clocks.new self.new }
    {
        if let Command::Update = cmd {
            return self.apply_update(clocks, who, reading);
        }
        self.apply_any(clocks, who, reading, cmd)
    }

    /// Applies any command, as `apply` does. It is out of line, so that most updates don't reserve
    /// its stack.
    #[inline(never)]
    fn apply_any<C: Clocks>(
        &mut self,
        clocks: &mut C,
        who: u32,
        reading: u64,
        cmd: Command,
    ) -> Result<(), Refusal>
        ensures { IsAppliedTo C.state C.is_after C.has_room C.is_short who reading cmd clocks.old
            self.old result clocks.new self.new }
    {
        match request_of(cmd) {
            Some(request) => without_reply(self.adjtimex(clocks, who, reading, &request)),
            None => self.apply_plain(clocks, who, reading, cmd),
        }
    }

    /// Applies a command that is neither `Freq` nor `Tick`.
    fn apply_plain<C: Clocks>(
        &mut self,
        clocks: &mut C,
        who: u32,
        reading: u64,
        cmd: Command,
    ) -> Result<(), Refusal>
        ensures { IsPlainTo C.state C.is_after C.has_room C.is_short (is_resume cmd) who reading cmd
            clocks.old self.old result clocks.new self.new }
    {
        match cmd {
            Command::Resume(_) => self.apply_direct(clocks, who, reading, cmd),
            Command::Update => self.apply_late(clocks, who, reading),
            _ => self.apply_awake(clocks, who, reading, cmd),
        }
    }

    /// Applies an update after the seconds up to its reading have begun. Mostly none is due, and
    /// then the update is the test of its reading.
    #[inline(always)]
    fn apply_update<C: Clocks>(
        &mut self,
        clocks: &mut C,
        who: u32,
        reading: u64,
    ) -> Result<(), Refusal>
        ensures { IsFollowedTo C.state C.is_after C.has_room C.is_short who reading Update
            clocks.old self.old result clocks.new self.new }
    {
        if self.is_soon(clocks.clock(), reading) && clocks.is_ready(SECOND_ENTRIES_LIMIT) {
            return self.apply_settled(clocks, who, reading);
        }
        self.apply_late(clocks, who, reading)
    }

    /// Applies any update, as `apply_update` does. It is out of line, so that most updates don't
    /// reserve its stack.
    #[inline(never)]
    fn apply_late<C: Clocks>(
        &mut self,
        clocks: &mut C,
        who: u32,
        reading: u64,
    ) -> Result<(), Refusal>
        ensures { IsFollowedTo C.state C.is_after C.has_room C.is_short who reading Update
            clocks.old self.old result clocks.new self.new }
    {
        if self.is_settled(clocks.clock(), reading) && clocks.is_ready(SECOND_ENTRIES_LIMIT) {
            return self.apply_settled(clocks, who, reading);
        }
        self.apply_awake(clocks, who, reading, Command::Update)
    }

    /// Applies an update at a reading up to which no second is due, and that is not behind the last
    /// account. There is room for the entries of a second.
    ///
    /// # Errors
    ///
    /// The errors of `Clock::apply`. Nothing changes then.
    #[inline(always)]
    pub fn apply_settled<C: Clocks>(
        &mut self,
        clocks: &mut C,
        who: u32,
        reading: u64,
    ) -> Result<(), Refusal>
        requires settled { IsSettled (seen (C.state clocks.old) self.old) reading }
        requires room { C.has_room 3 clocks.old }
        ensures { IsCommandedTo C.state C.is_after C.has_room C.is_short who reading Update
            clocks.old self.old result clocks.new self.new }
    {
        give(clocks, who, reading, Command::Update)?;
        self.account(clocks.clock(), reading);
        Ok(())
    }

    /// Applies a command after the seconds up to its reading have begun.
    fn apply_awake<C: Clocks>(
        &mut self,
        clocks: &mut C,
        who: u32,
        reading: u64,
        cmd: Command,
    ) -> Result<(), Refusal>
        ensures { IsFollowedTo C.state C.is_after C.has_room C.is_short who reading cmd
            clocks.old self.old result clocks.new self.new }
    {
        self.advance(clocks, false, who, reading)?;
        self.apply_direct(clocks, who, reading, cmd)
    }

    /// Applies a command for which no second begins.
    fn apply_direct<C: Clocks>(
        &mut self,
        clocks: &mut C,
        who: u32,
        reading: u64,
        cmd: Command,
    ) -> Result<(), Refusal>
        ensures { IsDirectTo C.state C.is_after C.has_room C.is_short who reading cmd
            clocks.old self.old result clocks.new self.new }
    {
        clocks.ready(SECOND_ENTRIES_LIMIT)?;
        self.command(clocks, who, reading, cmd)
    }

    /// Applies a command, for whose entries there is room. A refused command changes nothing.
    pub(super) fn command<C: Clocks>(
        &mut self,
        clocks: &mut C,
        who: u32,
        reading: u64,
        cmd: Command,
    ) -> Result<(), Refusal>
        requires room { C.has_room 3 clocks.old }
        ensures answer { IsCommandedTo C.state C.is_after C.has_room C.is_short who reading cmd
            clocks.old self.old result clocks.new self.new }
        ensures room { C.has_room 6 clocks.old → C.has_room 3 clocks.new }
    {
        let now = clocks.clock().snapshot(0);
        give(clocks, who, reading, cmd)?;
        self.follow(clocks, who, reading, cmd, now.desc(), now.mult());
        Ok(())
    }

    /// Follows an accepted command, before which the clocks ran at the multiplier `mult`.
    fn follow<C: Clocks>(
        &mut self,
        clocks: &mut C,
        who: u32,
        reading: u64,
        cmd: Command,
        desc: CounterDesc,
        mult: u32,
    )
        requires low { reading ≤ mask (C.state clocks.old).base.counter }
        requires room { C.has_room 2 clocks.old }
        ensures seen { (before : State) → before.base.counter ≡ desc → before.base.mult ≡ mult →
            seen (C.state clocks.new) self.new
            ≡ after_command reading cmd (C.state clocks.old) (seen before self.old) }
        ensures entries { let steered = seen (C.state clocks.old) self.old in
            C.is_after clocks.old (entries_after who reading cmd steered.clock steered) clocks.new }
        ensures room { (count : ℕ) → C.has_room (count + 2) clocks.old →
            C.has_room count clocks.new }
    {
        match cmd {
            Command::SetTime(_) | Command::Step(_) | Command::Leap { .. } => {
                self.steering.clear();
                self.restart(clocks, who, reading);
            }
            Command::Resume(_) => self.restart(clocks, who, reading),
            _ => {
                let cycles = desc.gap(self.last_account, reading);
                self.steering.account(desc, mult, cycles);
                self.last_account = reading;
            }
        }
    }

    /// Gives the present second its rate, after the clocks were set or woken at a reading.
    fn restart<C: Clocks>(&mut self, clocks: &mut C, who: u32, reading: u64)
        requires low { reading ≤ mask (C.state clocks.old).base.counter }
        requires room { C.has_room 2 clocks.old }
        ensures seen { let steered = seen (C.state clocks.old) self.old in
            seen (C.state clocks.new) self.new ≡ restarted reading steered.clock steered }
        ensures entries { let steered = seen (C.state clocks.old) self.old in
            C.is_after clocks.old (restart_entries who reading steered.clock steered) clocks.new }
        ensures room { (count : ℕ) → C.has_room (count + 2) clocks.old →
            C.has_room count clocks.new }
    {
        self.next = second_after(clocks.clock(), reading);
        self.last_account = reading;
        self.steer(clocks, who, reading);
    }
}

/// Returns the second of REALTIME that begins next, by clocks that were set or woken at a reading.
fn second_after(clock: &Clock, reading: u64) -> u64
    requires { reading ≤ mask clock.now.base.counter }
    ensures value { result ≡ second_after clock.now }
    ensures low { result ≤ clock_end }
{
    let now = clock.snapshot(0);
    // REALTIME is below its limit at the last reading, and its offset isn't negative
    let _ = (clock.tick(), now.real_offset());
    match now.nanos(ClockId::RealtimeCoarse, reading) {
        Ok(nanos) => nanos / NANOS_PER_SECOND + 1,
        Err(_) => unreachable!(),
    }
}
