//! Steered clocks with a journal, next to the same clocks without one.
ghost use Rattle.std.specs.Prelude.{◌≤◌};

use super::{CALLER, assert_alike, assert_same, counter};
use std::alloc::Global;
use std::process::Abort;
use tk_clock::Command;
use tk_counter::CounterDesc;
use tk_ntp::{SteeredClock, Timex};
use tk_steered::Steered;
use tk_test_support::{OPENED_TIME, next_random};

/// Steered clocks with a journal, and the same clocks without one. Both get the same orders.
#[derive(Drop)]
pub(super) struct Both {
    pub(super) steered: Steered,
    pub(super) plain: SteeredClock,
    /// The random number of the present order.
    pub(super) seed: u64,
    /// The reading up to which the orders have risen.
    reading: u64,
}

impl Both {
    /// Opens both with the counter of all tests, at reading 0.
    pub(super) fn opened(rt: &impl Abort, alloc: Global) -> Both {
        Both::opened_on(rt, alloc, counter(rt), 0)
    }

    /// Opens both with another counter, at a reading.
    pub(super) fn opened_on(
        rt: &impl Abort,
        alloc: Global,
        desc: CounterDesc,
        reading: u64,
    ) -> Both {
        let steered = Steered::open(alloc, desc, reading, OPENED_TIME, 250);
        let plain = SteeredClock::open(desc, reading, OPENED_TIME, 250);
        Both {
            steered: steered.expect(rt, "steered clocks"),
            plain: plain.expect(rt, "steered clocks"),
            seed: 0x9e37_79b9_7f4a_7c15,
            reading,
        }
    }

    /// Draws the random number of the next order, and returns its reading: less than `limit` cycles
    /// after the one before.
    pub(super) fn draw(&mut self, limit: u64) -> u64
        requires { 1 ≤ limit }
    {
        self.seed = next_random(self.seed);
        self.reading = self.reading.wrapping_add(self.seed % limit);
        self.reading
    }

    /// Gives both a command, and compares the answers.
    pub(super) fn apply(&mut self, rt: &impl Abort, reading: u64, cmd: Command) {
        let found = self.steered.apply(CALLER, reading, cmd);
        let wanted = match self.plain.apply(reading, cmd) {
            Ok(()) => Ok(self.steered.keeper().len() as u64),
            Err(refusal) => Err(refusal),
        };
        assert_same(rt, &found, &wanted);
    }

    /// Gives both an update, and compares the answers.
    pub(super) fn update(&mut self, rt: &impl Abort, reading: u64) {
        self.apply(rt, reading, Command::Update);
    }

    /// Gives both a request, and compares the replies.
    pub(super) fn adjtimex(&mut self, rt: &impl Abort, reading: u64, request: &Timex) {
        let found = self.steered.adjtimex(CALLER, reading, request);
        assert_same(rt, &found, &self.plain.adjtimex(reading, request));
    }

    /// Lets the seconds of both begin up to a reading, and compares the answers.
    pub(super) fn advance(&mut self, rt: &impl Abort, reading: u64) {
        let found = self.steered.advance(CALLER, reading);
        assert_same(rt, &found, &self.plain.advance(reading));
    }

    /// Lets them begin late, and compares the answers.
    pub(super) fn advance_late(&mut self, rt: &impl Abort, reading: u64) {
        let found = self.steered.advance_late(CALLER, reading);
        assert_same(rt, &found, &self.plain.advance_late(reading));
    }

    /// Stops the test if the two differ.
    pub(super) fn assert_alike(&self, rt: &impl Abort) {
        assert_alike(rt, &self.steered.clock(), &self.plain);
    }
}
