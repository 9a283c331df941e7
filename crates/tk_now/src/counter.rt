ghost use Rattle.std.specs.Prelude.{◌≡◌, ◌+◌, ◌*◌, ◌%◌, ◌^◌, IfOk, MatchResult};
ghost use Rattle.std.specs.Duration.{as_nanos};

use crate::rule::{View, Words};
use atomic_table::Seat;
use std::alloc::{AllocError, Allocator};
use std::io;
use std::sync::atomic::{AtomicU64, Ordering};
use std::time::{Clock, Duration, Instant};
use tk_counter::NANOS_PER_SECOND;

/// Shows that a load of a notice, or an announcement, was made. A read of a counter follows it.
///
/// It has no bytes. Contracts see it as the moment of that load.
#[derive(Drop)]
pub struct Look {
    pub(crate) seat: Seat<(), View>,
}

impl Look {
    ghost use Rattle.tk_now.specs.Views.{moment_of};

    /// Returns a look for a read before the notice exists, such as the read of an opening. Its
    /// moment is 0.
    ///
    /// It allocates a word, and frees it again.
    ///
    /// # Errors
    ///
    /// `AllocError` if the allocation fails.
    pub fn first<A: Allocator>(alloc: A) -> Result<Look, AllocError>
        ensures { IfOk result (λ look. moment_of look ≡ 0) }
    {
        let (_, seat) = Words::of_words(alloc, &[0], &0)?;
        Ok(Look { seat })
    }
}

/// Returns the readings, in cycles, of a counter that many threads share.
///
/// A reading must be taken during the call. If the counter is an instruction of the processor, such
/// as `rdtsc`, put a fence before it and one after it: it must follow the load before the call, and
/// the load after the call must follow it. The announcement of a command must be visible to all
/// threads before the command's `rdtsc`. All steps on a notice are sequentially consistent, which
/// on x86-64 makes a store an exchange, but doesn't order `rdtsc`.
pub trait SharedCounter {
    ghost use Rattle.std.specs.Prelude.{ℕ};
    ghost use Rattle.tk_now.specs.Views.{moment_of};

    // The possible readings of the counter after a look at this moment.
    ghost answers: { Self → ℕ → ℕ → Type 0 };

    /// Returns a reading that is taken during the call, after `look` was made.
    fn read(&self, look: &Look) -> u64
        ensures given { answers self.now (moment_of look.now) result };
}

/// Counts the reads of all threads: a reading is the reading before it plus a fixed step, modulo
/// 2^64.
///
/// It simulates a counter for tests. Clauses state that a reading is the first one plus a whole
/// number of steps. They don't state which number: that is the number of reads so far, modulo 2^64.
#[derive(Drop)]
pub struct SharedTicker {
    reads: AtomicU64,
    start: u64,
    step: u64,
}

impl SharedTicker {
    ghost use Rattle.std.specs.Prelude.{◌≡◌};
    ghost use Rattle.tk_now.specs.Ticker.{IsTick};

    /// Returns a counter whose first reading is `start` and which adds `step` cycles at every read.
    ///
    /// It never waits and allocates nothing.
    pub fn new(start: u64, step: u64) -> SharedTicker
        ensures start { result.start ≡ start }
        ensures step { result.step ≡ step }
    {
        let reads = AtomicU64::new(0);
        SharedTicker { reads, start, step }
    }

    /// Returns the reading that the next read returns, and adds nothing. It is taken during the
    /// call, after `look` was made.
    ///
    /// It never waits and allocates nothing.
    pub fn peek(&self, _look: &Look) -> u64
        ensures { IsTick self.now result }
    {
        self.reading_after(self.reads.load(Ordering::SeqCst))
    }

    /// Returns the reading of the read that follows this number of reads.
    fn reading_after(&self, reads: u64) -> u64
        ensures { result ≡ (self.now.start + reads * self.now.step) % 2 ^ 64 }
    {
        self.start.wrapping_add(reads.wrapping_mul(self.step))
    }
}

impl SharedCounter for SharedTicker {
    ghost use Rattle.tk_now.specs.Ticker.{IsTick};

    ghost answers = { λ ticker _ answer. IsTick ticker answer };

    fn read(&self, _look: &Look) -> u64 {
        self.reading_after(self.reads.fetch_add(1, Ordering::SeqCst))
    }
}

/// Counts the nanoseconds of the host's monotonic clock since this counter was made: 1 GHz.
///
/// Reading 0 means that the host didn't return the time, or that no time has passed. Linux always
/// returns it.
#[derive(Drop)]
pub struct HostCounter<'c, C: Clock> {
    clock: &'c C,
    start: Instant,
}

impl<'c, C: Clock> HostCounter<'c, C> {
    /// Returns a counter that starts at 0 at `start`, a time of `clock`.
    ///
    /// It never waits and allocates nothing.
    pub fn new(clock: &'c C, start: Instant) -> HostCounter<'c, C>
        ensures clock { result.clock ≡ clock.entry }
        ensures start { result.start ≡ start }
    {
        HostCounter { clock, start }
    }
}

impl<'c, C: Clock> SharedCounter for HostCounter<'c, C> {
    ghost use Rattle.std.specs.Prelude.{◌<◌, ◌^◌};

    ghost answers = { λ _ _ answer. answer < 2 ^ 64 };

    fn read(&self, _look: &Look) -> u64 {
        // By `&&C` only this call gets a copy of `elapsed`, which LLVM then inlines. A copy that a
        // program's other calls share returns its result through 96 bytes of memory: 4 ns more.
        reading_at(self.start.elapsed(&self.clock))
    }
}

/// Returns the reading after this time, or 0 if the host didn't give the time.
fn reading_at(elapsed: io::Result<Duration>) -> u64
    ensures { MatchResult elapsed (λ time. result ≡ as_nanos time % 2 ^ 64) (λ _. result ≡ 0) }
{
    match elapsed {
        Ok(time) => nanos_of(time),
        Err(_) => 0,
    }
}

/// Returns the nanoseconds of a time, modulo 2^64.
fn nanos_of(time: Duration) -> u64
    ensures { result ≡ as_nanos time % 2 ^ 64 }
{
    let seconds = time.as_secs().wrapping_mul(NANOS_PER_SECOND);
    seconds.wrapping_add(u64::from(time.subsec_nanos()))
}
