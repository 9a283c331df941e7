//! Chooses jobs, runs them and prints their lines.

ghost use Rattle.std.specs.Thread.{IsSync};

use std::alloc::Global;
use std::thread::Threads;
use std::time::{Clock as Hours, Instant};

/// The number of turns of a job of at most some milliseconds whose time is printed.
pub(crate) const TURNS: u32 = 20;

/// The number of turns of a job whose time isn't printed.
const CHECKED_TURNS: u32 = 2;

/// Describes a timed job. All turns do the same work.
pub(crate) trait Job {
    /// Prepares a turn. This isn't timed.
    fn ready(&mut self) {}

    /// Does the job once, and returns whether every call of it succeeded. A job with threads starts
    /// them through the handle.
    fn turn<R: Threads + Hours + Sync>(&mut self, rt: &R) -> bool
        requires { IsSync R.row };

    /// Returns the time in ns that counts as the last turn's, which took `whole`.
    fn counted(&self, whole: u128) -> u128 {
        whole
    }

    /// Returns a number that is computed from all results of the last turn.
    fn check(&self) -> u64;
}

/// Names the unit of a figure.
#[derive(Clone, Copy)]
pub(crate) enum Unit {
    /// Nanoseconds per item: the number of items in a turn, and their name.
    Each(u64, &'static str),
    /// Microseconds of one item.
    One,
    /// Milliseconds for a whole turn.
    Whole,
}

/// Names the printed columns of a job.
#[derive(Clone, Copy)]
enum Telling {
    Checks,
    Times,
}

/// Describes the program's arguments.
#[derive(Clone, Copy)]
pub(crate) struct Bench<'a> {
    rt: &'a HostRuntime,
    telling: Telling,
    /// The names of the jobs; empty for all jobs.
    names: &'a [String],
    /// 0, which the compiler can't know, so it can't compute results that depend on it.
    unknown: u32,
}

impl<'a> Bench<'a> {
    /// Parses the program's arguments. The first one is the program's name. Returns `None` if the
    /// second one isn't `time`.
    pub(crate) fn of_words(rt: &'a HostRuntime, words: &'a [String]) -> Option<Bench<'a>> {
        let (telling, names) = match words {
            [_, word, names @ ..] if word.as_str() == "time" => (Telling::Times, names),
            [] | [_] => (Telling::Checks, &words[..0]),
            _ => return None,
        };
        Some(Bench {
            rt,
            telling,
            names,
            unknown: (words.len() as u64 >> 40) as u32,
        })
    }

    /// Returns the allocator for all memory of the jobs.
    pub(crate) fn alloc(&self) -> Global {
        self.rt.alloc()
    }

    /// Returns 0, which the compiler can't know.
    pub(crate) fn unknown(&self) -> u32 {
        self.unknown
    }

    /// Returns whether the arguments name a job whose name starts with this beginning.
    pub(crate) fn wants_any(&self, beginning: &str) -> bool {
        for name in self.names {
            if name.as_str().starts_with(beginning) {
                return true;
            }
        }
        self.names.is_empty()
    }

    /// Returns whether the arguments name this job.
    fn wants(&self, name: &str) -> bool {
        for wanted in self.names {
            if wanted.as_str() == name {
                return true;
            }
        }
        self.names.is_empty()
    }

    /// Runs a job if the arguments name it, and prints its line. Returns `false` if the job failed
    /// or the line couldn't be printed.
    pub(crate) fn run<R: Threads + Hours + Sync, J: Job>(
        &self,
        rt: &R,
        name: &str,
        unit: Unit,
        turns: u32,
        job: &mut J,
    ) -> bool {
        if !self.wants(name) {
            return true;
        }
        let turns = match self.telling {
            Telling::Checks => CHECKED_TURNS,
            Telling::Times => turns,
        };
        match least(rt, turns, job) {
            Some(nanos) => self.tell(name, unit, nanos, job.check()),
            None => false,
        }
    }

    /// Prints a job's line, and returns whether that succeeded.
    fn tell(&self, name: &str, unit: Unit, nanos: u128, check: u64) -> bool {
        match self.telling {
            Telling::Checks => println!(self.rt; "{name}\t{check}").is_ok(),
            Telling::Times => self.tell_time(name, unit, nanos, check),
        }
    }

    /// Prints a job's time, to thousandths of its unit, and its check.
    fn tell_time(&self, name: &str, unit: Unit, nanos: u128, check: u64) -> bool {
        let (each, before, of) = match unit {
            Unit::Each(count, of) => (count.max(1), "ns/", of),
            Unit::One => (1_000, "us", ""),
            Unit::Whole => (1_000_000, "ms", ""),
        };
        let figure = nanos.wrapping_mul(1_000) / u128::from(each);
        let (whole, part) = (figure / 1_000, figure % 1_000);
        println!(self.rt; "{name}\t{whole}.{part:03}\t{before}{of}\t{check}").is_ok()
    }
}

/// Runs `turns` turns, and returns the least time of one in ns. Returns `None` if a turn or the
/// host's clock fails.
fn least<R: Threads + Hours + Sync, J: Job>(rt: &R, turns: u32, job: &mut J) -> Option<u128> {
    let mut least = u128::MAX;
    for _ in 0..turns {
        job.ready();
        let start = Instant::now(rt).ok()?;
        if !job.turn(rt) {
            return None;
        }
        let whole = start.elapsed(rt).ok()?.as_nanos();
        least = least.min(job.counted(whole));
    }
    Some(least)
}
