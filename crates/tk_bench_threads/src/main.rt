//! Times work that threads share: pages, latches, a shared keeper with concurrent reads, reports of
//! many scripts, and a race; and updates of clocks that aren't published.
//!
//! | Arguments | The line of a job |
//! |---|---|
//! | none | `JOB`, `CHECK`, after short turns: the same line each time |
//! | `time` | `JOB`, `NUMBER`, `UNIT`, `CHECK`: the least time of its turns |
//! | `time JOB..` | the line of `time`, only for these jobs |
//!
//! Tabs separate the columns. The status is 1 if a job failed or its turns gave different checks,
//! and 2 for other arguments.
#![tactic(auto)]

mod keeper;
mod latch;
mod latch_desk;
mod many;
mod now;
mod page;
mod race;
mod shared;
mod timed_job;
mod timing;
mod unpublished;

use now::{Asked, Beside};
use shared::Work;
use std::alloc::Global;
use std::process::ExitCode;
use std::sync::Wait;
use std::thread::Threads;
use std::time::Clock as Hours;
use timed_job::{JOBS, TimedJob};
use tk_test_support::{Effort, Turn, run_jobs};

fn main(rt: HostRuntime) -> ExitCode {
    run_jobs(
        &rt,
        &JOBS,
        |job, effort| turn_of(&rt, rt.alloc(), job, effort),
    )
}

/// Does a job once. Returns `None` if it fails.
fn turn_of<R: Threads + Wait + Hours + Sync>(
    rt: &R,
    alloc: Global,
    job: TimedJob,
    effort: Effort,
) -> Option<Turn> {
    match job {
        TimedJob::PageRead => page::quiet(rt, alloc, effort),
        TimedJob::PageReadBeside => page::beside(rt, alloc, effort),
        TimedJob::PagePublish => page::publishing(rt, alloc, effort),
        TimedJob::LatchRead => latch::quiet(rt, alloc, effort),
        TimedJob::LatchReadBeside => latch::beside(rt, alloc, effort),
        TimedJob::LatchPublish => latch::publishing(rt, alloc, effort),
        TimedJob::UpdateUnpublished | TimedJob::UpdateInMemory => unpublished::turn(rt, effort),
        TimedJob::SharedCommand1 => shared::turn(rt, alloc, Work::OneThread, effort),
        TimedJob::SharedCommand4 => shared::turn(rt, alloc, Work::FourThreads, effort),
        TimedJob::SharedReadBeside => shared::turn(rt, alloc, Work::ReadsBeside, effort),
        TimedJob::SharedFastReadBeside => shared::turn(rt, alloc, Work::FastReadsBeside, effort),
        TimedJob::NowParts => now::turn(rt, alloc, Asked::Parts, Beside::Nothing, effort),
        TimedJob::Now | TimedJob::NowLock | TimedJob::NowCell => {
            now::turn(rt, alloc, Asked::Now, Beside::Nothing, effort)
        }
        TimedJob::NowFast => now::turn(rt, alloc, Asked::NowFast, Beside::Nothing, effort),
        TimedJob::NowPartsBeside => now::turn(rt, alloc, Asked::Parts, Beside::Updates, effort),
        TimedJob::NowBeside => now::turn(rt, alloc, Asked::Now, Beside::Updates, effort),
        TimedJob::NowFastBeside => now::turn(rt, alloc, Asked::NowFast, Beside::Updates, effort),
        TimedJob::NowHost => now::by_host(rt, alloc, effort),
        TimedJob::Many1 => many::turn(rt, alloc, 1, effort),
        TimedJob::Many4 => many::turn(rt, alloc, 4, effort),
        TimedJob::Race4 => race::turn(rt, alloc, effort),
    }
}
