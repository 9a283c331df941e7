use tk_test_support::Job;

/// Names a job.
#[derive(Clone, Copy)]
pub enum TimedJob {
    /// Reads of a page: without publications, and with a thousand publications a second in another
    /// thread.
    PageRead,
    PageReadBeside,
    /// Updates of clocks with their publications on a page.
    PagePublish,
    /// The same three jobs with a latch.
    LatchRead,
    LatchReadBeside,
    LatchPublish,
    /// Updates of clocks with their snapshots, which aren't published.
    UpdateUnpublished,
    /// The same updates; the peers' clocks stay in memory, as these do.
    UpdateInMemory,
    /// Commands of a shared keeper, by one thread and by four.
    SharedCommand1,
    SharedCommand4,
    /// Reads of its page, and of its latch, by one thread, while four threads give commands.
    SharedReadBeside,
    SharedFastReadBeside,
    /// The parts of the time now one after the other, the time now by the page, and by the latch.
    NowParts,
    Now,
    NowFast,
    /// The same three jobs with a thousand commands a second in another thread.
    NowPartsBeside,
    NowBeside,
    NowFastBeside,
    /// The time now by the page. The peers use a lock, a retried read, and the host's clock.
    NowLock,
    NowCell,
    NowHost,
    /// Reports of eight scripts, by one worker and by four.
    Many1,
    Many4,
    /// A race of four actors, timed per command.
    Race4,
}

/// All jobs, in the order in which they run.
pub const JOBS: [TimedJob; 24] = [
    TimedJob::PageRead,
    TimedJob::PageReadBeside,
    TimedJob::PagePublish,
    TimedJob::LatchRead,
    TimedJob::LatchReadBeside,
    TimedJob::LatchPublish,
    TimedJob::UpdateUnpublished,
    TimedJob::UpdateInMemory,
    TimedJob::SharedCommand1,
    TimedJob::SharedCommand4,
    TimedJob::SharedReadBeside,
    TimedJob::SharedFastReadBeside,
    TimedJob::NowParts,
    TimedJob::Now,
    TimedJob::NowFast,
    TimedJob::NowPartsBeside,
    TimedJob::NowBeside,
    TimedJob::NowFastBeside,
    TimedJob::NowLock,
    TimedJob::NowCell,
    TimedJob::NowHost,
    TimedJob::Many1,
    TimedJob::Many4,
    TimedJob::Race4,
];

impl Job for TimedJob {
    fn name(self) -> &'static str {
        match self {
            TimedJob::PageRead => "page_read",
            TimedJob::PageReadBeside => "page_read_beside",
            TimedJob::PagePublish => "page_publish",
            TimedJob::LatchRead => "latch_read",
            TimedJob::LatchReadBeside => "latch_read_beside",
            TimedJob::LatchPublish => "latch_publish",
            TimedJob::UpdateUnpublished => "update_unpublished",
            TimedJob::UpdateInMemory => "update_in_memory",
            TimedJob::SharedCommand1 => "shared_command_1",
            TimedJob::SharedCommand4 => "shared_command_4",
            TimedJob::SharedReadBeside => "shared_read_beside",
            TimedJob::SharedFastReadBeside => "shared_fast_read_beside",
            TimedJob::NowParts => "now_parts",
            TimedJob::Now => "now",
            TimedJob::NowFast => "now_fast",
            TimedJob::NowPartsBeside => "now_parts_beside",
            TimedJob::NowBeside => "now_beside",
            TimedJob::NowFastBeside => "now_fast_beside",
            TimedJob::NowLock => "now_lock",
            TimedJob::NowCell => "now_cell",
            TimedJob::NowHost => "now_host",
            TimedJob::Many1 => "many_1",
            TimedJob::Many4 => "many_4",
            TimedJob::Race4 => "race_4",
        }
    }

    fn unit(self) -> &'static str {
        match self {
            TimedJob::PagePublish | TimedJob::LatchPublish => "ns/publication",
            TimedJob::PageRead | TimedJob::PageReadBeside => "ns/read",
            TimedJob::LatchRead | TimedJob::LatchReadBeside => "ns/read",
            TimedJob::SharedReadBeside | TimedJob::SharedFastReadBeside => "ns/read",
            TimedJob::NowParts | TimedJob::NowPartsBeside => "ns/time",
            TimedJob::Now | TimedJob::NowBeside | TimedJob::NowHost => "ns/time",
            TimedJob::NowFast | TimedJob::NowFastBeside => "ns/time",
            TimedJob::NowLock | TimedJob::NowCell => "ns/time",
            TimedJob::Many1 | TimedJob::Many4 => "ms",
            _ => "ns/command",
        }
    }
}
