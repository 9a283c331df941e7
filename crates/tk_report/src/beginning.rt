//! Makes the clocks with which a script begins.
ghost use Rattle.std.specs.Prelude.{◌≡◌, ◌≤◌, None};
ghost use Rattle.tk_ntp.specs.SteeredClock.{steered_refusal};
ghost use Rattle.tk_report.specs.Beginnings.{IsBeginning};
ghost use Rattle.tk_report.specs.SteeredReport.{continued_from, steered_from};
ghost use Rattle.tk_script.specs.Start.{IsOpenable, most_front};

use crate::plain_start::PlainStart;
use std::alloc::Allocator;
use tk_ntp::SteeredClock;
use tk_script::{Opening, Start};
use tk_steered::Steered;

/// Contains the beginning of a script, by whether a discipline steers its clocks.
pub(crate) enum Beginning<A: Allocator> {
    Plain(PlainStart),
    Steered(Steered<A>),
}

/// Opens the clocks of a script, or continues running ones, if a discipline steers them. The plain
/// clocks of a journal and of a report differ, so `PlainStart` makes them.
pub(crate) fn begin<A: Allocator + Copy>(alloc: A, start: Start) -> Beginning<A>
    requires { IsOpenable start }
    ensures { IsBeginning start result }
{
    match start {
        Start::Opened(opening) => Beginning::Plain(PlainStart::Opened(opening)),
        Start::Running { clock, front } => Beginning::Plain(PlainStart::Running { clock, front }),
        Start::Steered { opening, hz } => Beginning::Steered(steered_at(alloc, opening, hz)),
        Start::Continued { clock, front } => Beginning::Steered(continued_at(alloc, clock, front)),
    }
}

/// Opens the clocks of a script that a discipline steers.
fn steered_at<A: Allocator + Copy>(alloc: A, opening: Opening, hz: u32) -> Steered<A>
    requires { steered_refusal opening.desc opening.reading opening.real hz ≡ None }
    ensures { result ≡ steered_from opening hz }
{
    Steered::open(alloc, opening.desc, opening.reading, opening.real, hz).unwrap()
}

/// Continues running clocks that a discipline steers.
fn continued_at<A: Allocator + Copy>(alloc: A, clock: SteeredClock, front: u64) -> Steered<A>
    requires { front ≤ most_front }
    ensures { result ≡ continued_from clock front }
{
    Steered::open_from(alloc, clock, front).unwrap()
}
