ghost use Rattle.std.specs.Prelude.{◌≡◌, ◌≤◌, map, length, IfOk, MatchResult, string_bytes};
ghost use Rattle.tk_clock.specs.Journal.{accepted_count};
ghost use Rattle.tk_race.specs.Replies.{done_in};
ghost use Rattle.tk_program.specs.RaceText.{actor_line, refused_in, race_lines};

use std::alloc::{AllocError, Allocator};
use tk_race::{RaceReply, RaceReport};
use tk_report::Fault;

/// Makes the lines of a race: `entries,NUMBER`, the number of accepted commands, then for each
/// actor, from 0, `actor,ID,ACCEPTED,REFUSED`, the numbers of its orders.
///
/// # Errors
///
/// - `Fault::Memory`: an allocation failed
pub fn race_text<A: Allocator + Copy>(alloc: A, report: &RaceReport) -> Result<Vec<u8, A>, Fault>
    ensures { MatchResult result
        (λ text. text.items ≡ race_lines (accepted_count report.now.keeper.journal)
        (map (λ r. r.items) report.now.replies.items))
        (λ fault. fault ≡ Fault.Memory) }
{
    let entries = report.keeper.len();
    let mut text = format!(in alloc; "entries,{entries}\n")?.into_bytes();
    for (id, replies) in report.replies.as_slice().iter().enumerate() {
        let line = line_of(alloc, id, replies.as_slice())?;
        text.extend_from_slice(line.as_bytes())?;
    }
    Ok(text)
}

/// Makes the line of an actor.
fn line_of<A: Allocator>(
    alloc: A,
    id: usize,
    replies: &[RaceReply],
) -> Result<String<A>, AllocError>
    ensures { IfOk result (λ line. string_bytes line ≡ actor_line id replies.now) }
{
    let Counts { accepted, refused } = count_orders(replies);
    format!(in alloc; "actor,{id},{accepted},{refused}\n")
}

/// The numbers of an actor's accepted and refused orders.
#[derive(Clone, Copy)]
struct Counts {
    accepted: usize,
    refused: usize,
}

fn count_orders(replies: &[RaceReply]) -> Counts
    ensures accepted { result.accepted ≡ done_in replies.now }
    ensures refused { result.refused ≡ refused_in replies.now }
{
    let mut accepted = 0usize;
    let mut refused = 0usize;
    for reply in replies {
        match reply {
            RaceReply::Done(_) => accepted += 1,
            RaceReply::Refused(_) => refused += 1,
            RaceReply::Saw(_) | RaceReply::Glanced(_) | RaceReply::Moved { .. } => {}
            RaceReply::Timed { .. } | RaceReply::Untimed { .. } => {}
        }
    }
    Counts { accepted, refused }
}
