//! Makes a new list in stages. A stage is many times as long as the one before it, so a fault near
//! the beginning of the list ends the call before memory for all values is written.
ghost use Rattle.std.specs.Prelude.{[], ◌≡◌, ◌<◌, ◌≤◌, length, MatchResult, OnOk, IfErr};
ghost use Rattle.tk_keeper.specs.Trace.{AreValues, IsConverted, IsFault};
ghost use Rattle.tk_pieces.specs.Input.{of_input};

use crate::input::Input;
use crate::pieces::trace_in_pieces;
use std::alloc::Allocator;
use std::marker::Sync;
use std::thread::Threads;
use tk_keeper::TraceError;

/// The length of a stage, compared with the one before it.
const GROWTH: usize = 16;

/// Converts stamps as `trace_all` does, into an empty list. The first stage is one piece.
pub(crate) fn convert_in_stages<R: Threads + Sync, A: Allocator + Copy + Sync, B: Allocator>(
    rt: &R,
    size: usize,
    input: Input<'_, A>,
    values: Vec<u64, B>,
) -> Result<Vec<u64, B>, TraceError>
    requires size { 0 < size }
    requires empty { values.items ≡ [] }
    ensures { MatchResult result
        (λ values. of_input IsConverted input.entry values.items)
        (λ error. of_input IsFault input.entry error) }
{
    let (mut values, mut most) = (values, size);
    'stages: while values.len() < input.stamps.len() {
        convert_stage(rt, size, most, input, &mut values)?;
        most = most.saturating_mul(GROWTH);
    }
    Ok(values)
}

/// Converts the next `most` items, or all remaining ones, and appends their values.
fn convert_stage<R: Threads + Sync, A: Allocator + Copy + Sync, B: Allocator>(
    rt: &R,
    size: usize,
    most: usize,
    input: Input<'_, A>,
    values: &mut Vec<u64, B>,
) -> Result<(), TraceError>
    requires size { 0 < size }
    requires most { 0 < most }
    requires left { length values.old.items < length input.stamps.now }
    requires so_far { of_input AreValues input (length values.old.items) values.old.items }
    ensures ok { OnOk result ((length values.old.items < length values.new.items)
        × (length values.new.items ≤ length input.entry.stamps.now)
        × of_input AreValues input.entry (length values.new.items) values.new.items) }
    ensures refused { IfErr result (λ error. of_input IsFault input.entry error) }
{
    let first = values.len();
    let end = first.saturating_add(most).min(input.stamps.len());
    let Ok(()) = values.resize(end, 0) else {
        return Err(TraceError::Memory);
    };
    trace_in_pieces(rt, size, input, first, values.as_mut_slice())
}
