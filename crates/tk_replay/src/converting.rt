//! Makes the text of a trace: one line for each stamp, with the clock's value at it.
ghost use Rattle.std.specs.Prelude.{◌≡◌, ◌⊎◌, flat_map, length, IfOk, MatchResult};
ghost use Rattle.tk_keeper.specs.declared.trace_error.TraceError.{TraceError};
ghost use Rattle.tk_replay.specs.Trace.{IsItemsFault, IsItemsText, IsTrace, IsTraceFault, fault_of_stamps, value_line};
ghost use Rattle.tk_script.specs.declared.script_error.ScriptError.{ScriptError};
ghost use Rattle.tk_script.specs.Grammar.{Fails};
ghost use Rattle.tk_script.specs.Stamps as spec;

use itoa::Buffer;
use std::alloc::{AllocError, Allocator, Global};
use std::thread::Threads;
use tk_clock::ClockId;
use tk_keeper::Timekeeper;
use tk_pieces::trace_all;
use tk_report::{Fault, keeper_after};
use tk_script::{RowReader, ScriptError, Stamps};

/// Makes the trace from the bytes of a script and of a stamp file: one line for each stamp.
/// Otherwise it returns the first fault of the script, then of the stamp file, then of its items.
/// `Memory` may replace any other result.
pub(crate) fn trace_of<E: Threads + Sync>(
    alloc: Global,
    rt: &E,
    script: &[u8],
    stamps: &[u8],
    clock: ClockId,
) -> Result<Vec<u8>, Fault>
    ensures { MatchResult result
        (λ text. IsTrace clock script.now stamps.now text.items)
        (λ fault. (fault ≡ Fault.Memory) ⊎ IsTraceFault clock script.now stamps.now fault) }
{
    let (start, mut rows) = RowReader::open(alloc, script)?;
    if start.is_steered() {
        // no row has a fault, and it can take minutes to carry them out
        let parsed = items_of(alloc, stamps)?;
        let steered = keeper_after(alloc, start, &mut rows)?;
        return convert(alloc, rt, &steered, &parsed, clock);
    }
    let keeper = keeper_after(alloc, start, &mut rows)?;
    let items = items_of(alloc, stamps)?;
    convert(alloc, rt, &keeper, &items, clock)
}

/// Parses the bytes of a stamp file.
fn items_of(alloc: Global, stamps: &[u8]) -> Result<Stamps, Fault>
    ensures gives { MatchResult result
        (λ items. spec.stamps_of stamps.now ≡ Ok (spec.items items))
        (λ fault. (error : ScriptError) × (fault ≡ fault_of_stamps error)
        × Fails error (spec.stamps_of stamps.now)) }
    ensures paired { IfOk result (λ items. length items.fronts.items ≡ length items.stamps.items) }
{
    match Stamps::from_bytes(alloc, stamps) {
        Ok(items) => Ok(items),
        Err(ScriptError::Memory) => Err(Fault::Memory),
        Err(error) => Err(Fault::Stamps(error)),
    }
}

/// Makes the lines of a trace: for an item, the value of `clock` in ns, at the item's stamp, in the
/// keeper's journal at the item's front.
///
/// The two lists of `items` must have the same length, as in the result of `Stamps::from_bytes`.
/// The text is allocated from `alloc`. Several threads convert the items if that is likely to save
/// time. If no thread can be started, the calling thread converts them all.
///
/// # Errors
///
/// - `Fault::Trace`: the first item with a fault in the list, and its fault
/// - `Fault::Memory`: an allocation failed; it may replace any other result
pub fn convert<E: Threads + Sync, A: Allocator + Copy + Send + Sync, B: Allocator + Copy>(
    alloc: B,
    rt: &E,
    keeper: &Timekeeper<A>,
    items: &Stamps,
    clock: ClockId,
) -> Result<Vec<u8, B>, Fault>
    requires { length items.now.fronts.items ≡ length items.now.stamps.items }
    ensures { MatchResult result
        (λ text. IsItemsText clock keeper.now.journal (spec.items items.now) text.items)
        (λ fault. (fault ≡ Fault.Memory) ⊎ ((error : TraceError) × (fault ≡ Fault.Trace error)
        × IsItemsFault clock keeper.now.journal (spec.items items.now) error)) }
{
    let (fronts, stamps) = (items.fronts.as_slice(), items.stamps.as_slice());
    let values = trace_all(alloc, rt, keeper, fronts, stamps, clock)?;
    Ok(lines_of(alloc, values.as_slice())?)
}

/// Makes one line for each value. It first reserves the capacity for the whole text, by the digits
/// of the greatest value.
fn lines_of<B: Allocator>(alloc: B, values: &[u64]) -> Result<Vec<u8, B>, AllocError>
    ensures { IfOk result (λ text. text.items ≡ flat_map value_line values.now) }
{
    let mut buffer = Buffer::new();
    let mut text = Vec::new(alloc);
    let greatest = values.iter().copied().max().unwrap_or(0);
    let width = buffer.format(greatest).len() + 1;
    text.reserve(values.len().saturating_mul(width))?;
    for value in values {
        text.extend_from_slice(buffer.format(*value).as_bytes())?;
        text.push(b'\n')?;
    }
    Ok(text)
}
