//! Parses the record `openwords`, by which a script begins from running clocks.
ghost use Rattle.std.specs.Prelude.{◌≡◌, ◌≤◌, IfOk};
ghost use Rattle.tk_script.specs.Start.{IsOpenable, most_front};
ghost use Rattle.tk_script.specs.RunningClocks as spec;

use crate::discipline_fields::read_numbers;
use crate::fields::{number_at, number32_at, signed_at};
use crate::opening::{Start, Telling, counter_of};
use crate::record::Record;
use crate::script_error::ScriptError;
use tk_clock::{Clock, SNAPSHOT_WORDS, Snapshot};
use tk_counter::CounterDesc;
use tk_ntp::SteeredClock;

/// The number of fields of the record without a discipline.
const UNSTEERED_FIELDS: usize = 16;

/// The number of fields of the record with the numbers of a discipline.
const STEERED_FIELDS: usize = 34;

/// The most commands that running clocks may have accepted at the beginning of a script. All
/// records of a script can then be counted.
const FRONT_LIMIT: u64 = 1 << 62;

/// Parses running clocks, and the numbers of their discipline if there are more fields.
#[tactic(auto, unfolding(crate::specs::RunningClocks::running_of))]
pub(crate) fn read_running<R: Record>(fields: &R) -> Result<Start, ScriptError>
    ensures value { result ≡ spec.running_of (R.fields fields.now) }
    ensures opens { IfOk result IsOpenable }
{
    if fields.len() == UNSTEERED_FIELDS {
        read_clocks(fields).map(|(clock, front)| Start::Running { clock, front })
    } else if fields.len() == STEERED_FIELDS {
        read_steered(fields)
    } else {
        Err(ScriptError::Fields { row: 1 })
    }
}

/// Parses running clocks and the numbers of their discipline. A field that isn't a number is the
/// fault before clocks that can't run.
#[tactic(auto, unfolding(crate::specs::RunningClocks::steered_of))]
fn read_steered<R: Record>(fields: &R) -> Result<Start, ScriptError>
    ensures value { result ≡ spec.steered_of (R.fields fields.now) }
    ensures opens { IfOk result IsOpenable }
{
    let numbers = read_numbers(fields)?;
    let (clock, front) = read_clocks(fields)?;
    match SteeredClock::from_numbers(clock, numbers) {
        Ok(clock) => Ok(Start::Continued { clock, front }),
        Err(_) => Err(ScriptError::Opening { row: 1 }),
    }
}

/// Parses bits, mult and shift, the ten words of a snapshot, a frequency and a tick. Returns the
/// clocks and the number of commands that they have accepted.
#[tactic(auto, unfolding(crate::specs::RunningClocks::clocks_of))]
fn read_clocks<R: Record>(fields: &R) -> Result<(Clock, u64), ScriptError>
    ensures value { result ≡ spec.clocks_of (R.fields fields.now) }
    ensures few { IfOk result (λ found. found.1 ≤ most_front) }
{
    let bits = number32_at(1, fields, 1)?;
    let mult = number32_at(1, fields, 2)?;
    let shift = number32_at(1, fields, 3)?;
    let words = words_in(fields)?;
    let frequency = signed_at(1, fields, 14)?;
    let tick = signed_at(1, fields, 15)?;
    let desc = counter_of(Telling::Scale, bits, mult, shift)?;
    clocks_from(desc, words, frequency, tick)
}

/// Parses the ten words of a snapshot.
#[tactic(auto, unfolding(crate::specs::RunningClocks::words_of_fields))]
fn words_in<R: Record>(fields: &R) -> Result<[u64; SNAPSHOT_WORDS], ScriptError>
    ensures { result ≡ spec.words_of_fields (R.fields fields.now) }
{
    Ok([
        number_at(1, fields, 4)?,
        number_at(1, fields, 5)?,
        number_at(1, fields, 6)?,
        number_at(1, fields, 7)?,
        number_at(1, fields, 8)?,
        number_at(1, fields, 9)?,
        number_at(1, fields, 10)?,
        number_at(1, fields, 11)?,
        number_at(1, fields, 12)?,
        number_at(1, fields, 13)?,
    ])
}

/// Makes the clocks of these words, frequency and tick, if running clocks can be in this state.
fn clocks_from(
    desc: CounterDesc,
    words: [u64; SNAPSHOT_WORDS],
    frequency: i64,
    tick: i64,
) -> Result<(Clock, u64), ScriptError>
    ensures value { result ≡ spec.clocks_from desc words frequency tick }
    ensures few { IfOk result (λ found. found.1 ≤ most_front) }
{
    let Some(snapshot) = Snapshot::from_words(desc, words) else {
        return Err(ScriptError::Opening { row: 1 });
    };
    let front = snapshot.front();
    if front > FRONT_LIMIT {
        return Err(ScriptError::Opening { row: 1 });
    }
    let Some(clock) = Clock::from_snapshot(snapshot, frequency, tick) else {
        return Err(ScriptError::Opening { row: 1 });
    };
    Ok((clock, front))
}
