ghost use Rattle.std.specs.Prelude.{◌≡◌, IfOk};
ghost use Rattle.tk_script.specs.Counters as counters;
ghost use Rattle.tk_script.specs.Start.{IsOpenable, is_steered};
ghost use Rattle.tk_script.specs.Opening as spec;

use crate::fields::{field, has_word, number_at, number32_at, time_at};
use crate::record::Record;
use crate::running_clocks::read_running;
use crate::script_error::ScriptError;
use tk_clock::{Clock, Timespec};
use tk_counter::CounterDesc;
use tk_ntp::SteeredClock;

/// The number of fields of the records `open` and `openhz` without `hz`.
const OPENING_FIELDS: usize = 7;

/// Contains the values with which clocks are opened.
#[derive(Clone, Copy, Debug, PartialEq, Eq)]
pub struct Opening {
    /// Describes the counter.
    pub desc: CounterDesc,
    /// The counter's reading at the opening, in cycles, at most the mask.
    pub reading: u64,
    /// REALTIME at that reading.
    pub real: Timespec,
}

/// Contains the first record of a script: how its clocks begin.
#[derive(Clone, Copy, Debug)]
pub enum Start {
    /// Opens clocks (`open`, `openhz`).
    Opened(Opening),
    /// Opens clocks that a discipline steers (`open`, `openhz` with the field `hz`). It divides
    /// phases into `hz` parts of a second.
    Steered { opening: Opening, hz: u32 },
    /// Continues running clocks, which have accepted `front` commands, at most 2^62 (`openwords`).
    Running { clock: Clock, front: u64 },
    /// Continues running clocks that a discipline steers, and the discipline (`openwords` with its
    /// numbers).
    Continued { clock: SteeredClock, front: u64 },
}

impl Start {
    /// Returns whether a discipline steers the clocks.
    pub fn is_steered(&self) -> bool
        ensures { result ≡ is_steered self.now }
    {
        matches!(self, Start::Steered { .. } | Start::Continued { .. })
    }
}

/// Names the two numbers that describe the counter, after its bits.
#[derive(Clone, Copy)]
pub(crate) enum Telling {
    /// `open`, `openwords`: mult and shift.
    Scale,
    /// `openhz`: the frequency in Hz, and the longest gap in seconds.
    Frequency,
}

/// Parses the first record by its keyword.
#[tactic(auto, unfolding(crate::specs::Opening::start_of))]
pub(crate) fn read_start<R: Record>(fields: &R) -> Result<Start, ScriptError>
    ensures value { result ≡ spec.start_of (R.fields fields.now) }
    ensures opens { IfOk result IsOpenable }
{
    let word = field(fields, 0);
    if has_word(word, b"open") {
        read_opening(Telling::Scale, fields)
    } else if has_word(word, b"openhz") {
        read_opening(Telling::Frequency, fields)
    } else if has_word(word, b"openwords") {
        read_running(fields)
    } else {
        Err(ScriptError::Opening { row: 1 })
    }
}

/// Parses bits, the two numbers that describe the counter, reading, sec and nsec, and hz if there
/// is one more field.
#[tactic(auto, unfolding(crate::specs::Opening::opening_of))]
fn read_opening<R: Record>(telling: Telling, fields: &R) -> Result<Start, ScriptError>
    ensures value { result ≡ spec.opening_of telling (R.fields fields.now) }
    ensures opens { IfOk result IsOpenable }
{
    if fields.len() != OPENING_FIELDS && fields.len() != OPENING_FIELDS + 1 {
        return Err(ScriptError::Fields { row: 1 });
    }
    let bits = number32_at(1, fields, 1)?;
    let first = number32_at(1, fields, 2)?;
    let second = number32_at(1, fields, 3)?;
    let reading = number_at(1, fields, 4)?;
    let real = time_at(1, fields, 5)?;
    let hz = read_hz(fields)?;
    let desc = counter_of(telling, bits, first, second)?;
    let opening = Opening {
        desc,
        reading,
        real,
    };
    match hz {
        None => match Clock::open(desc, reading, real) {
            Ok(_) => Ok(Start::Opened(opening)),
            Err(_) => Err(ScriptError::Opening { row: 1 }),
        },
        Some(hz) => match SteeredClock::open(desc, reading, real, hz) {
            Ok(_) => Ok(Start::Steered { opening, hz }),
            Err(_) => Err(ScriptError::Opening { row: 1 }),
        },
    }
}

/// Parses hz. `None` means that the record has no field for it.
fn read_hz<R: Record>(fields: &R) -> Result<Option<u32>, ScriptError>
    ensures { result ≡ spec.hz_of (R.fields fields.now) }
{
    if fields.len() == OPENING_FIELDS {
        return Ok(None);
    }
    let hz = number32_at(1, fields, 7)?;
    Ok(Some(hz))
}

/// Makes the counter of `bits` bits from two numbers, if they describe one.
pub(crate) fn counter_of(
    telling: Telling,
    bits: u32,
    first: u32,
    second: u32,
) -> Result<CounterDesc, ScriptError>
    ensures { result ≡ counters.counter_of telling bits first second }
{
    match telling {
        Telling::Scale => CounterDesc::new(bits, first, second),
        Telling::Frequency => CounterDesc::from_hz(bits, first, second),
    }
    .map_err(|_| ScriptError::Opening { row: 1 })
}
