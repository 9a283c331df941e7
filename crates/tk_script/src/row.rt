ghost use Rattle.std.specs.Prelude.{◌≡◌};
ghost use Rattle.tk_script.specs.Rows as spec;
ghost use Rattle.tk_script.specs.declared.row.Row.TheVariants.{Act};

use crate::fields::{
    clock_at, field, has_word, number_at, number32_at, reading_of, signed_at, time_at,
};
use crate::record::Record;
use crate::requests::read_ask;
use crate::script_error::ScriptError;
use tk_clock::{ClockId, Command, Timespec};
use tk_counter::CounterDesc;
use tk_ntp::Timex;

/// Contains a record of a script after the first one: a command, a read, a change of counter or a
/// request.
/// `reading` is the counter's, in cycles. It may be above the mask; the clocks refuse such a reading.
#[derive(Clone, Copy, Debug, PartialEq, Eq)]
pub enum Row {
    /// Applies a command at a reading.
    Act {
        reading: u64,
        cmd: Command,
    },
    /// Reads a clock at a reading. `expected` is the value that the script states, in ns, if any.
    Look {
        reading: u64,
        clock: ClockId,
        expected: Option<u64>,
    },
    /// Changes the counter at a reading of the present one: the clocks go on over the counter `desc`
    /// from its reading `first`, in cycles, which may be above its mask too.
    Change {
        reading: u64,
        desc: CounterDesc,
        first: u64,
    },
    /// Does what a request asks for at a reading (adjtimex(2)). The request may have any numbers.
    Ask {
        reading: u64,
        request: Timex,
    },
}

/// Parses the record `row` by its keyword. The frequent keywords are tested first.
#[tactic(auto, unfolding(crate::specs::Rows::row_of))]
pub(crate) fn read_row<R: Record>(row: u64, fields: &R) -> Result<Row, ScriptError>
    ensures { result ≡ spec.row_of row (R.fields fields.now) }
{
    let word = field(fields, 0);
    if has_word(word, b"update") {
        reading_of(row, fields, 2).map(|reading| act(reading, Command::Update))
    } else if has_word(word, b"get") {
        read_look(row, fields)
    } else if has_word(word, b"set") {
        read_timed(row, fields).map(|(reading, time)| act(reading, Command::SetTime(time)))
    } else if has_word(word, b"step") {
        read_timed(row, fields).map(|(reading, time)| act(reading, Command::Step(time)))
    } else if has_word(word, b"freq") {
        read_valued(row, fields).map(|(reading, freq)| act(reading, Command::Freq(freq)))
    } else if has_word(word, b"tick") {
        read_valued(row, fields).map(|(reading, tick)| act(reading, Command::Tick(tick)))
    } else if has_word(word, b"tai") {
        read_valued(row, fields).map(|(reading, tai)| act(reading, Command::Tai(tai)))
    } else if has_word(word, b"suspend") {
        reading_of(row, fields, 2).map(|reading| act(reading, Command::Suspend))
    } else if has_word(word, b"resume") {
        read_timed(row, fields).map(|(reading, time)| act(reading, Command::Resume(time)))
    } else if has_word(word, b"counter") {
        read_change(row, fields)
    } else if has_word(word, b"adjtimex") {
        read_ask(row, fields)
    } else {
        Err(ScriptError::Word { row })
    }
}

/// Makes the row of a command at a reading.
fn act(reading: u64, cmd: Command) -> Row
    ensures { result ≡ Act reading cmd }
{
    Row::Act { reading, cmd }
}

/// Parses a reading and a time.
#[tactic(auto, unfolding(crate::specs::Rows::timed_of))]
fn read_timed<R: Record>(row: u64, fields: &R) -> Result<(u64, Timespec), ScriptError>
    ensures { result ≡ spec.timed_of row (R.fields fields.now) }
{
    Ok((reading_of(row, fields, 4)?, time_at(row, fields, 2)?))
}

/// Parses a reading and a signed number.
#[tactic(auto, unfolding(crate::specs::Rows::valued_of))]
fn read_valued<R: Record>(row: u64, fields: &R) -> Result<(u64, i64), ScriptError>
    ensures { result ≡ spec.valued_of row (R.fields fields.now) }
{
    Ok((reading_of(row, fields, 3)?, signed_at(row, fields, 2)?))
}

/// Parses a reading and a clock, and the value that is expected, if there is a further field.
#[tactic(auto, unfolding(crate::specs::Rows::look_of))]
fn read_look<R: Record>(row: u64, fields: &R) -> Result<Row, ScriptError>
    ensures { result ≡ spec.look_of row (R.fields fields.now) }
{
    if fields.len() != 3 && fields.len() != 4 {
        return Err(ScriptError::Fields { row });
    }
    let reading = number_at(row, fields, 1)?;
    let clock = clock_at(row, fields, 2)?;
    let expected = read_expected(row, fields)?;
    Ok(Row::Look {
        reading,
        clock,
        expected,
    })
}

/// Parses the value that a read expects. `None` means that the record has no field for it.
fn read_expected<R: Record>(row: u64, fields: &R) -> Result<Option<u64>, ScriptError>
    ensures { result ≡ spec.expected_of row (R.fields fields.now) }
{
    if fields.len() == 3 {
        return Ok(None);
    }
    let value = number_at(row, fields, 3)?;
    Ok(Some(value))
}

/// Parses a reading of the present counter, the numbers of the next one, and a reading of that one.
#[tactic(auto, unfolding(crate::specs::Rows::change_of))]
fn read_change<R: Record>(row: u64, fields: &R) -> Result<Row, ScriptError>
    ensures { result ≡ spec.change_of row (R.fields fields.now) }
{
    let reading = reading_of(row, fields, 6)?;
    let bits = number32_at(row, fields, 2)?;
    let mult = number32_at(row, fields, 3)?;
    let shift = number32_at(row, fields, 4)?;
    let first = number_at(row, fields, 5)?;
    let made = CounterDesc::new(bits, mult, shift);
    let desc = made.map_err(|error| ScriptError::Counter { row, error })?;
    Ok(Row::Change {
        reading,
        desc,
        first,
    })
}
