//! Parses the record of a request to steered clocks (adjtimex(2)).
ghost use Rattle.std.specs.Prelude.{◌≡◌};
ghost use Rattle.tk_script.specs.Requests as spec;

use crate::fields::{number32_at, reading_of, signed_at};
use crate::record::Record;
use crate::row::Row;
use crate::script_error::ScriptError;
use tk_ntp::Timex;

/// Parses a reading and a request.
#[tactic(auto, unfolding(crate::specs::Requests::ask_of))]
pub(crate) fn read_ask<R: Record>(row: u64, fields: &R) -> Result<Row, ScriptError>
    ensures { result ≡ spec.ask_of row (R.fields fields.now) }
{
    let reading = reading_of(row, fields, 12)?;
    let request = read_request(row, fields)?;
    Ok(Row::Ask { reading, request })
}

/// Parses the fields of a request, which may have any numbers.
#[tactic(auto, unfolding(crate::specs::Requests::request_of))]
fn read_request<R: Record>(row: u64, fields: &R) -> Result<Timex, ScriptError>
    ensures { result ≡ spec.request_of row (R.fields fields.now) }
{
    Ok(Timex {
        modes: number32_at(row, fields, 2)?,
        offset: signed_at(row, fields, 3)?,
        freq: signed_at(row, fields, 4)?,
        maxerror: signed_at(row, fields, 5)?,
        esterror: signed_at(row, fields, 6)?,
        status: number32_at(row, fields, 7)?,
        constant: signed_at(row, fields, 8)?,
        tick: signed_at(row, fields, 9)?,
        sec: signed_at(row, fields, 10)?,
        sub: signed_at(row, fields, 11)?,
    })
}
