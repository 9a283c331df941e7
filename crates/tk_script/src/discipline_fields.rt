//! Parses the numbers of a discipline, which may follow the running clocks of `openwords`.
ghost use Rattle.std.specs.Prelude.{◌≡◌};
ghost use Rattle.tk_script.specs.DisciplineFields as spec;

use crate::fields::{number_at, number8_at, number32_at, signed_at};
use crate::record::Record;
use crate::script_error::ScriptError;
use tk_ntp::{DisciplineNumbers, LagNumbers, LeapNumbers, SteeredNumbers, SteeringNumbers};

/// Parses the numbers of a discipline and its lag, the next second and the last account. They may be any
/// numbers.
#[tactic(auto, unfolding(crate::specs::DisciplineFields::numbers_of))]
pub(crate) fn read_numbers<R: Record>(fields: &R) -> Result<SteeredNumbers, ScriptError>
    ensures { result ≡ spec.numbers_of (R.fields fields.now) }
{
    Ok(SteeredNumbers {
        steering: SteeringNumbers {
            ntp: DisciplineNumbers {
                hz: number32_at(1, fields, 16)?,
                status: number32_at(1, fields, 17)?,
                plan: read_plan(fields)?,
                offset: signed_at(1, fields, 21)?,
                constant: number32_at(1, fields, 22)?,
                maxerror: number32_at(1, fields, 23)?,
                esterror: number32_at(1, fields, 24)?,
                tick: number32_at(1, fields, 25)?,
                frequency: signed_at(1, fields, 26)?,
                reftime: number_at(1, fields, 27)?,
                adjust: signed_at(1, fields, 28)?,
                phase: signed_at(1, fields, 29)?,
            },
            lag: LagNumbers {
                high: number_at(1, fields, 30)?,
                low: number_at(1, fields, 31)?,
            },
        },
        next: number_at(1, fields, 32)?,
        last_account: number_at(1, fields, 33)?,
    })
}

/// Parses the numbers of the plan of a leap second.
#[tactic(auto, unfolding(crate::specs::DisciplineFields::plan_of))]
fn read_plan<R: Record>(fields: &R) -> Result<LeapNumbers, ScriptError>
    ensures { result ≡ spec.plan_of (R.fields fields.now) }
{
    Ok(LeapNumbers {
        state: number32_at(1, fields, 18)?,
        is_due: number8_at(1, fields, 19)?,
        due: number_at(1, fields, 20)?,
    })
}
