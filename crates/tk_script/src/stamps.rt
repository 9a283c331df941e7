ghost use Rattle.std.specs.Prelude.{◌≡◌, ◌<◌, ◌^◌, ℕ, List, IfOk, IfErr, OnOk, IsSome, MatchResult, Some, length, ◌++◌, ◌∷◌, []};
ghost use Rattle.tk_script.specs.Cursor.{IsCursor, NextFails, NextGives, fields_of, left_in, remaining};
ghost use Rattle.tk_script.specs.Grammar.{Gives};
ghost use Rattle.tk_script.specs.Stamps as spec;

use crate::fields::number_at;
use crate::record::Record;
use crate::records::{Records, SIZE_LIMIT};
use crate::script_error::ScriptError;
use std::alloc::Global;

/// Contains a parsed stamp file: the fronts and the stamps of its items, in two lists of the same
/// length.
#[derive(Drop)]
pub struct Stamps {
    /// The items' fronts: the numbers of accepted commands of a script before the stamps. Reads and
    /// refused commands don't count.
    pub fronts: Vec<u64>,
    /// The items' stamps, in the same order: readings of the counter, in cycles.
    pub stamps: Vec<u64>,
}

impl Stamps {
    /// Parses the bytes of a stamp file. A file without records gives empty lists.
    ///
    /// # Errors
    ///
    /// Returns the first fault, in this order. The first record with a fault decides, and `Memory`
    /// may replace any other result:
    /// - `TooLarge`: there are more than 16,777,216 bytes
    /// - `Fields`: a record doesn't have exactly two fields
    /// - `Number`: the front or the stamp isn't an unsigned 64-bit number
    pub fn from_bytes(alloc: Global, bytes: &[u8]) -> Result<Stamps, ScriptError>
        ensures gives { Gives spec.items result (spec.stamps_of bytes.now) }
        ensures paired { IfOk result (λ s. length s.fronts.items ≡ length s.stamps.items) }
    {
        if bytes.len() > SIZE_LIMIT {
            return Err(ScriptError::TooLarge);
        }
        read_stamps(alloc, &mut Records::open(alloc, bytes))
    }

    /// Appends an item. After an allocation failure the two lists may differ in length.
    fn push(&mut self, front: u64, stamp: u64) -> Result<(), ScriptError>
        ensures fronts { OnOk result (self.new.fronts.items ≡ self.old.fronts.items ++ front ∷ []) }
        ensures stamps { OnOk result (self.new.stamps.items ≡ self.old.stamps.items ++ stamp ∷ []) }
        ensures memory { IfErr result (λ e. e ≡ ScriptError.Memory) }
    {
        self.fronts.push(front).map_err(|_| ScriptError::Memory)?;
        self.stamps.push(stamp).map_err(|_| ScriptError::Memory)
    }
}

/// Parses all remaining records. The next one is the first of the file.
fn read_stamps(alloc: Global, records: &mut Records<'_>) -> Result<Stamps, ScriptError>
    requires reading { IsCursor records.old }
    requires left { IsSome (left_in records.old) }
    requires few { length (remaining records.old) < 2 ^ 32 }
    ensures gives { Gives spec.items result (spec.items_in 1 (remaining records.old)) }
    ensures paired { IfOk result (λ s. length s.fronts.items ≡ length s.stamps.items) }
{
    let mut stamps = Stamps {
        fronts: Vec::new(alloc),
        stamps: Vec::new(alloc),
    };
    let mut row = 1;
    'items: while let Some((front, stamp)) = next_stamp(row, records)? {
        stamps.push(front, stamp)?;
        row += 1;
    }
    Ok(stamps)
}

/// Parses the record `row`, if there is one.
fn next_stamp(row: u64, records: &mut Records<'_>) -> Result<Option<(u64, u64)>, ScriptError>
    requires { IsCursor records.old }
    ensures reading { IfOk result (λ found. IsSome found → IsCursor records.new) }
    ensures takes { (rs : List (List (List ℕ))) → left_in records.old ≡ Some rs
        → MatchResult result
        (λ found. NextGives (spec.stamp_of row) rs found (left_in records.new))
        (λ error. NextFails (spec.stamp_of row) rs error) }
{
    if let Some(item) = records.take() {
        return Ok(Some(item));
    }
    if !records.advance()? {
        return Ok(None);
    }
    let item = read_stamp(row, records)?;
    Ok(Some(item))
}

/// Parses the front and the stamp of the record `row`.
#[tactic(auto, unfolding(crate::specs::Stamps::stamp_of))]
fn read_stamp(row: u64, fields: &Records<'_>) -> Result<(u64, u64), ScriptError>
    ensures { result ≡ spec.stamp_of row (fields_of fields.now) }
{
    if fields.len() != 2 {
        return Err(ScriptError::Fields { row });
    }
    let front = number_at(row, fields, 0)?;
    let stamp = number_at(row, fields, 1)?;
    Ok((front, stamp))
}
