ghost use Rattle.std.specs.Prelude.{◌≡◌, IfOk, IsOk, IsTrue, MatchResult};
ghost use Rattle.tk_script.specs.Grammar.{Fails, parse_of};
ghost use Rattle.tk_script.specs.Coming.{IsReady, Steps, coming, opened_with};
ghost use Rattle.tk_script.specs.Start.{IsOpenable, is_steered};

use crate::opening::{Start, read_start};
use crate::records::{Records, SIZE_LIMIT};
use crate::row::{Row, read_row};
use crate::script_error::ScriptError;
use std::alloc::Global;

/// Reads the rows of a script one at a time. It keeps only one record in memory.
#[derive(Drop)]
pub struct RowReader<'a> {
    records: Records<'a>,
    /// The number of the next record.
    row: u64,
}

impl<'a> RowReader<'a> {
    /// Parses the first record of a script, and returns it with a reader of the rows.
    ///
    /// Clocks can begin as it says. If a discipline steers them, the rows are parsed to the last one
    /// first, and then once more as they are read: a record of steered clocks can take minutes, so
    /// no record is carried out before a fault in a later one is found.
    ///
    /// # Errors
    ///
    /// Returns the first of these; `Memory` may replace any other result:
    /// - `TooLarge`: there are more than 16,777,216 bytes
    /// - `Empty`: there is no record
    /// - `Opening`, `Fields`, `Number`: the first record has a fault
    /// - the first fault of the rows, if a discipline steers the clocks
    pub fn open(alloc: Global, bytes: &'a [u8]) -> Result<(Start, RowReader<'a>), ScriptError>
        ensures gives { MatchResult result
            (λ opened. IsReady opened.1
            × (parse_of bytes.now ≡ opened_with opened.0 (coming opened.1)))
            (λ error. Fails error (parse_of bytes.now)) }
        // clocks can begin in this way
        ensures opens { IfOk result (λ opened. IsOpenable opened.0) }
        // no row of steered clocks has a fault
        ensures whole { IfOk result (λ opened.
            IsTrue (is_steered opened.0) → IsOk (coming opened.1)) }
    {
        let (start, mut rows) = RowReader::begin(alloc, bytes)?;
        if !start.is_steered() {
            return Ok((start, rows));
        }
        rows.parse_rest()?;
        RowReader::begin(alloc, bytes)
    }

    /// Parses the first record of a script, and returns it with a reader of the rows.
    fn begin(alloc: Global, bytes: &'a [u8]) -> Result<(Start, RowReader<'a>), ScriptError>
        ensures gives { MatchResult result
            (λ opened. IsReady opened.1
            × (parse_of bytes.now ≡ opened_with opened.0 (coming opened.1)))
            (λ error. Fails error (parse_of bytes.now)) }
        ensures opens { IfOk result (λ opened. IsOpenable opened.0) }
    {
        if bytes.len() > SIZE_LIMIT {
            return Err(ScriptError::TooLarge);
        }
        let mut records = Records::open(alloc, bytes);
        if !records.advance()? {
            return Err(ScriptError::Empty);
        }
        let start = read_start(&records)?;
        Ok((start, RowReader { records, row: 2 }))
    }

    /// Parses the remaining rows, and keeps none.
    fn parse_rest(&mut self) -> Result<(), ScriptError>
        requires { IsReady self.old }
        ensures { MatchResult result
            (λ _. IsOk (coming self.old))
            (λ error. Fails error (coming self.old)) }
    {
        'rows: while let Some(_row) = self.next_row()? {}
        Ok(())
    }

    /// Parses the next record and returns its row. `None` means that no record remains.
    ///
    /// After `None` or an error the reader must not be called again.
    ///
    /// # Errors
    ///
    /// - `Word`, `Fields`, `Number`: the next record has a fault
    /// - `Memory`: an allocation failed; it may replace any other result
    #[inline(always)]
    pub fn next_row(&mut self) -> Result<Option<Row>, ScriptError>
        requires { IsReady self.old }
        ensures { MatchResult result
            (λ row. Steps row self.old self.new)
            (λ error. Fails error (coming self.old)) }
    {
        if let Some(row) = self.records.take() {
            self.row += 1;
            return Ok(Some(row));
        }
        self.parse_row()
    }

    /// Parses the next record of any form, as `next_row` does. The compiler clears the stack of an
    /// inlined function where that begins, so in a separate function this costs a frequent row
    /// nothing.
    #[inline(always)]
    fn parse_row(&mut self) -> Result<Option<Row>, ScriptError>
        requires { IsReady self.old }
        ensures { MatchResult result
            (λ row. Steps row self.old self.new)
            (λ error. Fails error (coming self.old)) }
    {
        if !self.records.advance()? {
            return Ok(None);
        }
        let row = read_row(self.row, &self.records)?;
        self.row += 1;
        Ok(Some(row))
    }
}
