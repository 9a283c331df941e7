ghost use Rattle.std.specs.Prelude.{IfOk};
ghost use Rattle.tk_script.specs.Grammar.{Gives, parse_of};
ghost use Rattle.tk_script.specs.Start.{IsOpenable};

use crate::opening::Start;
use crate::row::Row;
use crate::row_reader::RowReader;
use crate::script_error::ScriptError;
use std::alloc::Global;

/// Contains a parsed script: how the clocks begin, and then the commands, the reads, the changes of
/// counter and the requests.
#[derive(Drop)]
pub struct Script {
    /// Opens the clocks, perhaps steered ones, or continues running ones.
    pub start: Start,
    /// The later records, in their order.
    pub rows: Vec<Row>,
}

impl Script {
    ghost use Rattle.tk_script.specs.Script.{parse};

    /// Parses the bytes of a script. Clocks can begin as a returned script says.
    ///
    /// # Errors
    ///
    /// Returns the script's first fault, in the order that `ScriptError` gives. `Memory` may
    /// replace any other result.
    pub fn from_bytes(alloc: Global, bytes: &[u8]) -> Result<Script, ScriptError>
        ensures gives { Gives parse result (parse_of bytes.now) }
        // clocks can begin in this way
        ensures opens { IfOk result (λ script. IsOpenable script.start) }
    {
        let (start, mut reader) = RowReader::open(alloc, bytes)?;
        let mut rows = Vec::new(alloc);
        'rows: while let Some(row) = reader.next_row()? {
            if rows.push(row).is_err() {
                return Err(ScriptError::Memory);
            }
        }
        Ok(Script { start, rows })
    }
}
