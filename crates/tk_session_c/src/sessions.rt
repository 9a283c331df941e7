//! Keeps sessions for C.
ghost use Rattle.std.specs.Prelude.{◌≡◌, ◌≤◌, MatchResult};
ghost use Rattle.tk_session.specs.Closed.{closed};
ghost use Rattle.tk_session.specs.Session as spec;
ghost use Rattle.tk_session_c.specs.Recorded.{IsNotTaken, IsRecorded, IsTaken};
ghost use Rattle.tk_session_c.specs.Storage.{snapshot_in, snapshot_storage};

use crate::code::Code;
use crate::fault_text::FaultText;
use crate::storage::{SnapshotStorage, TextStorage, write_snapshot};
use std::mem::size_of;
use tk_session::{Fault, Session, Text};

const _: () = prove!(size_of::<Session>() == 264);

/// Begins a session without records (`Session::closed`).
#[unsafe(no_mangle)]
pub extern "C" fn tkc_session_begin() -> Session
    ensures { result ≡ closed }
{
    Session::closed()
}

/// Takes the next record of the script, and writes its lines to `text`, with their line feeds. The
/// first record opens the clocks (`Session::open`, `Session::record`).
///
/// A record is a line without its line feed. An empty line is no record: it changes nothing and has
/// no lines. The bytes of `text` after the written ones don't change.
///
/// # Errors
///
/// Leaves the session, and writes the fault's text to `text`, without a line feed. Returns, in this
/// order:
///
/// - `Code::NotPlain` if the record contains a quote, a carriage return or a line feed, or if it is
///   the first one and begins with the byte 0xef;
/// - `Code::TooMany` if 2^64 - 1 records were counted;
/// - the code of the record's fault: `BadOpening` only for the first record, `BadWord` and
///   `BadBits` to `BadRate` only for a later one, `BadFields` or `BadNumber`.
#[unsafe(no_mangle)]
pub extern "C" fn tkc_session_record(
    session: &mut Session,
    text: &mut TextStorage,
    line: &[u8],
) -> u32
    ensures answer { IsRecorded session.old line.now text.old text.new result session.new }
    ensures short { text.new.len ≤ 288 }
{
    match take(session, line) {
        Ok(lines) => {
            text.write(lines.as_bytes());
            Code::Done.number()
        }
        Err(fault) => {
            text.write(FaultText::of(&fault).as_bytes());
            Code::from(fault).number()
        }
    }
}

/// Takes a record. The first one opens the clocks.
fn take(session: &mut Session, line: &[u8]) -> Result<Text, Fault>
    ensures { MatchResult result
        (λ lines. IsTaken session.old line.now lines session.new)
        (λ fault. IsNotTaken session.old line.now fault × (session.new ≡ session.old)) }
{
    if session.records() == 0 && !line.is_empty() {
        return open(session, line);
    }
    session.record(line)
}

/// Opens the clocks with the first record, and replaces the session.
fn open(session: &mut Session, line: &[u8]) -> Result<Text, Fault>
    ensures { MatchResult result
        (λ lines. spec.IsOpenedBy line.now lines session.new)
        (λ fault. spec.IsNoOpening line.now fault × (session.new ≡ session.old)) }
{
    let (opened, lines) = Session::open(line)?;
    *session = opened;
    Ok(lines)
}

/// Returns the number of records so far, the opening included.
#[unsafe(no_mangle)]
pub extern "C" fn tkc_session_records(session: &Session) -> u64
    ensures { result ≡ session.now.records }
{
    session.records()
}

/// Returns the number of lines `differs,RECORD,VALUE` so far.
#[unsafe(no_mangle)]
pub extern "C" fn tkc_session_differences(session: &Session) -> u64
    ensures { result ≡ session.now.differences }
{
    session.differences()
}

/// Writes a snapshot of the clocks after the last record to `out`. Its front is the number of
/// accepted commands. Before the first record they are the clocks of `Session::closed`.
#[unsafe(no_mangle)]
pub extern "C" fn tkc_session_snapshot(out: &mut SnapshotStorage, session: &Session)
    ensures { out.new ≡ snapshot_storage (snapshot_in session.now) }
{
    write_snapshot(out, &session.snapshot());
}
