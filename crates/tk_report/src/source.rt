ghost use Rattle.std.specs.Prelude.{◌≡◌, ℕ, ◌+◌, ◌≤◌, ◌<◌, Option, take, drop, length, IfOk, IfErr, IfSome, OnOk, MatchOption, vec_len};
ghost use Rattle.std.specs.Io.KnownBytes.{Consumes, IsAtEnd, Keeps};
ghost use Rattle.tk_report.specs.Reading.{IsReadToEnd, IsReadWithin, ReadFailed, StopsReading, most_read};

use crate::fault::Fault;
use std::alloc::{AllocError, Global};
use std::io::Read;
use tk_script::SIZE_LIMIT;

/// A source of a script or a stamp file: any reader.
///
/// Every `Read` implements it; write no other impl. `replay` and `trace` read through it, so that
/// their contracts can state that a read failed. The contracts are proved for every relation
/// `read_gives`, so they can name only a read that was made.
pub trait Source: Read {
    // The possible results of a read: the reader before it, the number of bytes read (none if it
    // failed), and the reader after it.
    ghost read_gives: { Self → Option ℕ → Self → Type 0 };

    /// Reads once into the beginning of `room` and returns the number of bytes read; 0 means the
    /// end of the input, unless `room` is empty.
    ///
    /// `None` means that the read returned an error and read nothing.
    fn read_once(&mut self, room: &mut [u8]) -> Option<usize>
        ensures bound { IfSome result (λ count. count ≤ length room.new) }
        ensures bytes { MatchOption result
            (Keeps (Self.Read.remaining self.old) (Self.Read.remaining self.new))
            (λ count.
            Consumes (Self.Read.remaining self.old) (Self.Read.remaining self.new) (take count room.new)
            × (count ≡ 0 → 0 < length room.new → IsAtEnd (Self.Read.remaining self.new))) }
        ensures call { read_gives self.old result self.new };
}

impl<R: Read> Source for R {
    ghost read_gives = { λ _ _ _. Unit {0} };

    fn read_once(&mut self, room: &mut [u8]) -> Option<usize> {
        self.read(room).ok()
    }
}

/// The most bytes that are ever read: one more than the largest script.
const READING_LIMIT: usize = SIZE_LIMIT + 1;

/// The smallest growth of the buffer, in bytes.
const LEAST_ROOM: usize = 65_536;

/// The largest growth of the buffer, in bytes: small enough that the zeroed memory is still in the
/// cache when a read fills it.
const GREATEST_ROOM: usize = 262_144;

/// Reads the source to its end, or 16,777,217 bytes, whichever comes first, and returns the bytes.
///
/// The limit is one byte more than the largest script, so a result of that length is too large. It
/// repeats no read: an interrupted one (EINTR) is a fault.
///
/// # Errors
///
/// - `Fault::Read`: a read failed
/// - `Fault::Memory`: an allocation failed
pub fn read_to_end<S: Source>(alloc: Global, source: &mut S) -> Result<Vec<u8>, Fault>
    ensures within { IsReadWithin (S.Read.remaining source.old) (S.Read.remaining source.new) }
    ensures ok { IfOk result (λ bytes.
        IsReadToEnd (S.Read.remaining source.old) (S.Read.remaining source.new) bytes.items) }
    ensures err { IfErr result (StopsReading (ReadFailed S.Source.read_gives source.new)) }
{
    let mut bytes = Vec::new(alloc);
    let mut filled = 0;
    'reads: while filled < READING_LIMIT {
        make_room(&mut bytes, filled)?;
        match read_at(source, bytes.as_mut_slice(), filled) {
            Some(0) => break 'reads,
            Some(count) => filled += count,
            None => return Err(Fault::Read),
        }
    }
    bytes.truncate(filled);
    Ok(bytes)
}

/// Grows a full buffer by a quarter, within the two bounds above, and up to `READING_LIMIT`. The
/// filled part doesn't change.
fn make_room(room: &mut Vec<u8>, filled: usize) -> Result<(), AllocError>
    requires within { filled ≤ vec_len room.old }
    requires below { filled < most_read }
    requires most { vec_len room.old ≤ most_read }
    ensures free { OnOk result (filled < vec_len room.new) }
    ensures most { OnOk result (vec_len room.new ≤ most_read) }
    ensures kept { OnOk result (take filled room.new.items ≡ take filled room.old.items) }
{
    if filled < room.len() {
        return Ok(());
    }
    let more = (filled / 4).clamp(LEAST_ROOM, GREATEST_ROOM);
    room.resize((filled + more).min(READING_LIMIT), 0)
}

/// Reads once into the buffer, starting at index `at`.
fn read_at<S: Source>(source: &mut S, room: &mut [u8], at: usize) -> Option<usize>
    requires { at < length room.old }
    ensures front { take at room.new ≡ take at room.old }
    ensures bound { IfSome result (λ count. at + count ≤ length room.new) }
    ensures bytes { MatchOption result
        (Keeps (S.Read.remaining source.old) (S.Read.remaining source.new))
        (λ count. Consumes
        (S.Read.remaining source.old) (S.Read.remaining source.new) (take count (drop at room.new))
        × (count ≡ 0 → IsAtEnd (S.Read.remaining source.new))) }
    ensures call { S.Source.read_gives source.old result source.new }
{
    source.read_once(&mut room[at..])
}
