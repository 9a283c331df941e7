ghost use Rattle.std.specs.Prelude.{◌≡◌, ℕ, ◌≤◌, ◌<◌, List, Option, Bool, take, length, IfSome, IfErr, OnOk, OnErr, MatchOption};
ghost use Rattle.std.specs.Io.KnownBytes.{Appends, Keeps};
ghost use Rattle.tk_report.specs.Writing.{IsFlushed, IsWrittenUpTo, WriteFailed};

use std::io::Write;

/// A destination of a report or a trace: any writer.
///
/// Every `Write` implements it; write no other impl. `replay` and `trace` write through it, so that
/// their contracts can state that a write failed. The contracts are proved for all relations
/// `write_gives` and `flush_gives`, so they can name only a call that was made.
pub trait Sink: Write {
    // The possible results of a write: the writer before it, the text, the number of bytes that it
    // took (none if it failed or took nothing), and the writer after it.
    ghost write_gives: { Self → List ℕ → Option ℕ → Self → Type 0 };

    // The possible results of a flush: the writer before it, whether it succeeded, and the writer
    // after it.
    ghost flush_gives: { Self → Bool → Self → Type 0 };

    /// Writes once, from the beginning of `text`, and returns the number of bytes taken, at least
    /// 1.
    ///
    /// `None` means that the write returned an error or took no byte, and wrote nothing.
    fn write_once(&mut self, text: &[u8]) -> Option<usize>
        ensures bound { IfSome result (λ count. (0 < count) × (count ≤ length text.now)) }
        ensures bytes { MatchOption result
            (Keeps (Self.Write.contents self.old) (Self.Write.contents self.new))
            (λ count. Appends
            (Self.Write.contents self.old) (Self.Write.contents self.new) (take count text.now)) }
        ensures call { write_gives self.old text.now result self.new };

    /// Flushes the written bytes. `false` means that the flush returned an error.
    fn flush_once(&mut self) -> bool
        ensures bytes { Keeps (Self.Write.contents self.old) (Self.Write.contents self.new) }
        ensures call { flush_gives self.old result self.new };
}

impl<W: Write> Sink for W {
    ghost write_gives = { λ _ _ _ _. Unit {0} };

    ghost flush_gives = { λ _ _ _. Unit {0} };

    fn write_once(&mut self, text: &[u8]) -> Option<usize> {
        self.write(text).ok().filter(|count| *count > 0)
    }

    fn flush_once(&mut self) -> bool {
        self.flush().is_ok()
    }
}

/// Writes the whole text and flushes.
///
/// It repeats no write: an interrupted one (EINTR) is an error. It doesn't allocate.
///
/// # Errors
///
/// Returns the number of bytes written, from the beginning of the text, if a write returned an
/// error or took no byte, or if the flush returned an error.
pub fn write_whole<S: Sink>(sink: &mut S, text: &[u8]) -> Result<(), u64>
    ensures ok { OnOk result
        (Appends (S.Write.contents sink.old) (S.Write.contents sink.new) text.now) }
    ensures flushed { OnOk result (IsFlushed S.Sink.flush_gives sink.new) }
    ensures err { IfErr result
        (IsWrittenUpTo (S.Write.contents sink.old) (S.Write.contents sink.new) text.now) }
    ensures failed { OnErr result (WriteFailed S.Sink.write_gives S.Sink.flush_gives sink.new) }
{
    let mut written = 0;
    'writes: while written < text.len() {
        match sink.write_once(&text[written..]) {
            Some(count) => written += count,
            None => return Err(written as u64),
        }
    }
    if sink.flush_once() {
        Ok(())
    } else {
        Err(written as u64)
    }
}
