//! Readers and writers that fail once, at a chosen call, and then continue.

use super::assert_same;
use std::fmt::Debug;
use std::io::{self, Error, ErrorKind, Read, Write};
use std::process::Abort;
use tk_replay::Fault;

/// More calls than a reader or a writer gets.
pub(super) const NEVER: u32 = 100_000_000;

/// An error that ends the work, and an error after which a call could be repeated.
pub(super) const FAULTS: [ErrorKind; 2] = [ErrorKind::Other, ErrorKind::Interrupted];

/// Returns ten bytes per read, and fails at one of its reads.
#[derive(Drop)]
pub(super) struct Reader<'a> {
    rest: &'a [u8],
    fault_at: u32,
    fault: ErrorKind,
    /// The number of reads.
    pub(super) reads: u32,
}

impl<'a> Reader<'a> {
    /// Returns a reader of the bytes that fails at this read, counted from 0.
    pub(super) fn new(bytes: &'a [u8], fault_at: u32, fault: ErrorKind) -> Reader<'a> {
        Reader {
            rest: bytes,
            fault_at,
            fault,
            reads: 0,
        }
    }
}

impl Read for Reader<'_> {
    fn read(&mut self, buf: &mut [u8]) -> io::Result<usize> {
        let read = self.reads;
        self.reads = read.saturating_add(1);
        if read == self.fault_at {
            return Err(Error::from(self.fault));
        }
        let room = buf.len().min(10);
        self.rest.read(&mut buf[..room])
    }
}

/// Returns line feeds without an end.
#[derive(Drop)]
pub(super) struct Endless {
    pub(super) given: usize,
}

impl Read for Endless {
    fn read(&mut self, buf: &mut [u8]) -> io::Result<usize> {
        buf.fill(b'\n');
        self.given = self.given.saturating_add(buf.len());
        Ok(buf.len())
    }
}

/// The behaviour of a writer at one of its writes.
#[derive(Clone, Copy, Debug, PartialEq, Eq)]
pub(super) enum Turn {
    Fails(ErrorKind),
    TakesNone,
}

/// Each turn after which nothing more is written.
pub(super) const TURNS: [Turn; 3] = [
    Turn::Fails(ErrorKind::Other),
    Turn::Fails(ErrorKind::Interrupted),
    Turn::TakesNone,
];

/// Takes a piece of the text at every write except one, at which it takes its turn.
#[derive(Drop)]
pub(super) struct Writer {
    piece: usize,
    turn_at: u32,
    turn: Turn,
    /// The error of the first flush, if there is one.
    pub(super) flush_fault: Option<ErrorKind>,
    taken: [u8; 128],
    pub(super) len: usize,
    /// The number of writes and flushes.
    pub(super) calls: u32,
}

impl Writer {
    /// Returns a writer of such pieces that takes its turn at this write, counted from 0.
    pub(super) fn new(piece: usize, turn_at: u32, turn: Turn) -> Writer {
        Writer {
            piece,
            turn_at,
            turn,
            flush_fault: None,
            taken: [0; 128],
            len: 0,
            calls: 0,
        }
    }

    /// Returns a writer that accepts every byte, in pieces of ten bytes.
    pub(super) fn willing() -> Writer {
        Writer::new(10, NEVER, Turn::TakesNone)
    }

    pub(super) fn text(&self) -> &[u8] {
        &self.taken[..self.len.min(128)]
    }
}

/// Stops the test unless a write or the flush failed after this text, as the last of the calls.
pub(super) fn assert_write_fault<T: PartialEq + Debug + Drop>(
    rt: &impl Abort,
    outcome: Result<T, Fault>,
    writer: &Writer,
    text: &[u8],
    calls: u32,
) {
    let written = text.len() as u64;
    assert_same(rt, &outcome, &Err(Fault::Write { written }));
    assert_taken(rt, writer, text, calls);
}

/// Stops the test if the writer contains another text, or counted another number of writes and
/// flushes.
pub(super) fn assert_taken(rt: &impl Abort, writer: &Writer, text: &[u8], calls: u32) {
    assert_same(rt, &writer.text(), &text);
    assert_same(rt, &writer.calls, &calls);
}

impl Write for Writer {
    fn write(&mut self, buf: &[u8]) -> io::Result<usize> {
        let call = self.calls;
        self.calls = call.saturating_add(1);
        if call == self.turn_at {
            return match self.turn {
                Turn::Fails(fault) => Err(Error::from(fault)),
                Turn::TakesNone => Ok(0),
            };
        }
        let piece = &buf[..buf.len().min(self.piece)];
        for byte in piece {
            if self.len < 128 {
                self.taken[self.len] = *byte;
                self.len += 1;
            }
        }
        Ok(piece.len())
    }

    fn flush(&mut self) -> io::Result<()> {
        self.calls = self.calls.saturating_add(1);
        match self.flush_fault.take() {
            None => Ok(()),
            Some(fault) => Err(Error::from(fault)),
        }
    }
}
