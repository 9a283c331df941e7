//! Prepares the parts of a shared keeper, before any type names it.
ghost use Rattle.std.specs.Prelude.{◌≡◌, ◌≢◌, ◌≤◌, [], length, min, MatchResult, IfOk, None};
ghost use Rattle.tk_clock.specs.Legal.{IsWhole};
ghost use Rattle.tk_clock.specs.Limits.{listed_most};
ghost use Rattle.tk_shared.specs.Opening.{IsOpened, IsOpenFault, IsReady, opening_fault, most_callers, start_of};
ghost use Rattle.tk_shared.specs.Readings.{IsReading};

use crate::command_writer::CommandWriter;
use crate::counter::Counter;
use crate::fault::{OpenError, OpenFault};
use crate::folds::FoldWriter;
use crate::parts::{Parts, Shared, Writers};
use crate::snapshot_writer::SnapshotWriter;
use std::alloc::{AllocError, Global};
use std::marker::Model;
use std::sync::Wait;
use std::sync::ledger::Blank;
use tk_clock::{Clock, Timespec};
use tk_counter::CounterDesc;
use tk_keeper::Timekeeper;
use tk_latch::{Latch, READERS_LIMIT};
use tk_now::Notice;
use tk_page::Page;

/// The greatest number of callers of a keeper. Every caller has a reader of the latch.
pub const CALLERS_LIMIT: usize = READERS_LIMIT;

/// Contains the parts for `SharedKeeper::open`.
///
/// Contracts see it as its names, the number of callers, the journal without entries, and its
/// capacity in commands.
#[derive(Drop)]
pub struct Prepared<C: Counter> {
    pub(crate) parts: Parts,
    pub(crate) counter: C,
    /// The greatest reading of the counter.
    pub(crate) mask: u64,
    pub(crate) blank: Blank,
}

impl<C: Counter> Model for Prepared<C> {
    ghost use Rattle.std.specs.Prelude.{◌≡◌, length};
    ghost use Rattle.tk_counter.specs.Counter.{mask as greatest_reading};
    ghost use Rattle.tk_clock.specs.Legal.{Opened};
    ghost use Rattle.tk_shared.specs.Opening.{Start, IsReady, start_of};

    ghost Value = { Start };

    ghost view = { λ p. start_of p.parts p.blank.name (length p.parts.readers.items) };

    ghost invariant = { λ p.
        IsReady (start_of p.parts p.blank.name (length p.parts.readers.items)) p.parts
        × (p.mask ≡ greatest_reading p.parts.keeper.journal.opening.counter)
        × (p.blank.parts ≡ length p.parts.readers.items)
        × (p.parts.keeper.began ≡ Opened) };
}

/// Prepares a keeper with `callers` callers and this counter, which it reads once. The clocks open
/// at that reading, masked, with MONOTONIC 0 and REALTIME `real`.
///
/// It reserves capacity for `room` commands, at most for the 1,048,576 that a journal lists. By its
/// contract it may wait, but no other thread has the page yet.
///
/// # Errors
///
/// Returns an `OpenFault`, which contains the counter and the first error that applies:
///
/// - `Count` if `callers` is below 1 or above 64. The counter is unread.
/// - `Invalid` if REALTIME may not be set to `real`. The counter is unread.
/// - `Memory` if an allocation fails. The counter was read once.
pub fn prepare<C: Counter, R: Wait>(
    alloc: Global,
    rt: &R,
    desc: CounterDesc,
    real: Timespec,
    counter: C,
    callers: usize,
    room: usize,
) -> Result<Prepared<C>, OpenFault<C>>
    ensures answer { MatchResult result
        (λ prepared. (opening_fault callers real ≡ None) × (prepared.callers ≡ callers)
        × IsOpened desc real prepared.journal × (min room listed_most ≤ prepared.spare))
        (λ fault. IsOpenFault callers real fault.error
        × (fault.error ≢ OpenError.Memory → fault.counter ≡ counter)) }
    ensures reading { IfOk result (λ prepared.
        IsReading C.answers counter desc prepared.journal.opening.reading) }
{
    if callers < 1 || callers > CALLERS_LIMIT {
        return Err(OpenFault::new(OpenError::Count, counter));
    }
    // Reading 0 is never above the mask, so this tests only `real`, before the counter is read.
    if Clock::open(desc, 0, real).is_err() {
        return Err(OpenFault::new(OpenError::Invalid, counter));
    }
    let mut counter = counter;
    let mask = desc.mask();
    let reading = counter.read() & mask;
    let keeper = Timekeeper::open(alloc, desc, reading, real).unwrap();
    let Ok(parts) = assemble(alloc, rt, keeper, callers, room) else {
        return Err(OpenFault::new(OpenError::Memory, counter));
    };
    let blank = Blank::new(callers as u64);
    Ok(Prepared {
        parts,
        counter,
        mask,
        blank,
    })
}

/// Makes a page, a latch and two notices for a keeper whose clocks were just opened, and reserves
/// capacity for `room` commands.
fn assemble<R: Wait>(
    alloc: Global,
    rt: &R,
    keeper: Timekeeper,
    callers: usize,
    room: usize,
) -> Result<Parts, AllocError>
    requires callers { (1 ≤ callers) × (callers ≤ most_callers) }
    requires whole { IsWhole keeper.journal }
    requires empty { keeper.journal.entries ≡ [] }
    ensures { IfOk result (λ parts. (parts.keeper.journal ≡ keeper.journal)
        × (min room listed_most ≤ parts.keeper.spare)
        × IsReady (start_of parts 0 callers) parts
        × (parts.keeper.began ≡ keeper.began)) }
{
    let mut keeper = keeper;
    if keeper.reserve(room).is_err() {
        return Err(AllocError);
    }
    let snapshot = keeper.snapshot();
    let Ok((page, publisher, viewer)) = Page::open(alloc, rt, snapshot) else {
        return Err(AllocError);
    };
    let Ok((latch, latch_writer, readers)) = Latch::open(alloc, snapshot, callers) else {
        return Err(AllocError);
    };
    let (notice, notice_writer) = Notice::open(alloc, snapshot.last())?;
    let (folds, fold_writer) = FoldWriter::open(alloc)?;
    let shared = Shared {
        page,
        latch,
        notice,
        folds,
    };
    let writers = Writers {
        page: publisher,
        latch: SnapshotWriter::new(latch_writer),
        notice: CommandWriter::new(notice_writer),
        folds: fold_writer,
    };
    Ok(Parts {
        keeper,
        shared,
        writers,
        viewer,
        readers,
    })
}
