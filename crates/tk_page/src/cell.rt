//! The page's cell, and the calls on it.
ghost use Rattle.std.specs.Prelude.{◌≡◌, ℕ, ◌+◌, ◌<◌, ◌^◌, List, [], ◌∷◌, length, IfOk, MatchOption};
ghost use Rattle.std.specs.Option.{unwrap_or};
ghost use Rattle.crossbeam_utils.specs.Register.{Forks, Merges, Turns, TurnsAt};
ghost use Rattle.crossbeam_utils.specs.Seq.{Gathered, IsSamePass, Stays, cell_view};
ghost use Rattle.crossbeam_utils.specs.declared.atomic.seq_cell.Stage.TheVariants.{Writing};
ghost use Rattle.tk_page.specs.Views.{Kept};
ghost use Rattle.tk_page.specs.declared.view.View.TheVariants.{Fresh};

use crate::packing::{PAGE_WORDS, Words};
use crate::plays::{Checks, Cuts, Glues, Holds, LoadsWord, Looks, Puts, Releases, Shows, Skips};
use crate::rule::Law;
use crate::view::View;
use atomic_table::{Join, Split, Table};
use crossbeam_utils::Backoff;
use crossbeam_utils::atomic::seq_cell::{self, Doing, Versions};
use crossbeam_utils::rule::Outcome;
use std::alloc::{AllocError, Global};
use std::hint::spin_loop;
use std::sync::Wait;

/// The page's words and a version word, which is word 0.
#[derive(Drop)]
pub struct Cell {
    pub(crate) table: Table<Words, Doing<Words, View>, (), Versions<Law, PAGE_WORDS>, Global>,
    ghost wide: { table.shared.table_id.words ≡ 9 },
}

/// The access to the cell that a publisher or a viewer holds. It has no bytes.
pub type Pass = seq_cell::Pass<Words, View>;

/// The number of tries to read the words before a thread takes hold of them.
const TRIES: u32 = 1_000;

/// Makes a cell with these words, and its first pass.
pub(crate) fn made(alloc: Global, words: &Words) -> Result<(Cell, Pass), AllocError>
    requires { Kept words.now (Fresh ∷ []) }
    ensures { IfOk result (λ c.
        (c.1.table_id ≡ c.0.table.shared.table_id) × (cell_view c.1 ≡ Fresh)) }
{
    let mut all = Vec::new(alloc);
    all.push(0)?;
    all.extend_from_slice(words)?;
    let (table, pass) = Table::of_words(alloc, all.as_slice(), &())?;
    Ok((Cell { table }, pass))
}

/// Stores these words. Waits for the thread that holds the cell.
#[inline]
pub(crate) fn store<M: Outcome<Words, View>, R: Wait>(
    rt: &R,
    cell: &Cell,
    pass: &mut Pass,
    words: Words,
)
    requires cell { pass.old.table_id ≡ cell.now.table.shared.table_id }
    requires rule { Turns Kept pass.old.id (cell_view pass.old) (λ _. words) M.then }
    ensures cell { IsSamePass pass.old pass.new }
    ensures rule { (former : List ℕ)
        × M.then (cell_view pass.old) former words (cell_view pass.new) }
{
    let version = hold(rt, cell, pass, Some(words));
    put::<M>(cell, pass, version, words);
}

/// Returns the words. It tries again while a publication is in progress, and at last waits for the
/// thread that holds the cell.
#[inline(always)]
pub(crate) fn load<M: Outcome<Words, View>, R: Wait>(rt: &R, cell: &Cell, pass: &mut Pass) -> Words
    requires cell { pass.old.table_id ≡ cell.now.table.shared.table_id }
    requires rule { Turns Kept pass.old.id (cell_view pass.old) (λ words. words) M.then }
    ensures cell { IsSamePass pass.old pass.new }
    ensures rule { M.then (cell_view pass.old) result result (cell_view pass.new) }
{
    for _ in 0..TRIES {
        if let Some(words) = try_load::<M>(cell, pass) {
            return words;
        }
        spin_loop();
    }
    load_held::<M, R>(rt, cell, pass)
}

/// Returns the words, if no publication is in progress or made meanwhile.
#[inline(always)]
fn try_load<M: Outcome<Words, View>>(cell: &Cell, pass: &mut Pass) -> Option<Words>
    requires cell { pass.old.table_id ≡ cell.now.table.shared.table_id }
    requires rule { Turns Kept pass.old.id (cell_view pass.old) (λ words. words) M.then }
    ensures cell { IsSamePass pass.old pass.new }
    ensures rule { MatchOption result (cell_view pass.new ≡ cell_view pass.old)
        (λ words. M.then (cell_view pass.old) words words (cell_view pass.new)) }
{
    let version = cell.table.shared.load::<Looks>(pass, 0);
    if version % 2 != 0 {
        return None;
    }
    let words = gather(cell, pass);
    if cell.table.shared.load::<Checks<M>>(pass, 0) == version {
        Some(words)
    } else {
        None
    }
}

/// Returns the words, which it holds meanwhile, so that publications can't starve it.
fn load_held<M: Outcome<Words, View>, R: Wait>(rt: &R, cell: &Cell, pass: &mut Pass) -> Words
    requires cell { pass.old.table_id ≡ cell.now.table.shared.table_id }
    requires rule { Turns Kept pass.old.id (cell_view pass.old) (λ words. words) M.then }
    ensures cell { IsSamePass pass.old pass.new }
    ensures rule { M.then (cell_view pass.old) result result (cell_view pass.new) }
{
    let version = hold(rt, cell, pass, None);
    let words = gather(cell, pass);
    cell.table.shared.store::<Releases<M>>(pass, 0, version - 1);
    words
}

/// Loads the words.
#[inline(always)]
fn gather(cell: &Cell, pass: &mut Pass) -> Words
    requires { pass.old.table_id ≡ cell.now.table.shared.table_id }
    ensures { Stays pass.old pass.new
        × Gathered (λ x. x) 8 result pass.old.me.0.stage pass.new.me.0.stage }
{
    let mut words = [0u64; PAGE_WORDS];
    for i in 0..PAGE_WORDS {
        words[i] = cell.table.shared.load::<LoadsWord>(pass, i + 1);
    }
    words
}

/// Makes the version odd, and returns it. After 2^63 publications it waits for ever.
fn hold<R: Wait>(rt: &R, cell: &Cell, pass: &mut Pass, new: Option<Words>) -> u64
    requires { pass.old.table_id ≡ cell.now.table.shared.table_id }
    ensures same { Stays pass.old pass.new }
    ensures held { (former : List ℕ) × (length former ≡ 8)
        × (pass.new.me.0.stage ≡ Writing result former (unwrap_or new former) 0) }
    ensures odd { (0 < result) × (result + 1 < 2 ^ 64) }
{
    let backoff = Backoff::new();
    for _ in rt.forever() {
        let shared = &cell.table.shared;
        let version = shared.load::<Looks>(pass, 0);
        if version % 2 == 0 && version < u64::MAX - 1 {
            let odd = version + 1;
            let found = match &new {
                Some(words) => shared.compare_exchange_with::<Holds>(pass, 0, version, odd, words),
                None => shared.compare_exchange::<Holds>(pass, 0, version, odd),
            };
            if found == version {
                return odd;
            }
        }
        backoff.snooze();
    }
    unreachable!()
}

/// Stores the announced words that differ from those in the cell, and then an even version.
fn put<M: Outcome<Words, View>>(cell: &Cell, pass: &mut Pass, version: u64, new: Words)
    requires cell { pass.old.table_id ≡ cell.now.table.shared.table_id }
    requires held { (former : List ℕ) × (pass.old.me.0.stage ≡ Writing version former new 0)
        × TurnsAt Kept pass.old.id (cell_view pass.old) former new M.then }
    requires version { version + 1 < 2 ^ 64 }
    ensures cell { IsSamePass pass.old pass.new }
    ensures rule { (former : List ℕ)
        × M.then (cell_view pass.old) former new (cell_view pass.new) }
{
    for i in 0..PAGE_WORDS {
        if cell.table.shared.load::<Skips>(pass, i + 1) != new[i] {
            cell.table.shared.store::<Puts>(pass, i + 1, new[i]);
        }
    }
    cell.table.shared.store::<Shows<M>>(pass, 0, version + 1);
}

/// Divides the knowledge of a pass between it and a new pass.
#[inline]
pub(crate) fn split<M: Split<View>>(cell: &Cell, pass: &mut Pass) -> Pass
    requires cell { pass.old.table_id ≡ cell.now.table.shared.table_id }
    requires rule { Forks Kept pass.old.id (cell_view pass.old) (M.left (cell_view pass.old))
        (M.right (cell_view pass.old)) }
    ensures cell { IsSamePass pass.old pass.new }
    ensures kept { cell_view pass.new ≡ M.left (cell_view pass.old) }
    ensures given { cell_view result ≡ M.right (cell_view pass.old) }
    ensures fresh { (result.table_id ≡ pass.old.table_id) × (result.me.1 ≡ []) }
{
    cell.table.shared.split_seat::<Cuts<M>>(pass)
}

/// Adds the knowledge of a new pass to a pass.
#[inline]
pub(crate) fn join<M: Join<View>>(cell: &Cell, pass: &mut Pass, other: Pass)
    requires cell { pass.old.table_id ≡ cell.now.table.shared.table_id }
    requires fresh { (other.table_id ≡ pass.old.table_id) × (other.me.1 ≡ []) }
    requires rule { Merges Kept pass.old.id (cell_view pass.old) other.id (cell_view other)
        (M.both (cell_view pass.old) (cell_view other)) M.spent }
    ensures cell { IsSamePass pass.old pass.new }
    ensures both { cell_view pass.new ≡ M.both (cell_view pass.old) (cell_view other) }
{
    cell.table.shared.join_seat::<Glues<M>>(pass, other);
}
