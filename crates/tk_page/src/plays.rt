//! The steps on the page's cell, by the rule of crossbeam_utils' sequence-counted cell.
ghost use Rattle.crossbeam_utils.specs.Seq.{checked, doing, idle, locked, looked, peeked};
ghost use Rattle.crossbeam_utils.specs.Seq.{published, released, wrote};
ghost use Rattle.tk_page.specs.Stored.{compared};

use crate::packing::Words;
use crate::view::View;
use atomic_table::{Join, Play, Split};
use crossbeam_utils::atomic::seq_cell::Doing;
use crossbeam_utils::rule::Outcome;
use std::marker::PhantomData;

/// The load of the version that begins a read.
pub(crate) struct Looks;

impl Play<Words, Doing<Words, View>> for Looks {
    ghost then = { looked };
}

/// The load of one of the words.
pub(crate) struct LoadsWord;

impl Play<Words, Doing<Words, View>> for LoadsWord {
    ghost then = { peeked (λ words. words) };
}

/// The load of the version that ends a read.
pub(crate) struct Checks<M> {
    outcome: PhantomData<M>,
}

impl<M: Outcome<Words, View>> Play<Words, Doing<Words, View>> for Checks<M> {
    ghost then = { checked (λ words. words) 8 M.then };
}

/// The exchange that makes the version odd.
pub(crate) struct Holds;

impl Play<Words, Doing<Words, View>> for Holds {
    ghost then = { locked (λ words. words) 8 };
}

/// The load of a word that is to be stored next. If it has its new value, it counts as stored.
pub(crate) struct Skips;

impl Play<Words, Doing<Words, View>> for Skips {
    ghost then = { compared };
}

/// The store of one of the words.
pub(crate) struct Puts;

impl Play<Words, Doing<Words, View>> for Puts {
    ghost then = { wrote };
}

/// The store of the version that ends a publication: readers see its words.
pub(crate) struct Shows<M> {
    outcome: PhantomData<M>,
}

impl<M: Outcome<Words, View>> Play<Words, Doing<Words, View>> for Shows<M> {
    ghost then = { published M.then };
}

/// The store of the version that ends a read which held the words.
pub(crate) struct Releases<M> {
    outcome: PhantomData<M>,
}

impl<M: Outcome<Words, View>> Play<Words, Doing<Words, View>> for Releases<M> {
    ghost then = { released M.then };
}

/// Divides the knowledge of a pass.
pub(crate) struct Cuts<M> {
    split: PhantomData<M>,
}

impl<M: Split<View>> Split<Doing<Words, View>> for Cuts<M> {
    ghost left = { λ d. doing d.stage (M.left d.client) };

    ghost right = { λ d. idle (M.right d.client) };
}

/// Adds the knowledge of one pass to another.
pub(crate) struct Glues<M> {
    join: PhantomData<M>,
}

impl<M: Join<View>> Join<Doing<Words, View>> for Glues<M> {
    ghost both = { λ d e. doing d.stage (M.both d.client e.client) };

    ghost spent = { idle M.spent };
}
