//! The steps of a notice, and the knowledge that a seat gains by them.
use super::View;
use atomic_table::{Join, Play, Split};
use std::marker::{Brand, PhantomData};

/// Names the reading that a step lists.
pub trait NamesReading {
    ghost use Rattle.std.specs.Prelude.{ℕ};

    ghost reading: { ℕ };
}

impl NamesReading for Brand {
    ghost reading = { 0 };
}

/// The writer announces a command: the word becomes odd.
pub struct Announces;

impl Play<(), View> for Announces {
    ghost use Rattle.tk_now.specs.Steps.{announced};

    ghost then = { announced };
}

/// The command was accepted: the word becomes even, and counts it.
pub struct Accepts<R> {
    reading: PhantomData<R>,
}

impl<R: NamesReading> Play<(), View> for Accepts<R> {
    ghost use Rattle.tk_now.specs.Steps.{accepted};

    ghost then = { accepted R.reading };
}

/// The command was refused: the word gets its value from before the announcement.
pub struct Withdraws;

impl Play<(), View> for Withdraws {
    ghost use Rattle.tk_now.specs.Steps.{withdrawn};

    ghost then = { withdrawn };
}

/// The first load of the word by a reader.
pub struct Begins;

impl Play<(), View> for Begins {
    ghost use Rattle.tk_now.specs.Steps.{began};

    ghost then = { began };
}

/// The second load of the word by a reader. If it is the same and even, the reading that was taken
/// in between is listed.
pub struct Ends<R> {
    reading: PhantomData<R>,
}

impl<R: NamesReading> Play<(), View> for Ends<R> {
    ghost use Rattle.tk_now.specs.Steps.{ended};

    ghost then = { ended R.reading };
}

/// The writer gives its knowledge of the commands to a new reader.
pub struct Hands;

impl Split<View> for Hands {
    ghost use Rattle.std.specs.Prelude.{[]};
    ghost use Rattle.tk_now.specs.Views.{view_of};
    ghost use Rattle.tk_now.specs.declared.rule.Role.TheVariants.{Resting};

    ghost left = { λ view. view };

    ghost right = { λ view. view_of view.commands [] (Resting []) };
}

/// The writer takes in a reader's seat, and notes its knowledge.
pub struct KeepsNote;

impl Join<View> for KeepsNote {
    ghost use Rattle.tk_now.specs.Views.{noting, spent};

    ghost both = { noting };

    ghost spent = { spent };
}

/// The writer loads the word, and learns the relation of its note to the commands.
pub struct Compares;

impl Play<(), View> for Compares {
    ghost use Rattle.tk_now.specs.Steps.{compared};

    ghost then = { compared };
}

/// The writer loads the word, compares its note with the commands and answers, and then notes
/// all of them.
pub struct Recounts;

impl Play<(), View> for Recounts {
    ghost use Rattle.tk_now.specs.Steps.{recounted};

    ghost then = { recounted };
}

/// The writer gives its note to a reader.
pub struct Returns;

impl Split<View> for Returns {
    ghost use Rattle.std.specs.Prelude.{[]};
    ghost use Rattle.tk_now.specs.Views.{noted_log, view_of};
    ghost use Rattle.tk_now.specs.declared.rule.Role.TheVariants.{Idle, Resting};

    ghost left = { λ view. view_of view.commands view.log Idle };

    ghost right = { λ view. view_of view.commands (noted_log view.role) (Resting []) };
}
