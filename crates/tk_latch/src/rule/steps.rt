//! The steps of a latch, and the knowledge that a seat gains by them.
use super::View;
use atomic_table::{Join, Play, Split};

/// The sequence becomes odd.
pub struct Opens;

impl Play<(), View> for Opens {
    ghost use Rattle.tk_latch.specs.Steps.{opened};

    ghost then = { opened };
}

/// The writer loads a word of copy 0. The word counts as the next one of the publication being
/// made, unless `ReplacesWord` replaces it.
pub struct FindsWord;

impl Play<(), View> for FindsWord {
    ghost use Rattle.tk_latch.specs.Steps.{found_word};

    ghost then = { found_word };
}

/// A word of the publication being made replaces the word of copy 0 that was loaded.
pub struct ReplacesWord;

impl Play<(), View> for ReplacesWord {
    ghost use Rattle.tk_latch.specs.Steps.{replaced_word};

    ghost then = { replaced_word };
}

/// The sequence becomes even: the publication is made.
pub struct Commits;

impl Play<(), View> for Commits {
    ghost use Rattle.tk_latch.specs.Steps.{committed};

    ghost then = { committed };
}

/// The writer loads the next word of copy 1, and learns whether it is the latest publication's.
pub struct ChecksWord;

impl Play<(), View> for ChecksWord {
    ghost use Rattle.tk_latch.specs.Steps.{checked_word};

    ghost then = { checked_word };
}

/// A word of the latest publication goes into copy 1.
pub struct CopiesWord;

impl Play<(), View> for CopiesWord {
    ghost use Rattle.tk_latch.specs.Steps.{copied_word};

    ghost then = { copied_word };
}

/// A read begins: the reader loads the sequence.
pub struct Begins;

impl Play<(), View> for Begins {
    ghost use Rattle.tk_latch.specs.Steps.{began};

    ghost then = { began };
}

/// A reader loads a word of a copy.
pub struct Loads;

impl Play<(), View> for Loads {
    ghost use Rattle.tk_latch.specs.Steps.{loaded};

    ghost then = { loaded };
}

/// A read ends: the reader loads the sequence again.
pub struct Ends;

impl Play<(), View> for Ends {
    ghost use Rattle.tk_latch.specs.Steps.{ended};

    ghost then = { ended };
}

/// The writer loads the sequence, and learns that its note is a beginning of its history.
pub struct Compares;

impl Play<(), View> for Compares {
    ghost use Rattle.tk_latch.specs.Steps.{compared};

    ghost then = { compared };
}

/// The writer gives its knowledge to a new reader.
pub struct Hands;

impl Split<View> for Hands {
    ghost use Rattle.std.specs.Prelude.{[]};
    ghost use Rattle.tk_latch.specs.Views.{resting};

    ghost left = { λ view. view };

    ghost right = { λ view. resting view.history [] };
}

/// The writer takes in a reader's seat, and notes its publications.
pub struct KeepsNote;

impl Join<View> for KeepsNote {
    ghost use Rattle.tk_latch.specs.Views.{noting, spent};

    ghost both = { λ writer reader. noting writer.history reader.history };

    ghost spent = { spent };
}
