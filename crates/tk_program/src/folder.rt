//! Opens files by their names.
ghost use Rattle.std.specs.Prelude.{ℕ, List, Option};

use std::fs;
use std::rt::Files;
use tk_report::Source;

/// Opens files by their names. Every runtime that reaches the system's files implements it; any
/// other impl is for tests.
///
/// The program opens its files through this trait, so that its contract can say which file was read
/// or could not be opened. The contract is proved for every relation `open_gives`, so it can name
/// only an opening that was tried.
pub trait Folder {
    /// The type of an open file.
    type File: Source + Drop;

    // The possible results of opening: the folder, the file's name, and the open file, or none if
    // it could not be opened.
    ghost open_gives: { Self → List ℕ → Option Self.File → Type 0 };

    /// Opens the file with this name for reading. `None` means that it can't be opened.
    fn open_once(&self, name: &str) -> Option<Self::File>
        ensures { open_gives self.now name.now result };
}

impl<R: Files> Folder for R {
    type File = R::File;

    ghost open_gives = { λ _ _ _. Unit {0} };

    fn open_once(&self, name: &str) -> Option<R::File> {
        fs::open(self, name).ok()
    }
}
