ghost use Rattle.std.specs.Prelude.{Some};
ghost use Rattle.tk_page.specs.PageError.{fault_text};

use std::fmt;
use thiserror::Error;

/// Says why a page can't be opened.
#[derive(Clone, Copy, Debug, PartialEq, Eq, Error)]
pub enum PageError {
    /// An allocation for the page failed.
    Memory,
}

impl fmt::Display for PageError {
    ghost output = { λ fault. Some (fault_text fault) };

    fn fmt<W: fmt::Write>(&self, f: &mut fmt::Formatter<W>) -> fmt::Result {
        f.write_str(match self {
            PageError::Memory => "no memory for the page",
        })
    }
}
