ghost use Rattle.std.specs.Prelude.{Some};
ghost use Rattle.tk_counter.specs.DescError.{fault_text};

use std::fmt;
use thiserror::Error;

/// Says why numbers describe no counter. If several of these apply, the first in this order is the
/// error.
#[derive(Clone, Copy, Debug, PartialEq, Eq, Error)]
pub enum DescError {
    /// A reading would have fewer than 8 bits, or more than 64.
    Bits,
    /// The shift is above 32.
    Shift,
    /// The mult is below 256.
    Mult,
    /// The mult plus 11 percent doesn't fit in 32 bits.
    Adjust,
    /// The frequency is 0 Hz, or the span is not 1 to 600 seconds.
    Rate,
}

impl fmt::Display for DescError {
    ghost output = { λ fault. Some (fault_text fault) };

    fn fmt<W: fmt::Write>(&self, f: &mut fmt::Formatter<W>) -> fmt::Result {
        f.write_str(match self {
            DescError::Bits => "a reading does not have 8 to 64 bits",
            DescError::Shift => "the shift is above 32",
            DescError::Mult => "the mult is below 256",
            DescError::Adjust => "the mult and 11 percent of it do not fit 32 bits",
            DescError::Rate => "the frequency is 0 Hz or the span is not 1 to 600 seconds",
        })
    }
}
