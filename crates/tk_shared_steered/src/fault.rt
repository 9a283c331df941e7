ghost use Rattle.std.specs.Prelude.{Some};
ghost use Rattle.tk_shared_steered.specs.Errors.{fault_text};

use std::fmt;
use thiserror::Error;
use tk_clock::Refusal;
use tk_shared::{Caller, Named};

/// Says why a call of a discipline over shared clocks stopped.
#[derive(Clone, Copy, Debug, PartialEq, Eq, Error)]
pub enum SteeringFault {
    /// The keeper refused a command, or the discipline can't be opened for this reason.
    Refused(#[source] Refusal),
    /// Another caller's command was accepted, so the discipline doesn't know the clocks any more.
    Foreign,
}

impl fmt::Display for SteeringFault {
    ghost output = { λ fault. Some (fault_text fault) };

    fn fmt<W: fmt::Write>(&self, f: &mut fmt::Formatter<W>) -> fmt::Result {
        f.write_str(match self {
            SteeringFault::Refused(_) => "a command of the discipline is refused",
            SteeringFault::Foreign => "another caller gave a command",
        })
    }
}

/// Contains the reason why no discipline was opened, and the caller.
#[derive(Drop)]
pub struct Unsteered<L: Named> {
    /// The reason.
    pub fault: SteeringFault,
    /// The caller that was passed to `SharedSteering::open`.
    pub caller: Caller<L>,
}
