use std::alloc::AllocError;
use std::io;
use thiserror::Error;
use tk_clock::{ReadError, Refusal};
use tk_counter::DescError;
use tk_keeper::FrontError;
use tk_shared::OpenError;
use tk_shared_steered::SteeringFault;

/// States why the program stops early.
#[derive(Debug, Drop, Error)]
pub(crate) enum Stop {
    /// A refused command is printed, and doesn't stop the program.
    #[error("the clocks can't be opened")]
    Command(#[from] Refusal),
    #[error("the counter can't be described: {0}")]
    Counter(#[from] DescError),
    #[error("a clock can't be read at this reading")]
    Read(#[from] ReadError),
    #[error("a front has no snapshot: {0}")]
    Front(#[from] FrontError),
    #[error("the clocks can't be opened for threads: {0}")]
    Open(OpenError),
    #[error("a discipline stopped: {0}")]
    Steering(#[from] SteeringFault),
    #[error("a write failed: {0}")]
    Output(#[from] io::Error),
}

impl From<AllocError> for Stop {
    fn from(_error: AllocError) -> Stop {
        Stop::Open(OpenError::Memory)
    }
}
