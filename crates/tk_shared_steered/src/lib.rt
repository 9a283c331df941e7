//! Steers the clocks of a shared keeper by a discipline, which one caller owns.
//!
//! | Item | Its meaning |
//! |---|---|
//! | `SharedSteering` | a caller of the keeper with its discipline: lets seconds begin |
//! | `SteeringFault` | why a call stopped |
//! | `Unsteered` | why no discipline was opened, and the caller |
//!
//! Units: readings in cycles. The calls give commands by `SharedKeeper::command`, so they wait as
//! it does. No call allocates, except as `command` does when the prepared capacity is used up.
#![tactic(auto)]

mod fault;
mod giving;
mod shared_steering;

pub use fault::{SteeringFault, Unsteered};
pub use shared_steering::SharedSteering;
