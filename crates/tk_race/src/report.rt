use crate::action::RaceReply;
use tk_keeper::Timekeeper;

/// Contains the result of a race.
#[derive(Drop)]
pub struct RaceReport {
    /// The clocks, with the journal of all accepted orders.
    pub keeper: Timekeeper,
    /// The replies to the actions: one list per actor, in the order of its actions.
    pub replies: Vec<Vec<RaceReply>>,
}
