//! The law of the time now.
ghost use Rattle.tk_shared.specs.NeverBack.{NowNeverFalls, OpenNowNeverFalls};

use tk_now::SharedCounter;

/// Proves that with an honest counter MONOTONIC never falls: a time that `now` or `now_fast`
/// returned before the first look of another call of either is at most that call's time,
/// whichever callers of one keeper made the two calls.
///
/// The keeper was closed since, and shows the readings of all callers in one list. Or it is open,
/// and some caller was informed of everything since (by `SharedKeeper::follow`, or by an accepted
/// command) and knows all that the two callers knew after their calls.
///
/// The counter's readings must be those of a true count of cycles (`IsHonest`). While the clocks
/// are awake, at most half the counter's range may pass from one accepted command to the next, and
/// from the last one to an answer.
///
/// It does nothing when it runs.
pub fn now_never_falls<S: SharedCounter>()
    ensures closed { NowNeverFalls S.answers }
    ensures open { OpenNowNeverFalls S.answers }
{}
