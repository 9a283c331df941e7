//! Laws about honest counters, in addition to the order of moments.
ghost use Rattle.tk_now.specs.Honest.{CountsAreInOrder};
ghost use Rattle.tk_now.specs.Life.{AnswersAreInLife};

/// Proves that with an honest counter an answer's true count is between the true counts of its
/// command and of the next one. No answer is below an answer that was over before its read began.
///
/// It does nothing when it runs.
pub fn counts_are_in_order()
    ensures { CountsAreInOrder }
{}

/// Proves that with an honest counter all listed readings are in the life of the snapshots at their
/// places. So MONOTONIC at them is at most MONOTONIC of the whole history at any reading. While the
/// clocks are awake, at least one command must be accepted in each half of the counter's range: the
/// true count grows by at most half the mask from one command to the next.
///
/// It does nothing when it runs.
pub fn answers_are_in_life()
    ensures { AnswersAreInLife }
{}
