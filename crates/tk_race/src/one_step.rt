ghost use Rattle.std.specs.Prelude.{◌≡◌};

use std::cell::Cell;
use tk_now::{Look, SharedCounter, SharedTicker};

/// Reads a ticker for one request of a time. The first read adds a step, and the others add
/// nothing.
///
/// A request reads again as long as commands come between. So it moves the ticker by one step, no
/// matter how often it tries.
#[derive(Drop)]
pub(crate) struct OneStep<'c> {
    ticker: &'c SharedTicker,
    is_read: Cell<bool>,
}

impl<'c> OneStep<'c> {
    /// Returns a reader that has not read yet.
    pub(crate) fn of(ticker: &'c SharedTicker) -> OneStep<'c>
        ensures { result.ticker.now ≡ ticker.now }
    {
        OneStep {
            ticker,
            is_read: Cell::new(false),
        }
    }
}

impl<'c> SharedCounter for OneStep<'c> {
    ghost use Rattle.tk_now.specs.Ticker.{IsTick};

    ghost answers = { λ one _ answer. IsTick one.ticker.now answer };

    fn read(&self, look: &Look) -> u64 {
        if self.is_read.replace(true) {
            self.ticker.peek(look)
        } else {
            self.ticker.read(look)
        }
    }
}
