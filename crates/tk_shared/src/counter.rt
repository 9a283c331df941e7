use tk_now::Look;

/// Returns the readings of a keeper, in cycles.
///
/// The keeper reads it once when it is opened and once in every command, under the lock. Bits above
/// the keeper's counter's bits are dropped.
pub trait Counter: Send + Drop {
    ghost use Rattle.std.specs.Prelude.{ℕ};
    ghost use Rattle.tk_now.specs.Views.{moment_of};

    // The possible next readings of the counter.
    ghost answers: { Self → ℕ → Type 0 };

    // The possible readings after an announcement at this moment.
    ghost answers_after: { Self → ℕ → ℕ → Type 0 };

    /// Returns the next reading, for an opening.
    fn read(&mut self) -> u64
        ensures given { answers self.old result };

    /// Returns the next reading, which is taken after `look`, the announcement of a command. The
    /// lock is held while this runs.
    fn read_after(&mut self, look: &Look) -> u64
        ensures given { answers_after self.old (moment_of look.now) result };
}

/// Counts in even steps: a reading is the reading before it plus a fixed step, modulo 2^64.
#[derive(Debug, Drop)]
pub struct Ticker {
    next: u64,
    step: u64,
}

impl Ticker {
    ghost use Rattle.std.specs.Prelude.{◌≡◌};

    /// Returns a counter whose first reading is `start` and which adds `step` cycles at every read.
    pub fn new(start: u64, step: u64) -> Ticker
        ensures start { result.next ≡ start }
        ensures step { result.step ≡ step }
    {
        Ticker { next: start, step }
    }
}

impl Counter for Ticker {
    ghost use Rattle.std.specs.Prelude.{◌≡◌, ◌+◌, ◌%◌, ◌^◌};

    ghost answers = { λ ticker answer. answer ≡ ticker.next };

    ghost answers_after = { λ ticker _ answer. answer ≡ ticker.next };

    fn read(&mut self) -> u64
        ensures answer { result ≡ self.old.next }
        ensures next { self.new.next ≡ (self.old.next + self.old.step) % 2 ^ 64 }
        ensures step { self.new.step ≡ self.old.step }
    {
        let now = self.next;
        self.next = now.wrapping_add(self.step);
        now
    }

    fn read_after(&mut self, _look: &Look) -> u64
        ensures answer { result ≡ self.old.next }
        ensures next { self.new.next ≡ (self.old.next + self.old.step) % 2 ^ 64 }
        ensures step { self.new.step ≡ self.old.step }
    {
        self.read()
    }
}
