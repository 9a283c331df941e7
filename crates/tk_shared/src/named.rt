use std::marker::Brand;
use std::sync::ledger::Ledger;

/// Names one keeper: its page, its latch, its notices, and the ledger of its accepted commands.
///
/// All parts of the keeper, under the lock or outside it, are compared only with these names. So
/// the parts are known to belong together. The trait has no function, and no value of it exists.
pub trait Named: Ledger {
    ghost use Rattle.std.specs.Prelude.{ℕ};
    ghost use Rattle.atomic_table.specs.Seated.{TableId};
    ghost use Rattle.tk_latch.specs.Latch.{LatchId};
    ghost use Rattle.tk_shared.specs.Folds.{NoticeIds};

    /// The identity of the page.
    ghost page: { TableId };

    /// The identity of the latch.
    ghost latch: { LatchId };

    /// The identities of the notice of the commands and of the notice of the folds.
    ghost notice: { NoticeIds };

    /// The number of callers. Every caller has one part of the ledger.
    ghost callers: { ℕ };
}

impl Named for Brand {
    ghost use Rattle.tk_shared.specs.Opening.{no_page, no_latch, no_notices};

    ghost page = { no_page };

    ghost latch = { no_latch };

    ghost notice = { no_notices };

    ghost callers = { 0 };
}
