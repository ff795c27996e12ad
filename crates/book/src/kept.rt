ghost use Rattle.std.specs.Prelude.{◌≡◌, [], IfOk};

use crate::ledgers::Ledger;
use std::alloc::{AllocError, Global};

// The empty pages of a book: the memory for all its trades, got once, so that no later call wants any.
#[derive(Drop)]
pub struct Pages {
    pub(crate) ledger: Ledger,
    ghost empty: { ledger.trades.items ≡ [] },
}

impl Pages {
    pub fn new(heap: Global) -> Result<Pages, AllocError>
        ensures { IfOk result (λ x. x.ledger.trades.items ≡ []) }
    {
        Ok(Pages {
            ledger: Ledger::new(heap)?,
        })
    }
}

// A trade book that lies on a sheet.
#[derive(Drop)]
pub struct Book<S> {
    pub(crate) below: S,
    pub(crate) ledger: Ledger,
}
