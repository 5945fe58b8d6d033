//! Ledgers take the items of feeds in.
use crate::ledger::Ledger;
use cube_feed::{FeedItem, TakesItems};
use std::alloc::AllocError;

impl TakesItems for Ledger {
    ghost use Rattle.std.specs.Prelude.{length, false};
    ghost use Rattle.cube_ledger.specs.Taking.{LedgerStandsFrom};

    ghost sources = { λ ledger. length ledger.accounts };

    ghost stands = { LedgerStandsFrom };

    ghost full = { λ ledger. false };

    fn sources(&self) -> u32 {
        self.sources()
    }

    fn is_full(&self) -> bool {
        false
    }

    fn take_item(&mut self, source: u32, item: FeedItem) -> Result<(), AllocError> {
        self.apply_fed(source, item)
    }
}
