//! Builders take the items of feeds in.
use crate::builder::Builder;
use cube_feed::{FeedItem, TakesItems};
use std::alloc::AllocError;

impl TakesItems for Builder {
    ghost use Rattle.std.specs.Prelude.{length, nat_lt, not, ◌-◌, ◌^◌};
    ghost use Rattle.cube_build.specs.Taking.{BuilderStandsFrom};

    ghost sources = { λ builder. length builder.ledger.accounts };

    ghost stands = { BuilderStandsFrom };

    ghost full = { λ builder. not (nat_lt builder.cube.facts (2 ^ 64 - 1)) };

    fn sources(&self) -> u32 {
        self.sources()
    }

    fn is_full(&self) -> bool {
        !(self.facts() < u64::MAX)
    }

    fn take_item(&mut self, source: u32, item: FeedItem) -> Result<(), AllocError> {
        self.apply(source, item.into_item())
    }
}
