//! What is left of feeds of which a question was asked.
ghost use Rattle.std.specs.Prelude.{◌≡◌, map};
ghost use Rattle.cube_tool.specs.Answering.{refusals_of_fed};

use crate::answers::refused_of;
use cube_build::{Built, Taken};
use cube_ledger::Ledger;

/// What the builders of feeds took.
#[derive(Drop)]
pub enum Fed {
    /// What one builder took, of which no cube was filled.
    Taken(Taken),
    /// What each builder counted, with the cube of its part.
    Built(Built),
}

impl Fed {
    /// A ledger with the schema, the sources and the refusals. Its books may have no fact.
    pub fn refused(&self) -> &Ledger
        ensures { map (λ account. account.refusals) result.now.accounts ≡ refusals_of_fed self.now }
    {
        match self {
            Fed::Taken(taken) => taken.refused(),
            Fed::Built(built) => refused_of(built),
        }
    }
}
