//! What a run counted of its feeds.
ghost use Rattle.std.specs.Prelude.{◌≡◌, length, IfOk};
ghost use Rattle.cube_core.specs.Layout.{cube_schema};
ghost use Rattle.cube_build.specs.Builder.{HasFacts};
ghost use Rattle.cube_build.specs.Counting.{AreFilledFrom, IsOverFinest, refusals_in};
ghost use Rattle.cube_ledger.specs.Ledger.{AllFit, all_facts};

use crate::builder::Builder;
use crate::joined::HoldsCube;
use crate::trace::LedgerTrace;
use cube_cells::{Counted, Cube, Numbers};
use cube_ledger::Ledger;
use std::alloc::{AllocError, Global};
use std::marker::Model;

/// What a run counted of its feeds: the refusals of each source, and the cube of a part, over the facts that survive.
///
/// Contracts see the books too. Where a feed needs no book, nothing in memory is left of it.
#[derive(Drop)]
pub struct Counts<N: Numbers = Counted> {
    refused: Ledger,
    cube: Cube<N>,
    trace: LedgerTrace,
}

impl<N: Numbers> Model for Counts<N> {
    ghost use Rattle.cube_build.specs.Builder.{BuilderView};
    ghost use Rattle.cube_build.specs.Counting.{AreCounts};

    ghost Value = { BuilderView };

    ghost view = { λ c. record { ledger = c.trace.ledger; cube = c.cube } };

    ghost invariant = { λ c. AreCounts c.refused c.trace.ledger c.cube };
}

impl HoldsCube for Counts {
    ghost lattice = { λ c. c.cube };

    fn held(&self) -> &Cube {
        &self.cube
    }
}

impl Counts {
    /// The counts of a builder, which has the books.
    pub(crate) fn of(builder: Builder) -> Counts
        ensures { result ≡ builder }
    {
        let trace = LedgerTrace::of(builder.ledger());
        let (ledger, cube) = builder.into_parts();
        Counts::new(ledger, cube, trace)
    }
}

impl<N: Numbers> Counts<N> {
    ghost use Rattle.cube_build.specs.Counting.{AreCounts};

    /// The counts of a ledger that clauses see, of which this has the refusals.
    pub(crate) fn new(refused: Ledger, cube: Cube<N>, trace: LedgerTrace) -> Counts<N>
        requires { AreCounts refused trace.ledger cube }
        ensures ledger { result.ledger ≡ trace.ledger }
        ensures cube { result.cube ≡ cube }
    {
        Counts {
            refused,
            cube,
            trace,
        }
    }

    /// The same counts over all grouping sets, whose cells are made of those over the finest one. The only error is that
    /// memory ran out.
    pub(crate) fn filled(self, alloc: Global) -> Result<Counts<N>, AllocError>
        requires { IsOverFinest self.cube }
        ensures { IfOk result (AreFilledFrom self) }
    {
        let mut cube = Cube::of_part(alloc, self.refused.schema(), 0, 1)?;
        cube.fill(self.cube)?;
        Ok(Counts::new(self.refused, cube, self.trace))
    }

    /// A ledger with the schema, the sources and the refusals, the cube, and the trace of the ledger.
    pub(crate) fn into_parts(self) -> (Ledger, Cube<N>, LedgerTrace)
        ensures cube { result.1 ≡ self.cube }
        ensures ledger { result.2.ledger ≡ self.ledger }
        ensures are { AreCounts result.0 result.2.ledger result.1 }
    {
        (self.refused, self.cube, self.trace)
    }

    /// How many facts were counted.
    pub fn facts(&self) -> u64
        ensures { result ≡ length (all_facts self.now.ledger.accounts) }
    {
        self.cube.facts()
    }

    /// The cube of the facts that were counted, under the schema of a cube of theirs.
    pub fn cube(&self) -> &Cube<N>
        ensures cube { result.now ≡ self.now.cube }
        ensures has { HasFacts self.now.ledger.schema (all_facts self.now.ledger.accounts) result.now }
        ensures fit { AllFit self.now.ledger.schema (all_facts self.now.ledger.accounts) }
        ensures schema { result.now.schema ≡ cube_schema self.now.ledger.schema }
    {
        &self.cube
    }

    /// A ledger with the schema, the sources and the refusals. Its books may have no fact.
    pub fn refused(&self) -> &Ledger
        ensures schema { result.now.schema ≡ self.now.ledger.schema }
        ensures refusals { refusals_in result.now ≡ refusals_in self.now.ledger }
    {
        &self.refused
    }
}
