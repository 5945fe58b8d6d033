//! The books of all sources, and the cube of the facts in them.
ghost use Rattle.std.specs.Prelude.{ℕ, ◌≡◌, ◌≤◌, ◌<◌, ◌+◌, ◌^◌, ◌++◌, ◌∷◌, [], None, Option, Some, false, true, length, IfOk, OnOk, OnErr};
ghost use Rattle.cube_core.specs.Arrival.{Arrivals};
ghost use Rattle.cube_core.specs.GroupingSet.{sets_of_part};
ghost use Rattle.cube_core.specs.Layout.{cube_schema};
ghost use Rattle.cube_core.specs.Takes.{fits};
ghost use Rattle.cube_core.specs.declared.fact.Fact.{Fact as TheFact};
ghost use Rattle.cube_cells.specs.Cube.{SameSets};
ghost use Rattle.cube_build.specs.Builder.{CountsFacts, HasFacts, IsBuilder, SameBuilder, StandsAt};
ghost use Rattle.cube_ledger.specs.Ledger.{AllFit, AtSource, Enters, Exchanges, IsRemoval, account_of, all_facts, code_in};

use crate::fill::counted_for;
use crate::joined::HoldsCube;
use cube_cells::{CountedCube, Cube};
use cube_core::{Fact, Item, Refusal, Schema, Text};
use cube_ledger::{Ledger, Ruling};
use std::alloc::{AllocError, Global};
use std::marker::Model;
use std::thread::Threads;

/// What 1 to 64 sources have sent so far: the books and the refusals of each, and the cube of the facts in all books.
///
/// It always stands at the arrival list that it was given (this project's choice). How the numbers of the cube's cells are
/// kept is the parameter's: where each is kept, the builder takes items.
#[derive(Drop)]
pub struct Builder {
    ledger: Ledger,
    cube: CountedCube,
}

impl Model for Builder {
    ghost use Rattle.cube_build.specs.Builder.{BuilderView, IsBuilder};

    ghost Value = { BuilderView };

    ghost view = { λ b. record { ledger = b.ledger; cube = b.cube.cube } };

    ghost invariant = { λ b. IsBuilder b.ledger b.cube };
}

impl HoldsCube for Builder {
    ghost lattice = { λ b. b.cube };

    fn held(&self) -> &Cube {
        self.cube.cube()
    }
}

impl Builder {
    /// A builder of 1 to 64 sources of which no item came, over all grouping sets of the schema. The only error is
    /// that memory ran out.
    pub fn new(alloc: Global, schema: &Schema, sources: u32) -> Result<Builder, AllocError>
        requires { sources ≤ 64 }
        ensures schema { IfOk result (λ builder. builder.ledger.schema ≡ schema.now) }
        ensures sources { IfOk result (λ builder. length builder.ledger.accounts ≡ sources) }
        ensures sets { IfOk result (λ builder. builder.cube.sets ≡ schema.now.grouping_sets) }
        ensures stands { IfOk result (λ builder. StandsAt builder []) }
    {
        Builder::new_part(alloc, schema, sources, 0, 1)
    }

    /// The same over the grouping sets of a part of the schema's alone, as [`Cube::new_part`] has them.
    pub fn new_part(
        alloc: Global,
        schema: &Schema,
        sources: u32,
        part: u32,
        of: u32,
    ) -> Result<Builder, AllocError>
        requires sources { sources ≤ 64 }
        requires parts { of ≤ 8 }
        requires part { part < of }
        ensures schema { IfOk result (λ builder. builder.ledger.schema ≡ schema.now) }
        ensures sources { IfOk result (λ builder. length builder.ledger.accounts ≡ sources) }
        ensures sets { IfOk result (λ builder.
            builder.cube.sets ≡ sets_of_part part of schema.now.grouping_sets) }
        ensures stands { IfOk result (λ builder. StandsAt builder []) }
    {
        let ledger = Ledger::new(alloc, schema, sources)?;
        let cube = Cube::new_part(alloc, schema, part, of)?;
        let cube = counted_for(alloc, schema, cube);
        Ok(Builder { ledger, cube })
    }

    /// The builder of a ledger, whose cube is filled with the facts of all its books; `cube` has no fact yet. The
    /// only error is that memory ran out, or of numbers to count the facts with.
    pub fn of(alloc: Global, ledger: Ledger, cube: Cube) -> Result<Builder, AllocError>
        requires schema { cube.schema ≡ cube_schema ledger.schema }
        requires empty { CountsFacts [] cube }
        ensures ledger { IfOk result (λ builder. builder.ledger ≡ ledger) }
        ensures same { IfOk result (λ builder. SameSets cube builder.cube) }
        ensures has { IfOk result (λ builder.
            HasFacts ledger.schema (all_facts ledger.accounts) builder.cube) }
    {
        let mut cube = counted_for(alloc, ledger.schema(), cube);
        let facts = ledger.facts()?;
        cube.fill(&facts)?;
        drop(facts);
        Ok(Builder { ledger, cube })
    }

    /// Takes an item of a source: a refused one is noted with its code and changes no cell, and any other changes the
    /// book of the source and the cells.
    ///
    /// The only error is that memory ran out; then books and refusals are as they were, the cells count what they counted,
    /// and the item is given up. A delete that isn't refused never answers it.
    pub fn apply(&mut self, source: u32, item: Item) -> Result<(), AllocError>
        requires first { 1 ≤ source }
        requires last { source ≤ length self.old.ledger.accounts }
        requires room { self.old.cube.facts + 1 < 2 ^ 64 }
        ensures enters { OnOk result
            (AtSource (Enters self.old.ledger.schema item) source self.old.ledger self.new.ledger) }
        ensures stands { OnOk result ((arrivals : Arrivals) → StandsAt self.old arrivals →
            StandsAt self.new (arrivals ++ (source, item) ∷ [])) }
        ensures sources { OnOk result
            (length self.new.ledger.accounts ≡ length self.old.ledger.accounts) }
        ensures same { OnOk result (SameSets self.old.cube self.new.cube) }
        ensures refused { (code : ℕ) → code_in self.old.ledger.schema
            (account_of self.old.ledger source).book item.what ≡ Some code → self.new.cube ≡ self.old.cube }
        ensures err { OnErr result (SameBuilder self.old self.new) }
        ensures removal { OnErr result (IsRemoval self.old.ledger.schema
            (account_of self.old.ledger source).book item.what → ⊥) }
    {
        let Item { number, what } = item;
        match self.ledger.rule(source, what)? {
            Ruling::Refuse { code } => self.ledger.refuse(source, number, code),
            Ruling::Put { id, fact } => self.put(source, id, fact),
            Ruling::Take { id } => {
                self.take(source, &id);
                Ok(())
            }
        }
    }

    // Puts a fact under an id of a source, in place of the one that is there.
    fn put(&mut self, source: u32, id: Text, fact: Fact) -> Result<(), AllocError>
        requires first { 1 ≤ source }
        requires last { source ≤ length self.old.ledger.accounts }
        requires fits { fits self.old.ledger.schema fact ≡ true }
        requires room { self.old.cube.facts + 1 < 2 ^ 64 }
        ensures put { OnOk result ((gone : Option TheFact) ×
            AtSource (Exchanges id gone (Some fact)) source self.old.ledger self.new.ledger) }
        ensures same { OnOk result (SameSets self.old.cube self.new.cube) }
        ensures has { OnOk result
            (HasFacts self.new.ledger.schema (all_facts self.new.ledger.accounts) self.new.cube) }
        ensures err { OnErr result (SameBuilder self.old self.new) }
    {
        self.cube.add(&fact)?;
        match self.ledger.put(source, id, fact) {
            Ok(Some(gone)) => {
                self.cube.remove(&gone);
                drop(gone);
                Ok(())
            }
            Ok(None) => Ok(()),
            Err(fact) => {
                self.cube.remove(&fact);
                drop(fact);
                Err(AllocError)
            }
        }
    }

    // Takes the fact under an id of a source out, if there is one.
    fn take(&mut self, source: u32, id: &Text)
        requires first { 1 ≤ source }
        requires last { source ≤ length self.old.ledger.accounts }
        ensures take { (gone : Option TheFact) ×
            AtSource (Exchanges id.now gone None) source self.old.ledger self.new.ledger }
        ensures same { SameSets self.old.cube self.new.cube }
        ensures has { HasFacts self.new.ledger.schema (all_facts self.new.ledger.accounts) self.new.cube }
    {
        match self.ledger.take(source, id) {
            Some(taken) => {
                self.cube.remove(&taken);
                drop(taken);
            }
            None => {}
        }
    }
}

impl Builder {
    /// The builder of a ledger as [`Builder::of`] makes it, with the cells over the finest grouping set made by as many
    /// threads as this says. With one thread, or none, no thread is started.
    pub fn of_with<T: Threads + Sync>(
        rt: &T,
        alloc: Global,
        threads: usize,
        ledger: Ledger,
        cube: Cube,
    ) -> Result<Builder, AllocError>
        requires schema { cube.schema ≡ cube_schema ledger.schema }
        requires empty { CountsFacts [] cube }
        ensures ledger { IfOk result (λ builder. builder.ledger ≡ ledger) }
        ensures same { IfOk result (λ builder. SameSets cube builder.cube) }
        ensures has { IfOk result (λ builder.
            HasFacts ledger.schema (all_facts ledger.accounts) builder.cube) }
    {
        let mut cube = counted_for(alloc, ledger.schema(), cube);
        let facts = ledger.facts()?;
        cube.fill_with(rt, threads, &facts)?;
        drop(facts);
        Ok(Builder { ledger, cube })
    }

    /// The ledger and the cube.
    pub(crate) fn into_parts(self) -> (Ledger, Cube)
        ensures ledger { result.0 ≡ self.ledger }
        ensures cube { result.1 ≡ self.cube }
        ensures schema { self.cube.schema ≡ cube_schema self.ledger.schema }
        ensures has { HasFacts self.ledger.schema (all_facts self.ledger.accounts) self.cube }
    {
        let (_, cube) = self.cube.into_parts();
        (self.ledger, cube)
    }
}

impl Builder {
    /// How many sources there are, numbered from 1.
    pub fn sources(&self) -> u32
        ensures { result ≡ length self.now.ledger.accounts }
    {
        self.ledger.sources()
    }

    /// How many facts are present in the books of all sources.
    pub fn facts(&self) -> u64
        ensures books { result ≡ length (all_facts self.now.ledger.accounts) }
        ensures cube { result ≡ self.now.cube.facts }
    {
        self.cube.cube().facts()
    }

    /// Whether a refused growth has spoilt the builder: never.
    pub fn is_spent(&self) -> bool
        ensures { result ≡ false }
    {
        self.cube.cube().is_spent()
    }

    /// The cube of the facts that are present in the books of all sources.
    pub fn cube(&self) -> &Cube
        ensures cube { result.now ≡ self.now.cube }
        ensures has { HasFacts self.now.ledger.schema (all_facts self.now.ledger.accounts) result.now }
        ensures fit { AllFit self.now.ledger.schema (all_facts self.now.ledger.accounts) }
        ensures schema { result.now.schema ≡ cube_schema self.now.ledger.schema }
    {
        self.cube.cube()
    }

    /// The books and the refusals of all sources.
    pub fn ledger(&self) -> &Ledger
        ensures { result.now ≡ self.now.ledger }
    {
        &self.ledger
    }

    /// The refusals of a source, numbered from 1, in the order of its items.
    pub fn refusals(&self, source: u32) -> &[Refusal]
        requires first { 1 ≤ source }
        requires last { source ≤ length self.now.ledger.accounts }
        ensures { result.now ≡ (account_of self.now.ledger source).refusals }
    {
        self.ledger.refusals(source)
    }
}
