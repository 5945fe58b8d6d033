//! What all sources are fed to before a builder is made of it.
ghost use Rattle.std.specs.Prelude.{◌≡◌, ◌≤◌, ◌<◌, ◌++◌, ◌∷◌, [], flat_map, length, sum_by, IfOk, OnOk, OnErr};
ghost use Rattle.std.specs.List.{All};
ghost use Rattle.cube_core.specs.Arrival.{Arrivals};
ghost use Rattle.cube_build.specs.Counting.{AreFinestCounts, AreRefusedOf};
ghost use Rattle.cube_build.specs.Drafts.{DraftView, StandsFrom, IsNewDraft, AreNewDrafts, IsDraftOf, IsMadeOf};
ghost use Rattle.cube_build.specs.Interest.{draft_of_interest};
ghost use Rattle.cube_build.specs.Parted.{IsPartOver};

use crate::builder::Builder;
use crate::counts::Counts;
use crate::fill::finest_with;
use crate::trace::LedgerTrace;
use cube_cells::{Counted, Cube, Numbers};
use cube_core::{Condition, Schema};
use cube_feed::{FeedItem, TakesItems};
use cube_ledger::Ledger;
use std::alloc::{AllocError, Global};
use std::marker::Model;
use std::thread::Threads;

/// A ledger, and the cube that is filled with the facts of its books when all feeds have ended.
#[derive(Drop)]
pub(crate) struct Draft<N: Numbers> {
    alloc: Global,
    ledger: Ledger,
    cube: Cube<N>,
}

impl<N: Numbers> Model for Draft<N> {
    ghost use Rattle.cube_build.specs.Counting.{AreFinestCounts};
    ghost use Rattle.cube_build.specs.Drafts.{DraftView, IsDraft};

    ghost Value = { DraftView };

    ghost view = { λ d. record { ledger = d.ledger; cube = d.cube } };

    ghost invariant = { λ d. IsDraft d.ledger d.cube };
}

impl<N: Numbers> TakesItems for Draft<N> {
    ghost use Rattle.std.specs.Prelude.{length, false};
    ghost use Rattle.cube_build.specs.Drafts.{StandsFrom};

    ghost sources = { λ draft. length draft.ledger.accounts };

    ghost stands = { StandsFrom };

    ghost full = { λ draft. false };

    fn sources(&self) -> u32 {
        self.ledger.sources()
    }

    fn is_full(&self) -> bool {
        false
    }

    fn take_item(&mut self, source: u32, item: FeedItem) -> Result<(), AllocError> {
        self.apply(source, item)
    }
}

impl<N: Numbers> Draft<N> {
    // The draft of a part of so many.
    fn new_part(
        alloc: Global,
        schema: &Schema,
        sources: u32,
        part: u32,
        parts: u32,
    ) -> Result<Draft<N>, AllocError>
        requires sources { sources ≤ 64 }
        requires parts { parts ≤ 8 }
        requires part { part < parts }
        ensures { IfOk result (IsNewDraft schema.now sources parts part) }
    {
        let ledger = Ledger::new(alloc, schema, sources)?;
        let cube = Cube::of_part(alloc, schema, part, parts)?;
        Ok(Draft {
            alloc,
            ledger,
            cube,
        })
    }

    /// The draft over all grouping sets of the ledgers of shares, with their accounts in their order. The only error is
    /// that memory ran out.
    pub fn of_shares(
        alloc: Global,
        schema: &Schema,
        ledgers: Vec<Ledger>,
    ) -> Result<Draft<N>, AllocError>
        requires schema { All (λ ledger. ledger.schema ≡ schema.now) ledgers.items }
        requires most { sum_by (λ ledger. length ledger.accounts) ledgers.items ≤ 64 }
        ensures { IfOk result (IsDraftOf schema.now ledgers.items) }
    {
        let ledger = put_together(alloc, schema, ledgers)?;
        let cube = Cube::of_part(alloc, schema, 0, 1)?;
        Ok(Draft {
            alloc,
            ledger,
            cube,
        })
    }

    /// The draft of a ledger over all grouping sets of its schema. The only error is that memory ran out.
    pub fn of_ledger(alloc: Global, ledger: Ledger) -> Result<Draft<N>, AllocError>
        ensures ledger { IfOk result (λ draft. draft.ledger ≡ ledger) }
        ensures over { IfOk result (λ draft. IsPartOver ledger.schema 1 0 draft.cube) }
    {
        let cube = Cube::of_part(alloc, ledger.schema(), 0, 1)?;
        Ok(Draft {
            alloc,
            ledger,
            cube,
        })
    }

    // Takes the next item of a source. The only error is that memory ran out.
    fn apply(&mut self, source: u32, item: FeedItem) -> Result<(), AllocError>
        requires { (1 ≤ source) × (source ≤ length self.old.ledger.accounts) }
        ensures sources { length self.new.ledger.accounts ≡ length self.old.ledger.accounts }
        ensures stands { OnOk result ((first : DraftView) (arrivals : Arrivals) →
            StandsFrom first self.old arrivals →
            StandsFrom first self.new (arrivals ++ (source, item) ∷ [])) }
        ensures unchanged { OnErr result ((first : DraftView) (arrivals : Arrivals) →
            StandsFrom first self.old arrivals → StandsFrom first self.new arrivals) }
    {
        self.ledger.apply_fed(source, item)
    }

    /// Keeps the facts of interest of the ledger alone. It takes no memory.
    pub fn keep(&mut self, conditions: &[Condition])
        ensures { self.new ≡ draft_of_interest conditions.now self.old }
    {
        self.ledger.keep(conditions);
    }
}

impl Draft<Counted> {
    /// The builder of the ledger, with the cells over the finest grouping set made by so many threads. The only error is
    /// that memory ran out.
    pub fn finish<T: Threads + Sync>(self, rt: &T, threads: usize) -> Result<Builder, AllocError>
        ensures { IfOk result (IsMadeOf self) }
    {
        Builder::of_with(rt, self.alloc, threads, self.ledger, self.cube)
    }
}

impl<N: Numbers + Send + Sync> Draft<N> {
    /// The counts of the ledger over the finest grouping set alone, made by so many threads; the books are let go of. The only
    /// error is that memory ran out.
    pub fn finest<T: Threads + Sync>(self, rt: &T, threads: usize) -> Result<Counts<N>, AllocError>
        ensures { IfOk result (AreFinestCounts self.ledger) }
    {
        let cube = finest_with(rt, self.alloc, threads, &self.cube, &self.ledger)?;
        let trace = LedgerTrace::of(&self.ledger);
        let refused = refusals_of(rt, self.ledger);
        Ok(Counts::new(refused, cube, trace))
    }
}

// A ledger with the refusals of this one, and no fact.
#[tactic(auto, using(crate::proofs::TakenLaws::refused_without))]
fn refusals_of<T: Threads>(rt: &T, ledger: Ledger) -> Ledger
    ensures { AreRefusedOf result ledger }
{
    let mut refused = ledger;
    refused.forget(rt);
    refused
}

/// The drafts of so many parts, in their order. The only error is that memory ran out.
pub(crate) fn new_drafts<N: Numbers>(
    alloc: Global,
    schema: &Schema,
    sources: u32,
    parts: u32,
) -> Result<Vec<Draft<N>>, AllocError>
    requires sources { sources ≤ 64 }
    requires parts { parts ≤ 8 }
    ensures { IfOk result (λ drafts. AreNewDrafts schema.now sources parts parts drafts.items) }
{
    let mut drafts = Vec::with_capacity(alloc, parts as usize)?;
    for part in 0..parts {
        drafts.push(Draft::new_part(alloc, schema, sources, part, parts)?)?;
    }
    Ok(drafts)
}

/// A ledger with the accounts of these, which have its schema, in their order. The only error is that memory ran out.
pub(crate) fn put_together(
    alloc: Global,
    schema: &Schema,
    ledgers: Vec<Ledger>,
) -> Result<Ledger, AllocError>
    requires schema { All (λ ledger. ledger.schema ≡ schema.now) ledgers.items }
    requires most { sum_by (λ ledger. length ledger.accounts) ledgers.items ≤ 64 }
    ensures schema { IfOk result (λ whole. whole.schema ≡ schema.now) }
    ensures accounts { IfOk result (λ whole.
        whole.accounts ≡ flat_map (λ ledger. ledger.accounts) ledgers.items) }
{
    let mut whole = Ledger::new(alloc, schema, 0)?;
    for ledger in ledgers {
        whole.append(ledger)?;
    }
    Ok(whole)
}
