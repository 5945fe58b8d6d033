//! What one builder takes of the feeds of all sources.
ghost use Rattle.std.specs.Prelude.{◌≡◌, ◌≤◌, [], true, false, length, map, vec_len, IfOk, IfErr};
ghost use Rattle.cube_cells.specs.BaseCuboid.{cells_of_cuboid};
ghost use Rattle.cube_core.specs.Layout.{all_suffice};
ghost use Rattle.cube_ledger.specs.Interest.{ledger_of_interest};
ghost use Rattle.cube_ledger.specs.Ledger.{all_facts};
ghost use Rattle.cube_rings.specs.FeedingAll.{ExplainsFeeding};
ghost use Rattle.cube_build.specs.Counting.{AreFinestCounts, HaveFactsOf, IsOverFinest, refusals_in};
ghost use Rattle.cube_build.specs.Taken.{IsTakenPart, TakesWhere};

use crate::building::feed_parts;
use crate::counting::{count_where, need_no_book};
use crate::draft::Draft;
use crate::making::MadePart;
use crate::sharding::take_in_shards;
use crate::trace::LedgerTrace;
use cube_cells::{BaseCuboid, Counted, FinestCells, Numbers, Summary};
use cube_core::{Condition, Schema, VALUES_IN_PLACE};
use cube_ledger::Ledger;
use cube_rings::{FeedingFault, Gate, Gatherer, LotInlet, Settings};
use std::alloc::{AllocError, Global};
use std::io::Read;
use std::marker::Model;
use std::sync::Wait;
use std::thread::Threads;

/// What one builder took of the feeds of all sources: the refusals of each, and the cells of the facts that survive over the
/// finest grouping set alone, of which a walk makes those of all grouping sets; with the inlets, from which all was taken.
///
/// Contracts see the books too. Where the feeds need no book, nothing in memory is left of it.
#[derive(Drop)]
pub struct Taken {
    refused: Ledger,
    cells: BaseCuboid,
    facts: u64,
    trace: LedgerTrace,
    inlets: Vec<LotInlet>,
}

impl Model for Taken {
    ghost use Rattle.cube_build.specs.Taken.{IsTaken, TakenView};
    ghost use Rattle.cube_cells.specs.BaseCuboid.{cells_of_cuboid};

    ghost Value = { TakenView };

    ghost view = { λ t. record {
      ledger = t.trace.ledger;
      cells = cells_of_cuboid t.cells;
      inlets = t.inlets.items;
    } };

    ghost invariant = { λ t. IsTaken t.refused t.trace.ledger (cells_of_cuboid t.cells) t.facts };
}

impl Taken {
    /// What was taken of a part whose cube is over the finest grouping set alone, by summaries, which suffice for the
    /// aggregates of its schema, put in order by so many threads. The only error is that memory ran out.
    fn of_summaries<T: Threads + Sync>(
        rt: &T,
        threads: usize,
        part: MadePart<Summary>,
    ) -> Result<Taken, AllocError>
        requires finest { IsOverFinest part.builder.cube }
        requires numbers { all_suffice false part.builder.ledger.schema ≡ true }
        ensures ledger { IfOk result (λ taken. taken.ledger ≡ part.builder.ledger) }
        ensures cells { IfOk result (λ taken. HaveFactsOf part.builder.ledger taken.cells) }
        ensures inlets { IfOk result (λ taken. taken.inlets ≡ part.inlets.items) }
    {
        let MadePart {
            builder: counts,
            inlets,
        } = part;
        let facts = counts.facts();
        let (refused, cube, trace) = counts.into_parts();
        let cells = BaseCuboid::Summaries(FinestCells::of(rt, threads, cube)?);
        Ok(Taken {
            refused,
            cells,
            facts,
            trace,
            inlets,
        })
    }

    /// What was taken of a part whose cube is over the finest grouping set alone, by its numbers, put in order by so many
    /// threads. The only error is that memory ran out.
    fn of_numbers<T: Threads + Sync>(
        rt: &T,
        threads: usize,
        part: MadePart<Counted>,
    ) -> Result<Taken, AllocError>
        requires finest { IsOverFinest part.builder.cube }
        ensures ledger { IfOk result (λ taken. taken.ledger ≡ part.builder.ledger) }
        ensures cells { IfOk result (λ taken. HaveFactsOf part.builder.ledger taken.cells) }
        ensures inlets { IfOk result (λ taken. taken.inlets ≡ part.inlets.items) }
    {
        let MadePart {
            builder: counts,
            inlets,
        } = part;
        let facts = counts.facts();
        let (refused, cube, trace) = counts.into_parts();
        let cells = BaseCuboid::Numbers(FinestCells::of(rt, threads, cube)?);
        Ok(Taken {
            refused,
            cells,
            facts,
            trace,
            inlets,
        })
    }

    /// How many facts survive.
    pub fn facts(&self) -> u64
        ensures { result ≡ length (all_facts self.now.ledger.accounts) }
    {
        self.facts
    }

    /// The cells of the facts that survive, over the finest grouping set alone.
    pub fn cells(&self) -> &BaseCuboid
        ensures cells { cells_of_cuboid result.now ≡ self.now.cells }
        ensures has { HaveFactsOf self.now.ledger (cells_of_cuboid result.now) }
    {
        &self.cells
    }

    /// A ledger with the schema, the sources and the refusals. Its books may have no fact.
    pub fn refused(&self) -> &Ledger
        ensures schema { result.now.schema ≡ self.now.ledger.schema }
        ensures refusals { refusals_in result.now ≡ refusals_in self.now.ledger }
    {
        &self.refused
    }

    /// The inlets; inlet s - 1 is source s.
    pub fn inlets(&self) -> &[LotInlet]
        ensures { result.now ≡ self.now.inlets }
    {
        self.inlets.as_slice()
    }
}

/// Takes the feeds of 1 to 64 sources, one reader each, as [`build_where`](crate::build_where) does with one builder, and
/// fills no cube: only the cells over the finest grouping set are made. Refusals and faults are the same; `Full` is the
/// answer where a growth was refused in taking.
pub fn take_where<T: Threads + Wait + Sync, R: Read + Drop + Send, G: Gate + Sync>(
    rt: &T,
    alloc: Global,
    schema: &Schema,
    readers: Vec<R>,
    settings: &Settings,
    gate: &G,
    conditions: &[Condition],
) -> Result<Taken, FeedingFault>
    requires readers { (1 ≤ vec_len readers) × (vec_len readers ≤ 64) }
    requires one { settings.now.builders ≡ 1 }
    ensures ok { IfOk result
        (TakesWhere schema.now conditions.now (map R.Read.remaining readers.items)) }
    ensures err { IfErr result (ExplainsFeeding schema.now (map R.Read.remaining readers.items)) }
{
    if schema.needs_numbers() {
        let part = take_part(rt, alloc, schema, readers, settings, gate, conditions)?;
        return match Taken::of_numbers(rt, settings.threads(), part) {
            Ok(taken) => Ok(taken),
            Err(_) => Err(FeedingFault::Full),
        };
    }
    let part = take_part(rt, alloc, schema, readers, settings, gate, conditions)?;
    match Taken::of_summaries(rt, settings.threads(), part) {
        Ok(taken) => Ok(taken),
        Err(_) => Err(FeedingFault::Full),
    }
}

/// Takes the facts in the books of a ledger that took what it takes before, by so many threads. No feed was read, so there
/// is no inlet. The only error is that memory ran out.
pub fn take_ledger<T: Threads + Sync>(
    rt: &T,
    alloc: Global,
    threads: usize,
    ledger: Ledger,
) -> Result<Taken, AllocError>
    ensures ledger { IfOk result (λ taken. taken.ledger ≡ ledger) }
    ensures cells { IfOk result (λ taken. HaveFactsOf ledger taken.cells) }
    ensures no_inlets { IfOk result (λ taken. taken.inlets ≡ []) }
{
    if ledger.schema().needs_numbers() {
        Taken::of_numbers(rt, threads, part_of(rt, alloc, threads, ledger)?)
    } else {
        Taken::of_summaries(rt, threads, part_of(rt, alloc, threads, ledger)?)
    }
}

// The counts of the facts in the books of a ledger over the finest grouping set, made by so many threads, without an inlet.
// The only error is that memory ran out.
fn part_of<T: Threads + Sync, N: Numbers + Send + Sync>(
    rt: &T,
    alloc: Global,
    threads: usize,
    ledger: Ledger,
) -> Result<MadePart<N>, AllocError>
    ensures counts { IfOk result (λ part. AreFinestCounts ledger part.builder) }
    ensures no_inlets { IfOk result (λ part. part.inlets.items ≡ []) }
{
    let draft = Draft::of_ledger(alloc, ledger)?;
    let builder = draft.finest(rt, threads)?;
    let inlets = Vec::new(alloc);
    Ok(MadePart { builder, inlets })
}

/// What one builder takes, with its counts over the finest grouping set alone. The faults are those of [`take_where`].
pub(crate) fn take_part<
    T: Threads + Wait + Sync,
    R: Read + Drop + Send,
    G: Gate + Sync,
    N: Numbers + Send + Sync,
>(
    rt: &T,
    alloc: Global,
    schema: &Schema,
    readers: Vec<R>,
    settings: &Settings,
    gate: &G,
    conditions: &[Condition],
) -> Result<MadePart<N>, FeedingFault>
    requires readers { (1 ≤ vec_len readers) × (vec_len readers ≤ 64) }
    requires one { settings.now.builders ≡ 1 }
    ensures ok { IfOk result
        (IsTakenPart schema.now conditions.now (map R.Read.remaining readers.items)) }
    ensures err { IfErr result (ExplainsFeeding schema.now (map R.Read.remaining readers.items)) }
{
    if need_no_book(schema) {
        return count_where(rt, alloc, schema, readers, settings, gate, conditions);
    }
    if readers.len() == 1 && pays_in_shards(schema, settings.threads()) {
        return take_in_shards(rt, alloc, schema, readers, settings, gate, conditions);
    }
    let mut gatherers = feed_parts(rt, alloc, schema, readers, settings, gate)?;
    let gatherer = gatherers.swap_remove(0);
    match kept(rt, settings.threads(), gatherer, conditions) {
        Ok(part) => Ok(part),
        Err(_) => Err(FeedingFault::Full),
    }
}

// Whether the books of one feed are better kept in shards, which so many threads enter: there are several, and the texts of
// a fact lie in it. Those of more dimensions lie in memory of their own, which one thread takes and another lets go of.
fn pays_in_shards(schema: &Schema, threads: usize) -> bool {
    threads > 1 && schema.dimensions().len() <= VALUES_IN_PLACE
}

// The counts of the facts of interest of what was gathered, made by so many threads, with the inlets. The only error is that
// memory ran out.
fn kept<T: Threads + Sync, N: Numbers + Send + Sync>(
    rt: &T,
    threads: usize,
    gatherer: Gatherer<Draft<N>>,
    conditions: &[Condition],
) -> Result<MadePart<N>, AllocError>
    ensures counts { IfOk result (λ part.
        AreFinestCounts (ledger_of_interest conditions.now gatherer.builder.ledger) part.builder) }
    ensures inlets { IfOk result (λ part. part.inlets.items ≡ gatherer.inlets.items) }
{
    let Gatherer {
        builder: mut draft,
        place: _,
        inlets,
        wanting: _,
    } = gatherer;
    draft.keep(conditions);
    let builder = draft.finest(rt, threads)?;
    Ok(MadePart { builder, inlets })
}
