//! The build: builders of the feeds of all sources, in threads.
ghost use Rattle.std.specs.Prelude.{◌≡◌, ◌≤◌, ◌∷◌, [], length, map, vec_len, IfOk, IfErr, OnOk};
ghost use Rattle.cube_rings.specs.FeedingAll.{ExplainsFeeding};
ghost use Rattle.cube_build.specs.Interest.{BuildsWhere, gathered_of_interest};
ghost use Rattle.cube_build.specs.Parts.{AreAllMade, BuildsParts, first_ledger, schema_of_run};
ghost use Rattle.cube_build.specs.Counting.{IsOverFinest};
ghost use Rattle.cube_build.specs.Shares.{TakenInParts};
ghost use Rattle.cube_build.specs.Taken.{IsFilledFrom};

use crate::builder::Builder;
use crate::built::Built;
use crate::counts::Counts;
use crate::draft::{Draft, new_drafts};
use crate::making::{MadePart, Making, make_all};
use crate::shares::feed_in_shares;
use crate::taken::take_part;
use cube_cells::{Counted, Numbers};
use cube_core::{Condition, Schema};
use cube_ledger::Ledger;
use cube_rings::{FeedingFault, Gate, Gatherer, Settings, feed_all};
use std::alloc::{AllocError, Global};
use std::io::Read;
use std::sync::Wait;
use std::thread::Threads;

/// Feeds all sources to the drafts of as many parts as the settings have builders, or in shares where they have one, and
/// more threads.
pub(crate) fn feed_parts<
    T: Threads + Wait + Sync,
    R: Read + Drop + Send,
    G: Gate + Sync,
    N: Numbers + Send,
>(
    rt: &T,
    alloc: Global,
    schema: &Schema,
    readers: Vec<R>,
    settings: &Settings,
    gate: &G,
) -> Result<Vec<Gatherer<Draft<N>>>, FeedingFault>
    requires readers { (1 ≤ vec_len readers) × (vec_len readers ≤ 64) }
    ensures taken { IfOk result (λ gatherers. TakenInParts schema.now
        (map R.Read.remaining readers.items) settings.now.builders gatherers.items) }
    ensures err { IfErr result (ExplainsFeeding schema.now (map R.Read.remaining readers.items)) }
{
    let parts = settings.builders();
    if parts == 1 && settings.threads() > 1 {
        return feed_in_shares(rt, alloc, schema, readers, settings, gate);
    }
    let Ok(drafts) = new_drafts(alloc, schema, readers.len() as u32, parts) else {
        return Err(FeedingFault::Memory);
    };
    feed_all(
        rt,
        alloc,
        schema,
        readers,
        settings.capacity(),
        drafts,
        gate,
    )
}

// Makes the builder of each part, by so many threads, and keeps them all. The only error is that memory ran out.
fn complete<T: Threads + Sync>(
    rt: &T,
    threads: usize,
    gatherers: Vec<Gatherer<Draft<Counted>>>,
    making: &mut Making,
) -> Result<(), AllocError>
    requires builders { making.old.builders.items ≡ [] }
    requires links { making.old.links.items ≡ [] }
    ensures { OnOk result (AreAllMade gatherers.items (record {
      builders = making.new.builders.items;
      inlets = map (λ links. links.inlets.items) making.new.links.items;
    })) }
{
    let made = make_all(rt, threads, gatherers)?;
    making.keep_all(made)
}

/// Builds the feeds of 1 to 64 sources, one reader each, in as many builders as the settings have, each over its part
/// of the schema's grouping sets.
///
/// A feeder on a thread of its own reads each source, builder 0 gathers on the caller's thread, each other on its own,
/// and the cubes are filled side by side once the feeds have ended. One builder gathers in as many shares of consecutive
/// sources as there are threads, 8 at most, the first on the caller's thread, each other on its own; their ledgers are
/// put together once the feeds have ended. The first of these faults that holds is the answer:
/// `Memory` or `NoThread`, where no record was read; `Feed` of the lowest source whose feed is at fault; `Full` where a
/// growth was refused in building; `Unsealed` of the lowest source of which a link gave no receipt.
pub fn build<T: Threads + Wait + Sync, R: Read + Drop + Send, G: Gate + Sync>(
    rt: &T,
    alloc: Global,
    schema: &Schema,
    readers: Vec<R>,
    settings: &Settings,
    gate: &G,
) -> Result<Built, FeedingFault>
    requires readers { (1 ≤ vec_len readers) × (vec_len readers ≤ 64) }
    ensures ok { IfOk result
        (BuildsParts schema.now (map R.Read.remaining readers.items) settings.now.builders) }
    ensures schema { IfOk result (λ built. schema_of_run built ≡ schema.now) }
    ensures err { IfErr result (ExplainsFeeding schema.now (map R.Read.remaining readers.items)) }
{
    build_where(rt, alloc, schema, readers, settings, gate, &[])
}

/// Builds the feeds as [`build`] does, and counts the facts of interest alone: those that survive and of which all conditions
/// hold. Refusals and faults are the same whatever the conditions; with no condition nothing is looked at.
///
/// Where the feeds need no book, since each record is an insert under its number, one builder counts each fact as it is
/// taken, in as many shares of consecutive sources as there are threads, 8 at most, the first on the caller's thread, each
/// other on its own. What the shares counted is put together once the feeds have ended, and nothing else is kept of a fact.
pub fn build_where<T: Threads + Wait + Sync, R: Read + Drop + Send, G: Gate + Sync>(
    rt: &T,
    alloc: Global,
    schema: &Schema,
    readers: Vec<R>,
    settings: &Settings,
    gate: &G,
    conditions: &[Condition],
) -> Result<Built, FeedingFault>
    requires readers { (1 ≤ vec_len readers) × (vec_len readers ≤ 64) }
    ensures ok { IfOk result (BuildsWhere schema.now conditions.now
        (map R.Read.remaining readers.items) settings.now.builders) }
    ensures schema { IfOk result (λ built. schema_of_run built ≡ schema.now) }
    ensures err { IfErr result (ExplainsFeeding schema.now (map R.Read.remaining readers.items)) }
{
    if settings.builders() != 1 {
        return build_kept(rt, alloc, schema, readers, settings, gate, conditions);
    }
    let part = take_part(rt, alloc, schema, readers, settings, gate, conditions)?;
    match filled(alloc, part) {
        Ok(built) => Ok(built),
        Err(_) => Err(FeedingFault::Full),
    }
}

// What is built of a part that was taken alone: its cube is filled. The only error is that memory ran out.
fn filled(alloc: Global, part: MadePart) -> Result<Built, AllocError>
    requires { IsOverFinest part.builder.cube }
    ensures { IfOk result (IsFilledFrom part) }
{
    let MadePart {
        builder: finest,
        inlets,
    } = part;
    let builder = finest.filled(alloc)?;
    let mut making = Making::with_room(alloc, 1)?;
    making.keep(MadePart { builder, inlets })?;
    Ok(Built::of(making))
}

// Builds them by ledgers, and looks for the facts of interest once the feeds have ended.
fn build_kept<T: Threads + Wait + Sync, R: Read + Drop + Send, G: Gate + Sync>(
    rt: &T,
    alloc: Global,
    schema: &Schema,
    readers: Vec<R>,
    settings: &Settings,
    gate: &G,
    conditions: &[Condition],
) -> Result<Built, FeedingFault>
    requires readers { (1 ≤ vec_len readers) × (vec_len readers ≤ 64) }
    ensures ok { IfOk result (BuildsWhere schema.now conditions.now
        (map R.Read.remaining readers.items) settings.now.builders) }
    ensures schema { IfOk result (λ built. schema_of_run built ≡ schema.now) }
    ensures err { IfErr result (ExplainsFeeding schema.now (map R.Read.remaining readers.items)) }
{
    let Ok(mut making) = Making::with_room(alloc, settings.builders() as usize) else {
        return Err(FeedingFault::Memory);
    };
    let mut gatherers = feed_parts(rt, alloc, schema, readers, settings, gate)?;
    keep_of_interest(gatherers.as_mut_slice(), conditions);
    match complete(rt, settings.threads(), gatherers, &mut making) {
        Ok(()) => Ok(Built::of(making)),
        Err(_) => Err(FeedingFault::Full),
    }
}

/// Builds the facts in the books of a ledger that took what it takes before: one builder over all grouping sets of its
/// schema, with the cells over the finest one made by so many threads. No feed was read, so there is no inlet. The only
/// error is that memory ran out.
pub fn build_ledger<T: Threads + Sync>(
    rt: &T,
    alloc: Global,
    threads: usize,
    ledger: Ledger,
) -> Result<Built, AllocError>
    ensures ledger { IfOk result (λ built. first_ledger built.builders ≡ ledger) }
    ensures one { IfOk result (λ built. length built.builders ≡ 1) }
    ensures no_inlets { IfOk result (λ built. built.inlets ≡ []) }
{
    let draft = Draft::of_ledger(alloc, ledger)?;
    let builder = draft.finish(rt, threads)?;
    Ok(Built::of(lone(alloc, builder)?))
}

// A builder alone, without an inlet. The only error is that memory ran out.
fn lone(alloc: Global, builder: Builder) -> Result<Making, AllocError>
    ensures builders { IfOk result (λ making. making.builders.items ≡ builder ∷ []) }
    ensures links { IfOk result (λ making. making.links.items ≡ []) }
{
    let mut making = Making::with_room(alloc, 1)?;
    making.builders.push(Counts::of(builder))?;
    Ok(making)
}

// Keeps the facts of interest of every draft.
fn keep_of_interest(gatherers: &mut [Gatherer<Draft<Counted>>], conditions: &[Condition])
    ensures { gatherers.new ≡ map (gathered_of_interest conditions.now) gatherers.old }
{
    for gatherer in gatherers.iter_mut() {
        gatherer.builder.keep(conditions);
    }
}
