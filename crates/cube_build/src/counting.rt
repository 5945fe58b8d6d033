//! Feeds that need no book, counted as they come.
ghost use Rattle.std.specs.Prelude.{◌≡◌, ◌≤◌, true, map, vec_len, IfOk, IfErr};
ghost use Rattle.cube_rings.specs.FeedingAll.{ExplainsFeeding};
ghost use Rattle.cube_build.specs.CountedRun.{CountsFeeds};
ghost use Rattle.cube_build.specs.Counting.{AreCountsOf, CountsNoText};
ghost use Rattle.cube_build.specs.Taken.{IsTakenPart};

use crate::counter::{Counter, new_counters};
use crate::counter_shares::feed_counters;
use crate::making::MadePart;
use cube_cells::Numbers;
use cube_core::{Condition, Schema};
use cube_rings::{FeedingFault, Gate, Gatherer, Settings, feed_all};
use std::alloc::{AllocError, Global};
use std::io::Read;
use std::sync::Wait;
use std::thread::Threads;

/// Whether the feeds of a schema need no book: no text is counted, their columns are known by name, and there is none of
/// ids or of operations, so each record is an insert under its number.
pub(crate) fn need_no_book(schema: &Schema) -> bool
    ensures { result ≡ true → CountsNoText schema.now }
{
    let counts_text = !schema.text_places().is_empty();
    match schema.columns() {
        Some(columns) => !counts_text && columns.id.is_none() && columns.op.is_none(),
        None => false,
    }
}

// Feeds all sources to a counter of the facts of interest, in shares where there are more threads than one.
fn feed_counter<
    'c,
    T: Threads + Wait + Sync,
    R: Read + Drop + Send,
    G: Gate + Sync,
    N: Numbers + Send,
>(
    rt: &T,
    alloc: Global,
    schema: &Schema,
    readers: Vec<R>,
    settings: &Settings,
    gate: &G,
    conditions: &'c [Condition],
) -> Result<Gatherer<Counter<'c, N>>, FeedingFault>
    requires readers { (1 ≤ vec_len readers) × (vec_len readers ≤ 64) }
    requires plain { CountsNoText schema.now }
    ensures counts { IfOk result
        (CountsFeeds schema.now conditions.now (map R.Read.remaining readers.items)) }
    ensures err { IfErr result (ExplainsFeeding schema.now (map R.Read.remaining readers.items)) }
{
    if settings.threads() > 1 {
        return feed_counters(rt, alloc, schema, readers, settings, gate, conditions);
    }
    let Ok(counters) = new_counters(alloc, schema, readers.len() as u32, conditions) else {
        return Err(FeedingFault::Memory);
    };
    let capacity = settings.capacity();
    let mut gatherers = feed_all(rt, alloc, schema, readers, capacity, counters, gate)?;
    Ok(gatherers.swap_remove(0))
}

// What a counter counted, with its inlets. The only error is that memory ran out.
fn counted<N: Numbers>(gatherer: Gatherer<Counter<'_, N>>) -> Result<MadePart<N>, AllocError>
    ensures counts { IfOk result (λ part. AreCountsOf gatherer.entry.builder part.builder) }
    ensures inlets { IfOk result (λ part. part.inlets.items ≡ gatherer.entry.inlets.items) }
{
    let Gatherer {
        builder: counter,
        place: _,
        inlets,
        wanting: _,
    } = gatherer;
    let builder = counter.finish()?;
    Ok(MadePart { builder, inlets })
}

/// Takes feeds that need no book: each fact of interest is counted as it is taken. The faults are those of `feed_all`; `Full`
/// also where an item of another kind came.
pub(crate) fn count_where<
    T: Threads + Wait + Sync,
    R: Read + Drop + Send,
    G: Gate + Sync,
    N: Numbers + Send,
>(
    rt: &T,
    alloc: Global,
    schema: &Schema,
    readers: Vec<R>,
    settings: &Settings,
    gate: &G,
    conditions: &[Condition],
) -> Result<MadePart<N>, FeedingFault>
    requires readers { (1 ≤ vec_len readers) × (vec_len readers ≤ 64) }
    requires plain { CountsNoText schema.now }
    ensures ok { IfOk result
        (IsTakenPart schema.now conditions.now (map R.Read.remaining readers.items)) }
    ensures err { IfErr result (ExplainsFeeding schema.now (map R.Read.remaining readers.items)) }
{
    let gatherer = feed_counter(rt, alloc, schema, readers, settings, gate, conditions)?;
    match counted(gatherer) {
        Ok(part) => Ok(part),
        Err(_) => Err(FeedingFault::Full),
    }
}
