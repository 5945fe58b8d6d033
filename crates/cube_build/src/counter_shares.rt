//! Feeds that need no book counted in shares: consecutive sources, each share by a counter of its own.
ghost use Rattle.std.specs.Prelude.{◌≡◌, ◌≤◌, map, not, vec_len, IfOk, IfErr};
ghost use Rattle.std.specs.List.{list_all};
ghost use Rattle.cube_rings.specs.FeedingAll.{ExplainsFeeding};
ghost use Rattle.cube_build.specs.CountedRun.{CountsFeeds};
ghost use Rattle.cube_build.specs.CounterShares.{AreNewCounters, AreUnspent, IsCounterOf, IsGathererOf, MayJoin};
ghost use Rattle.cube_build.specs.Counting.{CountsNoText};

use crate::counter::Counter;
use crate::shares::shares_of;
use cube_cells::Numbers;
use cube_core::{Condition, Schema};
use cube_rings::{FeedingFault, Gate, Gatherer, Settings, feed_shares};
use std::alloc::{AllocError, Global};
use std::io::Read;
use std::sync::Wait;
use std::thread::Threads;

// New counters of so many shares, with so many sources together, each with as many as any other or one more. The only
// error is that memory ran out.
fn new_shares<'c, N: Numbers>(
    alloc: Global,
    schema: &Schema,
    sources: u32,
    shares: u32,
    conditions: &'c [Condition],
) -> Result<Vec<Counter<'c, N>>, AllocError>
    requires sources { sources ≤ 64 }
    requires shares { 1 ≤ shares }
    requires plain { CountsNoText schema.now }
    ensures { IfOk result (λ counters.
        AreNewCounters schema.now sources shares conditions.now counters.items) }
{
    let mut counters = Vec::with_capacity(alloc, shares as usize)?;
    let mut left = sources;
    for share in 0..shares {
        let count = left / (shares - share);
        counters.push(Counter::new(alloc, schema, count, conditions)?)?;
        left -= count;
    }
    Ok(counters)
}

// Whether memory ran out for none of the counters.
fn are_unspent<N: Numbers>(counters: &[Counter<'_, N>]) -> bool
    ensures { result ≡ list_all (λ counter. not counter.is_spent) counters.now }
{
    counters.iter().all(|counter| !counter.is_spent())
}

// The counter that has the sources of all of these, in their order. The only error is that memory ran out.
fn put_together<'c, N: Numbers>(counters: Vec<Counter<'c, N>>) -> Result<Counter<'c, N>, AllocError>
    requires unspent { AreUnspent counters.items }
    requires may { MayJoin counters.items }
    ensures { IfOk result (IsCounterOf counters.entry.items) }
{
    let mut others = counters;
    let mut whole = others.remove(0);
    for counter in others {
        whole = whole.joined(counter)?;
    }
    Ok(whole)
}

// The counter of all shares in the place of theirs. The only error is that memory ran out, now or before.
fn counted_together<'c, N: Numbers>(
    whole: Gatherer<Vec<Counter<'c, N>>>,
) -> Result<Gatherer<Counter<'c, N>>, AllocError>
    requires { AreUnspent whole.builder.items → MayJoin whole.builder.items }
    ensures { IfOk result (IsGathererOf whole.entry) }
{
    let Gatherer {
        builder: counters,
        place,
        inlets,
        wanting,
    } = whole;
    if !are_unspent(&counters) {
        return Err(AllocError);
    }
    let builder = put_together(counters)?;
    Ok(Gatherer {
        builder,
        place,
        inlets,
        wanting,
    })
}

/// Feeds 1 to 64 sources in as many shares as there are threads, 8 at most, each to a counter of its own, and gives the one
/// counter that they become, with the links of all sources. The faults are those of `feed_all`.
pub(crate) fn feed_counters<
    'c,
    T: Threads + Wait + Sync,
    R: Read + Drop + Send,
    G: Gate + Sync,
    N: Numbers + Send,
>(
    rt: &T,
    alloc: Global,
    schema: &Schema,
    readers: Vec<R>,
    settings: &Settings,
    gate: &G,
    conditions: &'c [Condition],
) -> Result<Gatherer<Counter<'c, N>>, FeedingFault>
    requires readers { (1 ≤ vec_len readers) × (vec_len readers ≤ 64) }
    requires plain { CountsNoText schema.now }
    ensures counts { IfOk result
        (CountsFeeds schema.now conditions.now (map R.Read.remaining readers.items)) }
    ensures err { IfErr result (ExplainsFeeding schema.now (map R.Read.remaining readers.items)) }
{
    let sources = readers.len() as u32;
    let shares = shares_of(settings.threads(), sources);
    let Ok(counters) = new_shares(alloc, schema, sources, shares, conditions) else {
        return Err(FeedingFault::Memory);
    };
    let mut wholes = feed_shares(
        rt,
        alloc,
        schema,
        readers,
        settings.capacity(),
        counters,
        gate,
    )?;
    match counted_together(wholes.swap_remove(0)) {
        Ok(gatherer) => Ok(gatherer),
        Err(_) => Err(FeedingFault::Full),
    }
}
