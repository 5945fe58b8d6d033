//! One feed, taken in shards.
ghost use Rattle.std.specs.Prelude.{◌≡◌, ◌≤◌, map, vec_len, IfOk, IfErr};
ghost use Rattle.cube_core.specs.Arrival.{Arrivals};
ghost use Rattle.cube_rings.specs.FeedingAll.{ExplainsFeeding};
ghost use Rattle.cube_build.specs.Sharded.{AreCountsAt, IsOneSharded, ShardedStandsFrom, ShardedView};
ghost use Rattle.cube_build.specs.Taken.{IsTakenPart};

use crate::making::MadePart;
use crate::sharded::ShardedLedger;
use cube_cells::Numbers;
use cube_core::{Condition, Schema};
use cube_rings::{FeedingFault, Gate, Gatherer, Settings, feed_all};
use std::alloc::{AllocError, Global};
use std::io::Read;
use std::sync::Wait;
use std::thread::Threads;

/// The most shards of a feed.
const MOST_SHARDS: usize = 8;

/// Takes one feed in as many shards as there are threads, 8 at most, whose books are entered side by side. The faults are
/// those of `feed_all`; `Full` is the answer also where memory ran out once the feed had ended.
pub(crate) fn take_in_shards<
    T: Threads + Wait + Sync,
    R: Read + Drop + Send,
    G: Gate + Sync,
    N: Numbers + Send + Sync,
>(
    rt: &T,
    alloc: Global,
    schema: &Schema,
    readers: Vec<R>,
    settings: &Settings,
    gate: &G,
    conditions: &[Condition],
) -> Result<MadePart<N>, FeedingFault>
    requires one { vec_len readers ≡ 1 }
    ensures ok { IfOk result
        (IsTakenPart schema.now conditions.now (map R.Read.remaining readers.items)) }
    ensures err { IfErr result (ExplainsFeeding schema.now (map R.Read.remaining readers.items)) }
{
    let threads = settings.threads();
    let Ok(sharded) = new_sharded(rt, alloc, schema, threads.min(MOST_SHARDS)) else {
        return Err(FeedingFault::Memory);
    };
    let capacity = settings.capacity();
    let mut gatherers = feed_all(rt, alloc, schema, readers, capacity, sharded, gate)?;
    match finished(threads, gatherers.swap_remove(0), conditions) {
        Ok(part) => Ok(part),
        Err(_) => Err(FeedingFault::Full),
    }
}

// One ledger in so many shards, in a list. The only error is that memory ran out.
fn new_sharded<'t, T: Threads + Sync>(
    rt: &'t T,
    alloc: Global,
    schema: &Schema,
    count: usize,
) -> Result<Vec<ShardedLedger<'t, T>>, AllocError>
    requires some { 1 ≤ count }
    requires few { count ≤ 8 }
    ensures { IfOk result (λ sharded. IsOneSharded schema.now sharded.items) }
{
    let sharded = ShardedLedger::new(rt, alloc, schema, count)?;
    let mut list = Vec::with_capacity(alloc, 1)?;
    list.push(sharded)?;
    Ok(list)
}

// The counts of the facts of interest of what was gathered, made by so many threads, with the inlets. The only error is that
// memory ran out.
fn finished<T: Threads + Sync, N: Numbers + Send + Sync>(
    threads: usize,
    gatherer: Gatherer<ShardedLedger<'_, T>>,
    conditions: &[Condition],
) -> Result<MadePart<N>, AllocError>
    ensures counts { IfOk result (λ part. (first : ShardedView) (arrivals : Arrivals) →
        ShardedStandsFrom first gatherer.entry.builder arrivals →
        AreCountsAt conditions.now first.schema arrivals part.builder) }
    ensures inlets { IfOk result (λ part. part.inlets.items ≡ gatherer.entry.inlets.items) }
{
    let Gatherer {
        builder: sharded,
        place: _,
        inlets,
        wanting: _,
    } = gatherer;
    let builder = sharded.finish(threads, conditions)?;
    Ok(MadePart { builder, inlets })
}
