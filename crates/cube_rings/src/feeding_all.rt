//! Feeding all sources to all that takes items.
ghost use Rattle.std.specs.Prelude.{◌≤◌, map, vec_len, IfOk, IfErr, OnOk};
ghost use Rattle.std.specs.List.{All};
ghost use Rattle.cube_core.specs.Run.{AreGood};
ghost use Rattle.cube_rings.specs.FeedingAll.{IsNew, TakeAll, ExplainsFeeding};

use crate::ends::first_stop;
use crate::fault::FeedingFault;
use crate::gate::Gate;
use crate::gatherer::Gatherer;
use crate::settling::settle;
use crate::setup::{Setup, set_up};
use crate::together::run_together;
use cube_core::Schema;
use cube_feed::TakesItems;
use std::alloc::Global;
use std::io::Read;
use std::sync::Wait;
use std::thread::Threads;

/// Feeds 1 to 64 sources, a reader each, to 1 to 8 builders that have taken nothing, and gives these back with their
/// links, in their order; `capacity` is the room of each link, 1 to 65536 lots.
///
/// Each feeder runs on a thread of its own, the first builder on the caller's, and each other on its own. On Ok every
/// feed is good, the builders have all taken the same items of them, and from each link came a line for each item of its
/// source's feed, and then the end. The first fault that holds is the answer: `Memory` or `NoThread`, where no record was
/// read; `Feed` of the lowest source whose feed is at fault; `Full` where memory ran out for a builder; `Unsealed` of the
/// lowest source that lacks a receipt.
pub fn feed_all<
    T: Threads + Wait + Sync,
    R: Read + Drop + Send,
    B: TakesItems + Send,
    G: Gate + Sync,
>(
    rt: &T,
    alloc: Global,
    schema: &Schema,
    readers: Vec<R>,
    capacity: usize,
    builders: Vec<B>,
    gate: &G,
) -> Result<Vec<Gatherer<B>>, FeedingFault>
    requires readers { (1 ≤ vec_len readers) × (vec_len readers ≤ 64) }
    requires capacity { (1 ≤ capacity) × (capacity ≤ 65536) }
    requires builders { (1 ≤ vec_len builders) × (vec_len builders ≤ 8) }
    requires new { All (IsNew B.sources B.stands (vec_len readers)) builders.items }
    ensures good { OnOk result (AreGood schema.now (map R.Read.remaining readers.items)) }
    ensures taken { IfOk result (λ gatherers. TakeAll B.stands schema.now
        (map R.Read.remaining readers.items) builders.items gatherers.items) }
    ensures err { IfErr result (ExplainsFeeding schema.now (map R.Read.remaining readers.items)) }
{
    let Ok(setup) = set_up(alloc, schema, readers, capacity, builders) else {
        return Err(FeedingFault::Memory);
    };
    let Setup {
        gatherers,
        feeders,
        roster,
    } = setup;
    let (roster, answer) = run_together(rt, alloc, gate, gatherers, feeders, roster);
    if answer.is_err() {
        return Err(FeedingFault::NoThread);
    }
    if let Some((source, fault)) = first_stop(&roster.ends) {
        return Err(FeedingFault::Feed { source, fault });
    }
    settle(roster.ends, roster.gatherers)
}
