//! Feeding all sources, in shares, to builders that have sources of their own.
ghost use Rattle.std.specs.Prelude.{◌≡◌, ◌≤◌, ◌∷◌, [], map, sum_by, vec_len, IfOk, IfErr, OnOk};
ghost use Rattle.std.specs.List.{All};
ghost use Rattle.cube_core.specs.Run.{AreGood};
ghost use Rattle.cube_rings.specs.FeedingAll.{TakeAll, ExplainsFeeding};
ghost use Rattle.cube_rings.specs.Shares.{AreWholeOf, StandInShares};

use crate::ends::first_stop;
use crate::fault::FeedingFault;
use crate::gate::Gate;
use crate::gatherer::Gatherer;
use crate::settling::settle;
use crate::setup::{Setup, only, set_up_shares};
use crate::shares::put_together;
use crate::together::run_together;
use cube_core::Schema;
use cube_feed::TakesItems;
use std::alloc::{AllocError, Global};
use std::io::Read;
use std::sync::Wait;
use std::thread::Threads;

// The builders of all shares as one, in a list. The only error is that memory ran out.
fn whole_of<B: Drop>(
    alloc: Global,
    shares: Vec<Gatherer<B>>,
) -> Result<Vec<Gatherer<Vec<B>>>, AllocError>
    ensures { IfOk result (λ wholes. AreWholeOf shares.items wholes.items) }
{
    only(alloc, put_together(alloc, shares)?)
}

/// Feeds 1 to 64 sources, a reader each, to 1 to 8 builders that have taken nothing, each of which takes the feeds of
/// sources of its own: the first those of the first readers, as many as it has sources, and so on. They are given back
/// together, as one builder with the links of all sources; `capacity` is the room of each link, 1 to 65536 lots.
///
/// Each feeder runs on a thread of its own, the first builder on the caller's, and each other on its own. The gate is told
/// of one builder, 0, and each source is known by its number among all. Answers and faults are those of
/// [`feed_all`](crate::feed_all); `Full` also where memory ran out to put the builders together.
pub fn feed_shares<
    T: Threads + Wait + Sync,
    R: Read + Drop + Send,
    B: TakesItems + Send,
    G: Gate + Sync,
>(
    rt: &T,
    alloc: Global,
    schema: &Schema,
    readers: Vec<R>,
    capacity: usize,
    builders: Vec<B>,
    gate: &G,
) -> Result<Vec<Gatherer<Vec<B>>>, FeedingFault>
    requires readers { (1 ≤ vec_len readers) × (vec_len readers ≤ 64) }
    requires capacity { (1 ≤ capacity) × (capacity ≤ 65536) }
    requires builders { (1 ≤ vec_len builders) × (vec_len builders ≤ 8) }
    requires sources { sum_by B.sources builders.items ≡ vec_len readers }
    requires new { All (λ builder. B.stands builder builder []) builders.items }
    ensures good { OnOk result (AreGood schema.now (map R.Read.remaining readers.items)) }
    ensures taken { IfOk result (λ wholes. TakeAll (StandInShares B.sources B.stands) schema.now
        (map R.Read.remaining readers.items) (builders ∷ []) wholes.items) }
    ensures err { IfErr result (ExplainsFeeding schema.now (map R.Read.remaining readers.items)) }
{
    let Ok(setup) = set_up_shares(alloc, schema, readers, capacity, builders) else {
        return Err(FeedingFault::Memory);
    };
    let Setup {
        gatherers,
        feeders,
        roster,
    } = setup;
    let (roster, answer) = run_together(rt, alloc, gate, gatherers, feeders, roster);
    if answer.is_err() {
        return Err(FeedingFault::NoThread);
    }
    if let Some((source, fault)) = first_stop(&roster.ends) {
        return Err(FeedingFault::Feed { source, fault });
    }
    let Ok(wholes) = whole_of(alloc, roster.gatherers) else {
        return Err(FeedingFault::Full);
    };
    settle(roster.ends, wholes)
}
