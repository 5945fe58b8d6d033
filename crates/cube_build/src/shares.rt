//! The feeds of all sources taken in shares: consecutive sources, each share into a ledger of its own.
ghost use Rattle.std.specs.Prelude.{◌≡◌, ◌≤◌, length, map, sum_by, vec_len, IfOk, IfErr};
ghost use Rattle.std.specs.List.{All};
ghost use Rattle.cube_rings.specs.FeedingAll.{ExplainsFeeding};
ghost use Rattle.cube_build.specs.Drafts.{IsDrafted};
ghost use Rattle.cube_build.specs.Shares.{AreNewLedgers, TakenInParts};

use crate::draft::Draft;
use cube_cells::Numbers;
use cube_core::Schema;
use cube_ledger::Ledger;
use cube_rings::{FeedingFault, Gate, Gatherer, Settings, feed_shares};
use std::alloc::{AllocError, Global};
use std::io::Read;
use std::sync::Wait;
use std::thread::Threads;

/// The most shares.
const MOST_SHARES: u32 = 8;

/// How many shares so many sources are cut into: as many as there are threads, but no share of no source.
pub fn shares_of(threads: usize, sources: u32) -> u32
    requires { (1 ≤ threads) × (1 ≤ sources) }
    ensures { (1 ≤ result) × (result ≤ 8) }
{
    let threads = threads.min(MOST_SHARES as usize) as u32;
    threads.min(sources)
}

/// New ledgers of so many shares, with so many sources together, each with as many as any other or one more. The only
/// error is that memory ran out.
pub fn new_ledgers(
    alloc: Global,
    schema: &Schema,
    sources: u32,
    shares: u32,
) -> Result<Vec<Ledger>, AllocError>
    requires sources { sources ≤ 64 }
    requires shares { 1 ≤ shares }
    ensures { IfOk result (λ ledgers. AreNewLedgers schema.now sources shares ledgers.items) }
{
    let mut ledgers = Vec::with_capacity(alloc, shares as usize)?;
    let mut left = sources;
    for share in 0..shares {
        let count = left / (shares - share);
        ledgers.push(Ledger::new(alloc, schema, count)?)?;
        left -= count;
    }
    Ok(ledgers)
}

// The builder of all shares, with a draft of their ledgers in the place of these, in a list. The only error is that memory ran
// out.
fn drafted<N: Numbers>(
    alloc: Global,
    schema: &Schema,
    whole: Gatherer<Vec<Ledger>>,
) -> Result<Vec<Gatherer<Draft<N>>>, AllocError>
    requires schema { All (λ ledger. ledger.schema ≡ schema.now) whole.builder.items }
    requires most { sum_by (λ ledger. length ledger.accounts) whole.builder.items ≤ 64 }
    ensures { IfOk result (λ gatherers. IsDrafted schema.now whole gatherers.items) }
{
    let Gatherer {
        builder: ledgers,
        place,
        inlets,
        wanting,
    } = whole;
    let builder = Draft::of_shares(alloc, schema, ledgers)?;
    let mut gatherers = Vec::with_capacity(alloc, 1)?;
    gatherers.push(Gatherer {
        builder,
        place,
        inlets,
        wanting,
    })?;
    Ok(gatherers)
}

/// Feeds 1 to 64 sources in as many shares as there are threads, 8 at most, and gives the draft of the ledgers of all
/// shares, over all grouping sets, with the links of all sources. The faults are those of `feed_all`.
pub(crate) fn feed_in_shares<
    T: Threads + Wait + Sync,
    R: Read + Drop + Send,
    G: Gate + Sync,
    N: Numbers,
>(
    rt: &T,
    alloc: Global,
    schema: &Schema,
    readers: Vec<R>,
    settings: &Settings,
    gate: &G,
) -> Result<Vec<Gatherer<Draft<N>>>, FeedingFault>
    requires readers { (1 ≤ vec_len readers) × (vec_len readers ≤ 64) }
    ensures taken { IfOk result (λ gatherers. TakenInParts schema.now
        (map R.Read.remaining readers.items) 1 gatherers.items) }
    ensures err { IfErr result (ExplainsFeeding schema.now (map R.Read.remaining readers.items)) }
{
    let sources = readers.len() as u32;
    let shares = shares_of(settings.threads(), sources);
    let Ok(ledgers) = new_ledgers(alloc, schema, sources, shares) else {
        return Err(FeedingFault::Memory);
    };
    let mut wholes = feed_shares(
        rt,
        alloc,
        schema,
        readers,
        settings.capacity(),
        ledgers,
        gate,
    )?;
    match drafted(alloc, schema, wholes.swap_remove(0)) {
        Ok(gatherers) => Ok(gatherers),
        Err(_) => Err(FeedingFault::Full),
    }
}
