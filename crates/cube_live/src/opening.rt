//! The opening of a session: all feeds are taken to their ends before its first record.
ghost use Rattle.std.specs.Prelude.{◌≡◌, ◌≤◌, ◌+◌, ◌++◌, ◌∷◌, [], map, replicate, sum_by, vec_len};
ghost use Rattle.std.specs.Prelude.{IfOk, IfErr, OnOk, OnErr};
ghost use Rattle.std.specs.List.{All};
ghost use Rattle.cube_core.specs.Arrival.{Arrivals};
ghost use Rattle.cube_ledger.specs.Ledger.{new_account};
ghost use Rattle.cube_rings.specs.FeedingAll.{ExplainsFeeding};
ghost use Rattle.cube_live.specs.Live.{LiveStandsAt};
ghost use Rattle.cube_live.specs.Opening.{AreNewOpenings, IsFilledUp, IsJoinedOpening, IsUnnumbered, OpeningStandsAt, OpeningStandsFrom, OpeningView, OpensOver, opening_ledgers, opening_sources};

use crate::live::Live;
use cube_build::{Parted, new_ledgers, shares_of};
use cube_core::Schema;
use cube_feed::{FeedItem, TakesItems};
use cube_ledger::Ledger;
use cube_rings::{FeedingFault, Gate, Gatherer, Settings, feed_shares};
use std::alloc::{AllocError, Global};
use std::io::Read;
use std::marker::Model;
use std::sync::Wait;
use std::thread::Threads;

/// The ledger of sources, and the number of the last record of each that was taken.
#[derive(Drop)]
struct Opening {
    ledger: Ledger,
    most: u32,
    numbers: Vec<u32>,
}

impl Model for Opening {
    ghost use Rattle.cube_live.specs.Opening.{IsOpening, OpeningView};

    ghost Value = { OpeningView };

    ghost view = { λ o. record { ledger = o.ledger; numbers = o.numbers.items } };

    ghost invariant = { λ o. IsOpening o.ledger o.most o.numbers.items };
}

impl TakesItems for Opening {
    ghost use Rattle.std.specs.Prelude.{false};
    ghost use Rattle.cube_live.specs.Opening.{OpeningStandsFrom, opening_sources};

    ghost sources = { opening_sources };

    ghost stands = { OpeningStandsFrom };

    ghost full = { λ opening. false };

    fn sources(&self) -> u32 {
        self.ledger.sources()
    }

    fn is_full(&self) -> bool {
        false
    }

    fn take_item(&mut self, source: u32, item: FeedItem) -> Result<(), AllocError> {
        self.apply(source, item)
    }
}

impl Opening {
    // The opening of a ledger of which no item came. The only error is that memory ran out.
    fn of(alloc: Global, ledger: Ledger) -> Result<Opening, AllocError>
        ensures ledger { IfOk result (λ opening. opening.ledger ≡ ledger) }
        ensures numbers { IfOk result IsUnnumbered }
    {
        let most = ledger.schema().max_records();
        let numbers = vec![in alloc; 0u32; ledger.sources() as usize]?;
        Ok(Opening {
            ledger,
            most,
            numbers,
        })
    }

    // The opening of so many sources of which no item came. The only error is that memory ran out.
    fn new(alloc: Global, schema: &Schema, sources: u32) -> Result<Opening, AllocError>
        requires { sources ≤ 64 }
        ensures schema { IfOk result (λ opening. opening.ledger.schema ≡ schema.now) }
        ensures accounts { IfOk result (λ opening.
            opening.ledger.accounts ≡ replicate sources new_account) }
        ensures numbers { IfOk result (λ opening. opening.numbers ≡ replicate sources 0) }
    {
        Opening::of(alloc, Ledger::new(alloc, schema, sources)?)
    }

    // Takes the next item of a source, unless it is numbered past those that the schema takes, which no good feed gives.
    // The only error is that memory ran out.
    fn apply(&mut self, source: u32, item: FeedItem) -> Result<(), AllocError>
        requires { (1 ≤ source) × (source ≤ opening_sources self.old) }
        ensures sources { opening_sources self.new ≡ opening_sources self.old }
        ensures stands { OnOk result ((first : OpeningView) (arrivals : Arrivals) →
            OpeningStandsFrom first self.old arrivals →
            OpeningStandsFrom first self.new (arrivals ++ (source, item) ∷ [])) }
        ensures unchanged { OnErr result ((first : OpeningView) (arrivals : Arrivals) →
            OpeningStandsFrom first self.old arrivals → OpeningStandsFrom first self.new arrivals) }
    {
        let number = item.number();
        if number > self.most {
            drop(item);
            return Err(AllocError);
        }
        self.ledger.apply_fed(source, item)?;
        self.numbers[source as usize - 1] = number;
        Ok(())
    }

    // The opening that has the sources of another of the same schema after its own. The only error is that memory ran out.
    fn joined(self, more: Opening) -> Result<Opening, AllocError>
        requires schema { more.ledger.schema ≡ self.ledger.schema }
        requires most { opening_sources self + opening_sources more ≤ 64 }
        ensures { IfOk result (IsJoinedOpening self more) }
    {
        let Opening {
            mut ledger,
            most,
            mut numbers,
        } = self;
        let mut others = more;
        ledger.append(others.ledger)?;
        numbers.append(&mut others.numbers)?;
        Ok(Opening {
            ledger,
            most,
            numbers,
        })
    }

    // What a session starts from, where at most so many threads make the cubes.
    fn finish<'s>(self, alloc: Global, schema: &'s Schema, threads: usize) -> Live<'s>
        requires schema { self.ledger.schema ≡ schema.now }
        requires sources { opening_sources self ≡ 64 }
        ensures schema { result.schema ≡ schema.now }
        ensures stands { (arrivals : Arrivals) →
            OpeningStandsAt self arrivals → LiveStandsAt result arrivals }
    {
        Live::new(
            alloc,
            schema,
            Parted::of(alloc, self.ledger),
            self.numbers,
            threads,
        )
    }
}

/// Opens a session over at most 64 feeds, a reader each: the feed of source s is taken to its end, and the cube is made
/// of what is present then, over all grouping sets of the schema.
///
/// Each feeder runs on a thread of its own; without feeds none is started for them. The settings say the room of each
/// link, and how many threads make the cube. The feeds are taken in as many shares of the sources, 8 at most, the first
/// on the caller's thread and each other on its own, whatever the settings say of builders. The first of these faults
/// that holds is the answer: `Memory` or `NoThread`, where no record was read; `Feed` of the lowest source whose feed is
/// at fault; `Full` where a growth was refused later, also to put the shares together; `Unsealed` of the lowest source of
/// which a link gave no receipt.
pub fn open<'s, T: Threads + Wait + Sync, R: Read + Drop + Send, G: Gate + Sync>(
    rt: &T,
    alloc: Global,
    schema: &'s Schema,
    readers: Vec<R>,
    settings: &Settings,
    gate: &G,
) -> Result<Live<'s>, FeedingFault>
    requires { vec_len readers ≤ 64 }
    ensures ok { IfOk result (λ live.
        OpensOver schema.now (map R.Read.remaining readers.items) (LiveStandsAt live)) }
    ensures schema { IfOk result (λ live. live.schema ≡ schema.now) }
    ensures err { IfErr result (ExplainsFeeding schema.now (map R.Read.remaining readers.items)) }
{
    let mut live = open_unsettled(rt, alloc, schema, readers, settings, gate)?;
    match live.settle(rt) {
        Ok(()) => Ok(live),
        Err(_) => Err(FeedingFault::Full),
    }
}

/// Opens a session as [`open`] does, but the cubes are made when they are settled first, or asked.
pub fn open_unsettled<'s, T: Threads + Wait + Sync, R: Read + Drop + Send, G: Gate + Sync>(
    rt: &T,
    alloc: Global,
    schema: &'s Schema,
    readers: Vec<R>,
    settings: &Settings,
    gate: &G,
) -> Result<Live<'s>, FeedingFault>
    requires { vec_len readers ≤ 64 }
    ensures ok { IfOk result (λ live.
        OpensOver schema.now (map R.Read.remaining readers.items) (LiveStandsAt live)) }
    ensures schema { IfOk result (λ live. live.schema ≡ schema.now) }
    ensures err { IfErr result (ExplainsFeeding schema.now (map R.Read.remaining readers.items)) }
{
    let opening = fed(rt, alloc, schema, readers, settings, gate)?;
    Ok(opening.finish(alloc, schema, settings.threads()))
}

// An opening of 64 sources that has taken all feeds, in as many shares as the settings have threads, 8 at most; no thread
// is started where there are none.
fn fed<T: Threads + Wait + Sync, R: Read + Drop + Send, G: Gate + Sync>(
    rt: &T,
    alloc: Global,
    schema: &Schema,
    readers: Vec<R>,
    settings: &Settings,
    gate: &G,
) -> Result<Opening, FeedingFault>
    requires { vec_len readers ≤ 64 }
    ensures ok { IfOk result (λ fed.
        OpensOver schema.now (map R.Read.remaining readers.items) (OpeningStandsAt fed)) }
    ensures schema { IfOk result (λ fed. fed.ledger.schema ≡ schema.now) }
    ensures sources { IfOk result (λ fed. opening_sources fed ≡ 64) }
    ensures err { IfErr result (ExplainsFeeding schema.now (map R.Read.remaining readers.items)) }
{
    if readers.is_empty() {
        let Ok(opening) = Opening::new(alloc, schema, 64) else {
            return Err(FeedingFault::Memory);
        };
        return Ok(opening);
    }
    let sources = readers.len() as u32;
    let Ok(openings) = new_openings(alloc, schema, sources, settings.threads()) else {
        return Err(FeedingFault::Memory);
    };
    let mut wholes = feed_shares(
        rt,
        alloc,
        schema,
        readers,
        settings.capacity(),
        openings,
        gate,
    )?;
    let Gatherer {
        builder: openings,
        place: _,
        inlets,
        wanting: _,
    } = wholes.swap_remove(0);
    drop(inlets);
    match put_together(alloc, schema, openings) {
        Ok(opening) => Ok(opening),
        Err(_) => Err(FeedingFault::Full),
    }
}

// New openings of as many shares as there are threads, 8 at most, with so many sources together. The only error is that
// memory ran out.
fn new_openings(
    alloc: Global,
    schema: &Schema,
    sources: u32,
    threads: usize,
) -> Result<Vec<Opening>, AllocError>
    requires sources { (1 ≤ sources) × (sources ≤ 64) }
    requires threads { 1 ≤ threads }
    ensures { IfOk result (λ openings. AreNewOpenings schema.now sources openings.items) }
{
    let shares = shares_of(threads, sources);
    openings_of(alloc, new_ledgers(alloc, schema, sources, shares)?)
}

// The openings of ledgers of which no item came, in their order. The only error is that memory ran out.
fn openings_of(alloc: Global, ledgers: Vec<Ledger>) -> Result<Vec<Opening>, AllocError>
    ensures ledgers { IfOk result (λ openings. opening_ledgers openings.items ≡ ledgers.items) }
    ensures numbers { IfOk result (λ openings. All IsUnnumbered openings.items) }
{
    let mut openings = Vec::with_capacity(alloc, ledgers.len())?;
    for ledger in ledgers {
        openings.push(Opening::of(alloc, ledger)?)?;
    }
    Ok(openings)
}

// The opening of 64 sources that has those of all of these, in their order, and after them such of which no item came. The
// only error is that memory ran out.
fn put_together(
    alloc: Global,
    schema: &Schema,
    openings: Vec<Opening>,
) -> Result<Opening, AllocError>
    requires schema { All (λ opening. opening.ledger.schema ≡ schema.now) openings.items }
    requires most { sum_by opening_sources openings.items ≤ 64 }
    ensures { IfOk result (IsFilledUp schema.now openings.items) }
{
    let mut whole = Opening::new(alloc, schema, 0)?;
    for opening in openings {
        whole = whole.joined(opening)?;
    }
    let others = Opening::new(alloc, schema, 64 - whole.ledger.sources())?;
    whole.joined(others)
}
