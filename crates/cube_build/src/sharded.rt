//! One feed taken in shards, whose books are entered by all threads side by side.
ghost use Rattle.std.specs.Prelude.{◌≡◌, ◌≤◌, ◌<◌, ℕ, false, true, length, get_or, map, IfOk, OnOk, OnErr};
ghost use Rattle.std.specs.List.{All};
ghost use Rattle.cube_core.specs.Arrival.{Arrivals};
ghost use Rattle.cube_build.specs.Sharded.{AreCountsAt, AreNewShards, Awaits, IsNewSharded, Keeps, NoneWaits, SettleAlike, ShardView, ShardedStandsFrom, ShardedView};

use crate::counts::Counts;
use crate::draft::put_together;
use crate::shard_ledger::{ShardLedger, shard_of_item};
use crate::united::unite;
use cube_cells::Numbers;
use cube_core::{Condition, Schema};
use cube_feed::{FeedItem, TakesItems};
use cube_ledger::Ledger;
use std::alloc::{AllocError, Global};
use std::marker::Model;
use std::thread::{Threads, join_mut};

/// How many items wait at most before they are entered.
const BATCH: usize = 8_192;

/// Below so many items they are entered on the caller's thread alone.
const FEW: usize = 1_024;

/// The ledger of one feed in 1 to 8 shards, each with the books of its ids. The items wait, and are entered in lots, in the
/// shards side by side.
///
/// It takes items whose numbers rise, as those of a feed do.
#[derive(Drop)]
pub(crate) struct ShardedLedger<'t, T: Threads> {
    rt: &'t T,
    alloc: Global,
    fresh: Ledger,
    shards: Vec<ShardLedger>,
    last: u32,
    waiting: usize,
    is_spent: bool,
}

impl<'t, T: Threads> Model for ShardedLedger<'t, T> {
    ghost use Rattle.cube_build.specs.Sharded.{ShardedView, IsSharded};

    ghost Value = { ShardedView };

    ghost view = { λ s. record {
      schema = s.fresh.schema;
      shards = s.shards.items;
      last = s.last;
      is_spent = s.is_spent;
    } };

    ghost invariant = { λ s. IsSharded s.fresh s.shards.items };
}

impl<'t, T: Threads> TakesItems for ShardedLedger<'t, T> {
    ghost use Rattle.std.specs.Prelude.{false};
    ghost use Rattle.cube_build.specs.Sharded.{ShardedStandsFrom};

    ghost sources = { λ sharded. 1 };

    ghost stands = { ShardedStandsFrom };

    ghost full = { λ sharded. false };

    fn sources(&self) -> u32 {
        1
    }

    fn is_full(&self) -> bool {
        false
    }

    fn take_item(&mut self, source: u32, item: FeedItem) -> Result<(), AllocError> {
        let _ = source;
        self.put_in(item)?;
        self.settle_if_many()
    }
}

impl<'t, T: Threads> ShardedLedger<'t, T> {
    /// A ledger in so many shards that has taken nothing. The only error is that memory ran out.
    pub fn new(
        rt: &'t T,
        alloc: Global,
        schema: &Schema,
        count: usize,
    ) -> Result<ShardedLedger<'t, T>, AllocError>
        requires some { 1 ≤ count }
        requires few { count ≤ 8 }
        ensures { IfOk result (IsNewSharded schema.now) }
    {
        let fresh = Ledger::new(alloc, schema, 1)?;
        let shards = new_shards(alloc, schema, count)?;
        Ok(ShardedLedger {
            rt,
            alloc,
            fresh,
            shards,
            last: 0,
            waiting: 0,
            is_spent: false,
        })
    }

    // Has an item wait in its shard. The only error is that memory ran out, or that its number doesn't rise.
    fn put_in(&mut self, item: FeedItem) -> Result<(), AllocError>
        ensures awaits { OnOk result (Awaits item self.old self.new) }
        ensures spent { OnErr result (self.new.is_spent ≡ true) }
    {
        let number = item.number();
        if self.is_spent || number <= self.last {
            drop(item);
            self.is_spent = true;
            return Err(AllocError);
        }
        let place = shard_of_item(self.shards.len(), &item);
        if self.shards[place].wait(item).is_err() {
            self.is_spent = true;
            return Err(AllocError);
        }
        self.last = number;
        self.waiting = self.waiting.saturating_add(1);
        Ok(())
    }

    // Enters what waits, where it is a lot. The only error is that memory ran out.
    fn settle_if_many(&mut self) -> Result<(), AllocError>
        ensures keeps { OnOk result (Keeps self.old self.new) }
        ensures spent { OnErr result (self.new.is_spent ≡ true) }
    {
        if self.waiting < BATCH {
            return Ok(());
        }
        self.settle()
    }

    // Enters what waits. The only error is that memory ran out.
    fn settle(&mut self) -> Result<(), AllocError>
        ensures keeps { OnOk result (Keeps self.old self.new) }
        ensures none_waits { OnOk result (NoneWaits self.new.shards) }
        ensures spent { OnErr result (self.new.is_spent ≡ true) }
    {
        let threads = if self.waiting < FEW {
            1
        } else {
            self.shards.len()
        };
        settle_shards(self.rt, threads, self.shards.as_mut_slice());
        self.waiting = 0;
        if is_any_spent(&self.shards) {
            self.is_spent = true;
            return Err(AllocError);
        }
        Ok(())
    }
}

impl<'t, T: Threads + Sync> ShardedLedger<'t, T> {
    /// The counts of the facts of interest of all that was taken, made by so many threads; the books are let go of. The only
    /// error is that memory ran out.
    pub fn finish<N: Numbers + Send + Sync>(
        self,
        threads: usize,
        conditions: &[Condition],
    ) -> Result<Counts<N>, AllocError>
        ensures { IfOk result (λ counts. (first : ShardedView) (arrivals : Arrivals) →
            ShardedStandsFrom first self.entry arrivals →
            AreCountsAt conditions.now first.schema arrivals counts) }
    {
        let mut whole = self;
        if whole.is_spent {
            return Err(AllocError);
        }
        whole.settle()?;
        let ShardedLedger {
            rt,
            alloc,
            fresh,
            shards,
            last: _,
            waiting: _,
            is_spent: _,
        } = whole;
        let ledgers = ledgers_of(alloc, shards)?;
        let apart = put_together(alloc, fresh.schema(), ledgers)?;
        unite(rt, alloc, threads, apart, fresh, conditions)
    }
}

// So many shards that have taken nothing. The only error is that memory ran out.
fn new_shards(alloc: Global, schema: &Schema, count: usize) -> Result<Vec<ShardLedger>, AllocError>
    requires { 1 ≤ count }
    ensures { IfOk result (λ shards. AreNewShards schema.now count shards.items) }
{
    let room = BATCH / count + BATCH / 16;
    let mut shards = Vec::with_capacity(alloc, count)?;
    for _ in 0..count {
        shards.push(ShardLedger::new(alloc, schema, room)?)?;
    }
    Ok(shards)
}

// Enters what waits in each shard, by so many threads: each enters the items of a piece of the shards.
#[cycle(pieces)]
fn settle_shards<T: Threads>(rt: &T, pieces: usize, shards: &mut [ShardLedger])
    ensures { SettleAlike shards.old shards.new }
{
    if pieces < 2 {
        settle_in_turn(shards);
    } else {
        let (first, others) = shards.split_at_mut(shards.len() / pieces);
        settle_both(rt, pieces, first, others);
    }
}

// Enters what waits in the first piece of the shards, and in the others, side by side.
#[cycle(pieces)]
fn settle_both<T: Threads>(
    rt: &T,
    pieces: usize,
    first: &mut [ShardLedger],
    others: &mut [ShardLedger],
)
    requires { 1 < pieces }
    ensures first { SettleAlike first.old first.new }
    ensures others { SettleAlike others.old others.new }
{
    let mut front = ||
        ensures { SettleAlike first.entry.now first.exit.now }
    { settle_in_turn(first) };
    let mut back = ||
        requires { 1 < pieces }
        ensures { SettleAlike others.entry.now others.exit.now }
    { settle_shards(rt, pieces - 1, others) };
    join_mut(rt, &mut front, &mut back);
}

// Enters what waits in each shard, one after another.
fn settle_in_turn(shards: &mut [ShardLedger])
    ensures { SettleAlike shards.old shards.new }
{
    for shard in shards.iter_mut() {
        shard.settle();
    }
}

fn is_any_spent(shards: &[ShardLedger]) -> bool
    ensures { result ≡ false → (place : ℕ) (d : ShardView) → place < length shards.now →
        (get_or shards.now place d).is_spent ≡ false }
{
    shards.iter().any(|shard| shard.is_spent())
}

// The ledgers of shards, in their order. The only error is that memory ran out.
fn ledgers_of(alloc: Global, shards: Vec<ShardLedger>) -> Result<Vec<Ledger>, AllocError>
    ensures ledgers { IfOk result (λ ledgers. ledgers.items ≡ map (λ shard. shard.ledger) shards.items) }
    ensures one { IfOk result (λ ledgers. All (λ ledger. length ledger.accounts ≡ 1) ledgers.items) }
{
    let mut ledgers = Vec::with_capacity(alloc, shards.len())?;
    for shard in shards {
        ledgers.push(shard.into_ledger())?;
    }
    Ok(ledgers)
}
