//! The ledger of one shard of a feed.
ghost use Rattle.std.specs.Prelude.{◌≡◌, ◌≤◌, ◌<◌, ◌++◌, ◌%◌, List, length, IfOk, OnOk, OnErr};
ghost use Rattle.cube_core.specs.Life.{id_of};
ghost use Rattle.cube_core.specs.Shard.{fnv_hash};
ghost use Rattle.cube_core.specs.declared.change.Item.{Item as TheItem};
ghost use Rattle.cube_ledger.specs.Ledger.{AccountStandsAt, account_of};
ghost use Rattle.cube_build.specs.Sharded.{IsNewShard, Settles, shard_of_what, with_waiting};

use cube_core::{Change, Schema, fnv_hash};
use cube_feed::FeedItem;
use cube_ledger::{Ledger, id_of};
use std::alloc::{AllocError, Global};
use std::marker::Model;
use std::mem::replace;

/// A ledger of one source for the ids of a shard, with the items that wait to be entered in it.
#[derive(Drop)]
pub(crate) struct ShardLedger {
    alloc: Global,
    room: usize,
    ledger: Ledger,
    waiting: Vec<FeedItem>,
    is_spent: bool,
}

impl Model for ShardLedger {
    ghost use Rattle.std.specs.Prelude.{◌≡◌, length};
    ghost use Rattle.cube_build.specs.Sharded.{ShardView};

    ghost Value = { ShardView };

    ghost view = { λ s. record { ledger = s.ledger; waiting = s.waiting.items; is_spent = s.is_spent } };

    ghost invariant = { λ s. length s.ledger.accounts ≡ 1 };
}

impl ShardLedger {
    /// The ledger of a shard that has taken nothing, with room for so many items to wait. The only error is that memory
    /// ran out.
    pub fn new(alloc: Global, schema: &Schema, room: usize) -> Result<ShardLedger, AllocError>
        ensures { IfOk result (IsNewShard schema.now) }
    {
        let ledger = Ledger::new(alloc, schema, 1)?;
        let waiting = Vec::with_capacity(alloc, room)?;
        Ok(ShardLedger {
            alloc,
            room,
            ledger,
            waiting,
            is_spent: false,
        })
    }

    /// Has an item wait. The only error is that memory ran out; the shard is as it was then.
    pub fn wait(&mut self, item: FeedItem) -> Result<(), AllocError>
        ensures waits { OnOk result (self.new ≡ with_waiting self.old item) }
        ensures same { OnErr result (self.new ≡ self.old) }
    {
        self.waiting.push(item)?;
        Ok(())
    }

    /// Enters the items that wait, in their order. Where memory runs out it is spent, and the items that are left are let
    /// go of.
    pub fn settle(&mut self)
        ensures { Settles self.old self.new }
    {
        let waiting = replace(&mut self.waiting, Vec::new(self.alloc));
        let is_short = enter_all(&mut self.ledger, waiting).is_err();
        self.is_spent = self.waiting.reserve(self.room).is_err() || is_short;
    }

    /// Whether memory ran out in entering.
    pub fn is_spent(&self) -> bool
        ensures { result ≡ self.now.is_spent }
    {
        self.is_spent
    }

    /// The ledger, without the items that wait.
    pub fn into_ledger(self) -> Ledger
        ensures value { result ≡ self.ledger }
        ensures one { length result.accounts ≡ 1 }
    {
        self.ledger
    }
}

// Enters items in a ledger of one source. The only error is that memory ran out.
fn enter_all(ledger: &mut Ledger, items: Vec<FeedItem>) -> Result<(), AllocError>
    requires { length ledger.old.accounts ≡ 1 }
    ensures schema { ledger.new.schema ≡ ledger.old.schema }
    ensures one { length ledger.new.accounts ≡ 1 }
    ensures stands { OnOk result ((done : List TheItem) →
        AccountStandsAt ledger.old.schema done (account_of ledger.old 1) →
        AccountStandsAt ledger.old.schema (done ++ items.items) (account_of ledger.new 1)) }
{
    for item in items {
        ledger.apply_fed(1, item)?;
    }
    Ok(())
}

/// Which of so many shards an item belongs to.
pub(crate) fn shard_of_item(count: usize, item: &FeedItem) -> usize
    requires { 1 ≤ count }
    ensures shard { result ≡ shard_of_what count item.now.what }
    ensures within { result < count }
{
    match item.what() {
        Ok(change) => shard_of_change(count, change),
        Err(_) => 0,
    }
}

// Which of so many shards a change belongs to.
fn shard_of_change(count: usize, change: &Change) -> usize
    requires { 1 ≤ count }
    ensures shard { result ≡ fnv_hash (id_of change.now) % count }
    ensures within { result < count }
{
    let hash = fnv_hash(id_of(change).as_str().as_bytes());
    (hash % count as u64) as usize
}
