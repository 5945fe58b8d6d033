//! Items as feeds give them.
ghost use Rattle.std.specs.Prelude.{◌≡◌, IfOk};
ghost use Rattle.cube_feed.specs.FeedItems.{SomeSchemaTakes};

use cube_core::{Change, Item, LineFault};
use std::alloc::{AllocError, Global};
use std::marker::Model;

/// An item whose change, where it says one, some schema takes, as those that [`Feed::next`](crate::Feed::next) gives.
/// So its id and its texts are lawful wherever it comes to, and aren't looked at again. Contracts see it as the item.
#[derive(Debug, Drop)]
pub struct FeedItem {
    item: Item,
}

impl Model for FeedItem {
    ghost use Rattle.cube_core.specs.declared.change.Item.{Item};
    ghost use Rattle.cube_feed.specs.FeedItems.{SomeSchemaTakes};

    ghost Value = { Item };

    ghost view = { λ f. f.item };

    ghost invariant = { λ f. SomeSchemaTakes f.item.what };
}

impl FeedItem {
    /// An item whose change some schema takes; nothing of it is looked at.
    pub fn new(item: Item) -> FeedItem
        requires { SomeSchemaTakes item.what }
        ensures { result ≡ item }
    {
        FeedItem { item }
    }

    /// The number of its record, from 1.
    pub fn number(&self) -> u32
        ensures { result ≡ self.now.number }
    {
        self.item.number
    }

    /// What it says: a change, or the fault of its line.
    pub fn what(&self) -> &Result<Change, LineFault>
        ensures what { result.now ≡ self.now.what }
        ensures taken { SomeSchemaTakes result.now }
    {
        &self.item.what
    }

    /// The item itself.
    pub fn into_item(self) -> Item
        ensures item { result ≡ self }
        ensures taken { SomeSchemaTakes result.what }
    {
        let FeedItem { item } = self;
        item
    }

    /// A copy; the only error is that memory ran out.
    pub fn copy(&self, alloc: Global) -> Result<FeedItem, AllocError>
        ensures { IfOk result (λ copy. copy ≡ self.now) }
    {
        let item = self.item.copy(alloc)?;
        Ok(FeedItem { item })
    }
}
