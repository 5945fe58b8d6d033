//! The copies of an item, one for each builder.
ghost use Rattle.std.specs.Prelude.{◌≡◌, ◌≤◌, ◌+◌, length, vec_len, OnOk, IfOk, IfSome};
ghost use Rattle.std.specs.List.{All};
ghost use Rattle.cube_feed.specs.Feed.{Gives};

use crate::lots::LotOutlet;
use cube_feed::{Feed, FeedFault, FeedItem};
use std::alloc::{AllocError, Global};
use std::io::Read;

// Puts copies of an item into a list in place of what it has: one less than so many.
fn fill_copies(
    alloc: Global,
    item: &FeedItem,
    count: usize,
    copies: &mut Vec<FeedItem>,
) -> Result<(), AllocError>
    requires { 1 ≤ count }
    ensures count { OnOk result (vec_len copies.new + 1 ≡ count) }
    ensures equal { OnOk result (All (λ copy. copy ≡ item.now) copies.new.items) }
{
    copies.clear();
    for _ in 1..count {
        let copy = item.copy(alloc)?;
        copies.push(copy)?;
    }
    Ok(())
}

// Makes room for one more line in the lot of each outlet.
fn make_room(alloc: Global, outlets: &mut [LotOutlet]) -> Result<(), AllocError>
    ensures { outlets.new ≡ outlets.old }
{
    for outlet in outlets.iter_mut() {
        outlet.make_room(alloc)?;
    }
    Ok(())
}

/// Takes the next item of a feed and makes its copies, one for each outlet but the last; None where the feed came to its
/// end. Before, it makes room for a line in the lots of all outlets.
///
/// Room or a copy that finds no memory is the feed's fault F1.
pub(crate) fn next_copies<R: Read>(
    alloc: Global,
    feed: &mut Feed<'_, R>,
    outlets: &mut [LotOutlet],
    copies: &mut Vec<FeedItem>,
) -> Result<Option<FeedItem>, FeedFault>
    requires { 1 ≤ length outlets.old }
    ensures outlets { outlets.new ≡ outlets.old }
    ensures gives { Gives feed.old.to_come result feed.new.to_come }
    ensures copies { IfOk result (λ next. IfSome next (λ item.
        (vec_len copies.new + 1 ≡ length outlets.old) × All (λ copy. copy ≡ item) copies.new.items)) }
{
    let Ok(()) = make_room(alloc, outlets) else {
        return Err(FeedFault::Memory);
    };
    let Some(item) = feed.next()? else {
        return Ok(None);
    };
    let item = FeedItem::new(item);
    let Ok(()) = fill_copies(alloc, &item, outlets.len(), copies) else {
        drop(item);
        return Err(FeedFault::Memory);
    };
    Ok(Some(item))
}
