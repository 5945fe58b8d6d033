//! Sending a feed to the builders.
ghost use Rattle.std.specs.Prelude.{◌≡◌, ◌≤◌, vec_len, length};
ghost use Rattle.cube_rings.specs.Feeding.{SendsAll, AreReceipts, Feeds};

use crate::copies::next_copies;
use crate::gate::Gate;
use crate::lots::{LotOutlet, LotReceipt};
use crate::offering::{Offering, offer_copies, offer_end};
use crate::parcel::FeederEnd;
use cube_feed::{Feed, FeedFault};
use std::alloc::Global;
use std::io::Read;
use std::sync::Wait;

// Sends each item of a feed to each builder and then the end. The answer is the fault that stopped it, if one did.
fn send_all<W: Wait, R: Read + Drop, G: Gate>(
    rt: &W,
    alloc: Global,
    source: u32,
    feed: &mut Feed<'_, R>,
    outlets: &mut [LotOutlet],
    gate: &G,
) -> Option<FeedFault>
    requires { (1 ≤ length outlets.old) × (length outlets.old ≤ 8) }
    ensures { SendsAll feed.old.to_come outlets.old outlets.new result }
{
    let mut copies = Vec::new(alloc);
    let mut offering = Offering::new(source, gate);
    for _ in rt.forever() {
        let stop = match next_copies(alloc, feed, outlets, &mut copies) {
            Ok(Some(item)) => {
                offer_copies(rt, &mut offering, outlets, item, &mut copies);
                continue;
            }
            Ok(None) => None,
            Err(fault) => Some(fault),
        };
        offer_end(rt, &mut offering, outlets);
        return stop;
    }
    unreachable!()
}

// Finishes each outlet.
fn finish_all(outlets: Vec<LotOutlet>) -> [Option<LotReceipt>; 8]
    requires { vec_len outlets ≤ 8 }
    ensures { AreReceipts outlets.items result }
{
    let mut receipts = [None, None, None, None, None, None, None, None];
    let mut outlets = outlets;
    while let Some(outlet) = outlets.pop() {
        receipts[outlets.len()] = outlet.finish();
    }
    receipts
}

/// Sends each item of a feed to each builder, then the end, and finishes the links; outlet j leads to builder j.
///
/// Before it offers any copy of an item it makes room for it in each lot, and all copies, none for one builder; room or a copy
/// that finds no memory stops it with F1, and that item is in no link. While a link is full it yields, and after a while
/// sleeps for less than a millisecond at a time, where the link has room for 64 lots or more.
pub fn feed_out<W: Wait, R: Read + Drop, G: Gate>(
    rt: &W,
    alloc: Global,
    source: u32,
    feed: Feed<'_, R>,
    outlets: Vec<LotOutlet>,
    gate: &G,
) -> FeederEnd
    requires { (1 ≤ vec_len outlets) × (vec_len outlets ≤ 8) }
    ensures { Feeds feed.entry.to_come outlets.items result }
{
    let mut feed = feed;
    let mut outlets = outlets;
    let stop = send_all(rt, alloc, source, &mut feed, outlets.as_mut_slice(), gate);
    drop(feed);
    FeederEnd {
        receipts: finish_all(outlets),
        stop,
    }
}
