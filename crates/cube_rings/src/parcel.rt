//! What goes over a link, and what a feeder leaves.
use crate::lots::LotReceipt;
use cube_feed::{FeedFault, FeedItem};

/// What a feeder sends: an item of its feed, or the end, after which nothing comes (this project's choice).
#[derive(Debug, Drop)]
pub enum Parcel {
    Line(FeedItem),
    End,
}

/// What a feeder leaves: the receipts of its links, and why its feed gave no more items.
#[derive(Drop)]
pub struct FeederEnd {
    /// Entry j is the receipt of the link to builder j, where one was given; none past the last builder.
    pub receipts: [Option<LotReceipt>; 8],
    /// The fault of the feed, or of the copies of an item; none where the feed came to its end.
    pub stop: Option<FeedFault>,
}
