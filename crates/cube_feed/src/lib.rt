//! The reader of a feed: from the bytes that any reader gives to the items that they say, one at a time.
//!
//! [`Feed::next`] gives the items in order, then `None`; a [`FeedFault`] is its last word. What takes the items of
//! several feeds in is told by [`TakesItems`] alone, to which each comes as a [`FeedItem`]. [`change_of_record`] gives the
//! change that the fields of a record spell, or its first fault.
#![tactic(auto)]

mod arranged;
mod columns;
mod condition;
mod contiguous;
mod fault;
mod feed;
mod feed_bytes;
mod feed_item;
mod feed_text;
mod field;
mod header;
mod line;
mod place;
mod plain;
mod record_reader;
mod record_source;
mod rest;
mod spelled_list;
mod takes_items;
mod units;

pub use condition::read_condition;
pub use fault::FeedFault;
pub use feed::Feed;
pub use feed_item::FeedItem;
pub use record_reader::RecordReader;
pub use rest::{change_of_record, is_read, put_rest};
pub use takes_items::TakesItems;
