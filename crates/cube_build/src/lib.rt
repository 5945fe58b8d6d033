//! Builders: the ledger of many sources, and the cube of its facts.
//!
//! A [`Builder`] keeps a ledger and the cube of its facts, [`Parted`] a ledger and the cubes of parts. Cubes of parts
//! ([`HoldsCube`]) are asked together, and answer as their whole cube. [`build`] runs a feeder for each source and gives back
//! what was counted of the feeds ([`Counts`]), on threads, [`build_where`] over the facts of interest alone; [`build_plain`] does so
//! on the caller's thread, and [`build_ledger`] builds what a ledger has. [`take_where`] and [`take_ledger`] give what one
//! builder took before a cube is filled ([`Taken`]).
#![tactic(auto)]

mod builder;
mod building;
mod built;
mod counter;
mod counter_shares;
mod counting;
mod counts;
mod draft;
mod fill;
mod joined;
pub mod laws;
mod making;
mod parted;
mod plain;
mod shard_ledger;
mod sharded;
mod sharding;
mod shares;
mod taken;
mod taking;
mod trace;
mod united;

pub use builder::Builder;
pub use building::{build, build_ledger, build_where};
pub use built::Built;
pub use counts::Counts;
pub use cube_rings::{FeedingFault, Gate, OpenGate, Parcel, Settings};
pub use joined::{AsksCube, DrillDown, HoldsCube, Slice, ordered_parts, row_above, rows_of_parts};
pub use parted::{Part, Parted};
pub use plain::build_plain;
pub use shares::{new_ledgers, shares_of};
pub use taken::{Taken, take_ledger, take_where};
