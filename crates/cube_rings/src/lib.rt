//! The feeding of whatever takes items: a thread for each source, whose items one to eight builders take from bounded rings.
//!
//! A ring joins two threads: an outlet sends and an inlet receives, the bounded buffer of one producer and one consumer
//! (Lamport 1977). Only [`link`] takes memory, and no call waits or takes a lock. The outlet's `finish` gives a receipt, which
//! names every item sent; held against the inlet, it tells what hasn't arrived yet (this project's choice).
//!
//! [`feed_out`] sends the items of one feed to each builder as [`Parcel`]s, which go over a link in lots, and [`gather`] takes
//! them in; [`settle`] holds the
//! receipts of all links against what was taken. [`feed_all`] runs the feeds of all sources into whatever
//! [takes items](cube_feed::TakesItems), and [`feed_shares`] does where each builder has sources of its own.
#![tactic(auto)]

mod copies;
mod ends;
mod fault;
mod feeding;
mod feeding_all;
mod feeding_shares;
mod gate;
mod gatherer;
mod gathering;
mod link_ends;
mod lots;
mod offering;
mod parcel;
mod patience;
mod roster;
mod settings;
mod settling;
mod setup;
mod shares;
mod starting_builders;
mod starting_feeders;
mod together;
mod wiring;
mod words;

pub use ends::{first_stop, first_unsealed};
pub use fault::FeedingFault;
pub use feeding::feed_out;
pub use feeding_all::feed_all;
pub use feeding_shares::feed_shares;
pub use gate::{Gate, OpenGate};
pub use gatherer::{Gatherer, Place};
pub use gathering::gather;
pub use link_ends::{Inlet, Outlet, Receipt, link};
pub use lots::{LotInlet, LotOutlet, LotReceipt};
pub use parcel::{FeederEnd, Parcel};
pub use settings::Settings;
pub use settling::settle;
pub use shares::{cut_up, put_together};
