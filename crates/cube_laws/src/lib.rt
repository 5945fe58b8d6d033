//! Laws of the definitions: what anyone in the field knows to be true of them, proved of the definitions alone.
//!
//! Each law is the contract of a function that does nothing. The program doesn't stand on this crate.
#![tactic(auto)]

pub mod counts;
pub mod decimals;
pub mod feeds;
pub mod fraction;
pub mod holistic;
pub mod keys;
pub mod life;
pub mod merging;
pub mod named;
pub mod order;
pub mod queries;
pub mod records;
pub mod refusals;
pub mod rollup;
pub mod rows;
pub mod schema;
pub mod sets;
pub mod shards;
pub mod single;
pub mod statistics;
pub mod survivors;
pub mod text_back;
pub mod texts;
pub mod values;
