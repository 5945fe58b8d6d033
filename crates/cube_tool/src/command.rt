//! What the program does, as calls over words, readers and writers.
//!
//! `cube_console` tells what the words of a command line ask for. Each command is one call, which gives the
//! [`Status`] to end with, or a [`Failure`], whose text is the line for standard error.

mod explanation;
mod failure;
mod feeds;
mod max_cells;
mod max_record;
mod merging;
mod notes;
mod query;
mod sample;
mod schema_file;
mod session;
mod shard;
mod status;
mod terms;
mod words;

pub use crate::question::Question;
pub use explanation::explain;
pub use failure::Failure;
pub use feeds::{ask, ask_ledger};
pub use max_cells::read_max_cells;
pub use max_record::{read_max_record, record_bound};
pub use merging::{FileIdentity, NamedCube, check_cubes, first_repeated, merge_cubes};
pub use notes::{FEED_NOTES, LATER_NOTES, Note, RUN_NOTES, SCHEMA_NOTES, STORE_NOTES};
pub use query::{read_cell, read_dimension, read_pattern};
pub use sample::run_sample;
pub use schema_file::{check, read_schema};
pub use session::live;
pub use shard::read_shard;
pub use status::{Status, status_after};
pub use terms::{Terms, read_condition};
pub use words::answer_words;
