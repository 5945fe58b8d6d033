//! The console: the words of the command line, the progress line, and an input that is read ahead.
//!
//! [`read_words`] tells what the words ask for, as `clap` reads them, and what the help says. The progress line says how far a
//! command is, on one line of a terminal, which is rewritten while the command runs and gone at its end: the work only counts
//! and says at what it is, and a thread of its own shows the line ([`Progress::show_until_over`]).
//!
//! [`read_ahead`] starts a thread that reads an input ahead, so that whoever takes its records sees where it rests. An
//! [`Ahead`] gives the bytes as they came, and a [`Pauses`] tells whether no record came for a second. The thread isn't joined:
//! it may wait for input for good.
#![tactic(auto)]

mod ahead;
mod command_line;
mod commands;
mod counts;
mod figures;
mod input;
mod output;
mod pace;
mod phase;
mod place;
mod post;
mod progress;
mod request;
mod screen;
mod views;
mod words;

pub use ahead::{Ahead, Pauses, read_ahead};
pub use counts::Counts;
pub use input::{CubeReader, FeedReader};
pub use output::Output;
pub use phase::Phase;
pub use progress::Progress;
pub use request::{LiveWords, MergeWords, Request, RunWords, SchemaWords, TableWords, ViewWords};
pub use views::View;
pub use words::{
    clashing_views, clashing_words, read_words, unlawful_max_cells, unlawful_max_record,
    unlawful_shard, unreadable_words,
};
