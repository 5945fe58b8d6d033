//! A store of changes in a database file and its log, which sqlite3 reads, and the journal that
//! keeps them there.
//!
//! A change is the number of its source and the bytes of its record. A store notes what the feeds
//! were when it was made. [`open_path`] opens the two files at a path, or makes them;
//! [`open_files`] opens the store that two files hold, or makes its tables where they hold none;
//! [`start`] goes on from it, with a journal; [`close`] copies the log into the file. A store has
//! the tables `changes` and `feeds`, and nothing else.
//!
//! Over any store of SQLite's tables, [`open_or_make`] makes a journal, or hands the changes of the
//! last commit over in their order; [`ChangeJournal::append`] takes one more, and
//! [`ChangeJournal::commit`] makes what was appended outlast a crash, as [`crash_and_open`] says.
#![tactic(auto)]

mod batch;
mod begin;
mod crash;
mod cursor;
mod fault;
mod files;
mod form;
mod journal;
mod making;
mod note;
mod noting;
mod opening;
mod place;
mod row;
mod sink;
mod starting;
mod store_fault;
mod tables;

pub use batch::BatchJournal;
pub use begin::{open_made, open_or_make};
pub use crash::crash_and_open;
pub use fault::OpenFault;
pub use files::{open_files, open_made_files, open_path};
pub use form::{CHAINED, RowForm, form_of};
pub use journal::ChangeJournal;
pub use note::FeedNote;
pub use noting::{NoteFault, note_of};
pub use place::{LogPlace, prepare_path};
pub use sink::ChangeSink;
pub use sqlite_std_file::{Unknown, Wary};
pub use starting::{close, copy_log, next_open, start, start_made};
pub use store_fault::{CallFault, FileFault, StoreFault};
