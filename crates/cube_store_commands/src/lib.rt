//! The commands over a store: `datacube live --store` keeps a cube right, with its changes in the store, and `datacube print
//! --store` and the like ask what it has come to. They stand apart, so that what reads no store has nothing of one below it.
//!
//! [`live_stored`] is `cube_tool`'s `live` over feeds and a store, and [`ask_stored`] its `ask`. [`StoreJournal`] is told of
//! each change before it is applied, and [`Replay`] takes the changes of a store before a session's first record;
//! [`serve_stored`] does both.
#![tactic(auto)]

mod asking;
mod failure;
mod feeds;
mod journal;
mod laws;
mod live_session;
mod plain;
mod question;
mod record;
mod replay;
mod session;

pub use asking::ask_stored;
pub use failure::StoredFailure;
pub use feeds::{SessionInput, StoredFeeds};
pub use journal::StoreJournal;
pub use laws::{session_is_a_longer_feed, start_goes_on};
pub use live_session::live_stored;
pub use replay::Replay;
pub use session::{Commits, ResumeFault, StoredFault, resume, resume_made, serve_stored};
