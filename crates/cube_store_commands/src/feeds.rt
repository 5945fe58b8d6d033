//! What a command over a store takes.
use crate::session::Commits;
use cube_live::Rests;
use cube_store::FeedNote;
use std::io::Read;

/// The feeds of a command, and an open store whose changes come after them.
#[derive(Drop)]
pub struct StoredFeeds<R: Read + Drop, S> {
    /// A reader of each feed, the first of source 1.
    pub readers: Vec<R>,
    /// What a store notes of the schema's file and of each feed, in this order.
    pub notes: Vec<FeedNote>,
    /// The store.
    pub store: S,
}

/// The input of a session over a store.
#[derive(Drop)]
pub struct SessionInput<I: Read + Drop, P: Rests + Drop> {
    /// Reads the records.
    pub reader: I,
    /// When its changes are made certain though nothing asks for it.
    pub commits: Commits<P>,
}
