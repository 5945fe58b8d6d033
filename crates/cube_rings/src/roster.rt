//! Who takes part in a run, and what is kept of them.
use crate::gatherer::Gatherer;
use crate::link_ends::{Inlet, Outlet};
use crate::lots::LotOutlet;
use crate::parcel::FeederEnd;
use crate::words::Word;
use cube_feed::Feed;
use std::io::Read;

/// A feeder that is to be started: the feed of a source, and its links to the builders.
#[derive(Drop)]
pub struct Feeder<'e, R: Read + Drop> {
    pub feed: Feed<'e, R>,
    pub outlets: Vec<LotOutlet>,
}

/// The ends of the links for the threads' words, and what the joined threads gave back.
#[derive(Drop)]
pub struct Roster<B: Drop> {
    pub words: Vec<Outlet<Word>>,
    pub posts: Vec<Inlet<Word>>,
    pub ends: Vec<FeederEnd>,
    pub gatherers: Vec<Gatherer<B>>,
}

/// A thread couldn't be started.
#[derive(Clone, Copy, Debug)]
pub struct NoThread;
