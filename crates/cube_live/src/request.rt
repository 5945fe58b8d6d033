//! What a record of a session asks.
use cube_core::{Key, Pattern, QueryFault};

/// What is asked of the cube and of the refusals at one moment.
#[derive(Drop)]
pub enum Question {
    /// The whole cube.
    Print,
    /// The rows of the cells whose keys a pattern matches.
    Slice(Pattern),
    /// The rows that drill down from a key along a dimension, counted from 0.
    Drill(Key, usize),
    /// The row of the key with ALL in a dimension, counted from 0.
    RollUp(Key, usize),
    /// The refusals of all sources.
    Refusals,
    /// The refusals of a source after a record of it.
    RefusalsAfter(u32, u64),
    /// Nothing: a client asks it to have all changes before it taken, and certain where they are kept.
    Sync,
}

/// What is wrong with a record.
#[derive(Clone, Copy, Debug, PartialEq, Eq)]
pub enum RequestFault {
    /// The first field is neither a source nor a question.
    Unknown,
    /// A question has another number of fields, or a field of it is no source or no number.
    Shape,
    /// A question is refused as the query is that it asks.
    Query(QueryFault),
}

/// What a record of a session asks.
#[derive(Drop)]
pub enum Request {
    /// A change of a source, 1 to 64, which the other fields say.
    Change(u32),
    /// A question.
    Ask(Question),
    /// Nothing, for what is wrong with it.
    Wrong(RequestFault),
}
