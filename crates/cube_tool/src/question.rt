//! What may be asked of feeds.
use cube_core::{Key, Pattern};

/// A question over feeds; its answer is a text.
#[derive(Debug, Drop)]
pub enum Question {
    /// The printed cube of the facts that are present in the end.
    Cube,
    /// The rows of that cube whose keys a pattern matches.
    Slice { pattern: Pattern },
    /// The rows of that cube that drill down from a key along a dimension, counted from 0: ALL there is replaced by a
    /// value or null.
    Drill { key: Key, dimension: usize },
    /// The row of that cube whose key is this one with ALL in a dimension, counted from 0, where that is a cell.
    RollUp { key: Key, dimension: usize },
    /// The refusals of all feeds: a header line, and a line for each refusal, feed after feed.
    Refusals,
}
