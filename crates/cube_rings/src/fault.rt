//! Why the feeds of several sources weren't taken.
use cube_feed::FeedFault;
use thiserror::Error;

/// Why the feeds of several sources weren't taken by all that gathers them. The text of each is its code in the
/// program.
#[derive(Clone, Copy, Debug, PartialEq, Eq, Error)]
pub enum FeedingFault {
    /// A growth was refused before a record was read.
    #[error("G1")]
    Memory,
    /// A thread couldn't be started, and no record was read.
    #[error("G2")]
    NoThread,
    /// The feed of a source, counted from 1, answered a fault.
    #[error("G3")]
    Feed { source: u32, fault: FeedFault },
    /// A growth was refused while items were taken.
    #[error("G4")]
    Full,
    /// A link of a source, counted from 1, gave no receipt.
    #[error("G5")]
    Unsealed { source: u32 },
}
