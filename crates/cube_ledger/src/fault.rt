//! Why nothing was built of the feeds of several sources.
use cube_feed::FeedFault;
use thiserror::Error;

/// Why nothing was built of feeds that were taken one after another. The text of each is its code in the program.
#[derive(Clone, Copy, Debug, PartialEq, Eq, Error)]
pub enum BuildFault {
    /// A growth was refused before a record was read.
    #[error("G1")]
    Memory,
    /// The feed of a source, counted from 1, answered a fault.
    #[error("G3")]
    Feed { source: u32, fault: FeedFault },
    /// A growth was refused in building.
    #[error("G4")]
    Full,
}
