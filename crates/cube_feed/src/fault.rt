//! Why a feed gives no more items.
use thiserror::Error;

/// Why a feed gives no more items. The text of each is its code.
#[derive(Clone, Copy, Debug, PartialEq, Eq, Error)]
pub enum FeedFault {
    /// A growth was refused.
    #[error("F1")]
    Memory,
    /// The reader failed.
    #[error("F2")]
    Read,
    /// The first record isn't the schema's header.
    #[error("F3")]
    Header,
    /// A record follows the last one that the schema takes.
    #[error("F4")]
    TooMany,
    /// The bytes of a feed whose columns are known by name end within a quoted field of this data record, 0 for the header.
    #[error("F5 {number}")]
    OpenQuote { number: u32 },
    /// This data record, 0 for the header, has more bytes before its line end than the schema lets a record have.
    #[error("F6 {number}")]
    LongRecord { number: u32 },
}
