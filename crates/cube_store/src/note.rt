/// What is noted of a feed, or of the schema's file, when a store is made.
#[derive(Clone, Copy, Debug, PartialEq, Eq)]
pub struct FeedNote {
    /// How many bytes it has.
    pub length: u64,
    /// The SHA-256 of its bytes.
    pub digest: [u8; 32],
}
