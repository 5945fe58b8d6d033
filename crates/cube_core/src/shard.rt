//! The shard of a feed: a share of its records, told by their ids.
ghost use Rattle.std.specs.Prelude.{◌≡◌};
ghost use Rattle.cube_core.specs.Shard.{IsShard, fnv_hash, is_in_shard, whole_feed, with_byte};

/// What all hashes begin with, as FNV-1a of 64 bits has it (RFC 9923).
const OFFSET_BASIS: u64 = 14_695_981_039_346_656_037;

/// What each step of the hash multiplies by.
const FNV_PRIME: u64 = 1_099_511_628_211;

/// One of `count` shares of a feed, of which `place` is counted from 0: the data records whose id's FNV-1a hash leaves
/// `place` when it is divided by `count`. A lawful one has a place below its count, and a count of 65536 at most.
#[derive(Clone, Copy, Debug, PartialEq, Eq)]
pub struct Shard {
    pub place: u32,
    pub count: u32,
}

impl Shard {
    /// The only shard of one: all records of the feed.
    pub fn whole() -> Shard
        ensures is { result ≡ whole_feed }
        ensures lawful { IsShard result }
    {
        Shard { place: 0, count: 1 }
    }

    /// Whether an id, by its bytes, is in the shard. Where it is the only one, the bytes aren't looked at.
    #[tactic(auto, using(crate::proofs::ShardLaws::is_in_only_shard))]
    pub fn has(&self, id: &[u8]) -> bool
        requires { IsShard self.now }
        ensures { result ≡ is_in_shard self.now id.now }
    {
        self.count == 1 || fnv_hash(id) % u64::from(self.count) == u64::from(self.place)
    }
}

/// The FNV-1a hash of bytes, of 64 bits (RFC 9923).
pub fn fnv_hash(bytes: &[u8]) -> u64
    ensures { result ≡ fnv_hash bytes.now }
{
    bytes
        .iter()
        .fold(OFFSET_BASIS, |hash, byte| with_byte(hash, *byte))
}

// A hash with one byte more.
fn with_byte(hash: u64, byte: u8) -> u64
    ensures { result ≡ with_byte hash byte }
{
    (hash ^ u64::from(byte)).wrapping_mul(FNV_PRIME)
}
