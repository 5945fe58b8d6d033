//! The key under which ids and texts are hashed.
ghost use Rattle.cube_core.specs.HashKey.{hasher_of};

use std::hash::{BuildHasher, DefaultHasher, RandomState};
use std::io;
use std::random::RandomSource;

/// The key under which ids and texts are hashed, by SipHash. Nothing that is answered or printed depends on it, only time:
/// whoever knows the key of a run can make up ids that collide in its tables.
#[derive(Clone, Copy)]
pub enum HashKey {
    /// The key that each run has alike.
    Known,
    /// A key that was drawn.
    Drawn(RandomState),
}

impl HashKey {
    /// A key that is drawn. The error is that the system has no random bytes to give.
    pub fn drawn(rt: &impl RandomSource) -> io::Result<HashKey> {
        let state = RandomState::new(rt)?;
        Ok(HashKey::Drawn(state))
    }
}

impl BuildHasher for HashKey {
    type Hasher = DefaultHasher;

    ghost build_hasher = { hasher_of };

    fn build_hasher(&self) -> DefaultHasher {
        match self {
            HashKey::Known => DefaultHasher::new(),
            HashKey::Drawn(state) => state.build_hasher(),
        }
    }
}
