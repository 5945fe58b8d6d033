//! Why a store isn't opened or made.
use sqlite_trees::error::StoreError;
use std::alloc::AllocError;
use thiserror::Error;

/// Why a store isn't opened, or isn't made.
#[derive(Clone, Copy, Debug, PartialEq, Eq, Error)]
pub enum OpenFault {
    /// A call on the store failed.
    #[error(transparent)]
    Store(StoreError),
    /// One of the two tables is wanting.
    #[error("it isn't a store of changes")]
    NoTables,
    /// The feed of this source isn't the one that was noted; 0 is the schema's file.
    #[error("feed {0} isn't the one that was noted")]
    Feed(u64),
    /// The row in this place isn't the next change: its number, its source or its kind is another.
    #[error("row {0} isn't a change")]
    Row(u64),
    /// The digest of the row in this place isn't the one that chains it to those before it.
    #[error("row {0} has another digest")]
    Digest(u64),
    /// There are more changes than can be counted.
    #[error("too many changes")]
    TooMany,
}

impl From<StoreError> for OpenFault {
    ghost use Rattle.std.specs.Prelude.{◌≡◌};
    ghost use Rattle.cube_store.specs.declared.fault.OpenFault.TheVariants.{Store};

    ghost from_gives = { λ error fault. fault ≡ Store error };

    fn from(error: StoreError) -> OpenFault {
        OpenFault::Store(error)
    }
}

impl From<AllocError> for OpenFault {
    ghost use Rattle.std.specs.Prelude.{◌≡◌};
    ghost use Rattle.cube_store.specs.declared.fault.OpenFault.TheVariants.{Store};
    ghost use Rattle.sqlite_trees.specs.declared.error.StoreError.TheVariants.{OutOfMemory};

    ghost from_gives = { λ _ fault. fault ≡ Store OutOfMemory };

    fn from(_: AllocError) -> OpenFault {
        OpenFault::Store(StoreError::OutOfMemory)
    }
}
