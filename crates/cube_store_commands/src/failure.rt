//! Why a command over a store failed.
ghost use Rattle.std.specs.Prelude.{◌≡◌};
ghost use Rattle.cube_store_commands.specs.Stored.{status_of_stored};

use crate::session::{ResumeFault, StoredFault};
use cube_store::StoreFault;
use cube_tool::command::{Failure, Status};
use std::fmt;

/// Why a command over a store failed. Its text is the line for standard error, without the line end.
#[derive(Clone, Copy, Debug, PartialEq, Eq)]
pub enum StoredFailure {
    /// The command failed as one without a store does.
    Failure(Failure),
    /// The store isn't opened, or can't go on.
    Store(StoreFault),
    /// The store has more changes of this source than the schema takes.
    TooMany(u32),
}

impl StoredFailure {
    /// The status that the program ends with.
    pub fn status(self) -> Status
        ensures { result ≡ status_of_stored self }
    {
        match self {
            StoredFailure::Failure(failure) => failure.status(),
            StoredFailure::Store(_) | StoredFailure::TooMany(_) => Status::Failed,
        }
    }
}

impl From<Failure> for StoredFailure {
    ghost use Rattle.std.specs.Prelude.{◌≡◌};
    ghost use Rattle.cube_store_commands.specs.declared.failure.StoredFailure.TheVariants as failed;

    ghost from_gives = { λ failure stored. stored ≡ failed.Failure failure };

    fn from(failure: Failure) -> StoredFailure {
        StoredFailure::Failure(failure)
    }
}

impl From<StoreFault> for StoredFailure {
    ghost use Rattle.std.specs.Prelude.{◌≡◌};
    ghost use Rattle.cube_store_commands.specs.declared.failure.StoredFailure.TheVariants as failed;

    ghost from_gives = { λ fault stored. stored ≡ failed.Store fault };

    fn from(fault: StoreFault) -> StoredFailure {
        StoredFailure::Store(fault)
    }
}

impl From<StoredFault> for StoredFailure {
    ghost use Rattle.std.specs.Prelude.{◌≡◌};
    ghost use Rattle.cube_store_commands.specs.Stored.{failure_of};

    ghost from_gives = { λ fault failure. failure ≡ failure_of fault };

    fn from(fault: StoredFault) -> StoredFailure {
        match fault {
            StoredFault::Store(fault) => StoredFailure::Store(fault),
            StoredFault::TooMany(source) => StoredFailure::TooMany(source),
            StoredFault::Session(fault) => StoredFailure::Failure(Failure::Session(fault)),
        }
    }
}

impl From<ResumeFault> for StoredFailure {
    ghost use Rattle.std.specs.Prelude.{◌≡◌};
    ghost use Rattle.cube_store_commands.specs.Serving.{stored_fault_of};
    ghost use Rattle.cube_store_commands.specs.Stored.{failure_of};

    ghost from_gives = { λ fault failure. failure ≡ failure_of (stored_fault_of fault) };

    fn from(fault: ResumeFault) -> StoredFailure {
        StoredFailure::from(StoredFault::from(fault))
    }
}

impl fmt::Display for StoredFailure {
    fn fmt<W: fmt::Write>(&self, f: &mut fmt::Formatter<W>) -> fmt::Result {
        match self {
            StoredFailure::Failure(failure) => write!(f, "{failure}"),
            StoredFailure::Store(fault) => write!(f, "datacube: {fault}"),
            StoredFailure::TooMany(source) => write!(f, "datacube: G3 {source} F4"),
        }
    }
}
