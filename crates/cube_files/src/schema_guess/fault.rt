//! Why there is no schema of a file.
use std::alloc::{AllocError, AllocFailed};
use std::fmt;

/// Why there is no schema of a file. Its text is what `datacube` says of it, without the line end.
#[derive(Debug, Drop)]
pub enum GuessFault {
    /// There wasn't enough memory.
    Memory,
    /// The columns make no schema; what is wrong, in words.
    NoColumns(String),
}

impl From<AllocError> for GuessFault {
    ghost use Rattle.std.specs.Prelude.{◌≡◌};
    ghost use Rattle.cube_files.specs.declared.schema_guess.fault.GuessFault.TheVariants.{Memory};

    ghost from_gives = { λ _ fault. fault ≡ Memory };

    fn from(_error: AllocError) -> GuessFault {
        GuessFault::Memory
    }
}

impl<T: Drop> From<AllocFailed<T>> for GuessFault {
    ghost use Rattle.std.specs.Prelude.{◌≡◌};
    ghost use Rattle.cube_files.specs.declared.schema_guess.fault.GuessFault.TheVariants.{Memory};

    ghost from_gives = { λ _ fault. fault ≡ Memory };

    fn from(_error: AllocFailed<T>) -> GuessFault {
        GuessFault::Memory
    }
}

impl fmt::Display for GuessFault {
    fn fmt<W: fmt::Write>(&self, f: &mut fmt::Formatter<W>) -> fmt::Result {
        match self {
            GuessFault::Memory => f.write_str("datacube: S1"),
            GuessFault::NoColumns(what) => {
                f.write_str("datacube: no columns: ")?;
                f.write_str(what.as_str())
            }
        }
    }
}
