//! Why a schema is refused.
use std::alloc::{AllocError, AllocFailed};
use thiserror::Error;

/// Why a schema is refused, that of a file or one that is told by its names; where several faults hold, the first. The
/// text of each is its code.
#[derive(Clone, Copy, Debug, PartialEq, Eq, Error)]
pub enum SchemaFault {
    /// Memory ran out, which says nothing of the file.
    #[error("S1")]
    Memory,
    /// The file is no UTF-8 or no TOML document.
    #[error("S2")]
    Toml,
    /// A key is none that a schema has.
    #[error("S3")]
    UnknownKey,
    /// There is no array of 1 to 8 texts for the dimensions.
    #[error("S4")]
    Dimensions,
    /// There is no array of 1 to 4 texts for the measures; under columns by name there may be none in it.
    #[error("S5")]
    Measures,
    /// A dimension or a measure is empty, `op`, `id` or `*`, or two of them have one name.
    #[error("S6")]
    Name,
    /// There is no array of 1 to 16 aggregates, each spelled with the name of a measure.
    #[error("S7")]
    Aggregates,
    /// The number of data records is no whole number from 1 to 4294967295.
    #[error("S8")]
    MaxRecords,
    /// The grouping is neither `cube` nor `rollup` nor an array of at least one array of names of dimensions, or a
    /// name stands twice in its set, or two sets are equal.
    #[error("S9")]
    Grouping,
    /// The version of the feeds is neither 1 nor 2.
    #[error("S10")]
    Version,
    /// The table `feed` has a key that it doesn't know, or one of a wrong kind.
    #[error("S11")]
    Columns,
    /// The table `decimals` has a key that is no measure, or a value that is no whole number from 0 to 18.
    #[error("S12")]
    Decimals,
    /// There is no array of texts at `texts`, or one of them is no measure, stands twice, or is in the table
    /// `decimals`; or the partial form is wanted of a schema that has texts there.
    #[error("S13")]
    Texts,
}

impl From<AllocError> for SchemaFault {
    ghost use Rattle.cube_core.specs.declared.schema_fault.SchemaFault.TheVariants.{Memory};
    ghost use Rattle.std.specs.Prelude.{◌≡◌};

    ghost from_gives = { λ _ fault. fault ≡ Memory };

    fn from(_: AllocError) -> SchemaFault {
        SchemaFault::Memory
    }
}
