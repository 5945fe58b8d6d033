//! Why a query is refused, and the dimension that a name means.
ghost use Rattle.std.specs.Prelude.{◌≡◌, ◌<◌, length};
ghost use Rattle.cube_core.specs.Layout.{number_of_dimensions};
ghost use Rattle.cube_core.specs.Query.{place_of, drill_fault};

use crate::key::Key;
use crate::schema::Schema;
use crate::schema_toml::position_of;
use std::alloc::{AllocError, AllocFailed};
use thiserror::Error;

/// Why a query is refused. The text of each is its code.
#[derive(Clone, Copy, Debug, PartialEq, Eq, Error)]
pub enum QueryFault {
    /// A word isn't exactly one record with one field for each dimension.
    #[error("P1")]
    Fields,
    /// A field of a word is neither `?`, `\A` nor `\N`, nor begins with `=`.
    #[error("P2")]
    Field,
    /// A cell is wanted, and the pattern leaves a dimension open by `?`.
    #[error("P3")]
    NotCell,
    /// A drill-down goes along a dimension that isn't ALL in the cell.
    #[error("P4")]
    NotRolled,
    /// A name is that of no dimension.
    #[error("P5")]
    UnknownDimension,
    /// Memory ran out, which says nothing of the query.
    #[error("P6")]
    Memory,
    /// A drill-down leads to a grouping set that the schema doesn't keep.
    #[error("P7")]
    NotGrouped,
    /// A word is no condition under the schema: it isn't a name, an operator and a value, or the value isn't one of those.
    #[error("P8")]
    Condition,
}

impl From<AllocError> for QueryFault {
    ghost use Rattle.cube_core.specs.declared.query.QueryFault.TheVariants.{Memory};
    ghost use Rattle.std.specs.Prelude.{◌≡◌};

    ghost from_gives = { λ _ fault. fault ≡ Memory };

    fn from(_: AllocError) -> QueryFault {
        QueryFault::Memory
    }
}

impl<T: Drop> From<AllocFailed<T>> for QueryFault {
    ghost use Rattle.cube_core.specs.declared.query.QueryFault.TheVariants.{Memory};
    ghost use Rattle.std.specs.Prelude.{◌≡◌};

    ghost from_gives = { λ _ fault. fault ≡ Memory };

    fn from(_: AllocFailed<T>) -> QueryFault {
        QueryFault::Memory
    }
}

impl Schema {
    /// The place of the dimension with this name, counted from 0; takes no memory.
    ///
    /// The error is `UnknownDimension`, exactly where no dimension has the name.
    pub fn dimension_of(&self, name: &str) -> Result<usize, QueryFault>
        ensures { result ≡ place_of self.now name.now }
    {
        position_of(self.cube_dimensions(), name).ok_or(QueryFault::UnknownDimension)
    }

    /// Why there is no drill-down from a key along a dimension, counted from 0: `NotRolled` where the key isn't ALL in
    /// the dimension, else `NotGrouped` where the key's grouping set with the dimension isn't one of the schema's;
    /// `None` where there is one. The key has a coordinate for each dimension.
    pub fn drill_fault(&self, key: &Key, dim: usize) -> Option<QueryFault>
        requires width { length key.now.coords ≡ number_of_dimensions self.now }
        requires dim { dim < number_of_dimensions self.now }
        ensures { result ≡ drill_fault self.now.grouping_sets dim key.now }
    {
        if !key.is_all(dim) {
            Some(QueryFault::NotRolled)
        } else if !self.keeps_below(key, dim) {
            Some(QueryFault::NotGrouped)
        } else {
            None
        }
    }
}
