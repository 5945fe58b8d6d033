//! Patterns that the fields of a record spell.
ghost use Rattle.std.specs.Prelude.{◌≡◌};
ghost use Rattle.csv.specs.Records.{fields_of};
ghost use Rattle.cube_core.specs.Query.{Says, spelled_by};

use super::{Pattern, spelled_by};
use crate::query::QueryFault;
use csv::ByteRecord;
use std::alloc::Global;

impl Pattern {
    /// The pattern that the fields of a record spell, each as in a word: `?` for any coordinate, `\A` for ALL, `\N` for
    /// null, or `=` followed by a text. It has as many coordinates as the record has fields.
    ///
    /// The error is `Field` where a field has none of the four forms, or `Memory`, which says nothing of the fields.
    pub fn of_record(alloc: Global, fields: &ByteRecord) -> Result<Pattern, QueryFault>
        ensures { Says (spelled_by (fields_of fields.now)) result }
    {
        spelled_by(alloc, fields)
    }
}
