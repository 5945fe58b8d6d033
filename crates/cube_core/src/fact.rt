//! A fact: one row of input.
ghost use Rattle.std.specs.Prelude.{◌≡◌, IfOk, map, option_map};

use crate::dimension_values::DimensionValues;
use crate::small_sequence::SmallSequence;
use crate::text::Text;
use std::alloc::{AllocError, Global};

/// One row of input: a value or null for each dimension and each text that is counted, and for each measure.
#[derive(Debug, Drop)]
pub struct Fact {
    pub dims: DimensionValues,
    pub measures: SmallSequence<Option<i64>>,
}

impl Fact {
    /// The fact of these values, a text or null for each dimension and a number or null for each measure, which are
    /// copied. The only error is that memory ran out, to which more than 2^32 - 1 bytes of texts count.
    pub fn new(
        alloc: Global,
        dims: &[Option<&str>],
        measures: &[Option<i64>],
    ) -> Result<Fact, AllocError>
        ensures dims { IfOk result (λ fact. fact.dims ≡ map (option_map (λ text. text.now)) dims.entry.now) }
        ensures measures { IfOk result (λ fact. fact.measures ≡ measures.now) }
    {
        Ok(Fact {
            dims: DimensionValues::of_texts(alloc, dims)?,
            measures: SmallSequence::from_slice(alloc, measures)?,
        })
    }

    /// A copy; the only error is that memory ran out.
    pub fn copy(&self, alloc: Global) -> Result<Fact, AllocError>
        ensures { IfOk result (λ copy. copy ≡ self.now) }
    {
        Ok(Fact {
            dims: self.dims.copy(alloc)?,
            measures: SmallSequence::from_slice(alloc, self.measures.as_slice())?,
        })
    }
}

/// A copy of a dimension's value.
pub(crate) fn copy_value(alloc: Global, value: &Option<Text>) -> Result<Option<Text>, AllocError>
    ensures { IfOk result (λ copy. copy ≡ value.now) }
{
    match value {
        None => Ok(None),
        Some(text) => {
            let copy = text.copy(alloc)?;
            Ok(Some(copy))
        }
    }
}
