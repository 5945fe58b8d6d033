//! An amendment: new values for some fields of a fact, while the others keep theirs.
ghost use Rattle.std.specs.Prelude.{◌≡◌, IfOk, length};
ghost use Rattle.cube_core.specs.Amendment.{field_over, fields_over, over};

use crate::dimension_values::{DimensionValues, text_of};
use crate::fact::{Fact, copy_value};
use crate::sequence::Sequence;
use crate::small_sequence::SmallSequence;
use crate::text::Text;
use std::alloc::{AllocError, Global};

/// What an amendment says of one field.
#[derive(Debug, Drop)]
pub enum Field<T> {
    /// The field keeps its value.
    Keep,
    /// The field gets this value.
    Put(T),
}

/// An amendment: a field for each dimension of a fact, and for each measure.
#[derive(Debug, Drop)]
pub struct Partial {
    pub dims: Sequence<Field<Option<Text>>>,
    pub measures: Sequence<Field<Option<i64>>>,
}

impl<T> Field<T> {
    /// The value that is put, or the old one where the field keeps it.
    fn over<'a>(&'a self, old: &'a T) -> &'a T
        ensures { result.now ≡ field_over self.now old.now }
    {
        match self {
            Field::Keep => old,
            Field::Put(value) => value,
        }
    }
}

impl Partial {
    /// The old fact with each value that is put in its place; the only error is that memory ran out.
    ///
    /// The amendment and the fact have equal numbers of dimensions and of measures.
    pub fn over(&self, alloc: Global, old: &Fact) -> Result<Fact, AllocError>
        requires dims { length self.now.dims ≡ length old.now.dims }
        requires measures { length self.now.measures ≡ length old.now.measures }
        ensures { IfOk result (λ new. new ≡ over self.now old.now) }
    {
        let dims = dims_over(alloc, self.dims.as_slice(), &old.dims)?;
        let measures = measures_over(alloc, self.measures.as_slice(), old.measures.as_slice())?;
        Ok(Fact { dims, measures })
    }

    /// A copy; the only error is that memory ran out.
    pub(crate) fn copy(&self, alloc: Global) -> Result<Partial, AllocError>
        ensures { IfOk result (λ copy. copy ≡ self.now) }
    {
        let dims = copy_dims(alloc, self.dims.as_slice())?;
        let measures = copy_measures(alloc, self.measures.as_slice())?;
        Ok(Partial {
            dims: Sequence::from_vec(dims),
            measures: Sequence::from_vec(measures),
        })
    }
}

fn dims_over(
    alloc: Global,
    fields: &[Field<Option<Text>>],
    olds: &DimensionValues,
) -> Result<DimensionValues, AllocError>
    requires { length fields.now ≡ length olds.now }
    ensures { IfOk result (λ values. values ≡ fields_over fields.now olds.now) }
{
    let mut values = DimensionValues::new(alloc);
    for (i, field) in fields.iter().enumerate() {
        values.push(match field {
            Field::Keep => olds.get(i),
            Field::Put(value) => text_of(value),
        })?;
    }
    Ok(values)
}

fn measures_over(
    alloc: Global,
    fields: &[Field<Option<i64>>],
    olds: &[Option<i64>],
) -> Result<SmallSequence<Option<i64>>, AllocError>
    requires { length fields.now ≡ length olds.now }
    ensures { IfOk result (λ values. values ≡ fields_over fields.now olds.now) }
{
    let mut values = SmallSequence::new(alloc);
    values.reserve_exact(olds.len())?;
    for (i, field) in fields.iter().enumerate() {
        let value = field.over(&olds[i]);
        values.push(*value)?;
    }
    Ok(values)
}

fn copy_dims(
    alloc: Global,
    fields: &[Field<Option<Text>>],
) -> Result<Vec<Field<Option<Text>>>, AllocError>
    ensures { IfOk result (λ copies. copies.items ≡ fields.now) }
{
    let mut copies = Vec::with_capacity(alloc, fields.len())?;
    for field in fields {
        copies.push(copy_dim(alloc, field)?)?;
    }
    Ok(copies)
}

fn copy_dim(alloc: Global, field: &Field<Option<Text>>) -> Result<Field<Option<Text>>, AllocError>
    ensures { IfOk result (λ copy. copy ≡ field.now) }
{
    match field {
        Field::Keep => Ok(Field::Keep),
        Field::Put(value) => {
            let copy = copy_value(alloc, value)?;
            Ok(Field::Put(copy))
        }
    }
}

fn copy_measures(
    alloc: Global,
    fields: &[Field<Option<i64>>],
) -> Result<Vec<Field<Option<i64>>>, AllocError>
    ensures { IfOk result (λ copies. copies.items ≡ fields.now) }
{
    let mut copies = Vec::with_capacity(alloc, fields.len())?;
    for field in fields {
        copies.push(match field {
            Field::Keep => Field::Keep,
            Field::Put(value) => Field::Put(*value),
        })?;
    }
    Ok(copies)
}
