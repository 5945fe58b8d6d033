//! The columns of a feed, where they are known by their names.
ghost use Rattle.std.specs.Prelude.{◌≡◌, IfOk};

use crate::sequence::Sequence;
use crate::text::{Text, copy_texts};
use std::alloc::{AllocError, Global};

/// Where a dimension comes from: a column by its name, and how many characters of each field, from 1 to 255, or all.
#[derive(Debug, Drop)]
pub struct Column {
    pub name: Text,
    pub first: Option<u8>,
}

/// The columns of feeds that are known by name, as the table `feed` of a schema says: those of ids and of operations,
/// where there are some, and one for each dimension, behind which those of the texts that are counted stand, and each
/// measure; the texts that are null; the byte between fields, and the point or the comma before decimals.
#[derive(Debug, Drop)]
pub struct FeedColumns {
    pub id: Option<Text>,
    pub op: Option<Text>,
    pub nulls: Sequence<Text>,
    pub delimiter: u8,
    pub point: u8,
    pub dimensions: Sequence<Column>,
    pub measures: Sequence<Text>,
}

/// Where a dimension stands in the records of a feed, and how many characters of its field are taken, or all.
#[derive(Clone, Copy, Debug)]
pub struct DimensionPlace {
    pub place: usize,
    pub first: Option<u8>,
}

/// Where the columns stand in the records of a feed by names, and how many fields its header has.
#[derive(Debug, Drop)]
pub struct ColumnPlaces {
    pub width: usize,
    pub op: Option<usize>,
    pub id: Option<usize>,
    pub dimensions: Sequence<DimensionPlace>,
    pub measures: Sequence<usize>,
}

/// Where the columns of a feed stand, as its header says: in the order of the schema, or at places that it names.
#[derive(Debug, Drop)]
pub enum FoundColumns {
    InOrder,
    ByName(ColumnPlaces),
}

/// A copy of columns; the only error is that memory ran out.
pub(crate) fn copy_columns(
    alloc: Global,
    columns: &Option<FeedColumns>,
) -> Result<Option<FeedColumns>, AllocError>
    ensures { IfOk result (λ copy. copy ≡ columns.now) }
{
    match columns {
        None => Ok(None),
        Some(columns) => Ok(Some(columns.copy(alloc)?)),
    }
}

impl FeedColumns {
    /// A copy; the only error is that memory ran out.
    fn copy(&self, alloc: Global) -> Result<FeedColumns, AllocError>
        ensures { IfOk result (λ copy. copy ≡ self.now) }
    {
        Ok(FeedColumns {
            id: copy_name(alloc, &self.id)?,
            op: copy_name(alloc, &self.op)?,
            nulls: Sequence::from_vec(copy_texts(alloc, self.nulls.as_slice())?),
            delimiter: self.delimiter,
            point: self.point,
            dimensions: Sequence::from_vec(copy_each(alloc, self.dimensions.as_slice())?),
            measures: Sequence::from_vec(copy_texts(alloc, self.measures.as_slice())?),
        })
    }
}

// A copy of a name, where there is one.
fn copy_name(alloc: Global, name: &Option<Text>) -> Result<Option<Text>, AllocError>
    ensures { IfOk result (λ copy. copy ≡ name.now) }
{
    match name {
        None => Ok(None),
        Some(name) => Ok(Some(name.copy(alloc)?)),
    }
}

// A copy of the columns of dimensions.
fn copy_each(alloc: Global, columns: &[Column]) -> Result<Vec<Column>, AllocError>
    ensures { IfOk result (λ copies. copies.items ≡ columns.now) }
{
    let mut copies = Vec::with_capacity(alloc, columns.len())?;
    for column in columns {
        copies.push(Column {
            name: column.name.copy(alloc)?,
            first: column.first,
        })?;
    }
    Ok(copies)
}
