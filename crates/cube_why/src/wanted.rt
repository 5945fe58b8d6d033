//! The columns that a schema reads in a feed, and the records of a feed that is read again.
use crate::report::decimal;
use csv::{ByteRecord, ErrorKind, Reader, ReaderBuilder};
use cube_core::{FeedColumns, Schema, Text};
use std::alloc::{AllocError, Global};
use std::io::Read;

/// What a column is to a schema.
#[derive(Clone, Copy, PartialEq, Eq, Debug)]
pub(crate) enum Role {
    Op,
    Id,
    Dimension,
    Measure,
}

/// A column that a schema reads: what it is called in a feed, and what it is to the schema. A text that is counted is read as a
/// dimension is.
#[derive(Clone, Copy, Debug)]
pub(crate) struct Used<'s> {
    pub(crate) name: &'s str,
    pub(crate) role: Role,
    /// Its place among the dimensions or the measures.
    pub(crate) place: usize,
}

/// The columns that a schema reads in a feed: in their order where that is fixed, else those that are named. The only error is
/// that memory ran out.
pub(crate) fn used_columns(alloc: Global, schema: &Schema) -> Result<Vec<Used<'_>>, AllocError> {
    let mut all = Vec::new(alloc);
    match schema.columns() {
        Some(columns) => put_named(&mut all, columns)?,
        None => put_in_order(&mut all, schema)?,
    }
    Ok(all)
}

// Adds the columns of a schema in their order.
fn put_in_order<'s>(all: &mut Vec<Used<'s>>, schema: &'s Schema) -> Result<(), AllocError> {
    put(all, "op", Role::Op, 0)?;
    put(all, "id", Role::Id, 0)?;
    put_texts(all, schema.cube_dimensions(), Role::Dimension)?;
    put_counted(all, schema)
}

// Adds the columns of what is counted: the texts at their places, and the measures that are numbers at the others.
fn put_counted<'s>(all: &mut Vec<Used<'s>>, schema: &'s Schema) -> Result<(), AllocError> {
    let places = schema.text_places();
    let mut text = schema.number_of_dimensions();
    let mut number = 0usize;
    for place in 0..schema.measures().len().saturating_add(places.len()) {
        if places.contains(&place) {
            put_at(all, schema.dimensions(), Role::Dimension, text)?;
            text = text.saturating_add(1);
        } else {
            put_at(all, schema.measures(), Role::Measure, number)?;
            number = number.saturating_add(1);
        }
    }
    Ok(())
}

// Adds the column of the name at a place, if there is one.
fn put_at<'s>(
    all: &mut Vec<Used<'s>>,
    names: &'s [Text],
    role: Role,
    place: usize,
) -> Result<(), AllocError> {
    match names.get(place) {
        Some(name) => put(all, name.as_str(), role, place),
        None => Ok(()),
    }
}

// Adds the columns that are named.
fn put_named<'s>(all: &mut Vec<Used<'s>>, columns: &'s FeedColumns) -> Result<(), AllocError> {
    if let Some(name) = &columns.op {
        put(all, name.as_str(), Role::Op, 0)?;
    }
    if let Some(name) = &columns.id {
        put(all, name.as_str(), Role::Id, 0)?;
    }
    for (place, column) in columns.dimensions.as_slice().iter().enumerate() {
        put(all, column.name.as_str(), Role::Dimension, place)?;
    }
    put_texts(all, columns.measures.as_slice(), Role::Measure)
}

fn put_texts<'s>(all: &mut Vec<Used<'s>>, names: &'s [Text], role: Role) -> Result<(), AllocError> {
    for (place, name) in names.iter().enumerate() {
        put(all, name.as_str(), role, place)?;
    }
    Ok(())
}

fn put<'s>(
    all: &mut Vec<Used<'s>>,
    name: &'s str,
    role: Role,
    place: usize,
) -> Result<(), AllocError> {
    all.push(Used { name, role, place })?;
    Ok(())
}

/// The byte between the fields of a schema's feeds.
pub(crate) fn delimiter_of(schema: &Schema) -> u8 {
    match schema.columns() {
        Some(columns) => columns.delimiter,
        None => b',',
    }
}

/// The byte before the decimals in a schema's feeds.
pub(crate) fn point_of(schema: &Schema) -> u8 {
    match schema.columns() {
        Some(columns) => columns.point,
        None => b'.',
    }
}

/// A reader of the records of a feed, the header among them.
pub(crate) fn records_of<R: Read>(alloc: Global, schema: &Schema, reader: R) -> Reader<R> {
    ReaderBuilder::new()
        .has_headers(false)
        .flexible(true)
        .delimiter(delimiter_of(schema))
        .from_reader(alloc, reader)
}

/// Takes the next record; false where there is none, or it can't be read. The only error is that memory ran out.
pub(crate) fn advance<R: Read>(
    reader: &mut Reader<R>,
    record: &mut ByteRecord,
) -> Result<bool, AllocError> {
    match reader.read_byte_record(record) {
        Ok(found) => Ok(found),
        Err(error) => match error.kind() {
            ErrorKind::OutOfMemory => Err(AllocError),
            _ => Ok(false),
        },
    }
}

/// The field at a place of a record; empty past the last.
pub(crate) fn field_at(record: &ByteRecord, place: usize) -> &[u8] {
    match record.get(place) {
        Some(field) => field,
        None => b"",
    }
}

/// How many fields of a header are a name.
pub(crate) fn count_of(header: &ByteRecord, name: &str) -> usize {
    let mut count = 0usize;
    for place in 0..header.len() {
        if field_at(header, place) == name.as_bytes() {
            count = count.saturating_add(1);
        }
    }
    count
}

/// The first place of a name in a header; 0 where it doesn't stand there.
pub(crate) fn place_of(header: &ByteRecord, name: &str) -> usize {
    for place in 0..header.len() {
        if field_at(header, place) == name.as_bytes() {
            return place;
        }
    }
    0
}

/// How many data records of a feed, which is read again, are in the schema's shard: all where it is the only one. The only error
/// is that memory ran out.
pub fn own_records<R: Read + Drop>(
    alloc: Global,
    schema: &Schema,
    reader: R,
) -> Result<u64, AllocError> {
    let mut reader = records_of(alloc, schema, reader);
    let mut record = ByteRecord::new(alloc);
    let counted = count_own(alloc, schema, &mut reader, &mut record);
    drop(reader);
    counted
}

// Counts the data records that a reader still has, and that are in the shard.
fn count_own<R: Read>(
    alloc: Global,
    schema: &Schema,
    reader: &mut Reader<R>,
    record: &mut ByteRecord,
) -> Result<u64, AllocError> {
    if !advance(reader, record)? {
        return Ok(0);
    }
    let place = id_place(schema, record);
    let mut count = 0u64;
    for number in 1..u64::MAX {
        if !advance(reader, record)? {
            break;
        }
        let is_own = match place {
            Some(place) => schema.shard().has(field_at(record, place)),
            None => schema.shard().has(&decimal(alloc, number)?),
        };
        count = count.saturating_add(u64::from(is_own));
    }
    Ok(count)
}

// The place of the ids in a feed with a header; none where the number of a record is its id.
fn id_place(schema: &Schema, header: &ByteRecord) -> Option<usize> {
    match schema.columns() {
        Some(columns) => match &columns.id {
            Some(name) => Some(place_of(header, name.as_str())),
            None => None,
        },
        None => Some(1),
    }
}
