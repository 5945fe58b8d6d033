//! The plain record that a record stands for: its operation, its id, and a field for each dimension and each measure.
ghost use Rattle.std.specs.Prelude.{◌≡◌, ◌∷◌, [], true, codes, decimal, drop, map, None, IfOk, OnOk, slice_range};
ghost use Rattle.std.specs.Fmt.{is_char_start, take_chars};
ghost use Rattle.std.specs.Option.{option_map_or};
ghost use Rattle.std.specs.Str.{bytes_eq};
ghost use Rattle.csv.specs.Records.{fields_of, partial_of};
ghost use Rattle.cube_core.specs.FeedRecords.{change_in_order, is_read, plain_of};
ghost use Rattle.cube_core.specs.Items.{change_of, field_at, is_keep};
ghost use Rattle.cube_core.specs.Layout.{is_listed};
ghost use Rattle.cube_core.specs.Plain.{first_of, nulls_of, plain_at, plain_by_name, plain_dimension, plain_measures, plain_of_arranged, point_of};
ghost use Rattle.cube_core.specs.Takes.{null_text};
ghost use Rattle.cube_feed.specs.Columns.{Puts};
ghost use Rattle.cube_feed.specs.PlainFields.{dimension_from, measure_from};

use crate::arranged::{arranged, put_fields};
use crate::field::{Fields, bytes_at, is_keep_text, is_text};
use crate::line::change;
use crate::rest::is_read;
use crate::units::in_units;
use csv::ByteRecord;
use cube_core::{Change, ColumnPlaces, DimensionPlace, FoundColumns, LineFault, Schema, Text};
use itoa::Buffer;
use std::alloc::{AllocError, Global};

/// A plain record in the making: its fields so far, and room for a number and for the fields of a record in its order.
#[derive(Drop)]
pub(crate) struct PlainRecord {
    arranged: ByteRecord,
    row: ByteRecord,
    units: Vec<u8>,
}

impl PlainRecord {
    /// A record without a field; it takes no memory.
    pub(crate) fn new(alloc: Global) -> PlainRecord {
        PlainRecord {
            arranged: ByteRecord::new(alloc),
            row: ByteRecord::new(alloc),
            units: Vec::new(alloc),
        }
    }
}

/// The change that a record in the order of the schema spells, or its first fault; its plain record is put in place of
/// another, where it differs. The only error is that memory ran out.
pub(crate) fn change_in_order(
    alloc: Global,
    schema: &Schema,
    fields: &ByteRecord,
    plain: &mut PlainRecord,
) -> Result<Result<Change, LineFault>, AllocError>
    ensures { IfOk result (λ what. what ≡ change_in_order schema.now (fields_of fields.now)) }
{
    let fields = arranged(schema, fields, &mut plain.arranged)?;
    if is_plain(schema) {
        // Each field stays as it is.
        return change(alloc, schema, &Fields::of(fields));
    }
    put_plain(schema, fields, &mut plain.row, &mut plain.units)?;
    change(alloc, schema, &Fields::of(&plain.row))
}

// Whether each record in the order of a plain one is plain.
fn is_plain(schema: &Schema) -> bool
    ensures { result ≡ true → (schema.now.columns ≡ None) × (schema.now.decimals ≡ []) }
{
    schema.columns().is_none() && schema.decimals().is_empty()
}

// Puts the plain record of one in its order in place of another record.
fn put_plain(
    schema: &Schema,
    fields: &ByteRecord,
    row: &mut ByteRecord,
    units: &mut Vec<u8>,
) -> Result<(), AllocError>
    ensures { OnOk result (fields_of row.new ≡ plain_of_arranged schema.now (fields_of fields.now)) }
{
    let first_measure = 2 + schema.dimensions().len();
    row.clear();
    put_fields(fields, 0, 2, row)?;
    put_dimensions_before(schema, fields, first_measure, row)?;
    put_measures_from(schema, fields, first_measure, row, units)
}

// Puts the plain fields of the dimensions of a record in the order of a plain one, which end at a place.
fn put_dimensions_before(
    schema: &Schema,
    fields: &ByteRecord,
    end: usize,
    plain: &mut ByteRecord,
) -> Result<(), AllocError>
    requires { partial_of plain.old ≡ [] }
    ensures { OnOk result (Puts plain.old
        (map (plain_dimension schema.now (null_text ∷ nulls_of schema.now) None)
        (slice_range (fields_of fields.now) 2 end)) plain.new) }
{
    for place in 2..end {
        let Some(field) = fields.get(place) else {
            break;
        };
        let is_null = is_null_in_order(schema, field);
        plain.push_field(dimension_from(schema, is_null, None, field))?;
    }
    Ok(())
}

// Puts the plain fields of the measures of a record in the order of a plain one, which begin at a place.
fn put_measures_from(
    schema: &Schema,
    fields: &ByteRecord,
    first: usize,
    plain: &mut ByteRecord,
    units: &mut Vec<u8>,
) -> Result<(), AllocError>
    requires { partial_of plain.old ≡ [] }
    ensures { OnOk result (Puts plain.old
        (plain_measures schema.now (null_text ∷ nulls_of schema.now) 46 0 (drop first (fields_of fields.now)))
        plain.new) }
{
    for place in first..fields.len() {
        let Some(field) = fields.get(place) else {
            break;
        };
        let is_null = is_null_in_order(schema, field);
        plain.push_field(measure_from(schema, place - first, is_null, b'.', field, units)?)?;
    }
    Ok(())
}

// Puts the plain record of one that is read by the names of its columns, the data record of this number, in place of
// another record.
fn put_by_name(
    schema: &Schema,
    at: &ColumnPlaces,
    number: u32,
    fields: &ByteRecord,
    plain: &mut PlainRecord,
) -> Result<(), AllocError>
    ensures { OnOk result (fields_of plain.new.row ≡ plain_by_name schema.now at.now number (fields_of fields.now)) }
{
    let row = &mut plain.row;
    row.clear();
    put_operation(at.op, fields, row)?;
    put_id(at.id, number, fields, row)?;
    put_dimensions(schema, at.dimensions.as_slice(), fields, row)?;
    put_measures(schema, at.measures.as_slice(), fields, plain)?;
    if fields.len() != at.width {
        plain.row.push_field(&[])?;
    }
    Ok(())
}

// Puts the operation of a record: that of its column, an insert without one.
fn put_operation(
    place: Option<usize>,
    fields: &ByteRecord,
    plain: &mut ByteRecord,
) -> Result<(), AllocError>
    requires { partial_of plain.old ≡ [] }
    ensures { OnOk result (Puts plain.old
        (option_map_or (field_at (fields_of fields.now)) place (codes "I") ∷ []) plain.new) }
{
    match place {
        Some(place) => plain.push_field(bytes_at(fields, place)),
        None => plain.push_field(b"I".as_slice()),
    }
}

// Puts the id of a record: that of its column, its number without one.
fn put_id(
    place: Option<usize>,
    number: u32,
    fields: &ByteRecord,
    plain: &mut ByteRecord,
) -> Result<(), AllocError>
    requires { partial_of plain.old ≡ [] }
    ensures { OnOk result (Puts plain.old
        (option_map_or (field_at (fields_of fields.now)) place (decimal number) ∷ []) plain.new) }
{
    match place {
        Some(place) => plain.push_field(bytes_at(fields, place)),
        None => plain.push_field(Buffer::new().format(number).as_bytes()),
    }
}

// Puts the plain fields of dimensions that stand at these places.
fn put_dimensions(
    schema: &Schema,
    places: &[DimensionPlace],
    fields: &ByteRecord,
    plain: &mut ByteRecord,
) -> Result<(), AllocError>
    requires { partial_of plain.old ≡ [] }
    ensures { OnOk result (Puts plain.old (map (plain_at schema.now (fields_of fields.now)) places.now) plain.new) }
{
    for at in places {
        let field = bytes_at(fields, at.place);
        plain.push_field(dimension_from(schema, is_null(schema, field), at.first, field))?;
    }
    Ok(())
}

// Puts the plain fields of measures that stand at these places.
fn put_measures(
    schema: &Schema,
    places: &[usize],
    fields: &ByteRecord,
    plain: &mut PlainRecord,
) -> Result<(), AllocError>
    requires { partial_of plain.old.row ≡ [] }
    ensures { OnOk result (Puts plain.old.row
        (plain_measures schema.now (nulls_of schema.now) (point_of schema.now) 0
        (map (field_at (fields_of fields.now)) places.now)) plain.new.row) }
{
    let point = point(schema);
    for measure in 0..places.len() {
        let field = bytes_at(fields, places[measure]);
        let is_null = is_null(schema, field);
        let units = &mut plain.units;
        let value = measure_from(schema, measure, is_null, point, field, units)?;
        plain.row.push_field(value)?;
    }
    Ok(())
}

// The byte before the decimals in a schema's feeds by names.
fn point(schema: &Schema) -> u8
    ensures { result ≡ point_of schema.now }
{
    match schema.columns() {
        None => b'.',
        Some(columns) => columns.point,
    }
}

// The plain field of a dimension.
fn dimension_from<'f>(
    schema: &Schema,
    is_null: bool,
    first: Option<u8>,
    field: &'f [u8],
) -> &'f [u8]
    ensures { result.now ≡ dimension_from schema.now is_null first field.now }
{
    if is_keep(schema, field) {
        field
    } else if is_null {
        b"\\N".as_slice()
    } else {
        first_of(first, field)
    }
}

// The plain field of a measure of this number: one that is `\N` and isn't null is left empty, which is no number, and a
// number is written in units, in the buffer where it lies not in the field.
fn measure_from<'f>(
    schema: &Schema,
    measure: usize,
    is_null: bool,
    point: u8,
    field: &'f [u8],
    units: &'f mut Vec<u8>,
) -> Result<&'f [u8], AllocError>
    ensures { IfOk result (λ plain. plain.now ≡ measure_from schema.now measure is_null point field.now) }
{
    if is_keep(schema, field) {
        Ok(field)
    } else if is_null {
        Ok(b"\\N".as_slice())
    } else if is_null_text(field) {
        Ok(&[])
    } else {
        in_units(schema.decimals_of(measure), point, field, units)
    }
}

// Whether a field keeps its value; in version 1 none does.
fn is_keep(schema: &Schema, field: &[u8]) -> bool
    ensures { result ≡ is_keep schema.now field.now }
{
    schema.version() == 2 && is_keep_text(field)
}

fn is_null_text(field: &[u8]) -> bool
    ensures { result ≡ bytes_eq field.now null_text }
{
    field == b"\\N".as_slice()
}

// Whether a field of a schema's feeds is null.
fn is_null(schema: &Schema, field: &[u8]) -> bool
    ensures { result ≡ is_listed field.now (nulls_of schema.now) }
{
    match schema.columns() {
        None => is_null_text(field),
        Some(columns) => is_listed(field, columns.nulls.as_slice()),
    }
}

// Whether a field in the order of the schema is null: `\N` is, whatever else.
fn is_null_in_order(schema: &Schema, field: &[u8]) -> bool
    ensures { result ≡ is_listed field.now (null_text ∷ nulls_of schema.now) }
{
    is_null_text(field) || is_null(schema, field)
}

fn is_listed(field: &[u8], texts: &[Text]) -> bool
    ensures { result ≡ is_listed field.now texts.now }
{
    texts.iter().any(|text| field == text.as_str().as_bytes())
}

// The first so many characters of a field, or all of it; one that isn't UTF-8 stays.
fn first_of<'f>(first: Option<u8>, field: &'f [u8]) -> &'f [u8]
    ensures { result.now ≡ first_of first field.now }
{
    match first {
        None => field,
        Some(count) => {
            if is_text(field) {
                first_chars(field, count)
            } else {
                field
            }
        }
    }
}

// The first so many characters of a text, or all of it.
fn first_chars(text: &[u8], count: u8) -> &[u8]
    ensures { result.now ≡ take_chars count text.now }
{
    let mut left = count;
    for place in 0..text.len() {
        if is_char_start(text[place]) {
            if left == 0 {
                return &text[..place];
            }
            left -= 1;
        }
    }
    text
}

// Whether a byte of a text begins a character.
fn is_char_start(byte: u8) -> bool
    ensures { result ≡ is_char_start byte }
{
    byte < 0x80 || 0xC0 <= byte
}

/// Whether the data record of a number is in the schema's shard: the id of the plain record that it stands for decides. No
/// other field is looked at.
pub(crate) fn is_read_at(
    schema: &Schema,
    columns: &FoundColumns,
    number: u32,
    fields: &ByteRecord,
) -> bool
    ensures { result ≡ is_read schema.now (plain_of schema.now columns.now number (fields_of fields.now)) }
{
    match columns {
        FoundColumns::InOrder => is_read(schema, fields),
        FoundColumns::ByName(at) => match at.id {
            Some(place) => schema.shard().has(bytes_at(fields, place)),
            None => schema.shard().has(Buffer::new().format(number).as_bytes()),
        },
    }
}

/// The change that the data record of a number stands for, or its first fault. Its plain record is put in place of another,
/// where it differs. The only error is that memory ran out.
pub(crate) fn change_of_row(
    alloc: Global,
    schema: &Schema,
    columns: &FoundColumns,
    number: u32,
    fields: &ByteRecord,
    plain: &mut PlainRecord,
) -> Result<Result<Change, LineFault>, AllocError>
    ensures { IfOk result (λ what. what
        ≡ change_of schema.now (plain_of schema.now columns.now number (fields_of fields.now))) }
{
    match columns {
        FoundColumns::InOrder => change_in_order(alloc, schema, fields, plain),
        FoundColumns::ByName(at) => {
            put_by_name(schema, at, number, fields, plain)?;
            change(alloc, schema, &Fields::of(&plain.row))
        }
    }
}
