//! Where the columns of a feed stand, as its first record says.
ghost use Rattle.std.specs.Prelude.{◌≡◌, true, false, IfOk, IfErr, map, option_map};
ghost use Rattle.std.specs.Str.{bytes_eq};
ghost use Rattle.std.specs.List.{list_all};
ghost use Rattle.std.specs.Option.{option_map_or};
ghost use Rattle.csv.specs.Records.{fields_of};
ghost use Rattle.cube_core.specs.FeedRecords.{found_columns, names_read, place_in, places_by, stands_once};
ghost use Rattle.cube_feed.specs.Columns.{dimension_place, name_of, named, only_place};
ghost use Rattle.cube_feed.specs.declared.field.Stop.TheVariants as stop;

use crate::field::{Stop, bytes_at};
use crate::header::is_header;
use csv::ByteRecord;
use cube_core::{
    Column, ColumnPlaces, DimensionPlace, FeedColumns, FoundColumns, Schema, Sequence, Text,
};
use std::alloc::{AllocError, Global};

/// The columns that the first record of a feed names; None where it isn't a header of the schema. The only error is that
/// memory ran out.
pub(crate) fn find_columns(
    alloc: Global,
    schema: &Schema,
    header: &ByteRecord,
) -> Result<Option<FoundColumns>, AllocError>
    ensures { IfOk result (λ found. found ≡ found_columns schema.now (fields_of header.now)) }
{
    let Some(columns) = schema.columns() else {
        return in_order(alloc, schema, header);
    };
    match places(alloc, columns, header) {
        Ok(places) => Ok(Some(FoundColumns::ByName(places))),
        Err(Stop::Memory) => Err(AllocError),
        Err(Stop::Line) => Ok(None),
    }
}

// The columns in the order of the schema, where a record is its header. The only error is that memory ran out.
fn in_order(
    alloc: Global,
    schema: &Schema,
    header: &ByteRecord,
) -> Result<Option<FoundColumns>, AllocError>
    requires { schema.now.columns ≡ None }
    ensures { IfOk result (λ found. found ≡ found_columns schema.now (fields_of header.now)) }
{
    if is_header(alloc, schema, header)? {
        Ok(Some(FoundColumns::InOrder))
    } else {
        Ok(None)
    }
}

// Where columns stand that are known by name; the header is at fault where one of them doesn't stand in it exactly once.
fn places(alloc: Global, columns: &FeedColumns, header: &ByteRecord) -> Result<ColumnPlaces, Stop>
    ensures places { IfOk result (λ places. places ≡ places_by columns.now (fields_of header.now)) }
    ensures once { IfOk result (λ _. list_all (stands_once (fields_of header.now)) (names_read columns.now) ≡ true) }
    ensures line { IfErr result (λ e. e ≡ stop.Line →
        list_all (stands_once (fields_of header.now)) (names_read columns.now) ≡ false) }
{
    let op = name_place(header, &columns.op)?;
    let id = name_place(header, &columns.id)?;
    let dimensions = dimension_places(alloc, header, columns.dimensions.as_slice())?;
    let measures = measure_places(alloc, header, columns.measures.as_slice())?;
    Ok(ColumnPlaces {
        width: header.len(),
        op,
        id,
        dimensions: Sequence::from_vec(dimensions),
        measures: Sequence::from_vec(measures),
    })
}

// Where the column of a name stands, where there is a name; the header is at fault where it doesn't stand in it once.
fn name_place(header: &ByteRecord, name: &Option<Text>) -> Result<Option<usize>, Stop>
    ensures place { IfOk result (λ place. place ≡ option_map (place_in (fields_of header.now)) name.now) }
    ensures once { IfOk result (λ _. list_all (stands_once (fields_of header.now)) (named name.now) ≡ true) }
    ensures line { IfErr result (λ e. list_all (stands_once (fields_of header.now)) (named name.now) ≡ false) }
{
    match name {
        None => Ok(None),
        Some(name) => match only_place(header, name.as_str()) {
            Some(place) => Ok(Some(place)),
            None => Err(Stop::Line),
        },
    }
}

// Where the columns of dimensions stand; the header is at fault where one of them doesn't stand in it once.
fn dimension_places(
    alloc: Global,
    header: &ByteRecord,
    columns: &[Column],
) -> Result<Vec<DimensionPlace>, Stop>
    ensures places { IfOk result (λ places.
        places.items ≡ map (dimension_place (fields_of header.now)) columns.now) }
    ensures once { IfOk result (λ _.
        list_all (stands_once (fields_of header.now)) (map name_of columns.now) ≡ true) }
    ensures line { IfErr result (λ e. e ≡ stop.Line →
        list_all (stands_once (fields_of header.now)) (map name_of columns.now) ≡ false) }
{
    let mut places = Vec::with_capacity(alloc, columns.len())?;
    for column in columns {
        let Some(place) = only_place(header, column.name.as_str()) else {
            return Err(Stop::Line);
        };
        places.push(DimensionPlace {
            place,
            first: column.first,
        })?;
    }
    Ok(places)
}

// Where the columns of measures stand; the header is at fault where one of them doesn't stand in it once.
fn measure_places(alloc: Global, header: &ByteRecord, names: &[Text]) -> Result<Vec<usize>, Stop>
    ensures places { IfOk result (λ places. places.items ≡ map (place_in (fields_of header.now)) names.now) }
    ensures once { IfOk result (λ _. list_all (stands_once (fields_of header.now)) names.now ≡ true) }
    ensures line { IfErr result (λ e. e ≡ stop.Line →
        list_all (stands_once (fields_of header.now)) names.now ≡ false) }
{
    let mut places = Vec::with_capacity(alloc, names.len())?;
    for name in names {
        let Some(place) = only_place(header, name.as_str()) else {
            return Err(Stop::Line);
        };
        places.push(place)?;
    }
    Ok(places)
}

// The only place at which a name stands in a header; None where it doesn't stand in it exactly once.
fn only_place(header: &ByteRecord, name: &str) -> Option<usize>
    ensures { result ≡ only_place (fields_of header.now) name.now }
{
    let mut found = None;
    for place in 0..header.len() {
        if is_named(name, bytes_at(header, place)) {
            if found.is_some() {
                return None;
            }
            found = Some(place);
        }
    }
    found
}

fn is_named(name: &str, field: &[u8]) -> bool
    ensures { result ≡ bytes_eq name.now field.now }
{
    name.as_bytes() == field
}
