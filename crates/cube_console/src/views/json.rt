//! The line of JSON that a record of a printed cube makes.
ghost use Rattle.std.specs.Prelude.{◌≡◌, ◌<◌, ◌==◌, ◌*◌, ◌++◌, map, IfOk, OnOk};
ghost use Rattle.std.specs.List.{flat_map, list_all};
ghost use Rattle.csv.specs.Records.{fields_of};
ghost use Rattle.cube_console.specs.Json.{answer, cell, column_of, columns_of, coordinate, escaped, field_or_none, hex_digit, is_grouping, is_in_number, is_number, json_line, name_of, opening, quoted, stands_between, value_of, value_text};
ghost use Rattle.cube_console.specs.JsonColumns.{seen};

use csv::ByteRecord;
use std::alloc::{AllocError, Global};

/// How a printed cube writes null, and ALL in a dimension.
const NULL: &[u8] = b"\\N";

/// How the fields of a column are written.
#[derive(Clone, Copy, PartialEq, Eq, Debug)]
pub(crate) enum Value {
    /// A dimension: `null` or a text.
    Coordinate,
    /// A GROUPING column: a number, as it stands.
    Grouping,
    /// An answer: `null`, a number as it stands, or a text.
    Answer,
    /// Not at all: the column stands before under the same name.
    Left,
}

/// A column of a printed cube, as a line of JSON has it.
#[derive(Drop)]
pub(crate) struct Column {
    /// What comes before its value: the beginning of its part or a comma, its name, and a colon.
    before: Vec<u8>,
    /// How its value is written.
    value: Value,
}

/// The columns of a printed cube with this header and so many dimensions. The only error is that memory ran out.
pub(crate) fn columns_of(
    alloc: Global,
    dimensions: usize,
    header: &ByteRecord,
) -> Result<Vec<Column>, AllocError>
    ensures { IfOk result (λ columns. map seen columns.items ≡ columns_of dimensions (fields_of header.now)) }
{
    let mut columns = Vec::new(alloc);
    for place in 0..header.len() {
        columns.push(column_of(alloc, dimensions, header, place)?)?;
    }
    Ok(columns)
}

// The column at a place.
fn column_of(
    alloc: Global,
    dimensions: usize,
    header: &ByteRecord,
    place: usize,
) -> Result<Column, AllocError>
    ensures { IfOk result (λ column. seen column ≡ column_of dimensions (fields_of header.now) place) }
{
    let mut before = Vec::new(alloc);
    let value = value_of(dimensions, header, place);
    before.extend_from_slice(opening(dimensions, place))?;
    push_quoted(&mut before, name_of(dimensions, header, place))?;
    before.push(b':')?;
    Ok(Column { before, value })
}

// What stands before the name of the column at a place.
fn opening(dimensions: usize, place: usize) -> &'static [u8]
    ensures { result.now ≡ opening dimensions place }
{
    if place == 0 {
        b"{\"dimensions\":{"
    } else if place == dimensions {
        b"},\"grouping\":{"
    } else if is_first_answer(dimensions, place) {
        b"},\"answers\":{"
    } else {
        b","
    }
}

// The name that the column at a place has: a GROUPING column has that of its dimension.
fn name_of(dimensions: usize, header: &ByteRecord, place: usize) -> &[u8]
    ensures { result.now ≡ name_of dimensions (fields_of header.now) place }
{
    if is_grouping(dimensions, place) {
        field_or_none(header, place - dimensions)
    } else {
        field_or_none(header, place)
    }
}

// How the fields of the column at a place are written.
fn value_of(dimensions: usize, header: &ByteRecord, place: usize) -> Value
    ensures { result ≡ value_of dimensions (fields_of header.now) place }
{
    if place < dimensions {
        Value::Coordinate
    } else if is_grouping(dimensions, place) {
        Value::Grouping
    } else if stands_between(header, 2 * dimensions, place) {
        Value::Left
    } else {
        Value::Answer
    }
}

// Whether the column at a place is the first answer.
fn is_first_answer(dimensions: usize, place: usize) -> bool
    ensures { result ≡ (place == 2 * dimensions) }
{
    dimensions <= place && place - dimensions == dimensions
}

// Whether the column at a place is one of GROUPING.
fn is_grouping(dimensions: usize, place: usize) -> bool
    ensures { result ≡ is_grouping dimensions place }
{
    dimensions <= place && place - dimensions < dimensions
}

// Whether the name at a place stands at one from `first` on before it too.
fn stands_between(header: &ByteRecord, first: usize, place: usize) -> bool
    ensures { result ≡ stands_between (fields_of header.now) first place }
{
    let name = field_or_none(header, place);
    (first..place).any(|other| field_or_none(header, other) == name)
}

// The field at a place; empty where there is none.
fn field_or_none(row: &ByteRecord, place: usize) -> &[u8]
    ensures { result.now ≡ field_or_none (fields_of row.now) place }
{
    match row.get(place) {
        Some(field) => field,
        None => b"",
    }
}

/// Puts the line of JSON of a record at the end of the text. The only error is that memory ran out, and then a part of
/// the line may stand there.
pub(crate) fn push_line(
    text: &mut Vec<u8>,
    columns: &[Column],
    row: &ByteRecord,
) -> Result<(), AllocError>
    ensures { OnOk result
        (text.new.items ≡ text.old.items ++ json_line (map seen columns.now) (fields_of row.now)) }
{
    for (place, column) in columns.iter().enumerate() {
        push_cell(text, column, field_or_none(row, place))?;
    }
    text.extend_from_slice(b"}}\n")
}

// Puts a column's name and its value.
fn push_cell(text: &mut Vec<u8>, column: &Column, field: &[u8]) -> Result<(), AllocError>
    ensures { OnOk result (text.new.items ≡ text.old.items ++ cell (seen column.now) field.now) }
{
    if column.value == Value::Left {
        return Ok(());
    }
    text.extend_from_slice(&column.before)?;
    push_value(text, column.value, field)
}

// Puts a field as its column's values are written.
fn push_value(text: &mut Vec<u8>, value: Value, field: &[u8]) -> Result<(), AllocError>
    ensures { OnOk result (text.new.items ≡ text.old.items ++ value_text value field.now) }
{
    match value {
        Value::Coordinate => push_coordinate(text, field),
        Value::Grouping => text.extend_from_slice(field),
        Value::Answer => push_answer(text, field),
        Value::Left => Ok(()),
    }
}

// Puts `null` or a text.
fn push_coordinate(text: &mut Vec<u8>, field: &[u8]) -> Result<(), AllocError>
    ensures { OnOk result (text.new.items ≡ text.old.items ++ coordinate field.now) }
{
    if field == NULL {
        return text.extend_from_slice(b"null");
    }
    push_quoted(text, field)
}

// Puts a number as it stands, else `null` or a text.
fn push_answer(text: &mut Vec<u8>, field: &[u8]) -> Result<(), AllocError>
    ensures { OnOk result (text.new.items ≡ text.old.items ++ answer field.now) }
{
    if is_number(field) {
        return text.extend_from_slice(field);
    }
    push_coordinate(text, field)
}

// Whether an answer is a number: digits, perhaps with a sign and a point. No other answer has these bytes alone.
fn is_number(field: &[u8]) -> bool
    ensures { result ≡ is_number field.now }
{
    !field.is_empty() && are_in_number(field)
}

// Whether all bytes are ones of a number.
fn are_in_number(field: &[u8]) -> bool
    ensures { result ≡ list_all is_in_number field.now }
{
    field.iter().all(|byte| is_in_number(*byte))
}

// Whether a byte is one of a number.
fn is_in_number(byte: u8) -> bool
    ensures { result ≡ is_in_number byte }
{
    byte.is_ascii_digit() || byte == b'-' || byte == b'.'
}

// Puts a text in quotes.
fn push_quoted(text: &mut Vec<u8>, field: &[u8]) -> Result<(), AllocError>
    ensures { OnOk result (text.new.items ≡ text.old.items ++ quoted field.now) }
{
    text.push(b'"')?;
    push_all_escaped(text, field)?;
    text.push(b'"')?;
    Ok(())
}

// Puts the bytes of a text, each escaped where JSON wants it.
fn push_all_escaped(text: &mut Vec<u8>, field: &[u8]) -> Result<(), AllocError>
    ensures { OnOk result (text.new.items ≡ text.old.items ++ flat_map escaped field.now) }
{
    for byte in field {
        push_escaped(text, *byte)?;
    }
    Ok(())
}

// Puts a byte of a text, escaped where JSON wants it.
fn push_escaped(text: &mut Vec<u8>, byte: u8) -> Result<(), AllocError>
    ensures { OnOk result (text.new.items ≡ text.old.items ++ escaped byte) }
{
    if byte == b'"' {
        text.extend_from_slice(b"\\\"")
    } else if byte == b'\\' {
        text.extend_from_slice(b"\\\\")
    } else if byte == b'\n' {
        text.extend_from_slice(b"\\n")
    } else if byte == b'\r' {
        text.extend_from_slice(b"\\r")
    } else if byte == b'\t' {
        text.extend_from_slice(b"\\t")
    } else if byte < 32 {
        text.extend_from_slice(&[
            b'\\',
            b'u',
            b'0',
            b'0',
            hex_digit(byte / 16),
            hex_digit(byte % 16),
        ])
    } else {
        text.extend_from_slice(&[byte])
    }
}

// The digit of a number below 16, in small letters.
fn hex_digit(number: u8) -> u8
    requires { number < 16 }
    ensures { result ≡ hex_digit number }
{
    if number < 10 {
        b'0' + number
    } else {
        b'a' + (number - 10)
    }
}
