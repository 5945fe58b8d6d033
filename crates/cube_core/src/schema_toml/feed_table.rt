//! What the table `feed` of a schema's document says.
ghost use Rattle.std.specs.Prelude.{◌≡◌, ◌++◌, false, true, IfOk, MatchOption, is_some, option_and_then, option_map, unwrap_or, None};
ghost use Rattle.std.specs.List.{list_all, filter_map};
ghost use Rattle.toml.specs.Data.{as_str, get_member, no_members, string, table};
ghost use Rattle.toml.specs.View.{view, table_view};
ghost use Rattle.cube_core.specs.Layout.{is_listed, is_delimiter};
ghost use Rattle.cube_core.specs.FeedDocument.{cut_keys, feed_keys, has_only, if_there, are_plain_keys, is_op_with_id, is_point_apart, one_byte, delimiter_value, delimiter_in, point_value, point_in, texts_value, nulls_in, count_value, cut_column, column_value, columns_value, dimension_column, measure_column, columns_of_feed, columns_of_value};

use super::{texts_of, value_at};
use crate::feed_columns::{Column, FeedColumns};
use crate::sequence::Sequence;
use crate::text::{Text, texts_from_strs};
use std::alloc::{AllocError, Global};
use toml::{Table, Value};

/// The columns that the value at `feed` says, none where there is no such value; None where it is wrong.
pub(super) fn columns_of_value(
    alloc: Global,
    dimensions: &[Text],
    measures: &[Text],
    feed: Option<&Value>,
) -> Result<Option<Option<FeedColumns>>, AllocError>
    ensures { IfOk result (λ found. found
        ≡ columns_of_value dimensions.now measures.now (option_map (λ value. view value.now) feed.entry)) }
{
    match feed {
        None => Ok(Some(None)),
        Some(Value::Table(feed)) => match columns_of_feed(alloc, dimensions, measures, feed)? {
            Some(columns) => Ok(Some(Some(columns))),
            None => Ok(None),
        },
        Some(_) => Ok(None),
    }
}

/// The columns that a table says, where it is right.
fn columns_of_feed(
    alloc: Global,
    dimensions: &[Text],
    measures: &[Text],
    feed: &Table,
) -> Result<Option<FeedColumns>, AllocError>
    ensures { IfOk result (λ found. found
        ≡ columns_of_feed dimensions.now measures.now (table (table_view feed.now))) }
{
    if !are_plain_keys(feed) {
        return Ok(None);
    }
    let none = Table::new(alloc);
    let Some(columns) = columns_value(feed, &none) else {
        return Ok(None);
    };
    if !are_names(columns, dimensions, measures) {
        return Ok(None);
    }
    let Some(nulls) = nulls_in(alloc, feed)? else {
        return Ok(None);
    };
    let Some(of_dimensions) = dimension_columns(alloc, columns, dimensions)? else {
        return Ok(None);
    };
    let Some(of_measures) = measure_columns(alloc, columns, measures)? else {
        return Ok(None);
    };
    Ok(Some(FeedColumns {
        id: name_copied(alloc, feed, "id")?,
        op: name_copied(alloc, feed, "op")?,
        nulls: Sequence::from_vec(nulls),
        delimiter: delimiter_in(feed).unwrap_or(b','),
        point: point_in(feed).unwrap_or(b'.'),
        dimensions: Sequence::from_vec(of_dimensions),
        measures: Sequence::from_vec(of_measures),
    }))
}

/// Whether a table has no other keys than `feed` may have, and those of ids, operations, delimiter and point are right.
fn are_plain_keys(feed: &Table) -> bool
    ensures { result ≡ are_plain_keys (table_view feed.now) }
{
    has_feed_keys(feed)
        && name_in(feed, "id").is_some()
        && name_in(feed, "op").is_some()
        && delimiter_in(feed).is_some()
        && point_in(feed).is_some()
        && is_op_with_id(feed)
        && is_point_apart(feed)
}

/// Whether a table names a column of ids, or none of operations.
fn is_op_with_id(feed: &Table) -> bool
    ensures { result ≡ is_op_with_id (table_view feed.now) }
{
    has_name(feed, "id") || !has_name(feed, "op")
}

fn has_name(feed: &Table, key: &str) -> bool
    ensures { result ≡ is_some (unwrap_or (if_there as_str key.now (table_view feed.now)) None) }
{
    matches!(name_in(feed, key), Some(Some(_)))
}

/// Whether the point isn't the delimiter.
fn is_point_apart(feed: &Table) -> bool
    ensures { result ≡ is_point_apart (table_view feed.now) }
{
    point_in(feed).unwrap_or(b'.') != delimiter_in(feed).unwrap_or(b',')
}

/// The name that a table has at a key, where it may have none; None where what stands there is no text.
fn name_in<'d>(feed: &'d Table, key: &str) -> Option<Option<&'d str>>
    ensures { option_map (λ name. option_map (λ text. text.now) name) result
        ≡ if_there as_str key.now (table_view feed.now) }
{
    match value_at(feed, key) {
        None => Some(None),
        Some(value) => match value.as_str() {
            Some(name) => Some(Some(name)),
            None => None,
        },
    }
}

/// A copy of the name at a key, where it has one.
fn name_copied(alloc: Global, feed: &Table, key: &str) -> Result<Option<Text>, AllocError>
    ensures { IfOk result (λ copy. copy
        ≡ unwrap_or (if_there as_str key.now (table_view feed.now)) None) }
{
    match name_in(feed, key) {
        Some(Some(name)) => Ok(Some(Text::from_str(alloc, name)?)),
        _ => Ok(None),
    }
}

/// The delimiter that a table says, a comma where it says none; None where it is wrong.
fn delimiter_in(feed: &Table) -> Option<u8>
    ensures { result ≡ delimiter_in (table_view feed.now) }
{
    match value_at(feed, "delimiter") {
        Some(value) => delimiter_value(value),
        None => Some(b','),
    }
}

fn delimiter_value(value: &Value) -> Option<u8>
    ensures { result ≡ delimiter_value (view value.now) }
{
    let byte = one_byte(value.as_str()?)?;
    if is_delimiter(byte) { Some(byte) } else { None }
}

fn is_delimiter(byte: u8) -> bool
    ensures { result ≡ is_delimiter byte }
{
    byte < 128 && byte != b'"' && byte != b'\r' && byte != b'\n'
}

/// The point or the comma that a table says, the point where it says none; None where it is wrong.
fn point_in(feed: &Table) -> Option<u8>
    ensures { result ≡ point_in (table_view feed.now) }
{
    match value_at(feed, "point") {
        Some(value) => point_value(value),
        None => Some(b'.'),
    }
}

fn point_value(value: &Value) -> Option<u8>
    ensures { result ≡ point_value (view value.now) }
{
    let byte = one_byte(value.as_str()?)?;
    if byte == b'.' || byte == b',' {
        Some(byte)
    } else {
        None
    }
}

/// The byte that a text of one byte is.
fn one_byte(text: &str) -> Option<u8>
    ensures { result ≡ one_byte text.now }
{
    match text.as_bytes() {
        [byte] => Some(*byte),
        _ => None,
    }
}

/// The texts that are null, `\N` where a table says none; None where what it says is no array of texts.
fn nulls_in(alloc: Global, feed: &Table) -> Result<Option<Vec<Text>>, AllocError>
    ensures { IfOk result (λ found.
        option_map (λ texts. texts.items) found ≡ nulls_in (table_view feed.now)) }
{
    match value_at(feed, "null") {
        Some(value) => texts_value(alloc, value),
        None => Ok(Some(texts_from_strs(alloc, &["\\N"])?)),
    }
}

pub(super) fn texts_value(alloc: Global, value: &Value) -> Result<Option<Vec<Text>>, AllocError>
    ensures { IfOk result (λ found.
        option_map (λ texts. texts.items) found ≡ texts_value (view value.now)) }
{
    match value {
        Value::Array(values) => texts_of(alloc, values),
        _ => Ok(None),
    }
}

/// The table `columns`, or the empty one where there is none; None where what stands there is no table.
fn columns_value<'d>(feed: &'d Table, none: &'d Table) -> Option<&'d Table>
    requires { table_view none.now ≡ no_members }
    ensures { option_map (λ columns. table_view columns.now) result ≡ columns_value (table_view feed.now) }
{
    match value_at(feed, "columns") {
        None => Some(none),
        Some(value) => value.as_table(),
    }
}

/// Whether a table has no other keys than the names of a schema.
pub(super) fn are_names(columns: &Table, dimensions: &[Text], measures: &[Text]) -> bool
    ensures { result ≡ has_only (dimensions.now ++ measures.now) (table_view columns.now) }
{
    for key in columns.keys() {
        if !is_name(key.as_str(), dimensions, measures) {
            return false;
        }
    }
    true
}

fn is_name(key: &str, dimensions: &[Text], measures: &[Text]) -> bool
    ensures { result ≡ is_listed key.now (dimensions.now ++ measures.now) }
{
    is_text_in(key, dimensions) || is_text_in(key, measures)
}

pub(super) fn is_text_in(key: &str, names: &[Text]) -> bool
    ensures { result ≡ is_listed key.now names.now }
{
    names.iter().any(|name| key == name.as_str())
}

/// Whether `feed` has only keys that it may have.
fn has_feed_keys(feed: &Table) -> bool
    ensures { result ≡ has_only feed_keys (table_view feed.now) }
{
    for key in feed.keys() {
        if !is_feed_key(key.as_str()) {
            return false;
        }
    }
    true
}

fn is_feed_key(key: &str) -> bool
    ensures { result ≡ is_listed key.now feed_keys }
{
    matches!(
        key,
        "id" | "op" | "null" | "delimiter" | "point" | "columns"
    )
}

/// Whether the table of a column has only keys that it may have.
fn has_cut_keys(members: &Table) -> bool
    ensures { result ≡ has_only cut_keys (table_view members.now) }
{
    for key in members.keys() {
        if !is_cut_key(key.as_str()) {
            return false;
        }
    }
    true
}

fn is_cut_key(key: &str) -> bool
    ensures { result ≡ is_listed key.now cut_keys }
{
    matches!(key, "column" | "first")
}

/// The columns of dimensions, where each is right.
fn dimension_columns(
    alloc: Global,
    columns: &Table,
    names: &[Text],
) -> Result<Option<Vec<Column>>, AllocError>
    ensures { IfOk result (λ found. MatchOption found
        (list_all (λ name. is_some (dimension_column (table_view columns.now) name)) names.now ≡ false)
        (λ read. (read.items ≡ filter_map (dimension_column (table_view columns.now)) names.now)
        × (list_all (λ name. is_some (dimension_column (table_view columns.now) name)) names.now ≡ true))) }
{
    let mut read = Vec::with_capacity(alloc, names.len())?;
    for name in names {
        let Some(column) = dimension_column(alloc, columns, name)? else {
            return Ok(None);
        };
        read.push(column)?;
    }
    Ok(Some(read))
}

/// The column of a dimension, that of its own name where `columns` has no such key; None where it is wrong.
fn dimension_column(
    alloc: Global,
    columns: &Table,
    name: &Text,
) -> Result<Option<Column>, AllocError>
    ensures { IfOk result (λ found. found ≡ dimension_column (table_view columns.now) name.now) }
{
    match value_at(columns, name.as_str()) {
        Some(value) => column_value(alloc, value),
        None => whole_column(alloc, name.as_str()),
    }
}

/// The column of a dimension that a value names.
fn column_value(alloc: Global, value: &Value) -> Result<Option<Column>, AllocError>
    ensures { IfOk result (λ found. found ≡ column_value (view value.now)) }
{
    match value {
        Value::String(name) => whole_column(alloc, name.as_str()),
        Value::Table(members) => cut_column(alloc, members),
        _ => Ok(None),
    }
}

fn whole_column(alloc: Global, name: &str) -> Result<Option<Column>, AllocError>
    ensures { IfOk result (λ found. found ≡ column_value (string name.now)) }
{
    Ok(Some(Column {
        name: Text::from_str(alloc, name)?,
        first: None,
    }))
}

/// The column that a table of exactly `column` and `first` names.
fn cut_column(alloc: Global, members: &Table) -> Result<Option<Column>, AllocError>
    ensures { IfOk result (λ found. found ≡ cut_column (table_view members.now)) }
{
    if !has_cut_keys(members) {
        return Ok(None);
    }
    let (Some(name), Some(count)) = (text_at(members, "column"), count_at(members, "first")) else {
        return Ok(None);
    };
    Ok(Some(Column {
        name: Text::from_str(alloc, name)?,
        first: Some(count),
    }))
}

fn text_at<'d>(members: &'d Table, key: &str) -> Option<&'d str>
    ensures { option_map (λ text. text.now) result
        ≡ option_and_then as_str (get_member key.now (table_view members.now)) }
{
    value_at(members, key)?.as_str()
}

fn count_at(members: &Table, key: &str) -> Option<u8>
    ensures { result ≡ option_and_then count_value (get_member key.now (table_view members.now)) }
{
    count_value(value_at(members, key)?)
}

/// The number of characters that a value is, from 1 to 255.
fn count_value(value: &Value) -> Option<u8>
    ensures { result ≡ count_value (view value.now) }
{
    let count = u8::try_from(value.as_integer()?).ok()?;
    if count == 0 { None } else { Some(count) }
}

/// The columns of measures, where each is right.
fn measure_columns(
    alloc: Global,
    columns: &Table,
    names: &[Text],
) -> Result<Option<Vec<Text>>, AllocError>
    ensures { IfOk result (λ found. MatchOption found
        (list_all (λ name. is_some (measure_column (table_view columns.now) name)) names.now ≡ false)
        (λ read. (read.items ≡ filter_map (measure_column (table_view columns.now)) names.now)
        × (list_all (λ name. is_some (measure_column (table_view columns.now) name)) names.now ≡ true))) }
{
    let mut read = Vec::with_capacity(alloc, names.len())?;
    for name in names {
        let Some(column) = measure_column(columns, name) else {
            return Ok(None);
        };
        read.push(Text::from_str(alloc, column)?)?;
    }
    Ok(Some(read))
}

/// The column of a measure, that of its own name where `columns` has no such key; None where it is no text.
fn measure_column<'d>(columns: &'d Table, name: &'d Text) -> Option<&'d str>
    ensures { option_map (λ text. text.now) result ≡ measure_column
        (table_view columns.now) name.now }
{
    match value_at(columns, name.as_str()) {
        Some(value) => value.as_str(),
        None => Some(name.as_str()),
    }
}
