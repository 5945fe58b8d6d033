//! What a record of a session asks, read from its fields.
ghost use Rattle.std.specs.Prelude.{◌≡◌, ◌+◌, ◌<◌, drop, length, position, IfOk, Ok};
ghost use Rattle.std.specs.Str.{bytes_eq};
ghost use Rattle.csv.specs.Records.{fields_of};
ghost use Rattle.std.specs.Prelude.{Result};
ghost use Rattle.cube_core.specs.Items.{field_at};
ghost use Rattle.cube_core.specs.Layout.{number_of_dimensions};
ghost use Rattle.cube_core.specs.Query.{Says, place_of, spelled_by};
ghost use Rattle.cube_core.specs.declared.query.QueryFault.{QueryFault as TheFault};
ghost use Rattle.cube_live.specs.Request.{cell_and_dimension, cell_by, drill_by, drill_request, of_width, question_of, refusals_asked, refusals_by, request_of, roll_up_request, slice_request, with_dimension};

use crate::number::{count_of, source_of};
use crate::request::{Question, Request, RequestFault};
use csv::ByteRecord;
use cube_core::{Key, Pattern, QueryFault, Schema, Text};
use cube_feed::put_rest;
use std::alloc::{AllocError, Global};

/// What a record asks under a schema. The only error is that memory ran out.
pub fn request_of(
    alloc: Global,
    schema: &Schema,
    fields: &ByteRecord,
) -> Result<Request, AllocError>
    ensures { IfOk result (λ request. request ≡ request_of schema.now (fields_of fields.now)) }
{
    match source_of(field_at(fields, 0)) {
        Some(source) => Ok(Request::Change(source)),
        None => question_of(alloc, schema, fields),
    }
}

// What a record asks that is no change.
fn question_of(alloc: Global, schema: &Schema, fields: &ByteRecord) -> Result<Request, AllocError>
    ensures { IfOk result (λ request. request ≡ question_of schema.now (fields_of fields.now)) }
{
    let name = field_at(fields, 0);
    if name == b"print".as_slice() {
        Ok(of_width(fields, 1, Request::Ask(Question::Print)))
    } else if name == b"slice".as_slice() {
        slice_request(alloc, schema, fields)
    } else if name == b"drill".as_slice() {
        drill_request(alloc, schema, fields)
    } else if name == b"rollup".as_slice() {
        roll_up_request(alloc, schema, fields)
    } else if name == b"refusals".as_slice() {
        Ok(refusals_asked(fields))
    } else if name == b"sync".as_slice() {
        Ok(of_width(fields, 1, Request::Ask(Question::Sync)))
    } else {
        Ok(Request::Wrong(RequestFault::Unknown))
    }
}

// The bytes of the field at a place; empty past the last.
fn field_at(fields: &ByteRecord, place: usize) -> &[u8]
    ensures { result.now ≡ field_at (fields_of fields.now) place }
{
    match fields.get(place) {
        Some(field) => field,
        None => &[],
    }
}

// A request that has so many fields; one of another number is wrong.
fn of_width(fields: &ByteRecord, width: usize, request: Request) -> Request
    ensures { result ≡ of_width width (fields_of fields.now) request }
{
    if fields.len() == width {
        request
    } else {
        Request::Wrong(RequestFault::Shape)
    }
}

// An answer to a query, where it wasn't refused because memory ran out.
fn unless_memory<T: Drop>(
    answer: Result<T, QueryFault>,
) -> Result<Result<T, QueryFault>, AllocError>
    ensures { IfOk result (λ said. (wanted : Result T TheFault) → Says wanted answer → said ≡ wanted) }
{
    match answer {
        Ok(value) => Ok(Ok(value)),
        Err(QueryFault::Memory) => Err(AllocError),
        Err(fault) => Ok(Err(fault)),
    }
}

// The fields of a record from a place on.
fn rest_of(alloc: Global, fields: &ByteRecord, from: usize) -> Result<ByteRecord, AllocError>
    ensures { IfOk result (λ rest. fields_of rest ≡ drop from (fields_of fields.now)) }
{
    let mut rest = ByteRecord::new(alloc);
    put_rest(fields, from, &mut rest)?;
    Ok(rest)
}

// The pattern that the fields from a place on spell, or what is wrong with them.
fn pattern_from(
    alloc: Global,
    fields: &ByteRecord,
    from: usize,
) -> Result<Result<Pattern, QueryFault>, AllocError>
    ensures { IfOk result (λ said. said ≡ spelled_by (drop from (fields_of fields.now))) }
{
    let rest = rest_of(alloc, fields, from)?;
    unless_memory(Pattern::of_record(alloc, &rest))
}

// What a slice asks.
fn slice_request(alloc: Global, schema: &Schema, fields: &ByteRecord) -> Result<Request, AllocError>
    ensures { IfOk result (λ request. request ≡ slice_request schema.now (fields_of fields.now)) }
{
    if fields.len() != 1 + schema.number_of_dimensions() {
        return Ok(Request::Wrong(RequestFault::Shape));
    }
    match pattern_from(alloc, fields, 1)? {
        Ok(pattern) => Ok(Request::Ask(Question::Slice(pattern))),
        Err(fault) => Ok(Request::Wrong(RequestFault::Query(fault))),
    }
}

// The place of the dimension that has a name.
fn place_of(schema: &Schema, name: &[u8]) -> Result<usize, QueryFault>
    ensures { result ≡ place_of schema.now name.now }
{
    position_of(schema.cube_dimensions(), name).ok_or(QueryFault::UnknownDimension)
}

// The first place of a name.
fn position_of(names: &[Text], name: &[u8]) -> Option<usize>
    ensures { result ≡ position (λ other. bytes_eq other name.now) names.now }
{
    names
        .iter()
        .position(|other| other.as_str().as_bytes() == name)
}

// The cell that the fields from the third on spell, or what is wrong with them.
fn cell_from(alloc: Global, fields: &ByteRecord) -> Result<Result<Key, QueryFault>, AllocError>
    ensures { IfOk result (λ said. said ≡ cell_by (spelled_by (drop 2 (fields_of fields.now)))) }
{
    match pattern_from(alloc, fields, 2)? {
        Ok(pattern) => unless_memory(pattern.cell(alloc)),
        Err(fault) => Ok(Err(fault)),
    }
}

// The cell that the fields from the third on spell, and the dimension that the second names, or what is wrong with them.
fn cell_and_dimension(
    alloc: Global,
    schema: &Schema,
    fields: &ByteRecord,
) -> Result<Result<(Key, usize), QueryFault>, AllocError>
    ensures { IfOk result (λ found. found ≡ cell_and_dimension schema.now (fields_of fields.now)) }
{
    match cell_from(alloc, fields)? {
        Ok(key) => Ok(with_dimension(key, place_of(schema, field_at(fields, 1)))),
        Err(fault) => Ok(Err(fault)),
    }
}

// A cell and a dimension, where there is such a dimension.
fn with_dimension(key: Key, place: Result<usize, QueryFault>) -> Result<(Key, usize), QueryFault>
    ensures { result ≡ with_dimension (Ok key) place }
{
    match place {
        Ok(dimension) => Ok((key, dimension)),
        Err(fault) => Err(fault),
    }
}

// What a drill-down asks.
fn drill_request(alloc: Global, schema: &Schema, fields: &ByteRecord) -> Result<Request, AllocError>
    ensures { IfOk result (λ request. request ≡ drill_request schema.now (fields_of fields.now)) }
{
    if fields.len() != 2 + schema.number_of_dimensions() {
        return Ok(Request::Wrong(RequestFault::Shape));
    }
    match cell_and_dimension(alloc, schema, fields)? {
        Ok((key, dimension)) => Ok(drill_by(schema, key, dimension)),
        Err(fault) => Ok(Request::Wrong(RequestFault::Query(fault))),
    }
}

// The drill-down from a key along a dimension, where there is one.
fn drill_by(schema: &Schema, key: Key, dimension: usize) -> Request
    requires dimension { dimension < number_of_dimensions schema.now }
    requires width { length key.coords ≡ number_of_dimensions schema.now }
    ensures { result ≡ drill_by schema.now (key, dimension) }
{
    match schema.drill_fault(&key, dimension) {
        Some(fault) => Request::Wrong(RequestFault::Query(fault)),
        None => Request::Ask(Question::Drill(key, dimension)),
    }
}

// What a roll-up asks.
fn roll_up_request(
    alloc: Global,
    schema: &Schema,
    fields: &ByteRecord,
) -> Result<Request, AllocError>
    ensures { IfOk result (λ request. request ≡ roll_up_request schema.now (fields_of fields.now)) }
{
    if fields.len() != 2 + schema.number_of_dimensions() {
        return Ok(Request::Wrong(RequestFault::Shape));
    }
    match cell_and_dimension(alloc, schema, fields)? {
        Ok((key, dimension)) => Ok(Request::Ask(Question::RollUp(key, dimension))),
        Err(fault) => Ok(Request::Wrong(RequestFault::Query(fault))),
    }
}

// What is asked of refusals.
fn refusals_asked(fields: &ByteRecord) -> Request
    ensures { result ≡ refusals_asked (fields_of fields.now) }
{
    if fields.len() == 1 {
        return Request::Ask(Question::Refusals);
    }
    let source = source_of(field_at(fields, 1));
    let number = count_of(field_at(fields, 2));
    of_width(fields, 3, refusals_by(source, number))
}

// The refusals of a source after a record of it.
fn refusals_by(source: Option<u32>, number: Option<u64>) -> Request
    ensures { result ≡ refusals_by source number }
{
    match (source, number) {
        (Some(source), Some(number)) => Request::Ask(Question::RefusalsAfter(source, number)),
        _ => Request::Wrong(RequestFault::Shape),
    }
}
