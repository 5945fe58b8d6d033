//! The change that a record spells, or the first fault that it has.
ghost use Rattle.std.specs.Prelude.{◌≡◌, ◌≤◌, ◌∷◌, [], true, false, length, drop, slice_range, IfOk, IfErr, OnOk};
ghost use Rattle.std.specs.Str.{bytes_eq, is_utf8};
ghost use Rattle.std.specs.List.{list_all, list_any, filter_map};
ghost use Rattle.cube_core.specs.Items.{width_of, field_at, keep_text, keeps_any, dimension_fields, measure_fields, unless_at_fault, unless_id_at_fault, delete_of, remove_of, change_of};
ghost use Rattle.cube_feed.specs.SoundFields.{is_sound_id, is_sound, are_sound, put_fault, listed, part_listed, dimension_put, measure_put, read_of, change_by, alone};
ghost use Rattle.cube_core.specs.declared.change.Change.{Change as TheChange};
ghost use Rattle.cube_feed.specs.declared.field.Stop.TheVariants as stop;

use crate::field::{Fields, Spelled, Stop, is_keep_text};
use crate::spelled_list::SpelledList;
use cube_core::{
    Change, DimensionValues, Fact, Field, LineFault, Partial, Schema, Sequence, SmallSequence, Text,
};
use std::alloc::{AllocError, Global};

// What a record with a fact does.
#[derive(Clone, Copy)]
enum Operation {
    Insert,
    Update,
    Upsert,
}

// Puts the values of the fields from a place to another into a list that has none.
pub(crate) fn read_values<T: Spelled, L: SpelledList<T>>(
    alloc: Global,
    fields: &Fields<'_>,
    start: usize,
    end: usize,
    values: &mut L,
) -> Result<(), Stop>
    requires in_order { start ≤ end }
    requires in_record { end ≤ length fields.now }
    requires empty { L.values values.old ≡ [] }
    ensures values { OnOk result
        (L.values values.new ≡ filter_map T.spells (slice_range fields.now start end)) }
    ensures sound { OnOk result
        (list_all (is_sound T.spells) (slice_range fields.now start end) ≡ true) }
    ensures line { IfErr result (λ e. e ≡ stop.Line →
        list_all (is_sound T.spells) (slice_range fields.now start end) ≡ false) }
{
    if values.add_at_once(fields, start, end) {
        return Ok(());
    }
    for place in start..end {
        let text = fields.text_at(place)?;
        values.add(alloc, text)?;
    }
    Ok(())
}

#[inline]
fn id(alloc: Global, fields: &Fields<'_>) -> Result<Text, Stop>
    ensures id { IfOk result (λ id. id ≡ field_at fields.now 1) }
    ensures sound { IfOk result (λ _. is_sound_id (field_at fields.now 1) ≡ true) }
    ensures line { IfErr result (λ e. e ≡ stop.Line → is_sound_id (field_at fields.now 1) ≡ false) }
{
    let text = fields.text_at(1)?;
    if text.is_empty() {
        return Err(Stop::Line);
    }
    Ok(Text::from_str(alloc, text)?)
}

/// How many fields a record with a fact has.
pub(crate) fn width(schema: &Schema) -> usize
    ensures { result ≡ width_of schema.now }
{
    2 + schema.dimensions().len() + schema.measures().len()
}

// The id of a record of the right width, with its dimensions and its measures put into lists that have none. Each field
// is looked at once: which fault it is that stops it is looked for only then.
fn parts<D: Spelled, M: Spelled, L: SpelledList<D>, N: SpelledList<M>>(
    alloc: Global,
    schema: &Schema,
    fields: &Fields<'_>,
    dims: &mut L,
    measures: &mut N,
) -> Result<Text, Stop>
    requires width { length fields.now ≡ width_of schema.now }
    requires empty { (L.values dims.old ≡ []) × (N.values measures.old ≡ []) }
    ensures id { IfOk result (λ id. id ≡ field_at fields.now 1) }
    ensures dims { OnOk result
        (L.values dims.new ≡ filter_map D.spells (dimension_fields schema.now fields.now)) }
    ensures measures { OnOk result
        (N.values measures.new ≡ filter_map M.spells (measure_fields schema.now fields.now)) }
    ensures sound { OnOk result (are_sound D.spells M.spells schema.now fields.now ≡ true) }
    ensures line { IfErr result (λ e.
        e ≡ stop.Line → are_sound D.spells M.spells schema.now fields.now ≡ false) }
{
    let first_measure = 2 + schema.dimensions().len();
    read_values::<D, L>(alloc, fields, 2, first_measure, dims)?;
    read_values::<M, N>(alloc, fields, first_measure, fields.len(), measures)?;
    id(alloc, fields)
}

// Whether all fields after the operation are UTF-8.
fn are_texts(fields: &Fields<'_>) -> bool
    ensures { result ≡ list_all is_utf8 (drop 1 fields.now) }
{
    for place in 1..fields.len() {
        if !fields.is_text_at(place) {
            return false;
        }
    }
    true
}

// The fault of a record of the right width whose fields aren't sound.
fn put_fault(fields: &Fields<'_>) -> LineFault
    ensures { result ≡ put_fault fields.now }
{
    if !are_texts(fields) {
        LineFault::Text
    } else if fields.bytes_at(1).is_empty() {
        LineFault::Id
    } else {
        LineFault::Measure
    }
}

// The id of a record with a fact or an amendment, whose dimensions and measures are put into lists that have none, or its
// first fault.
fn put<D: Spelled, M: Spelled, L: SpelledList<D>, N: SpelledList<M>>(
    alloc: Global,
    schema: &Schema,
    fields: &Fields<'_>,
    dims: &mut L,
    measures: &mut N,
) -> Result<Result<Text, LineFault>, AllocError>
    requires { (L.values dims.old ≡ []) × (N.values measures.old ≡ []) }
    ensures { IfOk result (λ read. listed (L.values dims.new) (N.values measures.new) read
        ≡ read_of D.spells M.spells schema.now fields.now) }
{
    if fields.len() != width(schema) {
        return Ok(Err(LineFault::Fields));
    }
    match parts::<D, M, L, N>(alloc, schema, fields, dims, measures) {
        Ok(id) => Ok(Ok(id)),
        Err(Stop::Memory) => Err(AllocError),
        Err(Stop::Line) => Ok(Err(put_fault(fields))),
    }
}

// Whether a field after the id is the one that keeps a value.
fn has_keep_text(fields: &Fields<'_>) -> bool
    ensures { result ≡ list_any (λ field. bytes_eq field keep_text) (drop 2 fields.now) }
{
    for place in 2..fields.len() {
        if is_keep_text(fields.bytes_at(place)) {
            return true;
        }
    }
    false
}

// Whether a field after the id keeps its value; only in version 2 it may.
fn keeps_any(schema: &Schema, fields: &Fields<'_>) -> bool
    ensures { result ≡ keeps_any schema.now fields.now }
{
    schema.version() == 2 && has_keep_text(fields)
}

// The amendment of a record that keeps a field, with its id, or the record's first fault.
fn amendment(
    alloc: Global,
    schema: &Schema,
    fields: &Fields<'_>,
) -> Result<Result<(Text, Partial), LineFault>, AllocError>
    ensures { IfOk result (λ read. part_listed read
        ≡ read_of dimension_put measure_put schema.now fields.now) }
{
    let mut dims = Vec::with_capacity(alloc, schema.dimensions().len())?;
    let mut measures = Vec::with_capacity(alloc, schema.measures().len())?;
    match put::<Field<Option<Text>>, Field<Option<i64>>, _, _>(
        alloc,
        schema,
        fields,
        &mut dims,
        &mut measures,
    )? {
        Ok(id) => {
            let part = Partial {
                dims: Sequence::from_vec(dims),
                measures: Sequence::from_vec(measures),
            };
            Ok(Ok((id, part)))
        }
        Err(fault) => Ok(Err(fault)),
    }
}

// The change of a record that keeps a field, or the record's first fault: an insert and an upsert have no value to keep.
fn keep(
    alloc: Global,
    schema: &Schema,
    fields: &Fields<'_>,
    operation: Operation,
) -> Result<Result<Change, LineFault>, AllocError>
    requires { keeps_any schema.now fields.now ≡ true }
    ensures { IfOk result (λ what.
        what ≡ unless_at_fault (change_by operation schema.now fields.now) schema.now fields.now) }
{
    match amendment(alloc, schema, fields)? {
        Ok((id, part)) => match operation {
            Operation::Insert => Ok(Err(LineFault::Keep)),
            Operation::Update => Ok(Ok(Change::Amend { id, part })),
            Operation::Upsert => Ok(Err(LineFault::Keep)),
        },
        Err(fault) => Ok(Err(fault)),
    }
}

// The change of a record that puts a fact and keeps no field, or the record's first fault.
fn put_fact(
    alloc: Global,
    schema: &Schema,
    fields: &Fields<'_>,
    operation: Operation,
) -> Result<Result<Change, LineFault>, AllocError>
    requires { keeps_any schema.now fields.now ≡ false }
    ensures { IfOk result (λ what.
        what ≡ unless_at_fault (change_by operation schema.now fields.now) schema.now fields.now) }
{
    let mut measures = SmallSequence::new(alloc);
    measures.reserve_exact(schema.measures().len())?;
    let mut dims = DimensionValues::new(alloc);
    match put::<Option<Text>, Option<i64>, _, _>(alloc, schema, fields, &mut dims, &mut measures)? {
        Ok(id) => {
            let fact = Fact { dims, measures };
            match operation {
                Operation::Insert => Ok(Ok(Change::Insert { id, fact })),
                Operation::Update => Ok(Ok(Change::Update { id, fact })),
                Operation::Upsert => Ok(Ok(Change::Upsert { id, fact })),
            }
        }
        Err(fault) => Ok(Err(fault)),
    }
}

// The id of a record of which it alone counts, or the record's first fault.
fn lone_id(
    alloc: Global,
    schema: &Schema,
    fields: &Fields<'_>,
) -> Result<Result<Text, LineFault>, AllocError>
    ensures read { IfOk result (λ read. (change : TheChange) →
        alone read change ≡ unless_id_at_fault change schema.now fields.now) }
    ensures id { IfOk result (λ read. IfOk read (λ id. id ≡ field_at fields.now 1)) }
{
    if fields.len() != 2 && fields.len() != width(schema) {
        return Ok(Err(LineFault::Fields));
    }
    let Ok(id) = fields.text_at(1) else {
        return Ok(Err(LineFault::Text));
    };
    if id.is_empty() {
        return Ok(Err(LineFault::Id));
    }
    Ok(Ok(Text::from_str(alloc, id)?))
}

fn delete(
    alloc: Global,
    schema: &Schema,
    fields: &Fields<'_>,
) -> Result<Result<Change, LineFault>, AllocError>
    ensures { IfOk result (λ what. what ≡ delete_of schema.now fields.now) }
{
    match lone_id(alloc, schema, fields)? {
        Ok(id) => Ok(Ok(Change::Delete { id })),
        Err(fault) => Ok(Err(fault)),
    }
}

fn remove(
    alloc: Global,
    schema: &Schema,
    fields: &Fields<'_>,
) -> Result<Result<Change, LineFault>, AllocError>
    ensures { IfOk result (λ what. what ≡ remove_of schema.now fields.now) }
{
    match lone_id(alloc, schema, fields)? {
        Ok(id) => Ok(Ok(Change::Remove { id })),
        Err(fault) => Ok(Err(fault)),
    }
}

fn is_operation(field: &[u8], letter: u8) -> bool
    ensures { result ≡ bytes_eq field.now (letter ∷ []) }
{
    field == [letter].as_slice()
}

/// The change that a data record spells, or its first fault; the only error is that memory ran out.
pub(crate) fn change(
    alloc: Global,
    schema: &Schema,
    fields: &Fields<'_>,
) -> Result<Result<Change, LineFault>, AllocError>
    ensures { IfOk result (λ what. what ≡ change_of schema.now fields.now) }
{
    let field = fields.bytes_at(0);
    let operation = if is_operation(field, b'I') {
        Operation::Insert
    } else if is_operation(field, b'U') {
        Operation::Update
    } else if is_operation(field, b'D') {
        return delete(alloc, schema, fields);
    } else if schema.may_upsert() && is_operation(field, b'P') {
        Operation::Upsert
    } else if schema.may_upsert() && is_operation(field, b'R') {
        return remove(alloc, schema, fields);
    } else {
        return Ok(Err(LineFault::Op));
    };
    if keeps_any(schema, fields) {
        return keep(alloc, schema, fields, operation);
    }
    put_fact(alloc, schema, fields, operation)
}
