//! The words that spell conditions on facts.
ghost use Rattle.std.specs.Prelude.{◌≡◌, None, IfOk, codes, drop, filter, length, map, nat_eq, option_map};
ghost use Rattle.std.specs.List.{starts_with};
ghost use Rattle.std.specs.Option.{ok_or, option_and_then};
ghost use Rattle.csv.specs.Records.{fields_of, partial_of};
ghost use Rattle.cube_core.specs.Conditions.{condition_behind, condition_of, condition_on, condition_on_dimension, condition_on_measure, is_named, longer, longest, operator_of, test_of, values_of};
ghost use Rattle.cube_core.specs.Layout.{decimals_of, names_of};
ghost use Rattle.cube_core.specs.Plain.{in_units};
ghost use Rattle.cube_core.specs.Query.{Says, only_one};
ghost use Rattle.cube_core.specs.declared.query.QueryFault.TheVariants as fault;
ghost use Rattle.cube_feed.specs.Words.{longest_before};

use crate::field::{Fields, Spelled, Stop};
use crate::line::read_values;
use crate::units::{in_units, tail_from};
use csv::ByteRecord;
use cube_core::{
    Comparison, Condition, Operator, QueryFault, Schema, Sequence, Test, Text, only_record,
    position_of,
};
use std::alloc::{AllocError, Global};

/// The condition that a word spells under a schema: the longest of its names with which the word begins and behind which
/// an operator stands, that operator (the first that fits of `!=`, `>=`, `<=`, `=`, `<` and `>`), and exactly one CSV
/// record (RFC 4180) of values (this project's choice). A field `\N` is null; of a dimension and of a text that is
/// counted another is a text, and of another measure a number with a point before its decimals. `=` and `!=` take one
/// value or more, the others one that isn't null.
///
/// The error is `Condition`, where the word is none, or `Memory`, which says nothing of the word.
pub fn read_condition(alloc: Global, schema: &Schema, word: &str) -> Result<Condition, QueryFault>
    ensures { Says (ok_or (condition_of schema.now word.now) fault.Condition) result }
{
    match condition_of(alloc, schema, word.as_bytes()) {
        Ok(Some(condition)) => Ok(condition),
        Ok(None) => Err(QueryFault::Condition),
        Err(_) => Err(QueryFault::Memory),
    }
}

// The condition that a word spells, if it does. The only error is that memory ran out.
fn condition_of(
    alloc: Global,
    schema: &Schema,
    word: &[u8],
) -> Result<Option<Condition>, AllocError>
    ensures { IfOk result (λ read. read ≡ condition_of schema.now word.now) }
{
    match name_of(schema, word) {
        Some(name) => condition_behind(alloc, schema, word, name),
        None => Ok(None),
    }
}

// The same of a word that begins with a name.
fn condition_behind(
    alloc: Global,
    schema: &Schema,
    word: &[u8],
    name: &str,
) -> Result<Option<Condition>, AllocError>
    ensures { IfOk result (λ read. read ≡ condition_behind schema.now word.now name.now) }
{
    let Some((operator, value)) = operator_of(tail_from(name.len(), word)) else {
        return Ok(None);
    };
    match only_record(alloc, value)? {
        Some(record) => condition_on(alloc, schema, name, operator, &record),
        None => Ok(None),
    }
}

// The longest name of a schema with which a word begins and behind which an operator stands.
fn name_of<'s>(schema: &'s Schema, word: &[u8]) -> Option<&'s str>
    ensures { option_map (λ name. name.now) result
        ≡ longest (filter (is_named word.now) (names_of schema.now)) }
{
    let measures = longest_before(word, schema.measures(), None);
    longest_before(word, schema.dimensions(), measures)
}

// The longest of some names with which a word begins, before others of which the longest is known.
fn longest_before<'s>(word: &[u8], names: &'s [Text], others: Option<&'s str>) -> Option<&'s str>
    ensures { option_map (λ name. name.now) result
        ≡ longest_before word.now names.now (option_map (λ name. name.now) others.entry) }
{
    let Some((name, more)) = names.split_first() else {
        return others;
    };
    let later = longest_before(word, more, others);
    if !is_named(word, name.as_str().as_bytes()) {
        return later;
    }
    Some(longer(name.as_str(), later))
}

// The longer of a text and another, where there is one.
fn longer<'s>(text: &'s str, other: Option<&'s str>) -> &'s str
    ensures { result.now ≡ longer text.now (option_map (λ other. other.now) other.entry) }
{
    match other {
        Some(other) if text.len() < other.len() => other,
        _ => text,
    }
}

// Whether a word begins with a name that an operator follows.
fn is_named(word: &[u8], name: &[u8]) -> bool
    ensures { result ≡ is_named word.now name.now }
{
    word.starts_with(name) && operator_of(tail_from(name.len(), word)).is_some()
}

// The operator that a text begins with, the first that fits, and what stands behind it.
fn operator_of(text: &[u8]) -> Option<(Operator, &[u8])>
    ensures { option_map (λ found. (found.0, found.1.now)) result ≡ operator_of text.now }
{
    if begins(text, b"!=") {
        Some((Operator::Unequal, tail_from(2, text)))
    } else if begins(text, b">=") {
        Some((Operator::Ordered(Comparison::AtLeast), tail_from(2, text)))
    } else if begins(text, b"<=") {
        Some((Operator::Ordered(Comparison::AtMost), tail_from(2, text)))
    } else if begins(text, b"=") {
        Some((Operator::Equal, tail_from(1, text)))
    } else if begins(text, b"<") {
        Some((Operator::Ordered(Comparison::Below), tail_from(1, text)))
    } else if begins(text, b">") {
        Some((Operator::Ordered(Comparison::Above), tail_from(1, text)))
    } else {
        None
    }
}

// Whether a text begins with another.
fn begins(text: &[u8], start: &[u8]) -> bool
    ensures { result ≡ starts_with nat_eq text.now start.now }
{
    text.starts_with(start)
}

// The condition that a name, an operator and the fields of a value spell.
fn condition_on(
    alloc: Global,
    schema: &Schema,
    name: &str,
    operator: Operator,
    value: &ByteRecord,
) -> Result<Option<Condition>, AllocError>
    ensures { IfOk result (λ read.
        read ≡ condition_on schema.now name.now operator (fields_of value.now)) }
{
    if let Some(place) = position_of(schema.dimensions(), name) {
        return condition_on_dimension(alloc, operator, value, place);
    }
    match position_of(schema.measures(), name) {
        Some(place) => condition_on_measure(alloc, schema, operator, value, place),
        None => Ok(None),
    }
}

// The condition on the dimension at a place that an operator and the fields of a value spell.
fn condition_on_dimension(
    alloc: Global,
    operator: Operator,
    value: &ByteRecord,
    place: usize,
) -> Result<Option<Condition>, AllocError>
    ensures { IfOk result (λ read.
        read ≡ condition_on_dimension operator (fields_of value.now) place) }
{
    let Some(values) = values_of::<Option<Text>>(alloc, value)? else {
        return Ok(None);
    };
    match test_of(operator, values) {
        Some(test) => Ok(Some(Condition::Dimension { place, test })),
        None => Ok(None),
    }
}

// The condition on the measure at a place that an operator and the fields of a value spell.
fn condition_on_measure(
    alloc: Global,
    schema: &Schema,
    operator: Operator,
    value: &ByteRecord,
    place: usize,
) -> Result<Option<Condition>, AllocError>
    ensures { IfOk result (λ read.
        read ≡ condition_on_measure schema.now operator (fields_of value.now) place) }
{
    let value = all_in_units(alloc, schema.decimals_of(place), value)?;
    let Some(values) = values_of::<Option<i64>>(alloc, &value)? else {
        return Ok(None);
    };
    match test_of(operator, values) {
        Some(test) => Ok(Some(Condition::Measure { place, test })),
        None => Ok(None),
    }
}

// The values that the fields of a record spell, where each spells one. The only error is that memory ran out.
fn values_of<T: Spelled>(alloc: Global, row: &ByteRecord) -> Result<Option<Vec<T>>, AllocError>
    ensures { IfOk result (λ read.
        option_map (λ values. values.items) read ≡ values_of T.spells (fields_of row.now)) }
{
    let fields = Fields::of(row);
    let mut values = Vec::with_capacity(alloc, fields.len())?;
    match read_values::<T, _>(alloc, &fields, 0, fields.len(), &mut values) {
        Ok(()) => Ok(Some(values)),
        Err(Stop::Line) => Ok(None),
        Err(Stop::Memory) => Err(AllocError),
    }
}

// The test of an operator and values: to be ordered there is exactly one, and not null.
fn test_of<V: Drop>(operator: Operator, values: Vec<Option<V>>) -> Option<Test<V>>
    ensures { result ≡ test_of operator values.items }
{
    match operator {
        Operator::Equal => Some(Test::OneOf {
            values: Sequence::from_vec(values),
        }),
        Operator::Unequal => Some(Test::NoneOf {
            values: Sequence::from_vec(values),
        }),
        Operator::Ordered(comparison) => {
            let bound = only_value(values)?;
            Some(Test::Compared { comparison, bound })
        }
    }
}

// The value of a list of exactly one, where it isn't null.
fn only_value<V: Drop>(values: Vec<Option<V>>) -> Option<V>
    ensures { result ≡ option_and_then (λ value. value) (only_one values.items) }
{
    let mut values = values;
    if values.len() != 1 {
        return None;
    }
    values.pop()?
}

// A record whose fields are those of another as whole numbers of units, where a measure may have so many digits behind a
// point. The only error is that memory ran out.
fn all_in_units(
    alloc: Global,
    digits: Option<u8>,
    fields: &ByteRecord,
) -> Result<ByteRecord, AllocError>
    ensures { IfOk result (λ plain.
        fields_of plain ≡ map (in_units digits 46) (fields_of fields.now)) }
{
    let mut plain = ByteRecord::new(alloc);
    let mut units = Vec::new(alloc);
    for place in 0..fields.len() {
        let Some(field) = fields.get(place) else {
            break;
        };
        plain.push_field(in_units(digits, b'.', field, &mut units)?)?;
    }
    Ok(plain)
}
