//! The partial form of a schema, under which cubes can be merged.
ghost use Rattle.std.specs.Prelude.{◌≡◌, ◌++◌, codes, IfOk, OnOk, get_or, [], map};
ghost use Rattle.std.specs.String.{string_bytes};
ghost use Rattle.cube_core.specs.Layout.{spelling_of, spelled_with, last_digit, level_text, percentile_opening};
ghost use Rattle.cube_core.specs.PartialForm.{AnswersPartial, has_aggregate, partial_aggregates, with_aggregate, with_mean_parts, with_parts, with_variance_parts};

use crate::aggregate::Agg;
use crate::feed_columns::copy_columns;
use crate::schema::Schema;
use crate::schema_fault::SchemaFault;
use crate::text::{Text, copy_texts};
use std::alloc::{AllocError, Global};

// The most aggregates of a schema: 16 of its document, and 4 for each measure.
const MOST_AGGREGATES: usize = 32;

impl Schema {
    /// The partial form: the same schema with more aggregates, after its own for each `avg(m)` in their order `sum(m)`
    /// and `count(m)`, for each variance of m these and `sum_of_squares(m)`, and for each distinct count and each percentile
    /// of m `values(m)`, where they aren't there yet. All of these can be made again from the sums, the counts, the sums of
    /// squares and the values of several cubes. The partial form of a partial form is itself.
    ///
    /// The error is that memory ran out, `Texts` where there are texts that are counted, or `Aggregates` where there
    /// would be more than 32, which never happens to the schema of a document nor to its partial form.
    pub fn partial(&self, alloc: Global) -> Result<Schema, SchemaFault>
        ensures { AnswersPartial self.now result }
    {
        if !self.text_places.is_empty() {
            return Err(SchemaFault::Texts);
        }
        let aggregates = partial_aggregates(alloc, &self.aggregates)?;
        if aggregates.len() > MOST_AGGREGATES {
            return Err(SchemaFault::Aggregates);
        }
        Ok(Schema {
            dimensions: copy_texts(alloc, &self.dimensions)?,
            measures: copy_texts(alloc, &self.measures)?,
            aggregate_texts: spellings_of(alloc, &self.measures, &aggregates)?,
            aggregates,
            max_records: self.max_records,
            grouping_sets: Vec::from_slice(alloc, &self.grouping_sets)?,
            version: self.version,
            shard: self.shard,
            max_record_bytes: self.max_record_bytes,
            columns: copy_columns(alloc, &self.columns)?,
            decimals: Vec::from_slice(alloc, &self.decimals)?,
            text_places: Vec::new(alloc),
            hash_key: self.hash_key,
        })
    }
}

// The aggregates, and then what each mean, each variance, each distinct count and each percentile among them is made of.
fn partial_aggregates(alloc: Global, aggregates: &[Agg]) -> Result<Vec<Agg>, AllocError>
    ensures { IfOk result (λ all. all.items ≡ partial_aggregates aggregates.now) }
{
    let mut all = Vec::from_slice(alloc, aggregates)?;
    for aggregate in aggregates {
        add_parts(&mut all, aggregate)?;
    }
    Ok(all)
}

fn add_parts(aggregates: &mut Vec<Agg>, aggregate: &Agg) -> Result<(), AllocError>
    ensures { OnOk result (aggregates.new.items ≡ with_parts aggregates.old.items aggregate.now) }
{
    match aggregate {
        Agg::Avg(measure) => add_mean_parts(aggregates, *measure),
        Agg::VarPop(measure) | Agg::VarSamp(measure) => add_variance_parts(aggregates, *measure),
        Agg::CountDistinct(measure) | Agg::PercentileDisc { measure, .. } => {
            add_missing(aggregates, Agg::Values(*measure))
        }
        _ => Ok(()),
    }
}

fn add_mean_parts(aggregates: &mut Vec<Agg>, measure: usize) -> Result<(), AllocError>
    ensures { OnOk result (aggregates.new.items ≡ with_mean_parts aggregates.old.items measure) }
{
    add_missing(aggregates, Agg::Sum(measure))?;
    add_missing(aggregates, Agg::Count(measure))
}

fn add_variance_parts(aggregates: &mut Vec<Agg>, measure: usize) -> Result<(), AllocError>
    ensures { OnOk result (aggregates.new.items ≡ with_variance_parts aggregates.old.items measure) }
{
    add_mean_parts(aggregates, measure)?;
    add_missing(aggregates, Agg::SumOfSquares(measure))
}

fn add_missing(aggregates: &mut Vec<Agg>, aggregate: Agg) -> Result<(), AllocError>
    ensures { OnOk result (aggregates.new.items ≡ with_aggregate aggregates.old.items aggregate) }
{
    if !has_aggregate(&aggregate, aggregates.as_slice()) {
        aggregates.push(aggregate)?;
    }
    Ok(())
}

fn has_aggregate(aggregate: &Agg, aggregates: &[Agg]) -> bool
    ensures { result ≡ has_aggregate aggregate.now aggregates.now }
{
    aggregates.iter().any(|other| aggregate == other)
}

// How a schema spells these aggregates.
fn spellings_of(
    alloc: Global,
    measures: &[Text],
    aggregates: &[Agg],
) -> Result<Vec<Text>, AllocError>
    ensures { IfOk result (λ texts. texts.items ≡ map (spelling_of measures.now) aggregates.now) }
{
    let mut texts = Vec::with_capacity(alloc, aggregates.len())?;
    for aggregate in aggregates {
        texts.push(spelling_of(alloc, measures, aggregate)?)?;
    }
    Ok(texts)
}

fn spelling_of(alloc: Global, measures: &[Text], aggregate: &Agg) -> Result<Text, AllocError>
    ensures { IfOk result (λ text. text ≡ spelling_of measures.now aggregate.now) }
{
    match aggregate {
        Agg::CountAll => Text::from_str(alloc, "count(*)"),
        Agg::Count(measure) => spelled_with(alloc, "count", measures, *measure),
        Agg::Sum(measure) => spelled_with(alloc, "sum", measures, *measure),
        Agg::Min(measure) => spelled_with(alloc, "min", measures, *measure),
        Agg::Max(measure) => spelled_with(alloc, "max", measures, *measure),
        Agg::Avg(measure) => spelled_with(alloc, "avg", measures, *measure),
        Agg::CountDistinct(measure) => {
            let opening = String::from_str(alloc, "count(distinct ")?;
            spelled_after(alloc, opening, measures, *measure)
        }
        Agg::PercentileDisc {
            measure,
            units,
            places,
        } => {
            let opening = percentile_opening(alloc, *units, *places)?;
            spelled_after(alloc, opening, measures, *measure)
        }
        Agg::SumOfSquares(measure) => spelled_with(alloc, "sum_of_squares", measures, *measure),
        Agg::VarPop(measure) => spelled_with(alloc, "var_pop", measures, *measure),
        Agg::VarSamp(measure) => spelled_with(alloc, "var_samp", measures, *measure),
        Agg::Values(measure) => spelled_with(alloc, "values", measures, *measure),
    }
}

fn spelled_with(
    alloc: Global,
    function: &str,
    measures: &[Text],
    measure: usize,
) -> Result<Text, AllocError>
    ensures { IfOk result (λ text. text ≡ spelled_with function.now measures.now measure) }
{
    let mut opening = String::from_str(alloc, function)?;
    opening.push_str("(")?;
    spelled_after(alloc, opening, measures, measure)
}

// How a schema spells an aggregate of a measure, after what stands before its name.
fn spelled_after(
    alloc: Global,
    opening: String,
    measures: &[Text],
    measure: usize,
) -> Result<Text, AllocError>
    ensures { IfOk result (λ text.
        text ≡ string_bytes opening ++ get_or measures.now measure [] ++ codes ")") }
{
    let mut text = opening;
    text.push_str(name_at(measures, measure))?;
    text.push_str(")")?;
    Text::from_str(alloc, text.as_str())
}

// How a schema spells a percentile up to the name of its measure.
fn percentile_opening(alloc: Global, units: u16, places: u8) -> Result<String, AllocError>
    ensures { IfOk result (λ text. string_bytes text ≡ percentile_opening units places) }
{
    let mut text = String::from_str(alloc, "percentile_disc(")?;
    push_level(&mut text, units, places)?;
    text.push_str(",")?;
    Ok(text)
}

// Adds a level of so many units: a digit, and where there are places a point and so many digits.
fn push_level(text: &mut String, units: u16, places: u8) -> Result<(), AllocError>
    ensures { OnOk result (string_bytes text.new ≡ string_bytes text.old ++ level_text places units) }
{
    match places {
        0 => text.push(last_digit(units)),
        1 => {
            text.push(last_digit(units / 10))?;
            text.push('.')?;
            text.push(last_digit(units))
        }
        _ => {
            push_level(text, units / 10, places - 1)?;
            text.push(last_digit(units))
        }
    }
}

// The last decimal digit of a number.
fn last_digit(number: u16) -> char
    ensures { result ≡ last_digit number }
{
    char::from(b'0' + (number % 10) as u8)
}

// The name at a place; the empty text past the last one.
pub(crate) fn name_at(names: &[Text], place: usize) -> &str
    ensures { result.now ≡ get_or names.now place [] }
{
    match names.get(place) {
        Some(name) => name.as_str(),
        None => "",
    }
}
