//! The text of a schema.
use crate::schema_guess::column::{Column, NULLS, Naming, name_at};
use crate::schema_guess::plan::{Dimension, LeftOut, Measure, Plan, Why, numbers_under};
use crate::schema_guess::spelling::{has_control, push_key, push_option, push_quoted, push_shown};
use csv::ByteRecord;
use std::alloc::{AllocError, Global};

/// How many columns that are left out are told of one by one.
const MOST_TOLD: usize = 100;

/// A file as its schema describes it.
#[derive(Clone, Copy)]
pub(crate) struct Described<'f> {
    pub(crate) header: &'f ByteRecord,
    pub(crate) columns: &'f [Column],
    pub(crate) delimiter: u8,
    pub(crate) point: u8,
}

/// The text of a schema, as a person would write it, with what is left out in comments behind it.
pub(crate) fn text_of(alloc: Global, file: Described, plan: &Plan) -> Result<String, AllocError> {
    let mut out = String::new(alloc);
    push_names(&mut out, plan)?;
    push_aggregates(alloc, &mut out, &plan.measures)?;
    push_feed(&mut out, file, plan)?;
    push_decimals(&mut out, &plan.measures)?;
    push_left_out(&mut out, file, &plan.left_out)?;
    Ok(out)
}

// Writes the names of the dimensions and of the measures.
fn push_names(out: &mut String, plan: &Plan) -> Result<(), AllocError> {
    out.push_str("dimensions = [")?;
    for (place, dimension) in plan.dimensions.iter().enumerate() {
        push_comma(out, place)?;
        push_quoted(out, dimension.name.as_str())?;
    }
    out.push_str("]\nmeasures = [")?;
    for (place, measure) in plan.measures.iter().enumerate() {
        push_comma(out, place)?;
        push_quoted(out, measure.name.as_str())?;
    }
    out.push_str("]\n")
}

// Writes what stands before the item at a place of a list.
fn push_comma(out: &mut String, place: usize) -> Result<(), AllocError> {
    if place > 0 {
        out.push_str(", ")?;
    }
    Ok(())
}

// Writes the aggregates: of four measures the sums and the means alone.
fn push_aggregates(
    alloc: Global,
    out: &mut String,
    measures: &[Measure],
) -> Result<(), AllocError> {
    let functions: &[&str] = if measures.len() < 4 {
        &["sum", "min", "max", "avg"]
    } else {
        &["sum", "avg"]
    };
    out.push_str("aggregates = [\"count(*)\"")?;
    for measure in measures {
        push_functions(alloc, out, functions, measure.name.as_str())?;
    }
    out.push_str("]\n")
}

// Writes aggregates of a measure.
fn push_functions(
    alloc: Global,
    out: &mut String,
    functions: &[&str],
    name: &str,
) -> Result<(), AllocError> {
    for function in functions {
        let aggregate = format!(in alloc; "{function}({name})")?;
        out.push_str(", ")?;
        push_quoted(out, aggregate.as_str())?;
    }
    Ok(())
}

// Writes how feeds are read.
fn push_feed(out: &mut String, file: Described, plan: &Plan) -> Result<(), AllocError> {
    out.push_str("\n[feed]\nnull = [")?;
    for (place, null) in NULLS.iter().enumerate() {
        push_comma(out, place)?;
        push_quoted(out, null)?;
    }
    out.push_str("]\n")?;
    match file.delimiter {
        b';' => out.push_str("delimiter = \";\"\n")?,
        b'\t' => out.push_str("delimiter = \"\\t\"\n")?,
        b'|' => out.push_str("delimiter = \"|\"\n")?,
        _ => {}
    }
    if file.point == b',' {
        out.push_str("point = \",\"\n")?;
    }
    push_columns(out, file.header, plan)
}

// Writes the columns of those that don't come from the whole column of their name.
fn push_columns(out: &mut String, header: &ByteRecord, plan: &Plan) -> Result<(), AllocError> {
    let mut count = 0usize;
    for dimension in &plan.dimensions {
        count = push_dimension_column(out, header, dimension, count)?;
    }
    for measure in &plan.measures {
        count = push_measure_column(out, header, measure, count)?;
    }
    if count > 0 {
        out.push_str(" }\n")?;
    }
    Ok(())
}

// Writes the column of a dimension behind so many others, where it has to be said; the answer is how many there are.
fn push_dimension_column(
    out: &mut String,
    header: &ByteRecord,
    dimension: &Dimension,
    count: usize,
) -> Result<usize, AllocError> {
    let column = name_at(header, dimension.place).unwrap_or("");
    let Some(first) = dimension.first else {
        return push_column(out, dimension.name.as_str(), column, count);
    };
    push_column_key(out, dimension.name.as_str(), count)?;
    out.push_str("{ column = ")?;
    push_quoted(out, column)?;
    write!(out, ", first = {first} }}")?;
    Ok(count.saturating_add(1))
}

// Writes the column of a measure behind so many others, where it has to be said; the answer is how many there are.
fn push_measure_column(
    out: &mut String,
    header: &ByteRecord,
    measure: &Measure,
    count: usize,
) -> Result<usize, AllocError> {
    let column = name_at(header, measure.place).unwrap_or("");
    push_column(out, measure.name.as_str(), column, count)
}

// Writes the column of a name behind so many others, where it has another name; the answer is how many there are.
fn push_column(
    out: &mut String,
    name: &str,
    column: &str,
    count: usize,
) -> Result<usize, AllocError> {
    if name == column {
        return Ok(count);
    }
    push_column_key(out, name, count)?;
    push_quoted(out, column)?;
    Ok(count.saturating_add(1))
}

// Writes the key of a column behind so many others.
fn push_column_key(out: &mut String, name: &str, count: usize) -> Result<(), AllocError> {
    out.push_str(if count == 0 { "columns = { " } else { ", " })?;
    push_key(out, name)?;
    out.push_str(" = ")
}

// Writes the decimals of the measures that have any, or that take a point.
fn push_decimals(out: &mut String, measures: &[Measure]) -> Result<(), AllocError> {
    let mut is_first = true;
    for measure in measures {
        let Some(decimals) = measure.decimals else {
            continue;
        };
        if is_first {
            out.push_str("\n[decimals]\n")?;
            is_first = false;
        }
        push_key(out, measure.name.as_str())?;
        writeln!(out, " = {decimals}")?;
    }
    Ok(())
}

// Writes the columns that are left out, each in a comment with why.
fn push_left_out(
    out: &mut String,
    file: Described,
    left_out: &[LeftOut],
) -> Result<(), AllocError> {
    if left_out.is_empty() {
        return Ok(());
    }
    out.push_str("\n# These columns of the file are left out:\n")?;
    for left in left_out.iter().take(MOST_TOLD) {
        push_left(out, file, *left)?;
    }
    let more = left_out.len().saturating_sub(MOST_TOLD);
    if more > 0 {
        writeln!(out, "# and {more} more")?;
    }
    Ok(())
}

// Writes a column that is left out.
fn push_left(out: &mut String, file: Described, left: LeftOut) -> Result<(), AllocError> {
    let name = name_at(file.header, left.place);
    out.push_str("# ")?;
    match name {
        Some(name) => push_shown(out, name)?,
        None => write!(out, "column {}", left.place.saturating_add(1))?,
    }
    out.push_str(": ")?;
    out.push_str(reason_of(left.why))?;
    if let Some(name) = name {
        if left.why != Why::Naming(Naming::Repeated) && !has_control(name) {
            push_options(out, file, left.place, name)?;
        }
    }
    out.push_str("\n")
}

// Writes the options that take a column.
fn push_options(
    out: &mut String,
    file: Described,
    place: usize,
    name: &str,
) -> Result<(), AllocError> {
    out.push_str("; ")?;
    push_option(out, "--by", name)?;
    let is_number = match file.columns.get(place) {
        Some(column) => numbers_under(column, file.point).is_some(),
        None => false,
    };
    if is_number {
        out.push_str(" or ")?;
        push_option(out, "--of", name)?;
    }
    out.push_str(" takes it")
}

// Why a column is left out, in words.
fn reason_of(why: Why) -> &'static str {
    match why {
        Why::Naming(Naming::Repeated) => "its name stands in the header more than once",
        Why::Naming(Naming::NoText) => "its name isn't UTF-8",
        Why::Naming(_) => "it has no name",
        Why::NameTaken => "another column has the name that it would get",
        Why::Null => "it is null throughout",
        Why::NoText => "a field isn't UTF-8",
        Why::ManyTexts => "it has more than 1,000 different texts",
        Why::ManyCells => "with it there would be more than 1,000,000 combinations",
        Why::NoPlace => "there is no place for one more dimension",
        Why::NotAsked => "--by doesn't name it",
    }
}
