//! The columns of feeds, in their order.
use cube_core::{Fact, Schema, Text};
use std::alloc::{AllocError, Global};

/// A column behind those of the operation and the id.
#[derive(Clone, Copy)]
pub enum Column {
    /// Texts, which stand at this place among the values of a fact's dimensions: those of a dimension, or such as are
    /// counted.
    Texts(usize),
    /// Numbers, which stand at this place among the measures of a fact.
    Numbers(usize),
}

/// The columns of the dimensions, and behind them those of all measures. The only error is that memory ran out.
pub fn columns_of(alloc: Global, schema: &Schema) -> Result<Vec<Column>, AllocError> {
    let mut columns = Vec::new(alloc);
    for place in 0..schema.number_of_dimensions() {
        columns.push(Column::Texts(place))?;
    }
    push_measures(&mut columns, schema)?;
    Ok(columns)
}

/// The columns of all measures. The only error is that memory ran out.
pub fn measures_of(alloc: Global, schema: &Schema) -> Result<Vec<Column>, AllocError> {
    let mut columns = Vec::new(alloc);
    push_measures(&mut columns, schema)?;
    Ok(columns)
}

// Adds the columns of measures: the texts that are counted at their places, and numbers at the others.
fn push_measures(columns: &mut Vec<Column>, schema: &Schema) -> Result<(), AllocError> {
    let places = schema.text_places();
    let mut text = schema.number_of_dimensions();
    let mut number = 0usize;
    for place in 0..schema.measures().len().saturating_add(places.len()) {
        if places.contains(&place) {
            columns.push(Column::Texts(text))?;
            text = text.saturating_add(1);
        } else {
            columns.push(Column::Numbers(number))?;
            number = number.saturating_add(1);
        }
    }
    Ok(())
}

/// Adds the name of a column.
pub fn push_name(text: &mut String, schema: &Schema, column: Column) -> Result<(), AllocError> {
    match column {
        Column::Texts(place) => push_name_at(text, schema.dimensions(), place),
        Column::Numbers(place) => push_name_at(text, schema.measures(), place),
    }
}

fn push_name_at(text: &mut String, names: &[Text], place: usize) -> Result<(), AllocError> {
    match names.get(place) {
        Some(name) => text.push_str(name.as_str()),
        None => Ok(()),
    }
}

/// Adds what a fact has in a column.
pub fn push_value(text: &mut String, fact: &Fact, column: Column) -> Result<(), AllocError> {
    match column {
        Column::Texts(place) => text.push_str(fact.dims.get(place).unwrap_or("\\N")),
        Column::Numbers(place) => push_number(text, number_at(fact.measures.as_slice(), place)),
    }
}

// The measure at a place, if there is one.
fn number_at(measures: &[Option<i64>], place: usize) -> Option<i64> {
    match measures.get(place) {
        Some(number) => *number,
        None => None,
    }
}

fn push_number(text: &mut String, number: Option<i64>) -> Result<(), AllocError> {
    match number {
        Some(number) => write!(text, "{number}"),
        None => text.push_str("\\N"),
    }
}
