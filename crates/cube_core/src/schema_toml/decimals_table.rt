//! What the table `decimals` of a schema's document says.
ghost use Rattle.std.specs.Prelude.{◌≡◌, false, true, IfOk, MatchOption, is_some, option_map};
ghost use Rattle.std.specs.List.{list_all, filter_map};
ghost use Rattle.toml.specs.Data.{table};
ghost use Rattle.toml.specs.View.{view, table_view};
ghost use Rattle.cube_core.specs.DecimalsDocument.{decimals_of_value, decimals_of_table, digits_of_name, digits_value};

use super::feed_table::are_names;
use super::value_at;
use crate::text::Text;
use std::alloc::{AllocError, Global};
use toml::{Table, Value};

/// How many digits each measure may have behind a point, as the value at `decimals` says; an empty list where there is no
/// such value, and None where it is wrong.
pub(super) fn decimals_of_value(
    alloc: Global,
    measures: &[Text],
    decimals: Option<&Value>,
) -> Result<Option<Vec<Option<u8>>>, AllocError>
    ensures { IfOk result (λ found. option_map (λ read. read.items) found
        ≡ decimals_of_value measures.now (option_map (λ value. view value.now) decimals.entry)) }
{
    match decimals {
        None => Ok(Some(Vec::new(alloc))),
        Some(Value::Table(decimals)) => decimals_of_table(alloc, measures, decimals),
        Some(_) => Ok(None),
    }
}

/// The same of a table.
fn decimals_of_table(
    alloc: Global,
    measures: &[Text],
    decimals: &Table,
) -> Result<Option<Vec<Option<u8>>>, AllocError>
    ensures { IfOk result (λ found. option_map (λ read. read.items) found
        ≡ decimals_of_table measures.now (table (table_view decimals.now))) }
{
    if !are_names(decimals, &[], measures) {
        return Ok(None);
    }
    digits_of_names(alloc, decimals, measures)
}

/// The digits of measures behind a point, where each is right.
fn digits_of_names(
    alloc: Global,
    decimals: &Table,
    names: &[Text],
) -> Result<Option<Vec<Option<u8>>>, AllocError>
    ensures { IfOk result (λ found. MatchOption found
        (list_all (λ name. is_some (digits_of_name (table_view decimals.now) name)) names.now ≡ false)
        (λ read. (read.items ≡ filter_map (digits_of_name (table_view decimals.now)) names.now)
        × (list_all (λ name. is_some (digits_of_name (table_view decimals.now) name)) names.now ≡ true))) }
{
    let mut read = Vec::with_capacity(alloc, names.len())?;
    for name in names {
        let Some(digits) = digits_of_name(decimals, name) else {
            return Ok(None);
        };
        read.push(digits)?;
    }
    Ok(Some(read))
}

/// The digits of a measure behind a point, where it has a key; None where what stands there is wrong.
fn digits_of_name(decimals: &Table, name: &Text) -> Option<Option<u8>>
    ensures { result ≡ digits_of_name (table_view decimals.now) name.now }
{
    match value_at(decimals, name.as_str()) {
        None => Some(None),
        Some(value) => match digits_value(value) {
            Some(digits) => Some(Some(digits)),
            None => None,
        },
    }
}

fn digits_value(value: &Value) -> Option<u8>
    ensures { result ≡ digits_value (view value.now) }
{
    let digits = u8::try_from(value.as_integer()?).ok()?;
    if digits <= 18 { Some(digits) } else { None }
}
