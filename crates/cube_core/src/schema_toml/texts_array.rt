//! What the array `texts` of a schema's document says.
ghost use Rattle.std.specs.Prelude.{◌≡◌, IfOk, get_or, [], option_map};
ghost use Rattle.std.specs.List.{list_all};
ghost use Rattle.toml.specs.View.{view};
ghost use Rattle.cube_core.specs.Layout.{is_listed};
ghost use Rattle.cube_core.specs.TextsDocument.{has_digits, may_be_text, places_of_names};
ghost use Rattle.cube_core.specs.TextsDocument.{text_places_named, text_places_of_value};

use super::feed_table::{is_text_in, texts_value};
use super::{are_distinct, is_listed, value_at};
use crate::partial_form::name_at;
use crate::text::Text;
use std::alloc::{AllocError, Global};
use toml::Value;

/// The places of the measures that are texts, by the values at `decimals` and at `texts`; an empty list where there is
/// no value at `texts`, and None where it is wrong.
pub(super) fn text_places_of_value(
    alloc: Global,
    measures: &[Text],
    decimals: Option<&Value>,
    texts: Option<&Value>,
) -> Result<Option<Vec<usize>>, AllocError>
    ensures { IfOk result (λ found. option_map (λ places. places.items) found
        ≡ text_places_of_value measures.now (option_map (λ value. view value.now) decimals.entry)
        (option_map (λ value. view value.now) texts.entry)) }
{
    let Some(texts) = texts else {
        return Ok(Some(Vec::new(alloc)));
    };
    match texts_value(alloc, texts)? {
        Some(names) => text_places_named(alloc, measures, decimals, &names),
        None => Ok(None),
    }
}

/// The places of the measures that names say are texts, where each may be one, and none stands twice.
fn text_places_named(
    alloc: Global,
    measures: &[Text],
    decimals: Option<&Value>,
    names: &[Text],
) -> Result<Option<Vec<usize>>, AllocError>
    ensures { IfOk result (λ found. option_map (λ places. places.items) found
        ≡ text_places_named measures.now (option_map (λ value. view value.now) decimals.entry) names.now) }
{
    if !may_be_texts(measures, decimals, names) || !are_distinct(names, &[]) {
        return Ok(None);
    }
    Ok(Some(places_of_names(alloc, measures, names)?))
}

/// Whether each name may stand in `texts`.
fn may_be_texts(measures: &[Text], decimals: Option<&Value>, names: &[Text]) -> bool
    ensures { result
        ≡ list_all (may_be_text measures.now (option_map (λ value. view value.now) decimals.entry)) names.now }
{
    let Some((name, others)) = names.split_first() else {
        return true;
    };
    may_be_text(measures, decimals, name) && may_be_texts(measures, decimals, others)
}

/// Whether a name may stand in `texts`: it is that of a measure without digits behind a point.
fn may_be_text(measures: &[Text], decimals: Option<&Value>, name: &Text) -> bool
    ensures { result ≡ may_be_text measures.now (option_map (λ value. view value.now) decimals.entry) name.now }
{
    is_listed(name, measures) && !has_digits(decimals, name)
}

/// Whether the table `decimals` has a key of this name.
fn has_digits(decimals: Option<&Value>, name: &Text) -> bool
    ensures { result ≡ has_digits (option_map (λ value. view value.now) decimals.entry) name.now }
{
    match decimals {
        Some(Value::Table(decimals)) => value_at(decimals, name.as_str()).is_some(),
        _ => false,
    }
}

/// The places of the measures of these names.
fn places_of_names(
    alloc: Global,
    measures: &[Text],
    names: &[Text],
) -> Result<Vec<usize>, AllocError>
    ensures { IfOk result (λ places. places.items ≡ places_of_names measures.now names.now) }
{
    (0..measures.len())
        .filter(|place| is_text_in(name_at(measures, *place), names))
        .collect(alloc)
}
