//! The grouping sets that a schema's document keeps (SQL:1999: CUBE, ROLLUP and grouping sets).
ghost use Rattle.std.specs.Prelude.{◌≡◌, ◌≤◌, IfOk, length, Some, None, option_map, option_and_then, if◌then◌else◌};
ghost use Rattle.std.specs.List.{list_all};
ghost use Rattle.toml.specs.View.{view, items_view};
ghost use Rattle.cube_core.specs.GroupingSet.{all_sets, is_among};
ghost use Rattle.cube_core.specs.Layout.{is_listed};
ghost use Rattle.cube_core.specs.SchemaDocument.{sets_of_grouping, named_sets, kept_sets, sets_of_word, rollup_sets, sets_of_items, set_of_item, set_of_names, is_set_of, mask_of_names, are_lawful_sets, are_distinct_sets};

use super::{are_distinct, is_listed, texts_of};
use crate::schema::is_among;
use crate::text::Text;
use std::alloc::{AllocError, Global};
use toml::Value;

/// The masks of the grouping sets that a grouping keeps, in ascending order; None where it is wrong.
pub(super) fn sets_of_grouping(
    alloc: Global,
    dimensions: &[Text],
    grouping: Option<&Value>,
) -> Result<Option<Vec<u8>>, AllocError>
    requires { length dimensions.now ≤ 8 }
    ensures { IfOk result (λ found. option_map (λ sets. sets.items) found
        ≡ sets_of_grouping dimensions.now (option_map (λ value. view value.now) grouping.entry)) }
{
    let Some(named) = named_sets(alloc, dimensions, grouping)? else {
        return Ok(None);
    };
    Ok(Some(kept_sets(alloc, dimensions.len(), &named)?))
}

/// Of the masks of all grouping sets those that are named, in ascending order.
fn kept_sets(alloc: Global, dimensions: usize, named: &[u8]) -> Result<Vec<u8>, AllocError>
    requires { dimensions ≤ 8 }
    ensures { IfOk result (λ sets. sets.items ≡ kept_sets dimensions named.now) }
{
    let all = all_sets(alloc, dimensions)?;
    all.iter()
        .copied()
        .filter(|set| is_among(u32::from(*set), named))
        .collect(alloc)
}

/// The masks of the sets that a grouping names; None where it is wrong.
fn named_sets(
    alloc: Global,
    dimensions: &[Text],
    grouping: Option<&Value>,
) -> Result<Option<Vec<u8>>, AllocError>
    requires { length dimensions.now ≤ 8 }
    ensures { IfOk result (λ found. option_map (λ sets. sets.items) found
        ≡ named_sets dimensions.now (option_map (λ value. view value.now) grouping.entry)) }
{
    match grouping {
        None => Ok(Some(all_sets(alloc, dimensions.len())?)),
        Some(Value::String(word)) => sets_of_word(alloc, dimensions, word.as_str()),
        Some(Value::Array(values)) => lawful_sets(alloc, dimensions, values),
        Some(_) => Ok(None),
    }
}

fn sets_of_word(
    alloc: Global,
    dimensions: &[Text],
    word: &str,
) -> Result<Option<Vec<u8>>, AllocError>
    requires { length dimensions.now ≤ 8 }
    ensures { IfOk result (λ found.
        option_map (λ sets. sets.items) found ≡ sets_of_word dimensions.now word.now) }
{
    match word {
        "cube" => Ok(Some(all_sets(alloc, dimensions.len())?)),
        "rollup" => Ok(Some(rollup_sets(alloc, dimensions)?)),
        _ => Ok(None),
    }
}

/// The masks of all grouping sets of so many dimensions.
fn all_sets(alloc: Global, dimensions: usize) -> Result<Vec<u8>, AllocError>
    requires { dimensions ≤ 8 }
    ensures { IfOk result (λ sets. sets.items ≡ all_sets dimensions) }
{
    let count = 1u32 << dimensions;
    let mut sets = Vec::with_capacity(alloc, count as usize)?;
    for set in 0..count {
        sets.push(set as u8)?;
    }
    Ok(sets)
}

/// The masks of the sets of the first dimensions, from none of them to all.
fn rollup_sets(alloc: Global, dimensions: &[Text]) -> Result<Vec<u8>, AllocError>
    requires { length dimensions.now ≤ 8 }
    ensures { IfOk result (λ sets. sets.items ≡ rollup_sets dimensions.now) }
{
    let count = dimensions.len() + 1;
    let mut sets = Vec::with_capacity(alloc, count)?;
    for first in 0..count {
        sets.push(mask_of_names(dimensions, &dimensions[..first]))?;
    }
    Ok(sets)
}

/// The masks of the sets that an array writes, where there is one, each item writes one, and no two are equal.
fn lawful_sets(
    alloc: Global,
    dimensions: &[Text],
    values: &[Value],
) -> Result<Option<Vec<u8>>, AllocError>
    requires { length dimensions.now ≤ 8 }
    ensures { IfOk result (λ found. option_map (λ sets. sets.items) found
        ≡ option_and_then (λ sets. if are_lawful_sets sets then Some sets else None)
        (sets_of_items dimensions.now (items_view values.now))) }
{
    let Some(sets) = sets_of_items(alloc, dimensions, values)? else {
        return Ok(None);
    };
    if sets.is_empty() || !are_distinct_sets(&sets) {
        return Ok(None);
    }
    Ok(Some(sets))
}

/// The masks of the sets that an array writes, where each of its items writes one.
fn sets_of_items(
    alloc: Global,
    dimensions: &[Text],
    values: &[Value],
) -> Result<Option<Vec<u8>>, AllocError>
    requires { length dimensions.now ≤ 8 }
    ensures { IfOk result (λ found. option_map (λ sets. sets.items) found
        ≡ sets_of_items dimensions.now (items_view values.now)) }
{
    let mut sets = Vec::with_capacity(alloc, values.len())?;
    for value in values {
        let Some(set) = set_of_item(alloc, dimensions, value)? else {
            return Ok(None);
        };
        sets.push(set)?;
    }
    Ok(Some(sets))
}

/// The mask of the set that an item of an array writes, where it is an array of the names of dimensions.
fn set_of_item(alloc: Global, dimensions: &[Text], value: &Value) -> Result<Option<u8>, AllocError>
    requires { length dimensions.now ≤ 8 }
    ensures { IfOk result (λ found. found ≡ set_of_item dimensions.now (view value.now)) }
{
    let Value::Array(values) = value else {
        return Ok(None);
    };
    let Some(names) = texts_of(alloc, values)? else {
        return Ok(None);
    };
    Ok(set_of_names(dimensions, &names))
}

/// The mask of the set that names write, where each is a dimension and none stands twice.
fn set_of_names(dimensions: &[Text], names: &[Text]) -> Option<u8>
    requires { length dimensions.now ≤ 8 }
    ensures { result ≡ set_of_names dimensions.now names.now }
{
    if !is_set_of(dimensions, names) {
        return None;
    }
    Some(mask_of_names(dimensions, names))
}

fn is_set_of(dimensions: &[Text], names: &[Text]) -> bool
    ensures { result ≡ is_set_of dimensions.now names.now }
{
    are_each_listed(names, dimensions) && are_distinct(names, &[])
}

fn are_each_listed(names: &[Text], dimensions: &[Text]) -> bool
    ensures { result ≡ list_all (λ name. is_listed name dimensions.now) names.now }
{
    names.iter().all(|name| is_listed(name, dimensions))
}

/// The mask of the set that has the dimensions of these names: the sum of 2 to the power d over their places d.
#[tactic(auto, using(crate::proofs::GroupingReadingLaws::mask_of_names_byte))]
fn mask_of_names(dimensions: &[Text], names: &[Text]) -> u8
    requires { length dimensions.now ≤ 8 }
    ensures { result ≡ mask_of_names dimensions.now names.now }
{
    let Some((dimension, others)) = dimensions.split_first() else {
        return 0;
    };
    let bit = if is_listed(dimension, names) { 1 } else { 0 };
    bit + 2 * mask_of_names(others, names)
}

fn are_distinct_sets(sets: &[u8]) -> bool
    ensures { result ≡ are_distinct_sets sets.now }
{
    let Some((set, others)) = sets.split_first() else {
        return true;
    };
    !is_among(u32::from(*set), others) && are_distinct_sets(others)
}
