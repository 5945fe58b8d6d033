//! What is wrong with the values of a schema's keys.
use crate::report::{decimal, quoted, shown};
use std::alloc::{AllocError, Global};
use toml::{Table, Value};

/// The words before a measure in an aggregate.
const AGGREGATES: [&str; 10] = [
    "count(",
    "sum(",
    "min(",
    "max(",
    "avg(",
    "count(distinct ",
    "sum_of_squares(",
    "var_pop(",
    "var_samp(",
    "values(",
];

/// Those of them that may be of a text too.
const COUNTS: [&str; 2] = ["count(", "count(distinct "];

/// The names that no dimension and no measure has.
const TAKEN: [&str; 3] = ["op", "id", "*"];

/// The texts of an array at a key. The only error is that memory ran out.
pub(crate) fn texts_at<'d>(
    alloc: Global,
    table: &'d Table,
    key: &str,
) -> Result<Vec<&'d str>, AllocError> {
    let mut texts = Vec::new(alloc);
    if let Some(Value::Array(values)) = table.get(key) {
        for value in values {
            if let Some(text) = value.as_str() {
                texts.push(text)?;
            }
        }
    }
    Ok(texts)
}

/// Whether a value is an array of texts alone.
pub(crate) fn are_texts(value: &Value) -> bool {
    match value {
        Value::Array(values) => values.iter().all(|value| value.as_str().is_some()),
        _ => false,
    }
}

/// What is wrong with an array of at most so many texts, where it is more than can be seen: nothing, or in words. The only error
/// is that memory ran out.
pub(crate) fn array_words(
    alloc: Global,
    document: &Table,
    key: &str,
    most: usize,
) -> Result<Vec<u8>, AllocError> {
    let Some(Value::Array(values)) = document.get(key) else {
        return Ok(Vec::new(alloc));
    };
    if !values.iter().all(|value| value.as_str().is_some()) {
        return Vec::from_slice(alloc, b"not all of them are texts in quotes");
    }
    if values.len() <= most {
        return Ok(Vec::new(alloc));
    }
    let mut words = Vec::from_slice(alloc, b"there are ")?;
    words.extend_from_slice(&decimal(alloc, values.len() as u64)?)?;
    words.extend_from_slice(b" of them")?;
    Ok(words)
}

/// The key of the first name that is wrong, and what is wrong with it. The only error is that memory ran out.
pub(crate) fn name_words(
    alloc: Global,
    document: &Table,
) -> Result<(&'static str, Vec<u8>), AllocError> {
    let dimensions = texts_at(alloc, document, "dimensions")?;
    let measures = texts_at(alloc, document, "measures")?;
    let words = wrong_name(alloc, &[], &dimensions)?;
    if words.is_empty() {
        Ok(("measures", wrong_name(alloc, &dimensions, &measures)?))
    } else {
        Ok(("dimensions", words))
    }
}

// What is wrong with the first of these names that is wrong, where others came before; nothing where none is.
fn wrong_name(alloc: Global, before: &[&str], names: &[&str]) -> Result<Vec<u8>, AllocError> {
    let mut count = 0usize;
    for name in names {
        if name.is_empty() {
            return Vec::from_slice(alloc, b"a name is empty");
        }
        if is_listed(&TAKEN, name) {
            return with_value(alloc, name, b" can't be a name");
        }
        if is_listed(before, name) || stands_before(names, count, name) {
            return with_value(alloc, name, b" stands twice");
        }
        count = count.saturating_add(1);
    }
    Ok(Vec::new(alloc))
}

// Whether a name stands among the first so many.
fn stands_before(names: &[&str], count: usize, name: &str) -> bool {
    names.iter().take(count).any(|other| *other == name)
}

/// Whether a name is listed.
pub(crate) fn is_listed(names: &[&str], name: &str) -> bool {
    names.iter().any(|other| *other == name)
}

/// A value in quotes, and what is said of it. The only error is that memory ran out.
pub(crate) fn with_value(alloc: Global, value: &str, said: &[u8]) -> Result<Vec<u8>, AllocError> {
    let mut words = quoted(alloc, value.as_bytes())?;
    words.extend_from_slice(said)?;
    Ok(words)
}

/// What is wrong with the measures that are said to be texts, where it is more than can be seen: nothing, or in words. The only
/// error is that memory ran out.
pub(crate) fn counted_words(alloc: Global, document: &Table) -> Result<Vec<u8>, AllocError> {
    let measures = texts_at(alloc, document, "measures")?;
    let names = texts_at(alloc, document, "texts")?;
    let mut count = 0usize;
    for name in &names {
        if !is_listed(&measures, name) {
            return with_value(alloc, name, b" is no measure");
        }
        if stands_before(&names, count, name) {
            return with_value(alloc, name, b" stands twice");
        }
        if has_digits(document, name) {
            return with_value(alloc, name, b" stands under [decimals] too");
        }
        count = count.saturating_add(1);
    }
    array_words(alloc, document, "texts", 4)
}

// Whether the table of decimals has a measure.
fn has_digits(document: &Table, name: &str) -> bool {
    match document.get("decimals") {
        Some(Value::Table(decimals)) => decimals.get(name).is_some(),
        _ => false,
    }
}

// The measures that are texts, where what is said of them is right; else none.
fn counted_at(alloc: Global, document: &Table) -> Result<Vec<&str>, AllocError> {
    if counted_words(alloc, document)?.is_empty() {
        texts_at(alloc, document, "texts")
    } else {
        Ok(Vec::new(alloc))
    }
}

/// What is wrong with the aggregates, where it is more than can be seen. The only error is that memory ran out.
pub(crate) fn aggregate_words(alloc: Global, document: &Table) -> Result<Vec<u8>, AllocError> {
    let measures = texts_at(alloc, document, "measures")?;
    let counted = counted_at(alloc, document)?;
    let texts = texts_at(alloc, document, "aggregates")?;
    for text in &texts {
        if !is_aggregate(text, &measures) {
            return no_aggregate(alloc, text, &measures);
        }
        if !suits(text, &counted) {
            return with_value(alloc, text, b" is no aggregate of a text");
        }
    }
    array_words(alloc, document, "aggregates", 16)
}

// Whether an aggregate isn't of one of these measures, which are texts, or is a count.
fn suits(text: &str, counted: &[&str]) -> bool {
    !is_aggregate(text, counted)
        || text == "count(*)"
        || COUNTS
            .iter()
            .any(|opening| is_of_measure(text, opening, counted))
}

// What is said of a text that is no aggregate of measures; of the median, the variance or the standard deviation of one also
// what there is in its place.
fn no_aggregate(alloc: Global, text: &str, measures: &[&str]) -> Result<Vec<u8>, AllocError> {
    let mut words = with_value(alloc, text, b" is no aggregate of the measures")?;
    if let Some(name) = measure_behind(&["median("], text, measures) {
        push_spelling(
            alloc,
            &mut words,
            b"; a median is spelled percentile_disc(0.5,",
            name,
        )?;
    }
    if let Some(name) = measure_behind(&["variance(", "var("], text, measures) {
        push_spelling(alloc, &mut words, b"; a variance is spelled var_pop(", name)?;
        push_spelling(alloc, &mut words, b" or var_samp(", name)?;
    }
    if let Some(name) = measure_behind(
        &["stddev(", "stddev_pop(", "stddev_samp("],
        text,
        measures,
    ) {
        push_spelling(
            alloc,
            &mut words,
            b"; it is the square root of var_pop(",
            name,
        )?;
        push_spelling(alloc, &mut words, b" or var_samp(", name)?;
    }
    Ok(words)
}

// Adds an opening, the name of a measure, and a bracket.
fn push_spelling(
    alloc: Global,
    words: &mut Vec<u8>,
    opening: &[u8],
    name: &str,
) -> Result<(), AllocError> {
    words.extend_from_slice(opening)?;
    words.extend_from_slice(shown(alloc, name.as_bytes())?.as_slice())?;
    words.push(b')')?;
    Ok(())
}

// The measure that stands in a text between one of these openings and a bracket.
fn measure_behind<'t>(openings: &[&str], text: &'t str, measures: &[&str]) -> Option<&'t str> {
    for opening in openings {
        if let Some(name) = argument_of(text, opening) {
            if is_listed(measures, name) {
                return Some(name);
            }
        }
    }
    None
}

// Whether a text is an aggregate of measures.
fn is_aggregate(text: &str, measures: &[&str]) -> bool {
    text == "count(*)"
        || AGGREGATES
            .iter()
            .any(|opening| is_of_measure(text, opening, measures))
        || is_percentile(text, measures)
}

// Whether a text is a measure between an opening and a bracket.
fn is_of_measure(text: &str, opening: &str, measures: &[&str]) -> bool {
    match argument_of(text, opening) {
        Some(name) => is_listed(measures, name),
        None => false,
    }
}

// Whether a text is a percentile of a measure.
fn is_percentile(text: &str, measures: &[&str]) -> bool {
    let Some(argument) = argument_of(text, "percentile_disc(") else {
        return false;
    };
    match argument.split_once(',') {
        Some((level, name)) => is_level(level) && is_listed(measures, name),
        None => false,
    }
}

// Whether a text is the level of a percentile: at most 1, with at most four digits behind its point.
fn is_level(text: &str) -> bool {
    match text.split_once('.') {
        None => text == "0" || text == "1",
        Some((whole, digits)) => {
            let most = if whole == "0" { b'9' } else { b'0' };
            (whole == "0" || whole == "1")
                && !digits.is_empty()
                && digits.len() <= 4
                && are_up_to(digits, most)
        }
    }
}

// Whether each byte of a text is a digit up to this one.
fn are_up_to(text: &str, most: u8) -> bool {
    text.as_bytes()
        .iter()
        .all(|byte| *byte >= b'0' && *byte <= most)
}

// What stands in a text between an opening and a last bracket.
fn argument_of<'t>(text: &'t str, opening: &str) -> Option<&'t str> {
    text.strip_prefix(opening)?.strip_suffix(')')
}

/// What is wrong with the grouping, where a set has a text that is no dimension. The only error is that memory ran out.
pub(crate) fn grouping_words(alloc: Global, document: &Table) -> Result<Vec<u8>, AllocError> {
    let dimensions = texts_at(alloc, document, "dimensions")?;
    let Some(Value::Array(sets)) = document.get("grouping") else {
        return Ok(Vec::new(alloc));
    };
    for set in sets {
        if let Some(name) = other_name(set, &dimensions) {
            return with_value(alloc, name, b" is no dimension");
        }
    }
    Ok(Vec::new(alloc))
}

// The first text of an array that isn't listed.
fn other_name<'d>(set: &'d Value, names: &[&str]) -> Option<&'d str> {
    let Value::Array(values) = set else {
        return None;
    };
    for value in values {
        if let Some(text) = value.as_str() {
            if !is_listed(names, text) {
                return Some(text);
            }
        }
    }
    None
}

/// Whether the value at a key of `feed` is wrong; of `columns` that of a name, where one is given.
pub(crate) fn is_wrong_in_feed(
    feed: &Table,
    key: &str,
    name: &str,
    dimensions: &[&str],
    measures: &[&str],
) -> bool {
    match key {
        "id" => text_at(feed, "id").is_none(),
        "op" => text_at(feed, "op").is_none() || feed.get("id").is_none(),
        "null" => !feed.get("null").is_some_and(are_texts),
        "delimiter" => !is_delimiter(text_at(feed, "delimiter")) || is_point_the_delimiter(feed),
        "point" => !is_point(text_at(feed, "point")) || is_point_the_delimiter(feed),
        "columns" => are_wrong_columns(feed.get("columns"), name, dimensions, measures),
        _ => true,
    }
}

fn text_at<'d>(table: &'d Table, key: &str) -> Option<&'d str> {
    table.get(key)?.as_str()
}

// Whether a text may stand between fields.
fn is_delimiter(text: Option<&str>) -> bool {
    match text {
        Some(text) => {
            text.len() == 1 && text.is_ascii() && text != "\"" && text != "\r" && text != "\n"
        }
        None => false,
    }
}

fn is_point(text: Option<&str>) -> bool {
    matches!(text, Some("." | ","))
}

// Whether what stands before decimals is what stands between fields.
fn is_point_the_delimiter(feed: &Table) -> bool {
    text_at(feed, "point").unwrap_or(".") == text_at(feed, "delimiter").unwrap_or(",")
}

// Whether `columns` is wrong; where a name is given, whether its column is.
fn are_wrong_columns(
    value: Option<&Value>,
    name: &str,
    dimensions: &[&str],
    measures: &[&str],
) -> bool {
    let Some(Value::Table(columns)) = value else {
        return true;
    };
    if !name.is_empty() {
        return is_wrong_column(columns, name, dimensions, measures);
    }
    for key in columns.keys() {
        if is_wrong_column(columns, key.as_str(), dimensions, measures) {
            return true;
        }
    }
    false
}

// Whether the column of a name is wrong.
fn is_wrong_column(columns: &Table, name: &str, dimensions: &[&str], measures: &[&str]) -> bool {
    match columns.get(name) {
        Some(Value::String(_)) => !is_listed(dimensions, name) && !is_listed(measures, name),
        Some(Value::Table(cut)) => !is_listed(dimensions, name) || !is_cut(cut),
        _ => true,
    }
}

// Whether a table is of a column and how many of its first characters are taken.
fn is_cut(cut: &Table) -> bool {
    cut.len() == 2 && text_at(cut, "column").is_some() && is_between(cut.get("first"), 1, 255)
}

/// Whether a value is a whole number from the one to the other.
pub(crate) fn is_between(value: Option<&Value>, least: i64, most: i64) -> bool {
    match value {
        Some(Value::Integer(number)) => least <= *number && *number <= most,
        _ => false,
    }
}
