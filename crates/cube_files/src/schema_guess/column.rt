//! What the first records of a file have in a column.
use crate::schema_guess::number::{MOST_DECIMALS, spelling_of, value_of};
use crate::schema_guess::sample::Sample;
use csv::ByteRecord;
use std::alloc::{AllocError, Global};
use std::str;

/// What null is spelled as in a file of which nothing is known.
pub(crate) const NULLS: [&str; 8] = ["", "NA", "N/A", "NaN", "nan", "NULL", "null", "\\N"];

/// The last words of names of numbers that aren't added.
const LABELS: [&str; 7] = ["id", "no", "nr", "zip", "code", "year", "phone"];

/// What the name of a column is.
#[derive(Clone, Copy, PartialEq, Eq)]
pub(crate) enum Naming {
    /// A text that stands in the header once.
    Own,
    /// The empty text, which stands in the header once.
    Empty,
    /// It stands in the header more than once.
    Repeated,
    /// It isn't UTF-8.
    NoText,
}

/// What the fields of a column are as numbers, all of which they are.
#[derive(Clone, Copy)]
pub(crate) struct Numbers {
    /// How many decimals they need.
    pub(crate) decimals: u8,
    /// Whether one of them has a point.
    pub(crate) have_point: bool,
    /// Whether they tell things apart, and aren't added: one has a zero in front of another digit, or they are whole, more
    /// than 20 and all different.
    pub(crate) are_labels: bool,
}

/// What a column has in the records that are looked at.
#[derive(Clone, Copy)]
pub(crate) struct Column {
    pub(crate) naming: Naming,
    /// Whether its name says that its numbers aren't added.
    pub(crate) is_label: bool,
    /// Whether it is null throughout.
    pub(crate) is_null: bool,
    /// Whether each of its fields is UTF-8.
    pub(crate) is_text: bool,
    /// Whether a date stands at the beginning of each field that isn't null, and there is one.
    pub(crate) is_date: bool,
    /// How many different texts there are; of a date, those of the first 10 characters.
    pub(crate) texts: usize,
    /// How many different texts the first 7 characters of dates are.
    pub(crate) months: usize,
    /// Its numbers, where the point is a full stop.
    pub(crate) numbers: Option<Numbers>,
    /// Its numbers, where the point is a comma.
    pub(crate) comma_numbers: Option<Numbers>,
}

/// What each column of a file has, in the order of the header. The only error is that memory ran out.
pub(crate) fn look_at(alloc: Global, sample: &Sample) -> Result<Vec<Column>, AllocError> {
    let names = sorted_names(alloc, &sample.header)?;
    let mut columns = Vec::new(alloc);
    for place in 0..sample.header.len() {
        columns.push(column_at(alloc, sample, &names, place)?)?;
    }
    Ok(columns)
}

// The names of a header, sorted.
fn sorted_names<'h>(alloc: Global, header: &'h ByteRecord) -> Result<Vec<&'h [u8]>, AllocError> {
    let mut names = Vec::new(alloc);
    for name in header.iter() {
        names.push(name)?;
    }
    names.sort()?;
    Ok(names)
}

/// How often a name stands in a header.
pub(crate) fn times_in(header: &ByteRecord, name: &[u8]) -> usize {
    let mut times = 0usize;
    for place in 0..header.len() {
        if header.get(place) == Some(name) {
            times = times.saturating_add(1);
        }
    }
    times
}

/// The name at a place of a header, where it is UTF-8.
pub(crate) fn name_at(header: &ByteRecord, place: usize) -> Option<&str> {
    match str::from_utf8(header.get(place)?) {
        Ok(name) => Some(name),
        Err(_) => None,
    }
}

// What the column at a place has.
fn column_at(
    alloc: Global,
    sample: &Sample,
    names: &[&[u8]],
    place: usize,
) -> Result<Column, AllocError> {
    let fields = fields_of(alloc, sample, place)?;
    let is_date = !fields.is_empty() && fields.iter().all(|field| begins_with_date(field));
    let texts = if is_date {
        different_firsts(alloc, &fields, 10)?
    } else {
        different(alloc, &fields)?
    };
    let months = if is_date {
        different_firsts(alloc, &fields, 7)?
    } else {
        0
    };
    Ok(Column {
        naming: naming_of(&sample.header, names, place),
        is_label: name_at(&sample.header, place).is_some_and(is_label),
        is_null: fields.is_empty(),
        is_text: fields.iter().all(|field| str::from_utf8(field).is_ok()),
        is_date,
        texts,
        months,
        numbers: numbers_of(alloc, &fields, b'.')?,
        comma_numbers: numbers_of(alloc, &fields, b',')?,
    })
}

// What the name at a place of a header is, whose names are sorted too.
fn naming_of(header: &ByteRecord, names: &[&[u8]], place: usize) -> Naming {
    let Some(name) = name_at(header, place) else {
        return Naming::NoText;
    };
    if !stands_once(names, name.as_bytes()) {
        return Naming::Repeated;
    }
    if name.is_empty() {
        return Naming::Empty;
    }
    Naming::Own
}

// Whether a name stands once among sorted ones.
fn stands_once(names: &[&[u8]], name: &[u8]) -> bool {
    let Ok(place) = names.binary_search(&name) else {
        return false;
    };
    names.get(place.wrapping_sub(1)) != Some(&name)
        && names.get(place.wrapping_add(1)) != Some(&name)
}

// The fields of the column at a place that aren't null.
fn fields_of<'s>(
    alloc: Global,
    sample: &'s Sample,
    place: usize,
) -> Result<Vec<&'s [u8]>, AllocError> {
    let mut fields = Vec::new(alloc);
    for record in &sample.records {
        let Some(field) = record.get(place) else {
            continue;
        };
        if !is_null(field) {
            fields.push(field)?;
        }
    }
    Ok(fields)
}

fn is_null(field: &[u8]) -> bool {
    NULLS.iter().any(|null| null.as_bytes() == field)
}

// How many different fields there are.
fn different(alloc: Global, fields: &[&[u8]]) -> Result<usize, AllocError> {
    let mut sorted = Vec::from_slice(alloc, fields)?;
    sorted.sort()?;
    let mut count = 0usize;
    let mut last: Option<&[u8]> = None;
    for field in &sorted {
        if last != Some(*field) {
            count = count.saturating_add(1);
        }
        last = Some(*field);
    }
    Ok(count)
}

// How many different texts the first so many bytes of fields are.
fn different_firsts(alloc: Global, fields: &[&[u8]], first: usize) -> Result<usize, AllocError> {
    let mut firsts = Vec::new(alloc);
    for field in fields {
        firsts.push(&field[..first.min(field.len())])?;
    }
    different(alloc, &firsts)
}

// The numbers that fields are, where there is one and each is one, and all fit 64 bits with the decimals that any needs.
fn numbers_of(alloc: Global, fields: &[&[u8]], point: u8) -> Result<Option<Numbers>, AllocError> {
    let mut decimals = 0;
    let mut have_point = false;
    let mut is_padded = false;
    for field in fields {
        let Some(spelling) = spelling_of(field, point) else {
            return Ok(None);
        };
        decimals = decimals.max(spelling.decimals);
        have_point = have_point || spelling.has_point;
        is_padded = is_padded || spelling.is_padded;
    }
    if fields.is_empty() || decimals > MOST_DECIMALS {
        return Ok(None);
    }
    let Some(are_different) = are_different(alloc, fields, point, decimals)? else {
        return Ok(None);
    };
    Ok(Some(Numbers {
        decimals: decimals as u8,
        have_point,
        are_labels: is_padded || !have_point && fields.len() > 20 && are_different,
    }))
}

// Whether the values of fields that spell numbers are all different; None where one doesn't fit 64 bits.
fn are_different(
    alloc: Global,
    fields: &[&[u8]],
    point: u8,
    decimals: usize,
) -> Result<Option<bool>, AllocError> {
    let mut values = Vec::new(alloc);
    for field in fields {
        let Some(value) = value_of(field, point, decimals) else {
            return Ok(None);
        };
        values.push(value)?;
    }
    values.sort()?;
    let mut last = None;
    for value in &values {
        if last == Some(*value) {
            return Ok(Some(false));
        }
        last = Some(*value);
    }
    Ok(Some(true))
}

// Whether a date stands at the beginning of a field: a year, a month from 01 to 12 and a day from 01 to 31 (ISO 8601).
fn begins_with_date(field: &[u8]) -> bool {
    match field {
        [y1, y2, y3, y4, b'-', m1, m2, b'-', d1, d2, ..] => {
            let is_year = [*y1, *y2, *y3, *y4]
                .iter()
                .all(|byte| byte.is_ascii_digit());
            is_year && is_within(*m1, *m2, 12) && is_within(*d1, *d2, 31)
        }
        _ => false,
    }
}

// Whether two digits are a number from 1 to a bound.
fn is_within(tens: u8, ones: u8, most: u32) -> bool {
    if !tens.is_ascii_digit() || !ones.is_ascii_digit() {
        return false;
    }
    let number = u32::from(tens.saturating_sub(b'0')) * 10 + u32::from(ones.saturating_sub(b'0'));
    1 <= number && number <= most
}

// Whether a name is that of numbers which aren't added, or ends with one behind a space, `_` or `-`, whatever the case.
fn is_label(name: &str) -> bool {
    LABELS
        .iter()
        .any(|label| ends_with_label(name.as_bytes(), label.as_bytes()))
}

fn ends_with_label(name: &[u8], label: &[u8]) -> bool {
    let Some(start) = name.len().checked_sub(label.len()) else {
        return false;
    };
    let (front, end) = name.split_at(start);
    if !end.eq_ignore_ascii_case(label) {
        return false;
    }
    match front.last() {
        None => true,
        Some(byte) => matches!(*byte, b' ' | b'_' | b'-'),
    }
}
