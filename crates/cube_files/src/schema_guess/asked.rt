//! The columns that are asked for by the options `--by` and `--of`.
use crate::schema_guess::column::{name_at, times_in};
use crate::schema_guess::fault::GuessFault;
use crate::schema_guess::sample::advance;
use crate::schema_guess::spelling::push_quoted;
use csv::{ByteRecord, ReaderBuilder};
use std::alloc::{AllocError, Global};
use std::str;

/// What is asked of the columns of a file: the texts of the two options, each one CSV record.
#[derive(Clone, Copy)]
pub struct Asked<'w> {
    /// The dimensions; none where they are guessed.
    pub by: Option<&'w str>,
    /// The measures; none where they are guessed.
    pub of: Option<&'w str>,
}

/// A column that an option names.
#[derive(Drop)]
pub(crate) struct Picked {
    /// Where it stands in the header.
    pub(crate) place: usize,
    /// The number behind its name, if there is one.
    pub(crate) number: Option<u8>,
    /// The whole field of the option.
    pub(crate) text: String,
}

/// What an option takes: what it is called, and what the number behind a column may be.
#[derive(Clone, Copy)]
pub(crate) struct Taking<'n> {
    pub(crate) option: &'n str,
    pub(crate) least: u8,
    pub(crate) most: u8,
}

/// The columns of a header that the text of an option names.
pub(crate) fn picked_of(
    alloc: Global,
    header: &ByteRecord,
    taking: Taking,
    text: &str,
) -> Result<Vec<Picked>, GuessFault> {
    let Some(record) = only_record(alloc, text)? else {
        return Err(option_fault(alloc, taking, "isn't exactly one CSV record")?);
    };
    let mut all = Vec::new(alloc);
    for field in record.iter() {
        let Ok(field) = str::from_utf8(field) else {
            return Err(option_fault(alloc, taking, "isn't UTF-8")?);
        };
        all.push(pick(alloc, header, taking, field)?)?;
    }
    Ok(all)
}

// The record that a text is, where it is exactly one.
fn only_record(alloc: Global, text: &str) -> Result<Option<ByteRecord>, AllocError> {
    let mut reader = ReaderBuilder::new()
        .has_headers(false)
        .flexible(true)
        .from_reader(alloc, text.as_bytes());
    let mut first = ByteRecord::new(alloc);
    if !advance(&mut reader, &mut first)? {
        return Ok(None);
    }
    let mut second = ByteRecord::new(alloc);
    if advance(&mut reader, &mut second)? {
        return Ok(None);
    }
    Ok(Some(first))
}

// The column that a field names: a column of the header, or where it is none a column, `:` and a number.
fn pick(
    alloc: Global,
    header: &ByteRecord,
    taking: Taking,
    field: &str,
) -> Result<Picked, GuessFault> {
    if times_in(header, field.as_bytes()) > 0 {
        let place = place_of(alloc, header, taking, field)?;
        return Ok(Picked {
            place,
            number: None,
            text: String::from_str(alloc, field)?,
        });
    }
    let Some((name, digits)) = field.rsplit_once(':') else {
        return Err(fault(alloc, taking, field, "is no column of the header")?);
    };
    let place = place_of(alloc, header, taking, name)?;
    let Some(number) = number_of(digits, taking) else {
        return Err(number_fault(alloc, taking, field)?);
    };
    Ok(Picked {
        place,
        number: Some(number),
        text: String::from_str(alloc, field)?,
    })
}

// Where the column of a name stands, which stands in the header exactly once.
fn place_of(
    alloc: Global,
    header: &ByteRecord,
    taking: Taking,
    name: &str,
) -> Result<usize, GuessFault> {
    match times_in(header, name.as_bytes()) {
        0 => Err(fault(alloc, taking, name, "is no column of the header")?),
        1 => Ok(first_place(header, name)),
        _ => Err(fault(alloc, taking, name, "stands in the header more than once")?),
    }
}

// The first place of a name in a header.
fn first_place(header: &ByteRecord, name: &str) -> usize {
    for place in 0..header.len() {
        if name_at(header, place) == Some(name) {
            return place;
        }
    }
    0
}

// The number that digits write, where it is one that an option takes.
fn number_of(digits: &str, taking: Taking) -> Option<u8> {
    if digits.is_empty() || !digits.bytes().all(|byte| byte.is_ascii_digit()) {
        return None;
    }
    let Ok(number) = digits.parse::<u8>() else {
        return None;
    };
    if number < taking.least || taking.most < number {
        return None;
    }
    Some(number)
}

// What there is to say of an option.
fn option_fault(alloc: Global, taking: Taking, what: &str) -> Result<GuessFault, AllocError> {
    let mut told = String::from_str(alloc, taking.option)?;
    told.push_str(" ")?;
    told.push_str(what)?;
    Ok(GuessFault::NoColumns(told))
}

// What there is to say of a column that an option names.
fn fault(alloc: Global, taking: Taking, name: &str, what: &str) -> Result<GuessFault, AllocError> {
    let mut told = String::from_str(alloc, taking.option)?;
    told.push_str(" names ")?;
    push_quoted(&mut told, name)?;
    told.push_str(", which ")?;
    told.push_str(what)?;
    Ok(GuessFault::NoColumns(told))
}

// What there is to say of a number that an option doesn't take.
fn number_fault(alloc: Global, taking: Taking, field: &str) -> Result<GuessFault, AllocError> {
    let mut told = String::from_str(alloc, taking.option)?;
    told.push_str(" has ")?;
    push_quoted(&mut told, field)?;
    let (least, most) = (taking.least, taking.most);
    write!(told, ", whose number isn't one from {least} to {most}")?;
    Ok(GuessFault::NoColumns(told))
}
