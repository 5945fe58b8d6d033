//! Refused lines, in one line for people.
use crate::line::{FoundLine, place_words, told_line, unclosed_words};
use crate::lines::Lines;
use crate::report::decimal;
use cube_core::{Refusal, Schema};
use cube_ledger::Ledger;
use std::alloc::{AllocError, Global};

/// The refused lines of all feeds: how many there are, and the first one of the lowest source that has one.
#[derive(Clone, Copy, Debug)]
pub struct Refused {
    /// How many lines were refused.
    pub lines: u64,
    /// The source of the first one, from 1.
    pub source: u32,
    /// The number of its record, and its code.
    pub first: Refusal,
}

/// The refused lines in a ledger, where there are any.
pub fn refused_of(ledger: &Ledger) -> Option<Refused> {
    let mut found = None;
    for place in 0..ledger.sources() {
        found = with_refusals(found, place + 1, ledger.refusals(place + 1));
    }
    found
}

// The refused lines with those of one more source.
fn with_refusals(before: Option<Refused>, source: u32, refusals: &[Refusal]) -> Option<Refused> {
    let count = refusals.len() as u64;
    match before {
        Some(refused) => Some(Refused {
            lines: refused.lines.saturating_add(count),
            ..refused
        }),
        None => first_of(source, refusals, count),
    }
}

// The refused lines of one source, where there are any.
fn first_of(source: u32, refusals: &[Refusal], lines: u64) -> Option<Refused> {
    match refusals.first() {
        Some(first) => Some(Refused {
            lines,
            source,
            first: *first,
        }),
        None => None,
    }
}

/// The line for people that tells of refused lines: how many of how many, where that is known, and the first one, by the file
/// that it stands in and what is wrong with it. The only error is that memory ran out.
pub fn refused_line(
    alloc: Global,
    schema: &Schema,
    refused: &Refused,
    records: Option<u64>,
    path: &str,
    line: &FoundLine,
) -> Result<Vec<u8>, AllocError> {
    let mut text = counts_of(alloc, refused.lines, records)?;
    text.extend_from_slice(path.as_bytes())?;
    text.extend_from_slice(&told_line(alloc, schema, line, refused.first.code)?)?;
    text.extend_from_slice(b" (code ")?;
    text.extend_from_slice(&decimal(alloc, u64::from(refused.first.code))?)?;
    text.extend_from_slice(b"). datacube refusals shows all.\n")?;
    Ok(text)
}

/// The same of a file that can't be read again, as a pipe. The only error is that memory ran out.
pub fn refused_unread(alloc: Global, refused: &Refused, path: &str) -> Result<Vec<u8>, AllocError> {
    let code = decimal(alloc, u64::from(refused.first.code))?;
    let place = place_words(alloc, 0, u64::from(refused.first.number))?;
    let mut text = counts_of(alloc, refused.lines, None)?;
    text.extend_from_slice(path.as_bytes())?;
    text.extend_from_slice(b", ")?;
    text.extend_from_slice(&place)?;
    text.extend_from_slice(b", by code ")?;
    text.extend_from_slice(&code)?;
    text.extend_from_slice(b": see datacube explain ")?;
    text.extend_from_slice(&code)?;
    text.extend_from_slice(b". datacube refusals shows all.\n")?;
    Ok(text)
}

/// The line for people that tells of a file whose last record has a quote that is never closed. The only error is that memory
/// ran out.
pub fn unclosed_line(alloc: Global, path: &str, lines: &Lines) -> Result<Vec<u8>, AllocError> {
    let mut text = Vec::from_slice(alloc, b"datacube: ")?;
    text.extend_from_slice(path.as_bytes())?;
    text.extend_from_slice(&unclosed_words(alloc, lines)?)?;
    text.push(b'\n')?;
    Ok(text)
}

// How many lines were refused, of how many where that is known.
fn counts_of(alloc: Global, lines: u64, records: Option<u64>) -> Result<Vec<u8>, AllocError> {
    let mut text = Vec::from_slice(alloc, b"datacube: ")?;
    text.extend_from_slice(&decimal(alloc, lines)?)?;
    if let Some(records) = records {
        text.extend_from_slice(b" of ")?;
        text.extend_from_slice(&decimal(alloc, records)?)?;
    }
    let is_one = lines == 1;
    text.extend_from_slice(if is_one && records.is_none() {
        b" line"
    } else {
        b" lines"
    })?;
    text.extend_from_slice(if is_one {
        b" was refused; it is "
    } else {
        b" were refused; the first is "
    })?;
    Ok(text)
}
