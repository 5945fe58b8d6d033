//! A header that isn't the one that a schema wants.
use crate::advice::{KIND_ADVICE, advice_on};
use crate::line::{all_of, unclosed_words};
use crate::lines::Lines;
use crate::report::{Report, decimal, quoted, shown, with_commas};
use crate::wanted::{Role, Used, advance, count_of, field_at, records_of, used_columns};
use csv::ByteRecord;
use cube_core::Schema;
use std::alloc::{AllocError, Global};
use std::io::Read;

/// How many columns of a header are shown at most.
const MOST_COLUMNS: usize = 24;

/// Tells what is wrong with the header of a feed at a path, which is read again and begins on a line: the first column that
/// isn't the wanted one, or that doesn't stand in it exactly once, what was wanted, and what was found. The only error is that
/// memory ran out.
pub fn tell_header<R: Read + Drop>(
    alloc: Global,
    schema: &Schema,
    path: &str,
    reader: R,
    lines: &Lines,
    report: &mut Report,
) -> Result<(), AllocError> {
    let Some(header) = first_record(alloc, schema, reader)? else {
        return report.line(&[path.as_bytes(), b": there is no record, and no header"]);
    };
    if lines.is_unclosed() && lines.records == 0 {
        let words = unclosed_words(alloc, lines)?;
        report.line(&[path.as_bytes(), &words])?;
    }
    let used = used_columns(alloc, schema)?;
    let place = header_words(alloc, path, lines)?;
    if schema.columns().is_some() {
        tell_names(alloc, &place, &used, &header, report)?;
    } else {
        tell_order(alloc, &place, &used, &header, report)?;
    }
    tell_delimiter(&header, used.len(), report)
}

// Where the header stands.
fn header_words(alloc: Global, path: &str, lines: &Lines) -> Result<Vec<u8>, AllocError> {
    if lines.line == 0 {
        return all_of(alloc, &[path.as_bytes(), b", the header: "]);
    }
    let line = decimal(alloc, lines.line)?;
    all_of(
        alloc,
        &[path.as_bytes(), b", line ", &line, b" (the header): "],
    )
}

// The first record of a feed, if there is one.
fn first_record<R: Read + Drop>(
    alloc: Global,
    schema: &Schema,
    reader: R,
) -> Result<Option<ByteRecord>, AllocError> {
    let mut records = records_of(alloc, schema, reader);
    let mut header = ByteRecord::new(alloc);
    let found = advance(&mut records, &mut header);
    drop(records);
    match found {
        Ok(true) => Ok(Some(header)),
        Ok(false) => Ok(None),
        Err(error) => Err(error),
    }
}

// Tells the first column that isn't the wanted one.
fn tell_order(
    alloc: Global,
    place: &[u8],
    used: &[Used],
    header: &ByteRecord,
    report: &mut Report,
) -> Result<(), AllocError> {
    let other = first_other(used, header);
    let number = decimal(alloc, (other as u64).saturating_add(1))?;
    let found = quoted(alloc, field_at(header, other))?;
    let wanted = match used.get(other) {
        Some(column) => quoted(alloc, column.name.as_bytes())?,
        None => Vec::new(alloc),
    };
    if other >= used.len() {
        report.line(&[
            place,
            b"column ",
            &number,
            b" is ",
            &found,
            b", and none was wanted",
        ])?;
    } else if other >= header.len() {
        report.line(&[
            place,
            b"there is no column ",
            &number,
            b", where ",
            &wanted,
            b" was wanted",
        ])?;
    } else {
        report.line(&[
            place,
            b"column ",
            &number,
            b" is ",
            &found,
            b", where ",
            &wanted,
            b" was wanted",
        ])?;
    }
    tell_wanted(alloc, used, report)?;
    tell_found(alloc, header, report)?;
    if may_go_by_names(used, header) {
        report.lines(advice_on(&KIND_ADVICE, "by names"))?;
    }
    Ok(())
}

// The first place at which a header isn't as wanted; its length where it only has more columns.
fn first_other(used: &[Used], header: &ByteRecord) -> usize {
    let mut place = 0usize;
    for column in used {
        if place >= header.len() || field_at(header, place) != column.name.as_bytes() {
            break;
        }
        place = place.saturating_add(1);
    }
    place
}

// Whether each dimension and each measure stands in a header once, wherever.
fn may_go_by_names(used: &[Used], header: &ByteRecord) -> bool {
    used.iter().all(|column| {
        column.role == Role::Op || column.role == Role::Id || count_of(header, column.name) == 1
    })
}

// Tells the first column that doesn't stand in a header exactly once.
fn tell_names(
    alloc: Global,
    place: &[u8],
    used: &[Used],
    header: &ByteRecord,
    report: &mut Report,
) -> Result<(), AllocError> {
    for column in used {
        let count = count_of(header, column.name);
        if count != 1 {
            let name = quoted(alloc, column.name.as_bytes())?;
            let columns = columns_are(alloc, count)?;
            let like = like_words(alloc, header, column.name)?;
            report.line(&[place, &columns, &name, if count == 0 { &like } else { b"" }])?;
            break;
        }
    }
    tell_wanted(alloc, used, report)?;
    tell_found(alloc, header, report)
}

// The first column of a header that is like a name but for spaces and for capital letters, in words; nothing where none is.
fn like_words(alloc: Global, header: &ByteRecord, name: &str) -> Result<Vec<u8>, AllocError> {
    let wanted = name.as_bytes().trim_ascii();
    for place in 0..header.len() {
        let field = field_at(header, place);
        if field.trim_ascii().eq_ignore_ascii_case(wanted) {
            let number = decimal(alloc, (place as u64).saturating_add(1))?;
            let found = quoted(alloc, field)?;
            return all_of(alloc, &[b"; column ", &number, b" is ", &found]);
        }
    }
    Ok(Vec::new(alloc))
}

// That so many columns are, before what they are.
fn columns_are(alloc: Global, count: usize) -> Result<Vec<u8>, AllocError> {
    if count == 0 {
        return Vec::from_slice(alloc, b"no column is ");
    }
    let mut text = decimal(alloc, count as u64)?;
    text.extend_from_slice(b" columns are ")?;
    Ok(text)
}

// Tells the columns that were wanted.
fn tell_wanted(alloc: Global, used: &[Used], report: &mut Report) -> Result<(), AllocError> {
    let mut names = Vec::new(alloc);
    for column in used {
        names.push(column.name.as_bytes())?;
    }
    let all = with_commas(alloc, &names)?;
    report.line(&[b"wanted: ", &all])
}

// Tells the columns that were found.
fn tell_found(alloc: Global, header: &ByteRecord, report: &mut Report) -> Result<(), AllocError> {
    let mut all = Vec::new(alloc);
    for place in 0..header.len().min(MOST_COLUMNS) {
        if place > 0 {
            all.push(b',')?;
        }
        all.extend_from_slice(&shown(alloc, field_at(header, place))?)?;
    }
    if header.len() > MOST_COLUMNS {
        all.extend_from_slice(b",..")?;
    }
    report.line(&[b"found:  ", &all])
}

// Tells of another byte between fields, where a header has one field alone and such a byte in it.
fn tell_delimiter(
    header: &ByteRecord,
    wanted: usize,
    report: &mut Report,
) -> Result<(), AllocError> {
    if header.len() != 1 || wanted < 2 {
        return Ok(());
    }
    let field = field_at(header, 0);
    if field.contains(&b';') {
        report.lines(advice_on(&KIND_ADVICE, "semicolon"))?;
    } else if field.contains(&b'\t') {
        report.lines(advice_on(&KIND_ADVICE, "tab"))?;
    } else if field.contains(&b'|') {
        report.lines(advice_on(&KIND_ADVICE, "bar"))?;
    } else if field.contains(&b',') {
        report.lines(advice_on(&KIND_ADVICE, "comma"))?;
    }
    Ok(())
}
