//! A line of a feed that was refused.
use crate::lines::Lines;
use crate::report::{decimal, grouped, quoted};
use crate::value::measure_words;
use crate::wanted::{
    Role, Used, advance, delimiter_of, field_at, place_of, records_of, used_columns,
};
use csv::{ByteRecord, Reader};
use cube_core::Schema;
use std::alloc::{AllocError, Global};
use std::io::Read;
use std::str;

/// A record of a feed, and the feed's header.
#[derive(Drop)]
pub struct FoundLine {
    pub(crate) header: ByteRecord,
    pub(crate) record: ByteRecord,
    /// The number of the record, from 1.
    pub number: u64,
    /// Where it stands in the file, and the last record.
    pub lines: Lines,
}

/// What is wrong with a line.
#[derive(Clone, Copy, PartialEq, Eq, Debug)]
enum Wrong {
    Op,
    Fields,
    Text,
    Id,
    Measure,
    Keep,
    Present,
    Absent,
    Other,
}

/// The data record with a number of a feed that is read again, where `lines` says on which line of the file it begins; none
/// where the feed has fewer. The only error is that memory ran out.
pub fn find_line<R: Read + Drop>(
    alloc: Global,
    schema: &Schema,
    reader: R,
    number: u64,
    lines: Lines,
) -> Result<Option<FoundLine>, AllocError> {
    let mut reader = records_of(alloc, schema, reader);
    let mut line = FoundLine {
        header: ByteRecord::new(alloc),
        record: ByteRecord::new(alloc),
        number,
        lines,
    };
    let searched = search(&mut reader, &mut line);
    drop(reader);
    match searched {
        Ok(true) => Ok(Some(line)),
        Ok(false) => Ok(None),
        Err(error) => Err(error),
    }
}

// Reads a feed up to the record that is looked for, and keeps it and the header; whether it is there.
fn search<R: Read>(reader: &mut Reader<R>, line: &mut FoundLine) -> Result<bool, AllocError> {
    if !advance(reader, &mut line.header)? {
        return Ok(false);
    }
    for _ in 0..line.number {
        if !advance(reader, &mut line.record)? {
            return Ok(false);
        }
    }
    Ok(true)
}

impl FoundLine {
    /// Whether a quote in the record is never closed, so that it is the last one.
    pub fn is_unclosed(&self) -> bool {
        self.lines.is_unclosed() && self.number == self.lines.records
    }
}

/// Where a refused line stands behind the name of its file, and what is wrong with it, by the code of its refusal. The only
/// error is that memory ran out.
pub(crate) fn told_line(
    alloc: Global,
    schema: &Schema,
    line: &FoundLine,
    code: u8,
) -> Result<Vec<u8>, AllocError> {
    if line.is_unclosed() {
        return unclosed_words(alloc, &line.lines);
    }
    let place = place_words(alloc, line.lines.line, line.number)?;
    let words = line_words(alloc, schema, line, code)?;
    all_of(alloc, &[b", ", &place, b": ", &words])
}

/// Where a data record stands: its line, where that is known, and its number. The only error is that memory ran out.
pub(crate) fn place_words(alloc: Global, line: u64, record: u64) -> Result<Vec<u8>, AllocError> {
    let number = decimal(alloc, record)?;
    if line == 0 {
        return all_of(alloc, &[b"record ", &number]);
    }
    let line = decimal(alloc, line)?;
    all_of(alloc, &[b"line ", &line, b" (record ", &number, b")"])
}

/// Where a record stands: its line, where that is known, and its number, or that it is the header. The only error is that
/// memory ran out.
pub(crate) fn record_words(alloc: Global, line: u64, record: u64) -> Result<Vec<u8>, AllocError> {
    if record > 0 {
        return place_words(alloc, line, record);
    }
    if line == 0 {
        return owned(alloc, b"the header");
    }
    let line = decimal(alloc, line)?;
    all_of(alloc, &[b"line ", &line, b" (the header)"])
}

/// That a quote in the last record of a file is never closed, behind the name of the file. The only error is that memory ran
/// out.
pub(crate) fn unclosed_words(alloc: Global, lines: &Lines) -> Result<Vec<u8>, AllocError> {
    let line = decimal(alloc, lines.last)?;
    let record = decimal(alloc, lines.records)?;
    let count = grouped(alloc, lines.open)?;
    let mut text = Vec::new(alloc);
    if lines.records == 0 {
        text.extend_from_slice(b": the header begins at line ")?;
        text.extend_from_slice(&line)?;
    } else {
        text.extend_from_slice(b": the last record begins at line ")?;
        text.extend_from_slice(&line)?;
        text.extend_from_slice(b" (record ")?;
        text.extend_from_slice(&record)?;
        text.extend_from_slice(b")")?;
    }
    if lines.is_unclosed() {
        text.extend_from_slice(b" and has ")?;
        text.extend_from_slice(&count)?;
        text.extend_from_slice(b" lines")?;
    }
    text.extend_from_slice(b": a quote in it is never closed")?;
    Ok(text)
}

// What is wrong with a refused line, in words.
fn line_words(
    alloc: Global,
    schema: &Schema,
    line: &FoundLine,
    code: u8,
) -> Result<Vec<u8>, AllocError> {
    let used = used_columns(alloc, schema)?;
    match wrong_of(schema, code) {
        Wrong::Op => op_words(alloc, schema, line, &used),
        Wrong::Fields => field_words(alloc, schema, line, &used),
        Wrong::Text => text_words(alloc, schema, line, &used),
        Wrong::Id => empty_id_words(alloc, schema, &used),
        Wrong::Measure => measure_words(alloc, schema, line, &used),
        Wrong::Keep => keep_words(alloc, schema, line, &used),
        Wrong::Present => id_words(alloc, schema, line, &used, present_words(schema)),
        Wrong::Absent => id_words(
            alloc,
            schema,
            line,
            &used,
            b", which is changed, isn't there: insert it before, in the same feed",
        ),
        Wrong::Other => owned(alloc, b"the schema doesn't take the change"),
    }
}

// What is wrong with a line, by the code of its refusal.
fn wrong_of(schema: &Schema, code: u8) -> Wrong {
    let code = if schema.version() == 1 && code > 5 {
        code.saturating_add(1)
    } else {
        code
    };
    wrong_by(code)
}

// The same, by the code under version 2.
fn wrong_by(code: u8) -> Wrong {
    const ALL: [Wrong; 8] = [
        Wrong::Op,
        Wrong::Fields,
        Wrong::Text,
        Wrong::Id,
        Wrong::Measure,
        Wrong::Keep,
        Wrong::Present,
        Wrong::Absent,
    ];
    match ALL.get((code as usize).wrapping_sub(1)) {
        Some(wrong) => *wrong,
        None => Wrong::Other,
    }
}

pub(crate) fn owned(alloc: Global, text: &[u8]) -> Result<Vec<u8>, AllocError> {
    Vec::from_slice(alloc, text)
}

/// These pieces, one behind the other. The only error is that memory ran out.
pub(crate) fn all_of(alloc: Global, pieces: &[&[u8]]) -> Result<Vec<u8>, AllocError> {
    let mut text = Vec::new(alloc);
    for piece in pieces {
        text.extend_from_slice(piece)?;
    }
    Ok(text)
}

/// The place of a column in a record.
pub(crate) fn place_in(schema: &Schema, line: &FoundLine, column: &Used, order: usize) -> usize {
    if schema.columns().is_some() {
        place_of(&line.header, column.name)
    } else {
        order
    }
}

// The column with a role, and its field, if there is one.
fn field_of<'l, 's>(
    schema: &Schema,
    line: &'l FoundLine,
    used: &[Used<'s>],
    role: Role,
) -> Option<(&'s str, &'l [u8])> {
    for (order, column) in used.iter().enumerate() {
        if column.role == role {
            let place = place_in(schema, line, column, order);
            return Some((column.name, field_at(&line.record, place)));
        }
    }
    None
}

fn op_words(
    alloc: Global,
    schema: &Schema,
    line: &FoundLine,
    used: &[Used],
) -> Result<Vec<u8>, AllocError> {
    let field = match field_of(schema, line, used, Role::Op) {
        Some((_, field)) => field,
        None => b"",
    };
    let op = quoted(alloc, field)?;
    let wanted = operations(schema, field);
    all_of(alloc, &[b"the operation is ", &op, wanted])
}

// The operations that were wanted where a field is none.
fn operations(schema: &Schema, field: &[u8]) -> &'static [u8] {
    if schema.may_upsert() {
        b", and none of I, U, D, P and R"
    } else if field == b"P".as_slice() || field == b"R".as_slice() {
        b", and none of I, U and D: P and R go with [feed] in the schema"
    } else {
        b", and none of I, U and D"
    }
}

fn field_words(
    alloc: Global,
    schema: &Schema,
    line: &FoundLine,
    used: &[Used],
) -> Result<Vec<u8>, AllocError> {
    let width = width_of(schema, line, used);
    let wanted = decimal(alloc, width as u64)?;
    let found = decimal(alloc, line.record.len() as u64)?;
    let fields: &[u8] = if line.record.len() == 1 {
        b" field, where "
    } else {
        b" fields, where "
    };
    let hint: &[u8] = if line.record.len() > width {
        quote_hint(delimiter_of(schema))
    } else {
        b""
    };
    all_of(
        alloc,
        &[
            b"the record has ",
            &found,
            fields,
            &wanted,
            b" were wanted",
            hint,
        ],
    )
}

// What to do where there are too many fields.
fn quote_hint(delimiter: u8) -> &'static [u8] {
    match delimiter {
        b',' => b": a field that holds a comma stands in quotes",
        b';' => b": a field that holds a semicolon stands in quotes",
        b'\t' => b": a field that holds a tab stands in quotes",
        b'|' => b": a field that holds a bar stands in quotes",
        _ => b": a field that holds the delimiter stands in quotes",
    }
}

// How many fields a record was to have.
fn width_of(schema: &Schema, line: &FoundLine, used: &[Used]) -> usize {
    if schema.columns().is_some() {
        line.header.len()
    } else {
        used.len()
    }
}

fn text_words(
    alloc: Global,
    schema: &Schema,
    line: &FoundLine,
    used: &[Used],
) -> Result<Vec<u8>, AllocError> {
    for (order, column) in used.iter().enumerate() {
        let field = field_at(&line.record, place_in(schema, line, column, order));
        if column.role != Role::Op && str::from_utf8(field).is_err() {
            let what = b", which isn't UTF-8: write the file in UTF-8";
            return column_words(alloc, column, field, what);
        }
    }
    owned(alloc, b"a field isn't UTF-8")
}

// The field of a column, and what is said of it.
fn column_words(
    alloc: Global,
    column: &Used,
    field: &[u8],
    what: &[u8],
) -> Result<Vec<u8>, AllocError> {
    let name = quoted(alloc, column.name.as_bytes())?;
    let value = quoted(alloc, field)?;
    all_of(alloc, &[b"the field of ", &name, b" is ", &value, what])
}

fn keep_words(
    alloc: Global,
    schema: &Schema,
    line: &FoundLine,
    used: &[Used],
) -> Result<Vec<u8>, AllocError> {
    let what = b", which keeps a value, and there is none yet: write the value";
    for (order, column) in used.iter().enumerate() {
        let field = field_at(&line.record, place_in(schema, line, column, order));
        let is_value = column.role == Role::Dimension || column.role == Role::Measure;
        if is_value && field.starts_with(b"\\=") {
            return column_words(alloc, column, field, what);
        }
    }
    all_of(alloc, &[b"a field is \\=", what])
}

fn empty_id_words(alloc: Global, schema: &Schema, used: &[Used]) -> Result<Vec<u8>, AllocError> {
    for column in used {
        if column.role == Role::Id && schema.columns().is_some() {
            let name = quoted(alloc, column.name.as_bytes())?;
            return all_of(
                alloc,
                &[
                    b"the id, in the column ",
                    &name,
                    b", is empty: give each fact one",
                ],
            );
        }
    }
    owned(alloc, b"the id is empty: give each fact one")
}

// What is said of an id that is inserted, and is there already.
fn present_words(schema: &Schema) -> &'static [u8] {
    match schema.columns() {
        Some(columns) if columns.op.is_none() => {
            b", which is inserted, is there already: without id under [feed] each line counts"
        }
        Some(_) => b", which is inserted, is there already: U changes it, and P puts it anyway",
        None => b", which is inserted, is there already: U changes it",
    }
}

fn id_words(
    alloc: Global,
    schema: &Schema,
    line: &FoundLine,
    used: &[Used],
    what: &[u8],
) -> Result<Vec<u8>, AllocError> {
    let id = match field_of(schema, line, used, Role::Id) {
        Some((_, field)) => quoted(alloc, field)?,
        None => decimal(alloc, line.number)?,
    };
    all_of(alloc, &[b"the id ", &id, what])
}
