//! Mistakes in files, words and schemas, told in lines.
use crate::advice::{
    CODE_ADVICE, KIND_ADVICE, SCHEMA_ADVICE, STORE_ADVICE, WORD_ADVICE, advice_on,
};
use crate::kind::{Kind, kind_of};
use crate::line::{FoundLine, place_words, record_words, told_line, unclosed_words};
use crate::lines::{Lines, without_mark};
use crate::report::{Report, decimal, quoted, shown, with_commas};
use crate::said::code_words;
use cube_core::{Schema, Text};
use std::alloc::{AllocError, Global};

/// Adds what there is to do at each code of a line that a failure printed. The only error is that memory ran out.
pub fn put_advice(alloc: Global, line: &str, report: &mut Report) -> Result<(), AllocError> {
    let codes = code_words(alloc, &[line])?;
    for code in &codes {
        put_code(code.as_str(), report)?;
    }
    Ok(())
}

// Adds what there is to do at a code.
fn put_code(code: &str, report: &mut Report) -> Result<(), AllocError> {
    report.lines(advice_on(&SCHEMA_ADVICE, code))?;
    report.lines(advice_on(&WORD_ADVICE, code))?;
    report.lines(advice_on(&CODE_ADVICE, code))?;
    report.lines(advice_on(&STORE_ADVICE, code))
}

/// Adds which file it is, and what there is to do where it is of a kind that isn't read. The only error is that memory ran
/// out.
pub fn put_kind(path: &str, kind: &str, report: &mut Report) -> Result<(), AllocError> {
    report.line(&[path.as_bytes()])?;
    report.lines(advice_on(&KIND_ADVICE, kind))
}

/// Adds that a feed has more records than its schema takes, and the line on which the first that is too many begins, where it is
/// known. The only error is that memory ran out.
pub fn tell_limit(
    alloc: Global,
    schema: &Schema,
    path: &str,
    line: u64,
    report: &mut Report,
) -> Result<(), AllocError> {
    let most = u64::from(schema.max_records());
    let place = place_words(alloc, line, most.saturating_add(1))?;
    let most = decimal(alloc, most)?;
    report.line(&[
        path.as_bytes(),
        b", ",
        &place,
        b": one data record more than max_records, which is ",
        &most,
    ])
}

/// Adds that a record of a feed has more bytes than one may have, and the line on which it begins, where it is known. The only
/// error is that memory ran out.
pub fn tell_long_record(
    alloc: Global,
    schema: &Schema,
    path: &str,
    number: u64,
    line: u64,
    report: &mut Report,
) -> Result<(), AllocError> {
    let most = decimal(alloc, schema.max_record_bytes().unwrap_or(0))?;
    let place = record_words(alloc, line, number)?;
    report.line(&[
        path.as_bytes(),
        b", ",
        &place,
        b": more bytes before its line end than a record may have, which is ",
        &most,
    ])
}

/// Adds that a quote in the last record of a file is never closed. The only error is that memory ran out.
pub fn tell_unclosed(
    alloc: Global,
    path: &str,
    lines: &Lines,
    report: &mut Report,
) -> Result<(), AllocError> {
    let words = unclosed_words(alloc, lines)?;
    report.line(&[path.as_bytes(), &words])
}

/// Adds what a word of the command line is, and the dimensions that it goes by. The only error is that memory ran out.
pub fn put_word(
    alloc: Global,
    schema: &Schema,
    name: &str,
    word: &str,
    report: &mut Report,
) -> Result<(), AllocError> {
    let value = quoted(alloc, word.as_bytes())?;
    let dimensions = names_of(alloc, schema.cube_dimensions())?;
    report.line(&[
        name.as_bytes(),
        b" is ",
        &value,
        b", and the dimensions are ",
        &dimensions,
    ])
}

/// Adds what a condition of the command line is, and the names that it may begin with. The only error is that memory ran out.
pub fn put_condition(
    alloc: Global,
    schema: &Schema,
    word: &str,
    report: &mut Report,
) -> Result<(), AllocError> {
    let value = quoted(alloc, word.as_bytes())?;
    let dimensions = names_of(alloc, schema.dimensions())?;
    let measures = names_of(alloc, schema.measures())?;
    report.line(&[
        b"CONDITION is ",
        &value,
        b", and the names are ",
        &dimensions,
        if schema.measures().is_empty() {
            b""
        } else {
            b","
        },
        &measures,
    ])
}

/// Adds what is wrong with a refused line of a file. The only error is that memory ran out.
pub fn tell_record(
    alloc: Global,
    schema: &Schema,
    path: &str,
    line: &FoundLine,
    code: u8,
    report: &mut Report,
) -> Result<(), AllocError> {
    let words = told_line(alloc, schema, line, code)?;
    report.line(&[path.as_bytes(), &words])
}

// These names with commas between them.
fn names_of(alloc: Global, names: &[Text]) -> Result<Vec<u8>, AllocError> {
    let mut bytes = Vec::new(alloc);
    for name in names {
        bytes.push(name.as_str().as_bytes())?;
    }
    with_commas(alloc, &bytes)
}

/// Adds that a feed is one that came before. The only error is that memory ran out.
pub fn tell_repeated(
    alloc: Global,
    source: u64,
    path: &str,
    report: &mut Report,
) -> Result<(), AllocError> {
    let number = decimal(alloc, source)?;
    report.line(&[
        b"feed ",
        &number,
        b" is ",
        path.as_bytes(),
        b", which came before: its facts count twice",
    ])
}

/// Adds what there is to do where no schema is made of a file that begins with these bytes: about its kind, or else how its first
/// line reads, and how columns are named. The only error is that memory ran out.
pub fn tell_columns(
    alloc: Global,
    path: &str,
    begin: &[u8],
    report: &mut Report,
) -> Result<(), AllocError> {
    let kind = kind_of(begin);
    if kind != Kind::Other {
        return put_kind(path, kind.name(), report);
    }
    let mut number = 0u64;
    for line in without_mark(begin).split(|byte| *byte == b'\n') {
        number = number.saturating_add(1);
        if !line.trim_ascii().is_empty() {
            let place = decimal(alloc, number)?;
            let text = shown(alloc, line.trim_ascii_end())?;
            report.line(&[path.as_bytes(), b", line ", &place, b": ", &text])?;
            break;
        }
    }
    report.lines(advice_on(&WORD_ADVICE, "no columns"))
}
