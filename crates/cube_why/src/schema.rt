//! A schema that is refused: the line on which the key at fault stands, and what is wrong with it.
use crate::report::{Report, decimal, shown};
use crate::schema_keys::{
    aggregate_words, array_words, counted_words, grouping_words, is_between, is_listed,
    is_wrong_in_feed, name_words, texts_at, with_value,
};
use crate::statements::{Statement, statements_of};
use std::alloc::{AllocError, Global};
use std::str;
use toml::de::Error;
use toml::{Table, Value};

/// The keys of a schema.
const KEYS: [&str; 9] = [
    "dimensions",
    "measures",
    "aggregates",
    "max_records",
    "grouping",
    "version",
    "feed",
    "decimals",
    "texts",
];

/// What is wrong with a schema: the key at fault, its line where one is known, and words where more is to be said.
#[derive(Drop)]
struct Fault<'t> {
    key: &'static str,
    at: Option<Statement<'t>>,
    words: Vec<u8>,
}

/// Tells what is wrong with a schema of these bytes, by the code of its refusal. The only error is that memory ran out.
pub fn tell_schema(
    alloc: Global,
    path: &str,
    bytes: &[u8],
    code: &str,
    report: &mut Report,
) -> Result<(), AllocError> {
    match toml::table_from_slice(alloc, bytes) {
        Ok(document) => {
            let text = str::from_utf8(bytes).unwrap_or("");
            let statements = statements_of(alloc, text)?;
            let fault = fault_of(alloc, &document, &statements, code)?;
            tell_fault(alloc, path, &statements, &fault, report)
        }
        Err(error) => tell_stop(alloc, path, bytes, &error, report),
    }
}

// Tells where bytes stop being TOML.
fn tell_stop(
    alloc: Global,
    path: &str,
    bytes: &[u8],
    error: &Error,
    report: &mut Report,
) -> Result<(), AllocError> {
    let Some(span) = error.span() else {
        return Err(AllocError);
    };
    let before = bytes.get(..span.start).unwrap_or(b"");
    let line = ends_in(before).saturating_add(1);
    let number = decimal(alloc, line)?;
    let text = line_at(bytes, line);
    if text.is_empty() {
        report.line(&[
            path.as_bytes(),
            b", line ",
            &number,
            b", where the file ends",
        ])?;
    } else {
        let text = shown(alloc, text)?;
        report.line(&[path.as_bytes(), b", line ", &number, b": ", &text])?;
    }
    report.line(&[b"It stops being TOML there: ", error.message().as_bytes()])
}

// How many line ends bytes have.
fn ends_in(bytes: &[u8]) -> u64 {
    let mut count = 0u64;
    for byte in bytes {
        if *byte == b'\n' {
            count = count.saturating_add(1);
        }
    }
    count
}

// The line with a number, without blanks before and behind.
fn line_at(bytes: &[u8], number: u64) -> &[u8] {
    let mut count = 0u64;
    for line in bytes.split(|byte| *byte == b'\n') {
        count = count.saturating_add(1);
        if count == number {
            return line.trim_ascii();
        }
    }
    b""
}

// What is wrong with a document that is refused by a code.
fn fault_of<'t>(
    alloc: Global,
    document: &Table,
    statements: &[Statement<'t>],
    code: &str,
) -> Result<Fault<'t>, AllocError> {
    let none = Vec::new(alloc);
    let (key, words) = match code {
        "S4" => ("dimensions", array_words(alloc, document, "dimensions", 8)?),
        "S5" => ("measures", array_words(alloc, document, "measures", 4)?),
        "S6" => name_words(alloc, document)?,
        "S7" => ("aggregates", aggregate_words(alloc, document)?),
        "S8" => ("max_records", none),
        "S9" => ("grouping", grouping_words(alloc, document)?),
        "S10" => ("version", none),
        "S13" => ("texts", counted_words(alloc, document)?),
        _ => return fault_in_table(alloc, document, statements, code),
    };
    Ok(Fault {
        key,
        at: top_statement(statements, key),
        words,
    })
}

// The same of a code that is of no key at the top, or of a table.
fn fault_in_table<'t>(
    alloc: Global,
    document: &Table,
    statements: &[Statement<'t>],
    code: &str,
) -> Result<Fault<'t>, AllocError> {
    let (key, at) = match code {
        "S3" => ("", unknown_key(statements)),
        "S11" => ("feed", wrong_of_feed(alloc, document, statements)?),
        "S12" => ("decimals", wrong_of_decimals(alloc, document, statements)?),
        _ => ("", None),
    };
    Ok(Fault {
        key,
        at,
        words: Vec::new(alloc),
    })
}

// The first line of a key at the top.
fn top_statement<'t>(statements: &[Statement<'t>], key: &str) -> Option<Statement<'t>> {
    for statement in statements {
        if statement.first == key {
            return Some(*statement);
        }
    }
    None
}

// The first line of a key that no schema has.
fn unknown_key<'t>(statements: &[Statement<'t>]) -> Option<Statement<'t>> {
    for statement in statements {
        if !is_listed(&KEYS, statement.first) {
            return Some(*statement);
        }
    }
    None
}

// The line of the first key of `feed` that is wrong.
fn wrong_of_feed<'t>(
    alloc: Global,
    document: &Table,
    statements: &[Statement<'t>],
) -> Result<Option<Statement<'t>>, AllocError> {
    let dimensions = texts_at(alloc, document, "dimensions")?;
    let measures = texts_at(alloc, document, "measures")?;
    if let Some(Value::Table(feed)) = document.get("feed") {
        for statement in statements {
            if is_in_table(statement, "feed")
                && is_wrong_in_feed(
                    feed,
                    statement.second,
                    statement.third,
                    &dimensions,
                    &measures,
                )
            {
                return Ok(Some(*statement));
            }
        }
    }
    Ok(top_statement(statements, "feed"))
}

// Whether a line gives a key of a table a value.
fn is_in_table(statement: &Statement, table: &str) -> bool {
    statement.first == table
        && !statement.second.is_empty()
        && !(statement.text.starts_with('[') && statement.second == "columns")
}

// The line of the first key of `decimals` that is wrong.
fn wrong_of_decimals<'t>(
    alloc: Global,
    document: &Table,
    statements: &[Statement<'t>],
) -> Result<Option<Statement<'t>>, AllocError> {
    let measures = texts_at(alloc, document, "measures")?;
    if let Some(Value::Table(decimals)) = document.get("decimals") {
        for statement in statements {
            let name = statement.second;
            let is_right = is_listed(&measures, name) && is_between(decimals.get(name), 0, 18);
            if is_in_table(statement, "decimals") && !is_right {
                return Ok(Some(*statement));
            }
        }
    }
    Ok(top_statement(statements, "decimals"))
}

// Tells the line of a fault, and what is wrong there.
fn tell_fault(
    alloc: Global,
    path: &str,
    statements: &[Statement<'_>],
    fault: &Fault<'_>,
    report: &mut Report,
) -> Result<(), AllocError> {
    match &fault.at {
        Some(statement) => {
            let number = decimal(alloc, statement.line)?;
            let text = shown(alloc, statement.text.as_bytes())?;
            report.line(&[path.as_bytes(), b", line ", &number, b": ", &text])?;
        }
        None => tell_missing(alloc, path, statements, fault.key, report)?,
    }
    if fault.words.is_empty() {
        Ok(())
    } else {
        report.line(&[&fault.words])
    }
}

// Tells that a schema has no such key at the top, and where it has one in a table.
fn tell_missing(
    alloc: Global,
    path: &str,
    statements: &[Statement<'_>],
    key: &str,
    report: &mut Report,
) -> Result<(), AllocError> {
    if key.is_empty() {
        return report.line(&[path.as_bytes()]);
    }
    for statement in statements {
        if statement.second == key {
            let number = decimal(alloc, statement.line)?;
            let name = with_value(alloc, key, b" stands under [")?;
            return report.line(&[
                path.as_bytes(),
                b", line ",
                &number,
                b": ",
                &name,
                statement.first.as_bytes(),
                b"]: write it above the first table",
            ]);
        }
    }
    report.line(&[path.as_bytes(), b": there is no key ", key.as_bytes()])
}
