//! The lines of a schema on which its keys stand.
use std::alloc::{AllocError, Global};

/// A key of a schema, with the tables that it stands in, and the line on which it stands.
#[derive(Clone, Copy, Debug)]
pub(crate) struct Statement<'t> {
    /// The line, from 1.
    pub(crate) line: u64,
    /// What stands on it.
    pub(crate) text: &'t str,
    /// The key at the top, as `feed` of `null` under `[feed]`.
    pub(crate) first: &'t str,
    /// The key in that, as `null`; empty where there is none.
    pub(crate) second: &'t str,
    /// The key in that; empty where there is none.
    pub(crate) third: &'t str,
}

/// What is open at the end of a line: brackets, and a text that begins with a quote.
#[derive(Clone, Copy, Debug)]
struct Open {
    brackets: u64,
    /// The quote that closes the text; 0 where none is open.
    quote: u8,
    is_escaped: bool,
    is_comment: bool,
}

/// The keys of a schema in their order. The only error is that memory ran out.
pub(crate) fn statements_of(alloc: Global, text: &str) -> Result<Vec<Statement<'_>>, AllocError> {
    let mut all = Vec::new(alloc);
    let mut open = Open {
        brackets: 0,
        quote: 0,
        is_escaped: false,
        is_comment: false,
    };
    let mut table = 0usize;
    let mut number = 0u64;
    for line in text.lines() {
        number = number.saturating_add(1);
        let begin = line.trim();
        if !open.is_open() && !begin.is_empty() && !begin.starts_with('#') {
            let statement = statement_on(begin, number, statement_before(&all, table));
            all.push(statement)?;
            if begin.starts_with('[') {
                table = all.len();
            }
        }
        open.take(line);
    }
    Ok(all)
}

// The last one of the first so many.
fn statement_before<'t>(all: &[Statement<'t>], count: usize) -> Option<Statement<'t>> {
    match all.get(count.checked_sub(1)?) {
        Some(statement) => Some(*statement),
        None => None,
    }
}

// The statement on a line within a table, whose name stood on a line before.
fn statement_on<'t>(text: &'t str, line: u64, table: Option<Statement<'t>>) -> Statement<'t> {
    let (one, rest) = key_in(without_brackets(text));
    let (two, rest) = key_behind(rest);
    let (three, _) = key_behind(rest);
    match table {
        Some(table) if !text.starts_with('[') && table.second.is_empty() => Statement {
            line,
            text,
            first: table.first,
            second: one,
            third: two,
        },
        Some(table) if !text.starts_with('[') => Statement {
            line,
            text,
            first: table.first,
            second: table.second,
            third: one,
        },
        _ => Statement {
            line,
            text,
            first: one,
            second: two,
            third: three,
        },
    }
}

// A line without the brackets with which the name of a table begins.
fn without_brackets(text: &str) -> &str {
    match text.strip_prefix('[') {
        Some(rest) => rest.strip_prefix('[').unwrap_or(rest),
        None => text,
    }
}

// The key with which a text begins, without its quotes, and the rest.
fn key_in(text: &str) -> (&str, &str) {
    let text = text.trim_start();
    if let Some(inner) = text.strip_prefix('"') {
        return inner.split_once('"').unwrap_or((inner, ""));
    }
    if let Some(inner) = text.strip_prefix('\'') {
        return inner.split_once('\'').unwrap_or((inner, ""));
    }
    bare_key(text)
}

// The key without quotes with which a text begins, and the rest.
fn bare_key(text: &str) -> (&str, &str) {
    match text.as_bytes().iter().position(|byte| ends_key(*byte)) {
        Some(place) => (
            text.get(..place).unwrap_or(text),
            text.get(place..).unwrap_or(""),
        ),
        None => (text, ""),
    }
}

// Whether a byte ends a key without quotes.
fn ends_key(byte: u8) -> bool {
    matches!(byte, b' ' | b'\t' | b'.' | b'=' | b']')
}

// The key behind a point, if one stands there, and the rest.
fn key_behind(text: &str) -> (&str, &str) {
    match text.trim_start().strip_prefix('.') {
        Some(rest) => key_in(rest),
        None => ("", ""),
    }
}

impl Open {
    // Whether what follows goes on with what came before.
    fn is_open(&self) -> bool {
        self.brackets > 0 || self.quote != 0
    }

    // Goes over a line.
    fn take(&mut self, line: &str) {
        self.is_comment = false;
        self.is_escaped = false;
        for byte in line.as_bytes() {
            self.step(*byte);
        }
    }

    // Goes over a byte.
    fn step(&mut self, byte: u8) {
        if self.is_escaped || self.is_comment {
            self.is_escaped = false;
        } else if self.quote != 0 {
            self.step_in_text(byte);
        } else if byte == b'"' || byte == b'\'' {
            self.quote = byte;
        } else if byte == b'#' {
            self.is_comment = true;
        } else if byte == b'[' || byte == b'{' {
            self.brackets = self.brackets.saturating_add(1);
        } else if byte == b']' || byte == b'}' {
            self.brackets = self.brackets.saturating_sub(1);
        }
    }

    // Goes over a byte of a text.
    fn step_in_text(&mut self, byte: u8) {
        if byte == self.quote {
            self.quote = 0;
        } else if byte == b'\\' {
            self.is_escaped = self.quote == b'"';
        }
    }
}
