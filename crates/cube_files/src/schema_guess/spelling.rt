//! How texts are written in a schema, in what is said of columns, and as words of a shell.
use std::alloc::AllocError;

/// Writes a text as TOML's basic string.
pub(crate) fn push_quoted(out: &mut String, text: &str) -> Result<(), AllocError> {
    out.push('"')?;
    for character in text.chars() {
        push_escaped(out, character)?;
    }
    out.push('"')?;
    Ok(())
}

// Writes a character of a basic string: quotes, backslashes and control characters are escaped.
fn push_escaped(out: &mut String, character: char) -> Result<(), AllocError> {
    match character {
        '"' => out.push_str("\\\""),
        '\\' => out.push_str("\\\\"),
        '\n' => out.push_str("\\n"),
        '\r' => out.push_str("\\r"),
        '\t' => out.push_str("\\t"),
        _ if is_control(character) => write!(out, "\\u{:04x}", character as u32),
        _ => out.push(character),
    }
}

/// Writes a text as a key of TOML, bare where it may be.
pub(crate) fn push_key(out: &mut String, text: &str) -> Result<(), AllocError> {
    if is_bare_key(text) {
        out.push_str(text)
    } else {
        push_quoted(out, text)
    }
}

/// Writes a text for a person: as it is, or as a basic string where it is empty or has a control character.
pub(crate) fn push_shown(out: &mut String, text: &str) -> Result<(), AllocError> {
    if text.is_empty() || has_control(text) {
        push_quoted(out, text)
    } else {
        out.push_str(text)
    }
}

/// Writes an option with a column as its value, as the words of a shell.
pub(crate) fn push_option(out: &mut String, option: &str, name: &str) -> Result<(), AllocError> {
    out.push_str(option)?;
    if name.starts_with('-') {
        out.push('=')?;
    } else {
        out.push(' ')?;
    }
    if is_plain_word(name) {
        return out.push_str(name);
    }
    out.push('\'')?;
    let is_csv_quoted = is_csv_quoted(name);
    if is_csv_quoted {
        out.push('"')?;
    }
    for character in name.chars() {
        push_in_word(out, character)?;
    }
    if is_csv_quoted {
        out.push('"')?;
    }
    out.push('\'')?;
    Ok(())
}

// Writes a character of a field within single quotes of a shell.
fn push_in_word(out: &mut String, character: char) -> Result<(), AllocError> {
    match character {
        '"' => out.push_str("\"\""),
        '\'' => out.push_str("'\\''"),
        _ => out.push(character),
    }
}

/// Whether a text has a control character.
pub(crate) fn has_control(text: &str) -> bool {
    text.chars().any(|character| is_control(character))
}

fn is_control(character: char) -> bool {
    character < ' ' || character == '\u{7f}'
}

// Whether a text may be a key of TOML without quotes.
fn is_bare_key(text: &str) -> bool {
    !text.is_empty() && text.bytes().all(|byte| is_key_byte(byte))
}

fn is_key_byte(byte: u8) -> bool {
    byte.is_ascii_alphanumeric() || byte == b'_' || byte == b'-'
}

// Whether a text is a word of a shell without quotes, and a CSV record.
fn is_plain_word(text: &str) -> bool {
    !text.is_empty()
        && text
            .bytes()
            .all(|byte| is_key_byte(byte) || byte == b'.' || byte == b':')
}

// Whether a field of a CSV record needs quotes.
fn is_csv_quoted(text: &str) -> bool {
    text.is_empty() || text.bytes().any(|byte| byte == b'"' || byte == b',')
}
