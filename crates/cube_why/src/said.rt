//! What the line of a failure says: its code, and the numbers behind it.
use std::alloc::{AllocError, Global};

/// What the line of a failure says, as `G3 1 F3`: its code and the code behind it, if any, and the numbers that stand there.
#[derive(Clone, Copy, Debug)]
pub struct Said<'t> {
    /// The code; of words that are none the first one.
    pub code: &'t str,
    /// The code behind it, as `F3` of `G3 1 F3`.
    pub inner: Option<&'t str>,
    /// The first number, as the 1 of `G3 1 F3` or the 2 of `feed 2 unreadable`.
    pub first: Option<u64>,
    /// The number behind it.
    pub second: Option<u64>,
    /// The number behind that.
    pub third: Option<u64>,
}

impl<'t> Said<'t> {
    /// What a line says, with or without `datacube: ` before.
    pub fn of(line: &'t str) -> Said<'t> {
        let mut said = Said {
            code: "",
            inner: None,
            first: None,
            second: None,
            third: None,
        };
        for word in without_name(line).split_whitespace() {
            said = said.with(word);
        }
        said
    }

    /// The source or the cube that it names, if it does.
    pub fn source(&self) -> Option<u64> {
        match self.code {
            "G3" | "G7" | "feed" | "M2" | "M3" | "M4" | "M5" | "M6" | "M7" | "M8" => self.first,
            _ => None,
        }
    }

    /// Whether it says that a schema is refused, or can't be read.
    pub fn is_of_schema(&self) -> bool {
        self.code.starts_with('S') || self.code == "schema"
    }

    /// Whether it says that a word of the command line is refused.
    pub fn is_of_words(&self) -> bool {
        self.code.starts_with('P')
    }

    // The same, with one more word.
    fn with(self, word: &'t str) -> Said<'t> {
        if self.code.is_empty() {
            return Said { code: word, ..self };
        }
        match word.parse::<u64>() {
            Ok(number) => self.with_number(number),
            Err(_) if self.inner.is_none() => Said {
                inner: Some(word),
                ..self
            },
            Err(_) => self,
        }
    }

    // The same, with one more number.
    fn with_number(self, number: u64) -> Said<'t> {
        if self.first.is_none() {
            return Said {
                first: Some(number),
                ..self
            };
        }
        if self.second.is_none() {
            return Said {
                second: Some(number),
                ..self
            };
        }
        Said {
            third: Some(number),
            ..self
        }
    }
}

// A line without the name of the program before it.
fn without_name(line: &str) -> &str {
    match line.strip_prefix("datacube:") {
        Some(rest) => rest,
        None => line,
    }
}

/// The codes that words name, which a person may have copied from the line of a failure, with or without `datacube:` before:
/// of `G3 1 F3` `G3` and `F3`, of `feed 2 unreadable` `feed unreadable`, of `no columns: ..` `no columns`. Numbers behind the
/// first word are those of its message. The only error is that memory ran out.
pub fn code_words(alloc: Global, words: &[&str]) -> Result<Vec<String>, AllocError> {
    let mut codes = Vec::new(alloc);
    let line = joined(alloc, words)?;
    let mut phrase = String::new(alloc);
    for word in without_name(line.as_str()).split_whitespace() {
        if !phrase.is_empty() && word.parse::<u64>().is_ok() {
            continue;
        }
        if is_code(phrase.as_str()) {
            codes.push(phrase)?;
            phrase = String::new(alloc);
        }
        let ends = put_word(&mut phrase, word)?;
        if ends {
            break;
        }
    }
    codes.push(phrase)?;
    Ok(codes)
}

// Adds a word of a phrase, without the colon that ends it; whether one does.
fn put_word(phrase: &mut String, word: &str) -> Result<bool, AllocError> {
    if !phrase.is_empty() {
        phrase.push_str(" ")?;
    }
    match word.split_once(':') {
        Some((start, _)) => {
            phrase.push_str(start)?;
            Ok(true)
        }
        None => {
            phrase.push_str(word)?;
            Ok(false)
        }
    }
}

// These words with a space between them.
fn joined(alloc: Global, words: &[&str]) -> Result<String, AllocError> {
    let mut line = String::new(alloc);
    for word in words {
        if !line.is_empty() {
            line.push_str(" ")?;
        }
        line.push_str(word)?;
    }
    Ok(line)
}

// Whether a text is a letter and digits, as `S4`.
fn is_code(text: &str) -> bool {
    let bytes = text.as_bytes();
    match bytes.first() {
        Some(first) => first.is_ascii_uppercase() && bytes.len() > 1 && are_digits(bytes),
        None => false,
    }
}

// Whether all bytes behind the first are digits.
fn are_digits(bytes: &[u8]) -> bool {
    bytes.iter().skip(1).all(|byte| byte.is_ascii_digit())
}
