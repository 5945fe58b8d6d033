//! The lines of a report, and the forms in which values stand in them.
use itoa::Buffer;
use std::alloc::{AllocError, Global};
use std::str;

/// How many bytes of a value are shown at most, but for those that end its last character.
const MOST_SHOWN: usize = 60;

/// The digits of bytes that are written as numbers.
const HEX: [u8; 16] = *b"0123456789abcdef";

/// Lines that say why a command failed, each indented by two spaces. The only error of each call is that memory ran out; then
/// what was said before still stands, and maybe a part of the line.
#[derive(Drop)]
pub struct Report {
    bytes: Vec<u8>,
}

impl Report {
    /// No lines.
    pub fn new(alloc: Global) -> Report {
        Report {
            bytes: Vec::new(alloc),
        }
    }

    /// The lines so far.
    pub fn as_bytes(&self) -> &[u8] {
        self.bytes.as_slice()
    }

    /// Adds a line of these pieces.
    pub fn line(&mut self, pieces: &[&[u8]]) -> Result<(), AllocError> {
        self.bytes.extend_from_slice(b"  ")?;
        for piece in pieces {
            self.bytes.extend_from_slice(piece)?;
        }
        self.bytes.push(b'\n')?;
        Ok(())
    }

    /// Adds these lines.
    pub fn lines(&mut self, lines: &[&str]) -> Result<(), AllocError> {
        for line in lines {
            self.line(&[line.as_bytes()])?;
        }
        Ok(())
    }
}

/// A value between quotes, as [`shown`] shows it. The only error is that memory ran out.
pub(crate) fn quoted(alloc: Global, value: &[u8]) -> Result<Vec<u8>, AllocError> {
    let inside = shown(alloc, value)?;
    let mut all = Vec::new(alloc);
    all.push(b'"')?;
    all.extend_from_slice(&inside)?;
    all.push(b'"')?;
    Ok(all)
}

/// A value as a person may look at it: its first 60 bytes, where a byte of control, and in what isn't UTF-8 each byte beyond
/// ASCII, is written as `\x` and two digits. The only error is that memory ran out.
pub(crate) fn shown(alloc: Global, value: &[u8]) -> Result<Vec<u8>, AllocError> {
    let is_text = is_plain(value);
    let mut shown = Vec::new(alloc);
    let mut count = 0usize;
    for byte in value {
        if count >= MOST_SHOWN && (!is_text || !is_inner(*byte)) {
            shown.extend_from_slice(b" ..")?;
            break;
        }
        put_byte(&mut shown, *byte, is_text)?;
        count = count.saturating_add(1);
    }
    Ok(shown)
}

// Adds a byte, or how it is written.
fn put_byte(shown: &mut Vec<u8>, byte: u8, is_text: bool) -> Result<(), AllocError> {
    if byte < 32 || byte == 127 || (byte >= 128 && !is_text) {
        shown.extend_from_slice(b"\\x")?;
        shown.push(hex_digit(byte / 16))?;
        shown.push(hex_digit(byte % 16))?;
        return Ok(());
    }
    shown.push(byte)?;
    Ok(())
}

// The digit of a number below 16.
fn hex_digit(number: u8) -> u8 {
    match HEX.get(number as usize) {
        Some(digit) => *digit,
        None => b'?',
    }
}

// Whether a byte goes on with a character of UTF-8.
fn is_inner(byte: u8) -> bool {
    128 <= byte && byte < 192
}

// Whether bytes are UTF-8 without the characters of control beyond ASCII, U+0080 to U+009F.
fn is_plain(value: &[u8]) -> bool {
    if str::from_utf8(value).is_err() {
        return false;
    }
    let mut before = 0u8;
    for byte in value {
        if before == 0xC2 && *byte < 0xA0 {
            return false;
        }
        before = *byte;
    }
    true
}

/// A number in digits. The only error is that memory ran out.
pub(crate) fn decimal(alloc: Global, number: u64) -> Result<Vec<u8>, AllocError> {
    let mut buffer = Buffer::new();
    Vec::from_slice(alloc, buffer.format(number).as_bytes())
}

/// A number with a comma before each three digits. The only error is that memory ran out.
pub(crate) fn grouped(alloc: Global, number: u64) -> Result<Vec<u8>, AllocError> {
    let mut buffer = Buffer::new();
    let digits = buffer.format(number).as_bytes();
    let mut text = Vec::new(alloc);
    let mut left = digits.len();
    for digit in digits {
        text.push(*digit)?;
        left = left.saturating_sub(1);
        if left > 0 && left % 3 == 0 {
            text.push(b',')?;
        }
    }
    Ok(text)
}

/// These texts with commas between them. The only error is that memory ran out.
pub(crate) fn with_commas(alloc: Global, texts: &[&[u8]]) -> Result<Vec<u8>, AllocError> {
    let mut all = Vec::new(alloc);
    let mut is_first = true;
    for text in texts {
        if !is_first {
            all.push(b',')?;
        }
        is_first = false;
        all.extend_from_slice(text)?;
    }
    Ok(all)
}
