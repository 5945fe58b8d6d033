//! The byte that stands between the fields of a file.

/// The bytes that may stand between fields, of which the first goes before the others among equals.
const DELIMITERS: [u8; 4] = [b',', b';', b'\t', b'|'];

/// Where a byte of a header leaves the next one.
#[derive(Clone, Copy, PartialEq, Eq)]
enum Place {
    /// Before the header, where blank lines are nothing.
    Before,
    /// Where a field begins.
    FieldStart,
    /// Within a field without quotes, or behind its closing quote.
    Field,
    /// Within quotes.
    Quoted,
    /// Behind a quote that closes, or is the first of two.
    Quote,
    /// Behind the header.
    End,
}

/// The byte between the fields of a file that begins so: that of a comma, a semicolon, a tab and a bar that stands most often
/// in the header outside quotes, and of those that stand equally often the earlier one (this project's choice).
pub(crate) fn delimiter_of(bytes: &[u8]) -> u8 {
    let header = without_mark(bytes);
    let mut best = b',';
    let mut most = 0;
    for delimiter in DELIMITERS {
        let count = count_of(header, delimiter);
        if count > most {
            most = count;
            best = delimiter;
        }
    }
    best
}

// A text without the byte order mark that it may begin with.
fn without_mark(bytes: &[u8]) -> &[u8] {
    match bytes {
        [0xEF, 0xBB, 0xBF, rest @ ..] => rest,
        _ => bytes,
    }
}

// How often a byte stands between the fields of the header that a text begins with.
fn count_of(text: &[u8], wanted: u8) -> usize {
    let mut place = Place::Before;
    let mut count = 0usize;
    for byte in text {
        place = place_after(place, *byte);
        if place == Place::End {
            break;
        }
        if place == Place::FieldStart && *byte == wanted {
            count = count.saturating_add(1);
        }
    }
    count
}

// Where a byte leaves the next one.
fn place_after(place: Place, byte: u8) -> Place {
    match place {
        Place::Quoted => {
            if byte == b'"' {
                Place::Quote
            } else {
                Place::Quoted
            }
        }
        Place::Before | Place::FieldStart | Place::Quote if byte == b'"' => Place::Quoted,
        Place::Before if is_line_end(byte) => Place::Before,
        _ if is_line_end(byte) => Place::End,
        _ if is_delimiter(byte) => Place::FieldStart,
        _ => Place::Field,
    }
}

fn is_line_end(byte: u8) -> bool {
    byte == b'\r' || byte == b'\n'
}

fn is_delimiter(byte: u8) -> bool {
    matches!(byte, b',' | b';' | b'\t' | b'|')
}
