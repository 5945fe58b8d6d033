//! The lines of a file on which its records begin, told apart as the reader of CSV does.
use crate::wanted::delimiter_of;
use cube_core::Schema;
use std::io::Read;

/// How many bytes are read at a time.
const CHUNK: usize = 4096;

/// What may stand before the header.
const MARK: [u8; 3] = *b"\xEF\xBB\xBF";

/// On which lines records of a file begin.
#[derive(Clone, Copy, Debug)]
pub struct Lines {
    /// Whether the file could be read again.
    pub is_known: bool,
    /// The line on which the record that was asked for begins, from 1; 0 where there are fewer records.
    pub line: u64,
    /// How many data records there are.
    pub records: u64,
    /// The line on which the last record begins, which is the header where there is no other.
    pub last: u64,
    /// How many lines the last record has where the file ends within a quoted field, else 0.
    pub open: u64,
}

impl Lines {
    /// No lines, as of a file that can't be read again.
    pub fn none() -> Lines {
        Lines {
            is_known: false,
            line: 0,
            records: 0,
            last: 0,
            open: 0,
        }
    }

    /// Whether a quote in the last record is never closed, and what follows it was taken for a part of it.
    pub fn is_unclosed(&self) -> bool {
        self.open > 1
    }
}

/// What a byte stands behind.
#[derive(Clone, Copy, PartialEq, Eq, Debug)]
enum Place {
    /// The end of a record, or nothing: line ends are nothing here.
    Between,
    /// The byte between two fields.
    Begin,
    /// A part of a field that isn't in quotes, or no longer.
    Plain,
    /// A part of a field that is in quotes.
    Quoted,
    /// A quote in such a field, which closes it, or is the first of two.
    Quote,
}

/// How far a file was walked.
#[derive(Clone, Copy, Debug)]
struct Walk {
    delimiter: u8,
    /// How many records come before the one that is asked for, the header among them.
    before: u64,
    place: Place,
    /// How many records have begun.
    begun: u64,
    /// How many line ends there were.
    ends: u64,
    /// Whether the last byte was one.
    is_ended: bool,
    last: u64,
    line: u64,
}

/// On which lines records of a feed begin, among them the data record with a number, which is 0 for the header. What can't be
/// read ends the feed.
pub fn lines_of<R: Read + Drop>(schema: &Schema, reader: R, number: u64) -> Lines {
    let mut reader = reader;
    let mut walk = Walk {
        delimiter: delimiter_of(schema),
        before: number,
        place: Place::Between,
        begun: 0,
        ends: 0,
        is_ended: false,
        last: 0,
        line: 0,
    };
    let mut chunk = [0u8; CHUNK];
    let mut is_first = true;
    for _ in 0..u64::MAX {
        let count = match reader.read(&mut chunk) {
            Ok(count) => count,
            Err(_) => 0,
        };
        if count == 0 {
            break;
        }
        let bytes = chunk.get(..count).unwrap_or(b"");
        walk.take(if is_first { without_mark(bytes) } else { bytes });
        is_first = false;
    }
    drop(reader);
    walk.lines()
}

/// The bytes behind a byte order mark.
pub(crate) fn without_mark(bytes: &[u8]) -> &[u8] {
    match bytes.strip_prefix(&MARK) {
        Some(rest) => rest,
        None => bytes,
    }
}

impl Walk {
    // Walks over bytes.
    fn take(&mut self, bytes: &[u8]) {
        for byte in bytes {
            self.step(*byte);
        }
    }

    // Walks over a byte.
    fn step(&mut self, byte: u8) {
        if self.place == Place::Between && !is_end(byte) {
            self.begin();
        }
        self.place = behind(self.place, byte, self.delimiter);
        self.is_ended = byte == b'\n';
        if byte == b'\n' {
            self.ends = self.ends.saturating_add(1);
        }
    }

    // Begins a record.
    fn begin(&mut self) {
        self.last = self.ends.saturating_add(1);
        if self.begun == self.before {
            self.line = self.last;
        }
        self.begun = self.begun.saturating_add(1);
    }

    // What was found, at the end of the file.
    fn lines(&self) -> Lines {
        let all = self.ends.saturating_add(u64::from(!self.is_ended));
        let open = if self.place == Place::Quoted {
            all.saturating_sub(self.last).saturating_add(1)
        } else {
            0
        };
        Lines {
            is_known: true,
            line: self.line,
            records: self.begun.saturating_sub(1),
            last: self.last,
            open,
        }
    }
}

// What the byte behind a byte stands behind.
fn behind(place: Place, byte: u8, delimiter: u8) -> Place {
    match place {
        Place::Quoted => {
            if byte == b'"' {
                Place::Quote
            } else {
                Place::Quoted
            }
        }
        Place::Between | Place::Begin | Place::Quote if byte == b'"' => Place::Quoted,
        _ => behind_plain(byte, delimiter),
    }
}

// The same where no quote opens or closes.
fn behind_plain(byte: u8, delimiter: u8) -> Place {
    if byte == delimiter {
        Place::Begin
    } else if is_end(byte) {
        Place::Between
    } else {
        Place::Plain
    }
}

// Whether a byte ends a record.
fn is_end(byte: u8) -> bool {
    byte == b'\n' || byte == b'\r'
}
