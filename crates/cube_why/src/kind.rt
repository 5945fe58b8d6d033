//! What kind of file begins with some bytes.

/// A kind of file that isn't read as CSV, by its first bytes.
#[derive(Clone, Copy, PartialEq, Eq, Debug)]
pub enum Kind {
    /// A file that gzip packed.
    Gzip,
    /// An archive, as spreadsheets are (.xlsx, .ods).
    Archive,
    /// A spreadsheet of the kind before that (.xls).
    OldSpreadsheet,
    /// A text in UTF-16.
    Utf16,
    /// None of these.
    Other,
}

impl Kind {
    /// The name of the kind, under which advice stands.
    pub fn name(self) -> &'static str {
        match self {
            Kind::Gzip => "gzip",
            Kind::Archive => "archive",
            Kind::OldSpreadsheet => "old spreadsheet",
            Kind::Utf16 => "UTF-16",
            Kind::Other => "",
        }
    }
}

/// The kind of a file that begins with these bytes, four where it has so many.
pub fn kind_of(begin: &[u8]) -> Kind {
    if begins_with(begin, b"\x1F\x8B") {
        return Kind::Gzip;
    }
    if begins_with(begin, b"PK\x03\x04") {
        return Kind::Archive;
    }
    if begins_with(begin, b"\xD0\xCF\x11\xE0") {
        return Kind::OldSpreadsheet;
    }
    if begins_with(begin, b"\xFF\xFE") || begins_with(begin, b"\xFE\xFF") {
        return Kind::Utf16;
    }
    Kind::Other
}

fn begins_with(bytes: &[u8], start: &[u8]) -> bool {
    match bytes.get(..start.len()) {
        Some(first) => first == start,
        None => false,
    }
}
