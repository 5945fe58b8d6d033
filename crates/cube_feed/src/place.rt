//! Where the text of a feed stands behind a byte, as a reader of csv has it.
ghost use Rattle.std.specs.Prelude.{◌≡◌};
ghost use Rattle.cube_feed.specs.FeedBytes.{is_before_record, is_quoted, place_after, steps};
ghost use Rattle.cube_feed.specs.declared.place.Place.TheVariants as place;

/// Where the text of a feed stands behind the bytes so far.
#[derive(Clone, Copy)]
pub(crate) enum Place {
    /// Before the first byte, which may begin a byte order mark.
    Start,
    /// Behind the first byte of one.
    MarkBegun,
    /// Behind the second.
    MarkGoesOn,
    /// Behind the whole mark.
    Marked,
    /// Before a record.
    Record,
    /// Before a record, behind a CR, with which an LF goes.
    Cr,
    /// Before a field of a record.
    Field,
    /// In a field without quotes, or behind the quotes of one that goes on.
    Plain,
    /// In a quoted field.
    Quoted,
    /// Behind a quote in a quoted field.
    Quote,
}

impl Place {
    /// The place behind one more byte, where fields stand apart by `delimiter`.
    pub(crate) fn after(self, delimiter: u8, byte: u8) -> Place
        ensures { result ≡ place_after delimiter self byte }
    {
        match self {
            Place::Plain => after_plain(delimiter, byte),
            Place::Quoted => {
                if byte == b'"' {
                    Place::Quote
                } else {
                    Place::Quoted
                }
            }
            Place::Quote => {
                if byte == b'"' {
                    Place::Quoted
                } else {
                    after_plain(delimiter, byte)
                }
            }
            Place::Field => after_open(delimiter, byte),
            Place::Record | Place::Marked => before_record(delimiter, byte),
            Place::Cr => {
                if byte == b'\n' {
                    Place::Record
                } else {
                    before_record(delimiter, byte)
                }
            }
            Place::Start => {
                if byte == 0xEF {
                    Place::MarkBegun
                } else {
                    before_record(delimiter, byte)
                }
            }
            Place::MarkBegun => {
                if byte == 0xBB {
                    Place::MarkGoesOn
                } else {
                    after_plain(delimiter, byte)
                }
            }
            Place::MarkGoesOn => {
                if byte == 0xBF {
                    Place::Marked
                } else {
                    after_plain(delimiter, byte)
                }
            }
        }
    }

    /// Whether no byte of the next record was read.
    pub(crate) fn is_before_record(self) -> bool
        ensures { result ≡ is_before_record self }
    {
        match self {
            Place::Record | Place::Cr => true,
            _ => false,
        }
    }

    /// Whether it is within quotes.
    pub(crate) fn is_quoted(self) -> bool
        ensures { result ≡ is_quoted self }
    {
        match self {
            Place::Quoted => true,
            _ => false,
        }
    }
}

// The place behind a byte before which a record may begin: an empty line is none.
fn before_record(delimiter: u8, byte: u8) -> Place
    ensures { result ≡ steps delimiter place.Record byte }
{
    if byte == b'\r' || byte == b'\n' {
        Place::Record
    } else {
        after_open(delimiter, byte)
    }
}

// The place behind a byte that may begin a quoted field.
fn after_open(delimiter: u8, byte: u8) -> Place
    ensures { result ≡ steps delimiter place.Field byte }
{
    if byte == b'"' {
        Place::Quoted
    } else {
        after_plain(delimiter, byte)
    }
}

// The place behind a byte that is in no quotes and begins none.
fn after_plain(delimiter: u8, byte: u8) -> Place
    ensures { result ≡ steps delimiter place.Plain byte }
{
    if byte == delimiter {
        Place::Field
    } else if byte == b'\r' {
        Place::Cr
    } else if byte == b'\n' {
        Place::Record
    } else {
        Place::Plain
    }
}
