//! Where a text of CSV stands in a record, and how many records end in it.
ghost use Rattle.std.specs.Prelude.{◌≡◌};
ghost use Rattle.csv.specs.declared.parser.State.{State};
ghost use Rattle.cube_console.specs.Ends.{IsAt, after_byte, after_open, after_plain, ends_in, is_line_end, state_after};

/// Where a text of CSV stands behind the bytes so far.
#[derive(Clone, Copy, PartialEq, Eq, Debug)]
pub(crate) enum Place {
    /// Before a record.
    Record,
    /// Before a field of a record.
    Field,
    /// In a field without quotes, or behind the quotes of one that goes on.
    Plain,
    /// In a quoted field.
    Quoted,
    /// Behind a quote in a quoted field.
    Quote,
}

/// Where a text stands behind bytes that follow a place, and how many records end in these bytes: as a reader of csv has it
/// that stands at that place.
pub(crate) fn records_in(place: Place, bytes: &[u8]) -> (Place, usize)
    ensures place { (s : State) → IsAt s place → IsAt (state_after s bytes.now) result.0 }
    ensures count { (s : State) → IsAt s place → result.1 ≡ ends_in s bytes.now }
{
    let mut now = place;
    let mut count = 0;
    for byte in bytes {
        let (next, ends) = after_byte(now, *byte);
        now = next;
        count += usize::from(ends);
    }
    (now, count)
}

// Where a text stands behind a byte at a place, and whether a record ends with it.
fn after_byte(place: Place, byte: u8) -> (Place, bool)
    ensures { result ≡ after_byte place byte }
{
    match place {
        Place::Record => {
            if is_line_end(byte) {
                (Place::Record, false)
            } else {
                after_open(byte)
            }
        }
        Place::Field => after_open(byte),
        Place::Plain => after_plain(byte),
        Place::Quoted => {
            if byte == b'"' {
                (Place::Quote, false)
            } else {
                (Place::Quoted, false)
            }
        }
        Place::Quote => after_open(byte),
    }
}

// The same of a byte that may be a quote that begins, or goes on with, a quoted field.
fn after_open(byte: u8) -> (Place, bool)
    ensures { result ≡ after_open byte }
{
    if byte == b'"' {
        (Place::Quoted, false)
    } else {
        after_plain(byte)
    }
}

// The same of a byte that is in no quotes and begins none.
fn after_plain(byte: u8) -> (Place, bool)
    ensures { result ≡ after_plain byte }
{
    if byte == b',' {
        (Place::Field, false)
    } else if is_line_end(byte) {
        (Place::Record, true)
    } else {
        (Place::Plain, false)
    }
}

// Whether a byte is one of a line's end.
pub(crate) fn is_line_end(byte: u8) -> bool
    ensures { result ≡ is_line_end byte }
{
    byte == b'\r' || byte == b'\n'
}
