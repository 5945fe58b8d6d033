//! The fields of a record, and what each of them spells.
ghost use Rattle.std.specs.Prelude.{◌≡◌, ◌≤◌, true, false, Some, None, [], List, ℕ, Option, IfOk, IfErr, IfSome, length, sum_by, slice_range, option_map, if◌then◌else◌};
ghost use Rattle.std.specs.Str.{bytes_eq, is_utf8, IsAscii};
ghost use Rattle.csv.specs.Records.{fields_of};
ghost use Rattle.cube_core.specs.Items.{field_at, number_of, is_null, keep_text, dimension_of, measure_of};
ghost use Rattle.cube_core.specs.Values.{parts_of};
ghost use Rattle.cube_core.specs.declared.partial.Field.TheVariants as field;
ghost use Rattle.cube_feed.specs.declared.field.Stop.TheVariants as stop;

use crate::contiguous::{begin_of, end_of};
use arrayvec::ArrayVec;
use csv::ByteRecord;
use cube_core::{Field, Text, VALUES_IN_PLACE};
use std::alloc::{AllocError, AllocFailed, Global};
use std::marker::Model;
use std::str;

/// Why reading a record stopped.
#[derive(Clone, Copy)]
pub(crate) enum Stop {
    /// A growth was refused.
    Memory,
    /// The record has a fault.
    Line,
}

impl From<AllocError> for Stop {
    ghost from_gives = { λ _ e. e ≡ stop.Memory };

    fn from(_error: AllocError) -> Stop {
        Stop::Memory
    }
}

impl<T: Drop> From<AllocFailed<T>> for Stop {
    ghost from_gives = { λ _ e. e ≡ stop.Memory };

    fn from(_error: AllocFailed<T>) -> Stop {
        Stop::Memory
    }
}

/// The fields of a record. Where all their bytes are ASCII, which is looked at once, each field is text.
#[derive(Drop)]
pub(crate) struct Fields<'r> {
    row: &'r ByteRecord,
    are_ascii: bool,
}

impl<'r> Model for Fields<'r> {
    ghost use Rattle.std.specs.Prelude.{◌≡◌, true, List, ℕ};
    ghost use Rattle.std.specs.Str.{IsAscii};
    ghost use Rattle.csv.specs.Records.{fields_of, text_of};

    ghost Value = { List (List ℕ) };

    ghost view = { λ f. fields_of f.row.now };

    ghost invariant = { λ f. f.are_ascii ≡ true → IsAscii (text_of f.row.now) };
}

/// The bytes of the field at a place of a record; empty past the last.
pub(crate) fn bytes_at(row: &ByteRecord, place: usize) -> &[u8]
    ensures { result.now ≡ field_at (fields_of row.now) place }
{
    match row.get(place) {
        Some(field) => field,
        None => &[],
    }
}

impl<'r> Fields<'r> {
    /// The fields of a record.
    #[inline]
    pub(crate) fn of(row: &'r ByteRecord) -> Fields<'r>
        ensures { result ≡ fields_of row.now }
    {
        let are_ascii = row.as_slice().is_ascii();
        Fields { row, are_ascii }
    }

    /// How many fields there are.
    pub(crate) fn len(&self) -> usize
        ensures { result ≡ length self.now }
    {
        self.row.len()
    }

    /// The bytes of the field at a place; empty past the last.
    pub(crate) fn bytes_at(&self, place: usize) -> &[u8]
        ensures { result.now ≡ field_at self.now place }
    {
        bytes_at(self.row, place)
    }

    /// The bytes of the fields from a place to another, which lie one after another, with the length of each in a list. None
    /// where a byte isn't ASCII, where a field up to the last of them is empty, or where they are more than the list takes.
    pub(crate) fn bytes_between(
        &self,
        start: usize,
        end: usize,
        lens: &mut ArrayVec<usize, VALUES_IN_PLACE>,
    ) -> Option<&[u8]>
        requires order { (start ≤ end) × (end ≤ length self.now) }
        requires empty { lens.old.items ≡ [] }
        ensures ascii { IfSome result (λ text. IsAscii text.now) }
        ensures whole { IfSome result (λ text. sum_by (λ len. len) lens.new.items ≡ length text.now) }
        ensures parts { IfSome result (λ text. parts_of lens.new.items text.now ≡ slice_range self.now start end) }
    {
        if !self.are_ascii {
            return None;
        }
        let begin = begin_of(self.row, start)?;
        let stop = end_of(self.row, begin, start, end, lens)?;
        Some(&self.row.as_slice()[begin..stop])
    }

    /// Whether the field at a place is UTF-8.
    pub(crate) fn is_text_at(&self, place: usize) -> bool
        ensures { result ≡ is_utf8 (field_at self.now place) }
    {
        if self.are_ascii {
            // Each field of a record of ASCII is UTF-8.
            return true;
        }
        is_text(self.bytes_at(place))
    }

    /// The text of the field at a place; the record is at fault where it isn't UTF-8.
    pub(crate) fn text_at(&self, place: usize) -> Result<&str, Stop>
        ensures text { IfOk result (λ text. text.now ≡ field_at self.now place) }
        ensures sound { IfOk result (λ _. is_utf8 (field_at self.now place) ≡ true) }
        ensures line { IfErr result (λ e.
            (e ≡ stop.Line) × (is_utf8 (field_at self.now place) ≡ false)) }
    {
        if self.is_text_at(place) {
            return Ok(unsafe { str::from_utf8_unchecked(self.bytes_at(place)) });
        }
        Err(Stop::Line)
    }
}

// Whether a field is UTF-8.
#[cold]
pub(crate) fn is_text(field: &[u8]) -> bool
    ensures { result ≡ is_utf8 field.now }
{
    match str::from_utf8(field) {
        Ok(_) => true,
        Err(_) => false,
    }
}

/// The number that a text spells: a sign or none, ASCII digits, and a value in the range of i64.
fn number(text: &str) -> Option<i64>
    ensures { result ≡ number_of text.now }
{
    text.parse::<i64>().ok()
}

/// Whether a text is null's.
pub(crate) fn is_null(text: &str) -> bool
    ensures { result ≡ is_null text.now }
{
    text == "\\N"
}

/// A value that the text of a field may spell.
pub(crate) trait Spelled: Drop {
    ghost spells: { List ℕ → Option Self };

    /// The value that a text spells; the record is at fault where it spells none.
    fn read(alloc: Global, text: &str) -> Result<Self, Stop>
        ensures value { IfOk result (λ value. Some value ≡ spells text.now) }
        ensures line { IfErr result (λ e. e ≡ stop.Line → None ≡ spells text.now) };
}

/// The value of a dimension: any text, or null.
impl Spelled for Option<Text> {
    ghost spells = { λ text. Some (dimension_of text) };

    fn read(alloc: Global, text: &str) -> Result<Option<Text>, Stop> {
        if is_null(text) {
            return Ok(None);
        }
        Ok(Some(Text::from_str(alloc, text)?))
    }
}

/// The value of a measure: a number, or null.
impl Spelled for Option<i64> {
    ghost spells = { measure_of };

    #[inline]
    fn read(alloc: Global, text: &str) -> Result<Option<i64>, Stop> {
        let _ = alloc;
        if is_null(text) {
            return Ok(None);
        }
        match number(text) {
            Some(value) => Ok(Some(value)),
            None => Err(Stop::Line),
        }
    }
}

/// A field of an amendment: a value, or that it keeps the old one.
impl<T: Spelled> Spelled for Field<T> {
    ghost spells = { λ text.
        if bytes_eq text keep_text then Some field.Keep else option_map field.Put (T.spells text) };

    fn read(alloc: Global, text: &str) -> Result<Field<T>, Stop> {
        if is_keep_text(text.as_bytes()) {
            return Ok(Field::Keep);
        }
        let value = T::read(alloc, text)?;
        Ok(Field::Put(value))
    }
}

/// Whether a field is the one by which a feed of version 2 keeps a value.
pub(crate) fn is_keep_text(field: &[u8]) -> bool
    ensures { result ≡ bytes_eq field.now keep_text }
{
    field == b"\\=".as_slice()
}
