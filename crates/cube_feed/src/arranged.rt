//! The fields of a record in the order of a plain one: the texts that are counted stand before the measures that are
//! numbers.
ghost use Rattle.std.specs.Prelude.{◌≡◌, ◌∷◌, [], IfOk, OnOk, drop, slice_range, if◌then◌else◌};
ghost use Rattle.csv.specs.Records.{fields_of, partial_of};
ghost use Rattle.cube_core.specs.GroupingSet.{is_among};
ghost use Rattle.cube_core.specs.Items.{arranged};
ghost use Rattle.cube_feed.specs.Arranged.{elements_of, is_of};
ghost use Rattle.cube_feed.specs.Columns.{Puts};

use crate::field::bytes_at;
use csv::ByteRecord;
use cube_core::Schema;
use std::alloc::AllocError;

/// What the measures in a column of a feed are.
#[derive(Clone, Copy)]
pub(crate) enum MeasureKind {
    /// A text, which is counted.
    Text,
    Number,
}

/// A record in the order of the schema with its fields in that of a plain one: itself, where no text is counted, else
/// the record in `room`, which is put in place of another. The only error is that memory ran out.
pub(crate) fn arranged<'r>(
    schema: &Schema,
    fields: &'r ByteRecord,
    room: &'r mut ByteRecord,
) -> Result<&'r ByteRecord, AllocError>
    ensures { IfOk result (λ row. fields_of row.now ≡ arranged schema.now (fields_of fields.now)) }
{
    let text_places = schema.text_places();
    if text_places.is_empty() {
        return Ok(fields);
    }
    let first = 2 + schema.number_of_dimensions();
    room.clear();
    put_fields(fields, 0, first, room)?;
    put_measures(fields, first, MeasureKind::Text, text_places, room)?;
    put_measures(fields, first, MeasureKind::Number, text_places, room)?;
    Ok(room)
}

/// Puts the fields of a record from a place to another behind those of a second one. The only error is that memory ran
/// out.
pub(crate) fn put_fields(
    fields: &ByteRecord,
    start: usize,
    end: usize,
    row: &mut ByteRecord,
) -> Result<(), AllocError>
    requires { partial_of row.old ≡ [] }
    ensures { OnOk result (Puts row.old (slice_range (fields_of fields.now) start end) row.new) }
{
    for place in start..end {
        let Some(field) = fields.get(place) else {
            break;
        };
        row.push_field(field)?;
    }
    Ok(())
}

// Puts the measures of a kind behind the fields of a second record, where the columns behind the dimensions begin at a
// place.
fn put_measures(
    fields: &ByteRecord,
    first: usize,
    kind: MeasureKind,
    text_places: &[usize],
    row: &mut ByteRecord,
) -> Result<(), AllocError>
    requires { partial_of row.old ≡ [] }
    ensures { OnOk result (Puts row.old
        (elements_of kind text_places.now 0 (drop first (fields_of fields.now))) row.new) }
{
    for place in first..fields.len() {
        let is_put = is_of(kind, place - first, text_places);
        put_if(is_put, bytes_at(fields, place), row)?;
    }
    Ok(())
}

// Whether the column at a place behind the dimensions has measures of a kind, where texts stand at these places.
fn is_of(kind: MeasureKind, place: usize, text_places: &[usize]) -> bool
    ensures { result ≡ is_of kind place text_places.now }
{
    match kind {
        MeasureKind::Text => is_among(place, text_places),
        MeasureKind::Number => !is_among(place, text_places),
    }
}

// Whether a place is one of these.
fn is_among(place: usize, places: &[usize]) -> bool
    ensures { result ≡ is_among place places.now }
{
    places.iter().any(|other| *other == place)
}

// Puts a field behind those of a record, or leaves it out.
fn put_if(is_put: bool, field: &[u8], row: &mut ByteRecord) -> Result<(), AllocError>
    requires { partial_of row.old ≡ [] }
    ensures { OnOk result (Puts row.old (if is_put then field.now ∷ [] else []) row.new) }
{
    if is_put {
        row.push_field(field)?;
    }
    Ok(())
}
