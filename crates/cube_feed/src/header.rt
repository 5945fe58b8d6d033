//! The first record of a feed: the names of its columns.
ghost use Rattle.std.specs.Prelude.{◌≡◌, ◌≤◌, ◌+◌, ◌||◌, ◌++◌, IfOk, length, codes, slice_range};
ghost use Rattle.std.specs.Str.{bytes_eq};
ghost use Rattle.csv.specs.Records.{fields_of};
ghost use Rattle.cube_core.specs.Items.{are_names, byte_order_mark, is_header, same_fields};

use crate::arranged::arranged;
use crate::field::Fields;
use crate::line::width;
use csv::ByteRecord;
use cube_core::{Schema, Text};
use std::alloc::{AllocError, Global};

// Whether a field is `op`, which a byte order mark may precede.
fn is_first_name(field: &[u8]) -> bool
    ensures { result
        ≡ (bytes_eq field.now (codes "op") || bytes_eq field.now (byte_order_mark ++ codes "op")) }
{
    field == b"op".as_slice() || field == b"\xEF\xBB\xBFop".as_slice()
}

fn is_name(field: &[u8], name: &str) -> bool
    ensures { result ≡ bytes_eq field.now name.now }
{
    field == name.as_bytes()
}

// Whether the fields from a place on are these names.
fn are_names_from(fields: &Fields<'_>, start: usize, names: &[Text]) -> bool
    requires few { start + length names.now ≤ 16 }
    requires in_record { start + length names.now ≤ length fields.now }
    ensures { result
        ≡ same_fields (slice_range fields.now start (start + length names.now)) names.now }
{
    for (i, name) in names.iter().enumerate() {
        if !is_name(fields.bytes_at(start + i), name.as_str()) {
            return false;
        }
    }
    true
}

// Whether the fields of a record are the names of the columns, in the order of a plain record.
fn are_names(schema: &Schema, fields: &ByteRecord) -> bool
    ensures { result ≡ are_names schema.now (fields_of fields.now) }
{
    let spelled = Fields::of(fields);
    if spelled.len() != width(schema) {
        return false;
    }
    let first = is_first_name(spelled.bytes_at(0));
    let second = is_name(spelled.bytes_at(1), "id");
    let names = schema.dimensions();
    let dimensions = are_names_from(&spelled, 2, names);
    let measures = are_names_from(&spelled, 2 + names.len(), schema.measures());
    first & second & dimensions & measures
}

/// Whether a record is the header of a schema's feeds: `op`, which a byte order mark may precede, `id`, and the names
/// of the dimensions and then of all measures, among which the texts that are counted stand at their places. The only
/// error is that memory ran out.
pub fn is_header(alloc: Global, schema: &Schema, fields: &ByteRecord) -> Result<bool, AllocError>
    ensures { IfOk result (λ is. is ≡ is_header schema.now (fields_of fields.now)) }
{
    let mut room = ByteRecord::new(alloc);
    let fields = arranged(schema, fields, &mut room)?;
    Ok(are_names(schema, fields))
}
