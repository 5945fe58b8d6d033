//! The fields of a record from a place on, the change that a record says, and whether it is read.
ghost use Rattle.std.specs.Prelude.{◌≡◌, drop, IfOk, OnOk};
ghost use Rattle.csv.specs.Records.{fields_of};
ghost use Rattle.cube_core.specs.FeedRecords.{change_in_order, is_read};

use crate::field::bytes_at;
use crate::plain::{PlainRecord, change_in_order};
use csv::ByteRecord;
use cube_core::{Change, LineFault, Schema};
use std::alloc::{AllocError, Global};

/// Puts the fields of a record from a place on in place of those of another. The only error is that memory ran out.
pub fn put_rest(fields: &ByteRecord, from: usize, rest: &mut ByteRecord) -> Result<(), AllocError>
    ensures { OnOk result (fields_of rest.new ≡ drop from (fields_of fields.now)) }
{
    rest.clear();
    for place in from..fields.len() {
        let Some(field) = fields.get(place) else {
            break;
        };
        rest.push_field(field)?;
    }
    Ok(())
}

/// The change that a record in the order of the schema spells, or its first fault. The only error is that memory ran out.
pub fn change_of_record(
    alloc: Global,
    schema: &Schema,
    fields: &ByteRecord,
) -> Result<Result<Change, LineFault>, AllocError>
    ensures { IfOk result (λ what. what ≡ change_in_order schema.now (fields_of fields.now)) }
{
    let mut plain = PlainRecord::new(alloc);
    change_in_order(alloc, schema, fields, &mut plain)
}

/// Whether a data record of a feed is in the schema's shard. Its id alone decides, whatever its faults: the empty text where
/// it has no second field.
pub fn is_read(schema: &Schema, fields: &ByteRecord) -> bool
    ensures { result ≡ is_read schema.now (fields_of fields.now) }
{
    schema.shard().has(bytes_at(fields, 1))
}
