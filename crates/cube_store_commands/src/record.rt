//! The text of a record.
ghost use Rattle.std.specs.Prelude.{◌≡◌, ◌++◌, ◌∷◌, [], IfOk};
ghost use Rattle.csv.specs.Records.{fields_of};
ghost use Rattle.csv.specs.Writing.{default_writer, row_text};
ghost use Rattle.cube_store_commands.specs.Records.{ReadsBack, record_text};

use csv::{ByteRecord, WriterBuilder};
use std::alloc::{AllocError, Global};

/// A record as the csv writer writes it, without its line end. The only error is that memory ran out.
pub fn text_of(alloc: Global, fields: &ByteRecord) -> Result<Vec<u8>, AllocError>
    ensures text { IfOk result (λ text. text.items ≡ record_text (fields_of fields.now)) }
    ensures back { IfOk result (λ text. ReadsBack (fields_of fields.now) text.items) }
{
    line_text(alloc, fields)
}

// A line without its line end.
fn line_text(alloc: Global, fields: &ByteRecord) -> Result<Vec<u8>, AllocError>
    ensures { IfOk result (λ text. text.items ≡ record_text (fields_of fields.now)) }
{
    let mut text = line_of(alloc, fields)?;
    let _line_end = text.pop();
    Ok(text)
}

// A record as the csv writer writes it.
fn line_of(alloc: Global, fields: &ByteRecord) -> Result<Vec<u8>, AllocError>
    ensures { IfOk result (λ line. line.items ≡ row_text default_writer (fields_of fields.now)) }
{
    let mut lines = WriterBuilder::new().from_writer(Vec::new(alloc));
    if lines.write_byte_record(fields).is_err() {
        return Err(AllocError);
    }
    match lines.into_inner() {
        Ok(line) => Ok(line),
        Err(_) => Err(AllocError),
    }
}
