//! The schema that reads a file by the names of its columns, made of the file's first bytes.
ghost use Rattle.std.specs.Prelude.{◌≡◌, ◌≤◌, IfOk};
ghost use Rattle.std.specs.String.{string_bytes, string_len};
ghost use Rattle.cube_files.specs.SchemaGuess.{IsSchemaText};

mod asked;
mod column;
mod delimiter;
mod document;
mod fault;
mod number;
mod plan;
mod sample;
mod spelling;

pub use asked::Asked;
use column::{Column, Naming, look_at};
use cube_core::{Schema, SchemaFault};
use delimiter::delimiter_of;
use document::{Described, text_of};
pub use fault::GuessFault;
use plan::plan_of;
use sample::{Sample, read_sample};
use std::alloc::{AllocError, Global};

/// How many bytes of a file are looked at, at most.
pub const SAMPLE_BYTES: usize = 16_777_216;

/// How long the text of a schema may be, in bytes.
const SCHEMA_LIMIT: usize = 1_048_576;

/// The text of a schema that reads a file by the names of its columns: a file that begins with these bytes, and that has no
/// others where it is whole. The dimensions and the measures are those that are asked for, and else guessed from the file's
/// first 10,000 records, or as many as end in the bytes (this project's choice; `docs/FORMATS.md` has the rules).
///
/// What it answers is the text of a schema. The error is what is wrong with the columns, or that memory ran out.
pub fn schema_text(
    alloc: Global,
    bytes: &[u8],
    is_whole: bool,
    asked: Asked,
) -> Result<String, GuessFault>
    ensures schema { IfOk result (λ text. IsSchemaText (string_bytes text)) }
    ensures limit { IfOk result (λ text. string_len text ≤ 1048576) }
{
    let delimiter = delimiter_of(bytes);
    let Some(sample) = read_sample(alloc, bytes, is_whole, delimiter)? else {
        return Err(told(alloc, "the file has no header")?);
    };
    let text = text_of_sample(alloc, &sample, delimiter, asked)?;
    accepted(alloc, text)
}

// The text of the schema of a file with these records.
fn text_of_sample(
    alloc: Global,
    sample: &Sample,
    delimiter: u8,
    asked: Asked,
) -> Result<String, GuessFault> {
    let columns = look_at(alloc, sample)?;
    let point = point_of(&columns, delimiter);
    let plan = plan_of(alloc, &sample.header, &columns, point, asked)?;
    let file = Described {
        header: &sample.header,
        columns: &columns,
        delimiter,
        point,
    };
    Ok(text_of(alloc, file, &plan)?)
}

// The point of a file's numbers: a comma where a column is of numbers under it and not under a full stop.
fn point_of(columns: &[Column], delimiter: u8) -> u8 {
    if delimiter != b',' && columns.iter().any(|column| is_under_comma(column)) {
        b','
    } else {
        b'.'
    }
}

fn is_under_comma(column: &Column) -> bool {
    column.naming == Naming::Own && column.comma_numbers.is_some() && column.numbers.is_none()
}

// A text, where the reader of schemas takes it.
fn accepted(alloc: Global, text: String) -> Result<String, GuessFault>
    ensures schema { IfOk result (λ same. IsSchemaText (string_bytes same)) }
    ensures limit { IfOk result (λ same. string_len same ≤ 1048576) }
{
    if text.len() > SCHEMA_LIMIT {
        return Err(told(alloc, "the schema would have more than 1048576 bytes")?);
    }
    match Schema::from_toml(alloc, text.as_bytes()) {
        Ok(schema) => {
            drop(schema);
            Ok(text)
        }
        Err(SchemaFault::Memory) => Err(GuessFault::Memory),
        Err(fault) => Err(refused(alloc, fault)?),
    }
}

// What there is to say of a schema that its reader refuses.
fn refused(alloc: Global, fault: SchemaFault) -> Result<GuessFault, AllocError> {
    let told = format!(in alloc; "the schema has the fault {fault}")?;
    Ok(GuessFault::NoColumns(told))
}

// What there is to say of columns that make no schema.
fn told(alloc: Global, what: &str) -> Result<GuessFault, AllocError> {
    Ok(GuessFault::NoColumns(String::from_str(alloc, what)?))
}
