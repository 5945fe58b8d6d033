//! Schemas that are made of the beginning of a file.
ghost use Rattle.std.specs.Prelude.{IfOk};
ghost use Rattle.std.specs.String.{string_bytes};
ghost use Rattle.cube_files.specs.SchemaGuess.{IsSchemaText};

use cube_files::{Asked, GuessFault, SAMPLE_BYTES, schema_text};
use std::alloc::Global;
use std::str;

// What the texts of two options ask for, where they are texts; nothing where one is empty.
fn asked_in<'w>(alloc: Global, by: &'w [u8], of: &'w [u8]) -> Result<Asked<'w>, GuessFault> {
    match (str::from_utf8(by), str::from_utf8(of)) {
        (Ok(by), Ok(of)) => Ok(Asked {
            by: unless_empty(by),
            of: unless_empty(of),
        }),
        _ => Err(GuessFault::NoColumns(String::from_str(alloc, "the columns aren't UTF-8")?)),
    }
}

fn unless_empty(text: &str) -> Option<&str> {
    if text.is_empty() { None } else { Some(text) }
}

/// The text of the schema of a file that begins with these bytes, of which no more are looked at than of any file; two
/// texts ask for its dimensions and measures.
pub(crate) fn made_schema(
    alloc: Global,
    start: &[u8],
    is_whole: bool,
    by: &[u8],
    of: &[u8],
) -> Result<String, GuessFault>
    ensures { IfOk result (λ text. IsSchemaText (string_bytes text)) }
{
    let asked = asked_in(alloc, by, of)?;
    match start.get(..SAMPLE_BYTES) {
        Some(sample) if sample.len() < start.len() => schema_text(alloc, sample, false, asked),
        _ => schema_text(alloc, start, is_whole, asked),
    }
}

/// What there is to say of a file of which no schema is made; nothing where there is no memory for it.
pub(crate) fn told_of_guess(alloc: Global, fault: GuessFault) -> String {
    let told = match fault {
        GuessFault::Memory => String::from_str(alloc, "S1"),
        GuessFault::NoColumns(what) => format!(in alloc; "no columns: {what}"),
    };
    match told {
        Ok(told) => told,
        Err(_) => String::new(alloc),
    }
}
