//! Lines of comma-separated fields, gathered in memory.

ghost use Rattle.std.specs.Prelude.{◌≡◌, ℕ, List, [], ◌∷◌, OnOk, IfOk};
ghost use Rattle.cube_text.specs.Lines.{HoldsLine, AddsFields, EndsLine};

use csv::{Writer, WriterBuilder};
use std::alloc::{AllocError, Global};

/// A writer of lines into memory.
pub type Lines = Writer<Vec<u8>>;

/// No line yet.
pub fn no_lines(alloc: Global) -> Lines
    ensures { HoldsLine [] [] result }
{
    WriterBuilder::new().from_writer(Vec::new(alloc))
}

/// Adds a field to the line, in quotes where it needs them.
pub fn put_field(lines: &mut Lines, field: &[u8]) -> Result<(), AllocError>
    ensures { OnOk result (AddsFields (field.now ∷ []) lines.old lines.new) }
{
    lines.write_field(field).map_err(|_| AllocError)
}

/// Ends the line.
pub fn end_line(lines: &mut Lines) -> Result<(), AllocError>
    ensures { OnOk result (EndsLine lines.old lines.new) }
{
    lines.end_record().map_err(|_| AllocError)
}

/// The text of the lines.
pub fn into_text(lines: Lines) -> Result<Vec<u8>, AllocError>
    ensures { IfOk result (λ bytes. (text : List ℕ) → HoldsLine text [] lines → bytes.items ≡ text) }
{
    lines.into_inner().map_err(|_| AllocError)
}
