//! What a row shows of its key, field by field, and the end of its line, put at the end of a text.
ghost use Rattle.std.specs.Prelude.{◌≡◌, ◌≤◌, ◌∷◌, ◌++◌, [], ℕ, List, length, OnOk};
ghost use Rattle.cube_core.specs.Referred.{referred_coord};
ghost use Rattle.cube_core.specs.Text.{coord_text, grouping_text, line};
ghost use Rattle.cube_lines.specs.Parts.{AddsParts, parts};

use cube_core::CoordRef;
use cube_lines::{end_line, push_field};
use std::alloc::AllocError;

/// Puts what a row shows of a coordinate, and a comma.
pub(crate) fn push_coord(text: &mut Vec<u8>, coord: CoordRef<'_>) -> Result<(), AllocError>
    ensures { OnOk result (AddsParts (coord_text (referred_coord coord.entry) ∷ [])
        text.old.items text.new.items) }
{
    match coord {
        CoordRef::Text(name) => push_field(text, name.as_bytes()),
        CoordRef::Null | CoordRef::All => text.extend_from_slice(b"\\N,"),
    }
}

/// Puts what a row shows in the GROUPING column of a coordinate, and a comma.
pub(crate) fn push_grouping(text: &mut Vec<u8>, coord: CoordRef<'_>) -> Result<(), AllocError>
    ensures { OnOk result (AddsParts (grouping_text (referred_coord coord.entry) ∷ [])
        text.old.items text.new.items) }
{
    match coord {
        CoordRef::Text(_) | CoordRef::Null => text.extend_from_slice(b"0,"),
        CoordRef::All => text.extend_from_slice(b"1,"),
    }
}

/// Ends the line that begins at a place of a text, where a comma stands behind each of its fields.
pub(crate) fn close_line(text: &mut Vec<u8>, start: usize) -> Result<(), AllocError>
    requires { start ≤ length text.old.items }
    ensures { OnOk result ((before : List ℕ) (fields : List (List ℕ)) → length before ≡ start →
        text.old.items ≡ before ++ parts fields → text.new.items ≡ before ++ line fields) }
{
    if text.len() - start > 1 {
        return end_line(text);
    }
    text.truncate(start);
    text.extend_from_slice(b"\"\"\n")?;
    Ok(())
}
