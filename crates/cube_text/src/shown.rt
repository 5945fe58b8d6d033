//! What rows show of the texts of dimensions: each is put in quotes once, where it needs them, for all rows.
ghost use Rattle.std.specs.Prelude.{◌≡◌, ◌<◌, [], length, get_or, IfOk, IfSome};
ghost use Rattle.cube_core.specs.Text.{coord_text};
ghost use Rattle.cube_core.specs.declared.key.Coord.TheVariants as coord;
ghost use Rattle.cube_cells.specs.Codes.{Dictionaries, coords_at};
ghost use Rattle.cube_lines.specs.Parts.{part};
ghost use Rattle.cube_text.specs.Shown.{AreShown, IsShown};

use cube_cells::{FinestCells, KeyCodes, Numbers, SortedTexts};
use cube_lines::push_field;
use std::alloc::{AllocError, Global};

// The least code that stands for no text.
const NO_TEXT: u32 = 4_294_967_293;

/// What rows show of the texts of a dimension, each with a comma, by their codes.
#[derive(Drop)]
pub(crate) struct Shown {
    pub parts: Vec<Vec<u8>>,
}

/// What rows show of the texts of each dimension. The only error is that memory ran out.
pub(crate) fn all_shown<N: Numbers>(
    alloc: Global,
    cells: &FinestCells<N>,
) -> Result<Vec<Shown>, AllocError>
    ensures { IfOk result (λ shown. AreShown cells.now.dictionaries shown.items) }
{
    let mut shown = Vec::with_capacity(alloc, cells.dimensions())?;
    for dimension in 0..cells.dimensions() {
        shown.push(shown_texts(alloc, cells.texts(dimension))?)?;
    }
    Ok(shown)
}

// What rows show of these texts.
fn shown_texts(alloc: Global, texts: &SortedTexts) -> Result<Shown, AllocError>
    ensures { IfOk result (IsShown texts.now) }
{
    let mut parts = Vec::with_capacity(alloc, texts.len())?;
    for place in 0..texts.len() {
        parts.push(part_of(alloc, texts.text(place))?)?;
    }
    Ok(Shown { parts })
}

// What a row shows of a text, and a comma.
fn part_of(alloc: Global, text: &str) -> Result<Vec<u8>, AllocError>
    ensures { IfOk result (λ shown. shown.items ≡ part text.now) }
{
    let mut shown = Vec::new(alloc);
    push_field(&mut shown, text.as_bytes())?;
    Ok(shown)
}

/// What a row shows of the text of codes in a dimension, and a comma; `None` where the code is that of no text.
pub(crate) fn part_at<'s>(
    shown: &'s [Shown],
    codes: &KeyCodes,
    dimension: usize,
) -> Option<&'s [u8]>
    ensures { IfSome result (λ found. (dictionaries : Dictionaries) → AreShown dictionaries shown.now →
        dimension < length dictionaries →
        found.now ≡ part (coord_text (get_or (coords_at dictionaries codes.now.codes) dimension coord.All))) }
{
    if dimension >= codes.codes.len() || dimension >= shown.len() {
        return None;
    }
    let code = codes.codes[dimension];
    let parts = shown[dimension].parts.as_slice();
    if code >= NO_TEXT || code as usize >= parts.len() {
        return None;
    }
    let found = &parts[code as usize];
    Some(found.as_slice())
}
